// Names between quotes, written without memory.
ghost use Rattle.std.specs.Prelude.{◌++◌, OnOk, OnErr};
ghost use Rattle.std.specs.Io.KnownBytes.{Appends};
ghost use Rattle.pipes_edge.specs.Causes.{HasCause};
ghost use Rattle.pipes_tuple.specs.Texts.{escaped, quoted};
ghost use Rattle.pipes_buffer.specs.Pieces.{AppendsPrefix};

use pipes_buffer::write_all;
use pipes_edge::{Failed, Sink};
use pipes_tuple::first_escape;

/// Writes the name between quotes, spelled out.
pub(crate) fn write_name<K: Sink>(err: &mut K, name: &[u8]) -> Result<(), Failed>
    ensures ok { OnOk result (Appends (K.written err.old) (K.written err.new) (quoted name.now)) }
    ensures prefix { OnErr result (AppendsPrefix (K.written err.old) (K.written err.new)
        (quoted name.now)) }
    ensures cause { HasCause (K.faults err.old) (K.faults err.new) result }
{
    write_all(err, b"\"")?;
    write_escaped(err, name)?;
    write_all(err, b"\"")
}

fn write_both<K: Sink>(err: &mut K, first: &[u8], second: &[u8]) -> Result<(), Failed>
    ensures ok { OnOk result (Appends (K.written err.old) (K.written err.new)
        (first.now ++ second.now)) }
    ensures prefix { OnErr result (AppendsPrefix (K.written err.old) (K.written err.new)
        (first.now ++ second.now)) }
    ensures cause { HasCause (K.faults err.old) (K.faults err.new) result }
{
    write_all(err, first)?;
    write_all(err, second)
}

// Writes the name spelled out, the bytes that stand for themselves in one piece.
fn write_escaped<K: Sink>(err: &mut K, name: &[u8]) -> Result<(), Failed>
    ensures ok { OnOk result (Appends (K.written err.old) (K.written err.new) (escaped name.now)) }
    ensures prefix { OnErr result (AppendsPrefix (K.written err.old) (K.written err.new)
        (escaped name.now)) }
    ensures cause { HasCause (K.faults err.old) (K.faults err.new) result }
{
    let mut rest = name;
    'runs: while let Some((plain, escape, others)) = first_escape(rest) {
        write_both(err, plain, escape)?;
        rest = others;
    }
    write_all(err, rest)
}
