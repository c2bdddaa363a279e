// The lines of an answer.
ghost use Rattle.std.specs.Prelude.{◌≡◌, ◌≤◌, ◌++◌, OnOk, OnErr, IsErrOf};
ghost use Rattle.std.specs.Io.KnownBytes.{Appends};
ghost use Rattle.pipes_edge.specs.Causes.{Rose};
ghost use Rattle.pipes_buffer.specs.Pieces.{AppendsPrefix};
ghost use Rattle.pipes_answer.specs.Lines.{tuple_line, tuple_lines};

use pipes_buffer::{IoFault, write_all, write_if_full};
use pipes_edge::Sink;
use pipes_output::push_fields;
use pipes_time::Memory;
use pipes_tuple::{Tuple, append};
use std::alloc::Global;

/// Writes a line for each tuple: the texts of its values, separated by one space.
pub fn write_tuples<K: Sink>(alloc: Global, tuples: &[Tuple], out: &mut K) -> Result<(), IoFault>
    ensures ok { OnOk result (Appends (K.written out.old) (K.written out.new)
        (tuple_lines tuples.now)) }
    ensures prefix { OnErr result (AppendsPrefix (K.written out.old) (K.written out.new)
        (tuple_lines tuples.now)) }
    ensures later { K.faults out.old ≤ K.faults out.new }
    ensures cause { IsErrOf result IoFault.Failed → Rose (K.faults out.old) (K.faults out.new) }
{
    let mut text = Vec::new(alloc);
    'tuples: for tuple in tuples {
        push_line(&mut text, tuple)?;
        write_if_full(out, &mut text)?;
    }
    write_all(out, text.as_slice())?;
    Ok(())
}

fn push_line(text: &mut Vec<u8>, tuple: &Tuple) -> Result<(), Memory>
    ensures { OnOk result (text.new.items ≡ text.old.items ++ tuple_line tuple.now) }
{
    match tuple.as_slice() {
        [] => {}
        [first, others @ ..] => {
            first.print(text)?;
            push_fields(others, text)?;
        }
    }
    append(b"\n", text)
}
