// Lines that are written in pieces, without memory.
ghost use Rattle.std.specs.Prelude.{◌≡◌, map, OnOk, OnErr};
ghost use Rattle.std.specs.Io.KnownBytes.{Appends};
ghost use Rattle.pipes_edge.specs.Causes.{HasCause};
ghost use Rattle.pipes_buffer.specs.Pieces.{AppendsPrefix};
ghost use Rattle.pipes_error.specs.Fault.{line_of_parts};
ghost use Rattle.pipes_error.specs.Pieces.{after_space, piece_text, spaced};

use crate::name::write_name;
use itoa::Buffer;
use pipes_buffer::write_all;
use pipes_edge::{Failed, Sink};

/// A piece of a line.
#[derive(Clone, Copy, Debug)]
pub(crate) enum Piece<'a> {
    /// These bytes.
    Plain(&'a [u8]),
    /// A name, between quotes.
    Name(&'a [u8]),
    /// A number, in decimal.
    Number(u64),
}

/// Writes a line of pieces.
pub(crate) fn write_line<K: Sink>(err: &mut K, pieces: &[Piece<'_>]) -> Result<(), Failed>
    ensures ok { OnOk result (Appends (K.written err.old) (K.written err.new)
        (line_of_parts (map piece_text pieces.now))) }
    ensures prefix { OnErr result (AppendsPrefix (K.written err.old) (K.written err.new)
        (line_of_parts (map piece_text pieces.now))) }
    ensures cause { HasCause (K.faults err.old) (K.faults err.new) result }
{
    write_all(err, b"pipes:")?;
    write_spaced(err, pieces)?;
    write_all(err, b"\n")
}

// Writes each piece after a space. A line has few pieces, so the calls are nested few deep.
fn write_spaced<K: Sink>(err: &mut K, pieces: &[Piece<'_>]) -> Result<(), Failed>
    ensures ok { OnOk result (Appends (K.written err.old) (K.written err.new) (spaced pieces.now)) }
    ensures prefix { OnErr result (AppendsPrefix (K.written err.old) (K.written err.new)
        (spaced pieces.now)) }
    ensures cause { HasCause (K.faults err.old) (K.faults err.new) result }
{
    match pieces {
        [] => Ok(()),
        [piece, others @ ..] => {
            write_after_space(err, piece)?;
            write_spaced(err, others)
        }
    }
}

fn write_after_space<K: Sink>(err: &mut K, piece: &Piece<'_>) -> Result<(), Failed>
    ensures ok { OnOk result (Appends (K.written err.old) (K.written err.new)
        (after_space piece.now)) }
    ensures prefix { OnErr result (AppendsPrefix (K.written err.old) (K.written err.new)
        (after_space piece.now)) }
    ensures cause { HasCause (K.faults err.old) (K.faults err.new) result }
{
    write_all(err, b" ")?;
    write_piece(err, piece)
}

fn write_piece<K: Sink>(err: &mut K, piece: &Piece<'_>) -> Result<(), Failed>
    ensures ok { OnOk result (Appends (K.written err.old) (K.written err.new)
        (piece_text piece.now)) }
    ensures prefix { OnErr result (AppendsPrefix (K.written err.old) (K.written err.new)
        (piece_text piece.now)) }
    ensures cause { HasCause (K.faults err.old) (K.faults err.new) result }
{
    match piece {
        Piece::Plain(text) => write_all(err, text),
        Piece::Name(name) => write_name(err, name),
        Piece::Number(number) => write_all(err, Buffer::new().format(*number).as_bytes()),
    }
}
