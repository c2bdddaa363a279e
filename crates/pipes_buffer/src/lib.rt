//! Reads of whole files and writes of whole texts, piece by piece through one buffer.
#![tactic(auto)]

ghost use Rattle.std.specs.Prelude.{◌≡◌, ◌≤◌, ◌<◌, ◌++◌, Some, List, ℕ, OnOk, OnErr, IfOk, IsErrOf};
ghost use Rattle.std.specs.Prelude.{length};
ghost use Rattle.std.specs.Io.KnownBytes.{Appends};
ghost use Rattle.pipes_edge.specs.Causes.{Rose, HasCause};
ghost use Rattle.pipes_buffer.specs.Pieces.{AppendsPrefix, AppendsShort, PassesOn, ReadsUpTo};
ghost use Rattle.pipes_buffer.specs.declared.IoFault.TheVariants as faults;

use pipes_edge::{Failed, Sink, Source};
use pipes_time::Memory;
use pipes_tuple::append;
use std::alloc::Global;

/// How many bytes a read asks for, and how many wait before they are written.
pub const BUFFER: usize = 65_536;

/// Why a whole read or a whole write was not done.
#[derive(Clone, Copy, Debug, PartialEq, Eq)]
pub enum IoFault {
    /// A read or a write failed.
    Failed,
    /// Out of memory.
    Memory,
}

impl From<Failed> for IoFault {
    ghost from_gives = { λ _ e. e ≡ faults.Failed };

    fn from(_: Failed) -> IoFault {
        IoFault::Failed
    }
}

impl From<Memory> for IoFault {
    ghost from_gives = { λ _ e. e ≡ faults.Memory };

    fn from(_: Memory) -> IoFault {
        IoFault::Memory
    }
}

/// Reads the source to its end, or until it has given more bytes than the limit: these are then the
/// first of the file.
pub fn read_up_to<S: Source>(
    alloc: Global,
    src: &mut S,
    limit: usize,
    buffer: &mut [u8],
) -> Result<Vec<u8>, IoFault>
    requires { 0 < length buffer.old }
    ensures bytes { (file : List ℕ) → S.left src.old ≡ Some file
        → IfOk result (λ bytes. ReadsUpTo limit file bytes.items) }
    ensures later { S.faults src.old ≤ S.faults src.new }
    ensures cause { IsErrOf result IoFault.Failed → Rose (S.faults src.old) (S.faults src.new) }
    ensures name { S.name src.new ≡ S.name src.old }
    ensures found_at { S.found_at src.new ≡ S.found_at src.old }
{
    let mut bytes = Vec::new(alloc);
    'reads: while bytes.len() <= limit {
        let count = src.read(buffer)?;
        if count == 0 {
            return Ok(bytes);
        }
        append(&buffer[..count], &mut bytes)?;
    }
    Ok(bytes)
}

/// Writes all bytes, unless a write fails.
pub fn write_all<K: Sink>(out: &mut K, bytes: &[u8]) -> Result<(), Failed>
    ensures ok { OnOk result (Appends (K.written out.old) (K.written out.new) bytes.now) }
    ensures err { OnErr result (AppendsPrefix (K.written out.old) (K.written out.new) bytes.now) }
    ensures short { OnErr result (AppendsShort (K.written out.old) (K.written out.new) bytes.now) }
    ensures cause { HasCause (K.faults out.old) (K.faults out.new) result }
{
    let mut place = 0;
    'pieces: while place < bytes.len() {
        place += out.write(&bytes[place..])?;
    }
    Ok(())
}

/// Writes the text once it fills a buffer, and keeps it else, so that less than a buffer is kept.
pub fn write_if_full<K: Sink>(out: &mut K, text: &mut Vec<u8>) -> Result<(), Failed>
    ensures ok { OnOk result (PassesOn (K.written out.old) (K.written out.new) text.old.items
        text.new.items) }
    ensures less { OnOk result (length text.new.items < BUFFER) }
    ensures prefix { OnErr result (AppendsPrefix (K.written out.old) (K.written out.new)
        text.old.items) }
    ensures short { OnErr result (AppendsShort (K.written out.old) (K.written out.new)
        text.old.items) }
    ensures cause { HasCause (K.faults out.old) (K.faults out.new) result }
{
    if text.len() < BUFFER {
        return Ok(());
    }
    write_all(out, text.as_slice())?;
    text.clear();
    Ok(())
}
