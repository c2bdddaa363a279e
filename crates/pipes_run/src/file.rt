// Whole files.
ghost use Rattle.std.specs.Prelude.{◌≡◌, ◌<◌, ◌≤◌, None, Some, IfOk, IsErrOf, length};
ghost use Rattle.pipes_edge.specs.Causes.{Rose};
ghost use Rattle.pipes_edge.specs.Outside.{Names, NoneFalls};
ghost use Rattle.pipes_run.specs.Seen.{ReadsFile, word_fault_of};
ghost use Rattle.pipes_error.specs.Fault.{fault_seen};

use pipes_buffer::{IoFault, read_up_to};
use pipes_edge::{Files, FindFault};
use pipes_error::{Fault, FileName};
use std::alloc::Global;

/// Why a file gives nothing.
#[derive(Clone, Copy, Debug, PartialEq, Eq)]
pub(crate) enum FileFault {
    Missing,
    Failed,
    Memory,
}

impl FileFault {
    /// The fault of the file that a word names.
    pub(crate) fn of_word(self, name: &str) -> Fault<'_>
        ensures { fault_seen result ≡ word_fault_of name.now self }
    {
        match self {
            FileFault::Missing => Fault::Missing(FileName::Word(name)),
            FileFault::Failed => Fault::ReadFile(FileName::Word(name)),
            FileFault::Memory => Fault::Memory,
        }
    }
}

/// Reads the file with the name to its end, or until it has given more bytes than the limit.
pub(crate) fn read_file<F: Files>(
    alloc: Global,
    files: &mut F,
    name: &str,
    limit: usize,
    buffer: &mut [u8],
) -> Result<Vec<u8>, FileFault>
    requires { 0 < length buffer.old }
    ensures known { F.known files.new ≡ F.known files.old }
    ensures later { NoneFalls (F.faults files.old) (F.faults files.new) }
    ensures searches { F.failed_searches files.old ≤ F.failed_searches files.new }
    ensures cause { IsErrOf result FileFault.Failed → Rose (F.faults files.old name.now)
        (F.faults files.new name.now) }
    ensures missing { (named : Names) → F.known files.old ≡ Some named
        → IsErrOf result FileFault.Missing → named name.now ≡ None }
    ensures bytes { (named : Names) → F.known files.old ≡ Some named
        → IfOk result (λ bytes. ReadsFile limit (named name.now) bytes.items) }
{
    let mut src = match files.find_src(name) {
        Ok(src) => src,
        Err(FindFault::Missing) => return Err(FileFault::Missing),
        Err(FindFault::Failed) => return Err(FileFault::Failed),
        Err(FindFault::Memory) => return Err(FileFault::Memory),
    };
    let read = read_up_to(alloc, &mut src, limit, buffer);
    files.retire(src);
    match read {
        Ok(bytes) => Ok(bytes),
        Err(IoFault::Failed) => Err(FileFault::Failed),
        Err(IoFault::Memory) => Err(FileFault::Memory),
    }
}
