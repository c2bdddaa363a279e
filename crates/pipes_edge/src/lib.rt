//! The outside of a run: named files, sources, sinks and a gate, and the faults that each has
//! counted.
#![tactic(auto)]

ghost use Rattle.std.specs.Prelude.{◌≡◌, List, ℕ, Option, IfOk};
ghost use Rattle.std.specs.Io.{ReadsAtMost};
ghost use Rattle.std.specs.Io.KnownBytes.{ReadConsumes, WriteAppends};
ghost use Rattle.pipes_edge.specs.Causes.{Rose, HasCause, TakesSome};
ghost use Rattle.pipes_edge.specs.Outside.{Names, Finds, CountsSearch, FailsByName, NoneFalls};
ghost use Rattle.pipes_edge.specs.Outside.{IsFoundAs};

mod by_name;
mod host_files;
mod host_sink;
mod mem_files;
mod mem_sink;
mod mem_source;
mod sure_files;
mod unread;

pub use host_files::{HostFiles, HostSource};
pub use host_sink::HostSink;
pub use mem_files::MemFiles;
pub use mem_sink::MemSink;
pub use mem_source::MemSource;
use pipes_time::Memory;
use std::alloc::AllocError;
pub use sure_files::{SureFiles, SureSource};

/// A read or a write that failed.
#[derive(Clone, Copy, Debug, PartialEq, Eq)]
pub struct Failed;

/// Why a search found no source.
#[derive(Clone, Copy, Debug, PartialEq, Eq)]
pub enum FindFault {
    /// No file has the name.
    Missing,
    /// The search itself failed.
    Failed,
    /// Out of memory.
    Memory,
}

impl From<Memory> for FindFault {
    ghost use Rattle.std.specs.Prelude.{◌≡◌};
    ghost use Rattle.pipes_edge.specs.declared.FindFault.TheVariants as fault;

    ghost from_gives = { λ _ e. e ≡ fault.Memory };

    fn from(_: Memory) -> FindFault {
        FindFault::Memory
    }
}

impl From<AllocError> for FindFault {
    ghost use Rattle.std.specs.Prelude.{◌≡◌};
    ghost use Rattle.pipes_edge.specs.declared.FindFault.TheVariants as fault;

    ghost from_gives = { λ _ e. e ≡ fault.Memory };

    fn from(_: AllocError) -> FindFault {
        FindFault::Memory
    }
}

/// Where bytes come from.
pub trait Source {
    /// The bytes that are left, where the source tells them.
    ghost left: { Self → Option (List ℕ) };

    /// How often a read has failed, up to the greatest `u64`.
    ghost faults: { Self → ℕ };

    /// The name by which it was found.
    ghost name: { Self → List ℕ };

    /// The count of faults that it had then.
    ghost found_at: { Self → ℕ };

    /// Moves the next bytes into the start of the buffer and answers how many. 0 for a buffer that
    /// isn't empty is the end of the input; a read that failed moved nothing.
    fn read(&mut self, buf: &mut [u8]) -> Result<usize, Failed>
        ensures bound { ReadsAtMost result buf.new }
        ensures bytes { ReadConsumes (left self.old) (left self.new) result buf.new }
        ensures cause { HasCause (faults self.old) (faults self.new) result }
        ensures name { name self.new ≡ name self.old }
        ensures found_at { found_at self.new ≡ found_at self.old };
}

/// Where bytes go.
pub trait Sink {
    /// The bytes written, where the sink tells them.
    ghost written: { Self → Option (List ℕ) };

    /// How often a write has failed, up to the greatest `u64`.
    ghost faults: { Self → ℕ };

    /// Takes the first bytes of the piece and answers how many bytes that was; a write that failed
    /// took none.
    fn write(&mut self, bytes: &[u8]) -> Result<usize, Failed>
        ensures bound { TakesSome result bytes.now }
        ensures bytes { WriteAppends (written self.old) (written self.new) result bytes.now }
        ensures cause { HasCause (faults self.old) (faults self.new) result };
}

/// Named files.
pub trait Files {
    /// What a search finds.
    type Src: Source + Send + Drop;

    /// The names and their bytes, where they are known.
    ghost known: { Self → Option Names };

    /// How often, under each name, a search has failed or a source has come back with faults.
    ghost faults: { Self → List ℕ → ℕ };

    /// How often a search has failed.
    ghost failed_searches: { Self → ℕ };

    /// The names whose count is kept.
    ghost keeps: { Self → List ℕ → Type 0 };

    /// A source over the file with this name, from its first byte on.
    fn find_src(&mut self, name: &str) -> Result<Self::Src, FindFault>
        ensures known { known self.new ≡ known self.old }
        ensures answer { Finds Self.Src.left (known self.old) name.now result }
        ensures found { IfOk result (IsFoundAs Self.Src.name Self.Src.found_at Self.Src.faults
            (keeps self.new) name.now) }
        ensures keeps { (n : List ℕ) → keeps self.old n → keeps self.new n }
        ensures later { NoneFalls (faults self.old) (faults self.new) }
        ensures cause { FailsByName result (faults self.old name.now) (faults self.new name.now) }
        ensures searches { CountsSearch result (failed_searches self.old)
            (failed_searches self.new) };

    /// Takes a source back, and counts under its name whether it has had faults since it was found.
    fn retire(&mut self, src: Self::Src)
        requires { keeps self.old (Self.Src.name src) }
        ensures known { known self.new ≡ known self.old }
        ensures keeps { (n : List ℕ) → keeps self.old n → keeps self.new n }
        ensures later { NoneFalls (faults self.old) (faults self.new) }
        ensures rose { Rose (Self.Src.found_at src) (Self.Src.faults src)
            → Rose (faults self.old (Self.Src.name src)) (faults self.new (Self.Src.name src)) }
        ensures searches { failed_searches self.new ≡ failed_searches self.old };
}

/// Called as each turn of a node begins, with the node's place.
pub trait Gate: Sync {
    fn pass(&self, place: u32);
}

/// A gate that does nothing.
#[derive(Clone, Copy, Debug)]
pub struct NoGate;

impl Gate for NoGate {
    fn pass(&self, _place: u32) {}
}
