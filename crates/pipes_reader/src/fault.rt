// Why tokens are not read.
ghost use Rattle.std.specs.Prelude.{◌≡◌};

use pipes_time::Memory;
use pipes_token::Refusal;
use std::alloc::{AllocError, AllocFailed};
use thiserror::Error;

/// Why tokens are not read.
#[derive(Clone, Copy, Debug, PartialEq, Eq, Error)]
pub enum ParseFault {
    /// The text is refused.
    #[error("byte {}: {:?}", .0.at, .0.why)]
    Refused(Refusal),
    /// Memory was refused.
    #[error("out of memory")]
    Memory,
}

impl From<Memory> for ParseFault {
    ghost use Rattle.pipes_reader.specs.declared.fault.ParseFault.TheVariants.{
      Memory as
          WantOfMemory,
    };
    ghost use Rattle.std.specs.Prelude.{◌≡◌};

    ghost from_gives = { λ _ fault. fault ≡ WantOfMemory };

    fn from(_: Memory) -> ParseFault {
        ParseFault::Memory
    }
}

impl From<AllocError> for ParseFault {
    ghost use Rattle.pipes_reader.specs.declared.fault.ParseFault.TheVariants.{
      Memory as
          WantOfMemory,
    };
    ghost use Rattle.std.specs.Prelude.{◌≡◌};

    ghost from_gives = { λ _ fault. fault ≡ WantOfMemory };

    fn from(_: AllocError) -> ParseFault {
        ParseFault::Memory
    }
}

impl<T: Drop> From<AllocFailed<T>> for ParseFault {
    ghost use Rattle.pipes_reader.specs.declared.fault.ParseFault.TheVariants.{
      Memory as
          WantOfMemory,
    };
    ghost use Rattle.std.specs.Prelude.{◌≡◌};

    ghost from_gives = { λ _ fault. fault ≡ WantOfMemory };

    fn from(_: AllocFailed<T>) -> ParseFault {
        ParseFault::Memory
    }
}
