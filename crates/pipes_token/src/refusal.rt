// Why a text is refused, and where.
ghost use Rattle.std.specs.Prelude.{◌≡◌};

use pipes_time::Memory;
use std::alloc::{AllocError, AllocFailed};
use thiserror::Error;

/// Why a text is refused.
#[derive(Clone, Copy, Debug, PartialEq, Eq)]
pub enum TextWhy {
    /// A byte that begins no token, or that a string can't have.
    Byte,
    /// A token that the grammar doesn't allow here.
    Token,
    /// The text ends where more is needed.
    Ended,
    /// A name that isn't declared, or is declared twice.
    Name,
    /// A number outside what its place allows.
    Range,
    /// A plan or an expression nested too deep.
    Deep,
    /// One more of a list than its limit.
    Many,
    /// A word, a string or a text that is too long.
    Long,
    /// A command that the script's mode doesn't have.
    Mode,
}

/// A refusal at a place, which is counted in bytes from the start of the text.
#[derive(Clone, Copy, Debug, PartialEq, Eq)]
pub struct Refusal {
    /// The place.
    pub at: usize,
    /// Why the text is refused there.
    pub why: TextWhy,
}

/// A refusal with its place known by line and column.
#[derive(Clone, Copy, Debug, PartialEq, Eq)]
pub struct TextRefusal {
    /// The line, from 1. Lines end at line feeds.
    pub line: u32,
    /// The column, in bytes, from 1.
    pub column: u32,
    /// Why the text is refused there.
    pub why: TextWhy,
}

/// Why a text isn't read.
#[derive(Clone, Copy, Debug, PartialEq, Eq, Error)]
pub enum ReadFault {
    /// The text is refused.
    #[error("line {} column {}: {:?}", .0.line, .0.column, .0.why)]
    Text(TextRefusal),
    /// Memory was refused.
    #[error("out of memory")]
    Memory,
}

impl From<Memory> for ReadFault {
    ghost use Rattle.pipes_token.specs.declared.refusal.ReadFault.TheVariants.{
      Memory as
          WantOfMemory,
    };
    ghost use Rattle.std.specs.Prelude.{◌≡◌};

    ghost from_gives = { λ _ fault. fault ≡ WantOfMemory };

    fn from(_: Memory) -> ReadFault {
        ReadFault::Memory
    }
}

impl From<AllocError> for ReadFault {
    ghost use Rattle.pipes_token.specs.declared.refusal.ReadFault.TheVariants.{
      Memory as
          WantOfMemory,
    };
    ghost use Rattle.std.specs.Prelude.{◌≡◌};

    ghost from_gives = { λ _ fault. fault ≡ WantOfMemory };

    fn from(_: AllocError) -> ReadFault {
        ReadFault::Memory
    }
}

impl<T: Drop> From<AllocFailed<T>> for ReadFault {
    ghost use Rattle.pipes_token.specs.declared.refusal.ReadFault.TheVariants.{
      Memory as
          WantOfMemory,
    };
    ghost use Rattle.std.specs.Prelude.{◌≡◌};

    ghost from_gives = { λ _ fault. fault ≡ WantOfMemory };

    fn from(_: AllocFailed<T>) -> ReadFault {
        ReadFault::Memory
    }
}
