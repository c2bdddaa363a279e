// Tokens that say where in a text one is.
ghost use Rattle.std.specs.Prelude.{◌≡◌};
ghost use Rattle.pipes_text.specs.Taking as spec;

use pipes_token::{Keyword, Sign, TokenKind};

/// A token that a source has at a place of its grammar.
#[derive(Clone, Copy, Debug, PartialEq, Eq)]
pub enum Mark {
    /// `from`
    From,
    /// `(`
    Open,
    /// `window`
    Window,
}

/// What a window is measured in.
#[derive(Clone, Copy, Debug, PartialEq, Eq)]
pub enum Measure {
    /// `time`
    Time,
    /// `count`
    Count,
}

/// How a command of a script begins.
#[derive(Clone, Copy, Debug, PartialEq, Eq)]
pub enum Start {
    /// `feed`
    Feed,
    /// `rest`
    Rest,
    /// `await`
    Await,
    /// `migrate`
    Migrate,
    /// `drain`
    Drain,
}

// Whether the token is this one.
pub fn is_mark(mark: Mark, kind: &TokenKind) -> bool
    ensures { result ≡ spec.is_mark mark kind.now }
{
    match mark {
        Mark::From => matches!(kind, TokenKind::Keyword(Keyword::From)),
        Mark::Open => matches!(kind, TokenKind::Sign(Sign::Open)),
        Mark::Window => matches!(kind, TokenKind::Keyword(Keyword::Window)),
    }
}
