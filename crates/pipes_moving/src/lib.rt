//! A standing query whose plan is being replaced: two plans at work at once, of which the entries
//! are one answer.
#![tactic(auto)]

mod moving;
mod next;
mod sides;

pub use moving::Moving;
pub use next::Next;
