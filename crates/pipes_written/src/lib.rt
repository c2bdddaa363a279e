//! What a run has written so far: entries, made of the messages that come to the output.
#![tactic(auto)]

mod entries;
mod output;

pub use entries::Entries;
pub use output::Output;
