//! The lines of a source, one in memory at a time, and the record that `csv` finds in each.
#![tactic(auto)]

mod buffer;
mod copied;
mod part;
mod quoted;
mod reader;
mod record;
mod split;

pub use reader::{LineReader, NextLine};
pub use record::{Record, Shape};
