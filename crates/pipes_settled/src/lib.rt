//! The normal text of elements that come in order of start, written line by line as it becomes
//! certain.
#![tactic(auto)]

mod pieces;
mod settled;

pub use settled::Settled;
