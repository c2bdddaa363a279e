//! A query that is run, drained, and given another plan while it runs: what it writes, by what its
//! sources gave and what it was asked for.
#![tactic(auto)]

mod accepting;
mod engine;
mod limits;
mod pacing;
mod serving;
mod telling;

pub use engine::Engine;
