//! The course of a run: what it takes of its sources under a script, what it writes, and how it
//! ends.
//!
//! The definitions stand in `specs/`, and laws of them in `proofs/`. The one type here is what
//! contracts of runs name.
#![tactic(auto)]

mod fault;

pub use fault::RunFault;
