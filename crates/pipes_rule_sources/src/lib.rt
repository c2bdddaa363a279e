//! Laws: what the rewriting rules make of a plan reads the same sources.
#![tactic(auto)]

mod leaves;
mod sources;

pub use leaves::derivation_keeps_leaves;
pub use sources::derivation_keeps_sources;
