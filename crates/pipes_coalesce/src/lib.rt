//! Two streams merged at a split: the results of an old plan before it, and those of a new plan
//! from it on.
#![tactic(auto)]

mod by_tuple;
mod merge;
mod queue;

pub use merge::Coalesce;
