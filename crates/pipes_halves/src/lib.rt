//! What of a source's messages is for the plan before a split, and what for the plan from it on.
#![tactic(auto)]

mod halves;

pub use halves::{Halves, opening, split_message, splits_up};
