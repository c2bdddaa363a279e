//! Operators that look at equal rows together: each row once, and a row for each group.
#![tactic(auto)]

mod coverage;
mod distinct;
mod dues;
mod group;
mod part;
mod tally;
mod values;

pub use distinct::Distinct;
pub use group::Group;
pub use tally::{Grouping, Tally};
