//! The answer of a query at one instant, computed at once from its sources, and its lines.
#![tactic(auto)]

mod answer;
mod lines;
mod source;

pub use answer::answer_at;
pub use lines::write_tuples;
