//! Results of a run on their way out, in the stream form and in the normal form.
#![tactic(auto)]

mod results;

pub use results::Results;
