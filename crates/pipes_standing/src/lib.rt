//! Standing queries: one plan at work over its sources, and what is written of its answer.
#![tactic(auto)]

mod standing;

pub use standing::{Parts, Standing};
