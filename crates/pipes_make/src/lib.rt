//! A run that needs no files: two sources by draws from a seed, a query over them, derivations from
//! its plan, and scripts. It is the same on every machine.
#![tactic(auto)]

mod draws;
mod script;
mod sources;
mod text;

pub use script::{moving_script, steady_script};
pub use sources::{MOST_ROWS, Sources, make_sources};
pub use text::{first_derivation, query_text, second_derivation, third_derivation};
