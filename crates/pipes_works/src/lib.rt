//! Plans at work over their sources: what a source gives is given at each leaf that reads it.
#![tactic(auto)]

mod giving;
mod input;
mod works;

pub use input::Input;
pub use works::Works;
