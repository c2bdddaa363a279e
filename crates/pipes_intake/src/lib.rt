//! A source on its way in: its arrivals, the next one read ahead.
#![tactic(auto)]

mod ahead;
mod intake;

pub use ahead::Ahead;
pub use intake::{Intake, Step, Turned};
