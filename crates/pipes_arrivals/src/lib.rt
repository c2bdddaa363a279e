//! The arrivals of one source on their way to elements: put in order, and given their validity.
#![tactic(auto)]

mod arrivals;
mod passing;

pub use arrivals::{Arrivals, arrivals_are_elements};
