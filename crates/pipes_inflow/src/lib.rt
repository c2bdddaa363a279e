//! The feeder of a source together with its reader: turn by turn an arrival is read and fed.
#![tactic(auto)]

mod inflow;

pub use inflow::{Inflow, Turn};
