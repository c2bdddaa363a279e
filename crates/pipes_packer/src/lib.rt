//! The arrivals of one source as the messages of its feeder: elements, cut, and heartbeats.
#![tactic(auto)]

mod packer;

pub use packer::{Packer, packed_stays};
