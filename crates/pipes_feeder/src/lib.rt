//! The feeder of a source: its arrivals, cut at splits, into a link.
#![tactic(auto)]

mod feeder;
mod sending;

pub use feeder::{Feeder, FinishRefusal, OfferRefusal};
pub use sending::take_all;
