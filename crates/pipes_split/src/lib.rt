//! The split book: threads agree on the split time of each epoch through words that only grow.
#![tactic(auto)]

mod book;
mod cutting;
mod rule;
mod seats;
mod steps;
pub mod views;

pub use book::{EPOCHS, HALTS, LAST_EPOCH, Raised, SplitBook, SplitSeat};
pub use cutting::cut;
pub use seats::Seats;
pub use steps::seats_agree;
