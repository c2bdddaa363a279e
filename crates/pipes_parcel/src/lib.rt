//! What a feeder's link carries, and how an element is cut at the splits that it meets.
#![tactic(auto)]

mod cutter;
mod parcel;

pub use cutter::{Cutter, pieces_are_the_element};
pub use parcel::{Fed, Parcel};
