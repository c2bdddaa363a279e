//! The difference of two streams: each row as often as on the left, less as often as on the right.
#![tactic(auto)]

mod counts;
mod minus;

pub use minus::Minus;
