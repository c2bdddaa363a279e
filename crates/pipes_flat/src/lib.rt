//! Operators that look at one element at a time: filter, map and union.
#![tactic(auto)]

mod condition;
mod filter;
mod map;
mod projection;
mod send;
mod union;

pub use filter::Filter;
pub use map::Map;
pub use union::Union;
