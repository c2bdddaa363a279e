//! The arrivals of a source's lines, and the order in which they become its items.
#![tactic(auto)]

mod judge;
mod line;
mod place;
mod reader;
mod reason;
mod reorder;

pub use pipes_window::Item;
pub use reader::{ItemReader, Next};
pub use reason::{Reason, RowWhy};
pub use reorder::Reorder;
