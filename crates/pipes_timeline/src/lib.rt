//! The core of the operators that answer the rows of each key together, and change their answer
//! when a row comes or ends.
#![tactic(auto)]

mod ends;
mod piece;
mod pieces;
mod rule;
mod starts;
mod table;
mod timeline;

pub use ends::Ends;
pub use piece::Piece;
pub use pieces::Pieces;
pub use rule::Rule;
pub use starts::Starts;
pub use table::Slot;
pub use timeline::Timeline;
