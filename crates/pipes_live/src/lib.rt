//! A standing query whose plan can be replaced, again and again: one contract in terms of one list
//! of messages for each source since the start of the run.
#![tactic(auto)]

mod live;
mod openings;
mod sides;
mod source;
mod state;

pub use live::Live;
