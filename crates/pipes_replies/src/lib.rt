//! The replies of a run to its migrate commands, and when a migration is told to be idle and over.
#![tactic(auto)]

mod replies;
mod stage;

pub use replies::{Paced, Replies};
