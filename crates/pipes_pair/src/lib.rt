//! The operator over two inputs that keeps elements until they end: the join.
#![tactic(auto)]

mod columns;
mod join;
mod meeting;
mod side;

pub use join::Join;
