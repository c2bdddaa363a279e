//! Plans at work: a node for each node of a plan, with links between them.
#![tactic(auto)]

mod build;
mod leaf;
mod plan_box;
mod settling;
mod sums;
mod working;

pub use leaf::Leaf;
pub use plan_box::PlanBox;
