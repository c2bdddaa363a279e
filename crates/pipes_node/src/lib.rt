//! The nodes of a plan at work: each has an operator, ports that take from links, and a link into
//! which it puts.
#![tactic(auto)]

mod merging;
mod node;
mod operator;
mod port;
mod turning;

pub use node::Node;
pub use operator::PlanOperator;
pub use port::Port;
pub use turning::turn_all;
