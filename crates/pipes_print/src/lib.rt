//! Printing of expressions and plans, so that what is printed is read back.
#![tactic(auto)]

mod expr;
mod list;
mod literals;
mod plan;

pub use expr::{print_expr, print_exprs};
pub use literals::look_at_literals;
pub use plan::print_plan;
