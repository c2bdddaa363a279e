//! The grammar of expressions and plans, and their readers over tokens.
#![tactic(auto)]

mod entry;
mod expr;
mod list;
mod node;
mod op;
mod plan;
mod start;
mod tokens;

pub use expr::read_expr;
pub use list::read_exprs;
pub use pipes_reader::{ParseFault, refused};
pub use plan::{read_plan, source_named};
