//! Expressions over rows: their kinds and what is refused in them, and their values.
#![tactic(auto)]

mod eval;
mod expr;
mod kinds;
mod op;
mod seen;
mod size;
mod why;

pub use expr::{Expr, Exprs, copy_exprs};
pub use kinds::column_kind;
pub use op::Op;
pub use seen::Seen;
pub use size::{MOST_DEPTH, MOST_NODES};
pub use why::Why;
