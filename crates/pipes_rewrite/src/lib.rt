//! The forms of the rewriting rules of plans, and what their code is made of: expressions with
//! others in place of their columns, widths of plans, and nodes over copied or moved parts.
#![tactic(auto)]

mod change;
mod fault;
mod node;
mod row_width;
mod sides;

pub use change::{
    Change, binary, change_expr, change_exprs, conjoin, is_true_literal, true_literal,
    with_columns, with_exprs,
};
pub use fault::{Lengthened, RewriteFault, Rewritten};
pub use node::{
    distinct_of, filter_by, filter_of, group_of, join_by, join_of, map_by, map_of, minus_of,
    union_of,
};
pub use row_width::width;
pub use sides::{lowered, raised, turned, within};
