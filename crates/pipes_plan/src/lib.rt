//! Plans over sources, their check, and a plan's answer at once.
#![tactic(auto)]

mod algebra;
mod check;
mod fault;
mod kinds;
mod lists;
mod plan;
mod size;

pub use algebra::answer;
pub use fault::{CheckFault, TypeRefusal};
pub use lists::{Counts, Schemas};
pub use pipes_expr::{Expr, Exprs, Op, Why, copy_exprs};
pub use pipes_relation::{Agg, Aggs, Pair, Pairs};
pub use plan::{Plan, distinct, filter, group, join, map, minus, union};
