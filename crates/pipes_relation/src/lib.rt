//! The operators of relations on lists of rows: projection, union, join, distinct rows, groups with
//! their aggregates, and difference.
#![tactic(auto)]

mod aggregate;
mod difference;
mod group;
mod join;
mod lists;
mod rows;
mod table;

pub use aggregate::{clamped, int_at};
pub use difference::minus;
pub use group::grouped;
pub use join::joined;
pub use lists::{Agg, Aggs, Pair, Pairs};
pub use rows::{copy_rows, distinct, filtered, mapped, united};
