//! The rewriting rules of plans, and derivations of one plan from another.
#![tactic(auto)]

mod apply_step;
mod derivation;
mod rewriting;
mod step;
mod table;

pub use apply_step::apply;
pub use derivation::{DeriveRefusal, derive};
pub use step::{Arg, Step, StepRefusal, Steps};
pub use table::{ArgKind, RULES, Rule, RuleRow, find_row, rule_by_name, rule_rows};
