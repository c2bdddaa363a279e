// Steps of a derivation, and why one isn't made.
use crate::Rule;
use pipes_plan::{Expr, Exprs};
use pipes_rewrite::RewriteFault;
use pipes_time::Memory;
use pipes_tuple::{BoundedList, Cols};

/// What a step takes beside the plan.
#[derive(Debug, Drop)]
pub enum Arg {
    /// Nothing.
    Nothing,
    /// An expression.
    OneExpr(Expr),
    /// Two lists of expressions.
    TwoLists(Exprs, Exprs),
}

/// One use of a rule at one node of a plan.
#[derive(Debug, Drop)]
pub struct Step {
    /// The rule.
    pub rule: Rule,
    /// Whether the right form becomes the left one, and not the left the right.
    pub back: bool,
    /// The way to the node: at each node from the root, 0 for its left or only child, and 1 for its
    /// right one.
    pub path: Cols,
    /// What the step takes beside the plan.
    pub arg: Arg,
}

/// At most 256 steps.
pub type Steps = BoundedList<Step, 256>;

/// Why a step isn't made.
#[derive(Clone, Copy, Debug, PartialEq, Eq)]
pub enum StepRefusal {
    /// The path names no node.
    NoSuchPlace,
    /// The node isn't of the form that the rule takes in this direction, or doesn't meet its
    /// condition, or the argument isn't the one that it takes.
    NoMatch,
    /// The plan with the node rewritten doesn't check.
    NotAPlan,
    /// Memory was refused.
    Memory,
}

impl From<Memory> for StepRefusal {
    ghost use Rattle.pipes_rules.specs.declared.step.StepRefusal.TheVariants.{
      Memory as
          OutOfMemory,
    };
    ghost use Rattle.std.specs.Prelude.{◌≡◌};

    ghost from_gives = { λ _ refusal. refusal ≡ OutOfMemory };

    fn from(_: Memory) -> StepRefusal {
        StepRefusal::Memory
    }
}
