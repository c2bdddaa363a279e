// The literals of plans.
ghost use Rattle.std.specs.List.{flat_map};
ghost use Rattle.pipes_tuple.specs.Limits.{IsValue};
ghost use Rattle.pipes_print.specs.Writable.{Each, literals_of, plan_literals};

use pipes_plan::{Expr, Plan};
use pipes_tuple::Value;

// Looks at a value: it is within the limits of its type.
fn look_at_value(value: &Value)
    ensures { IsValue value.now }
{
    match value {
        Value::Int(number) => {
            let _number = *number;
        }
        Value::Text(text) => {
            text.as_str();
        }
        Value::Flag(_) => {}
    }
}

// Looks at each literal of the expression.
#[tactic(auto, using(crate::proofs::LiteralLists::each_joined))]
fn look_at_expr(expr: &Expr)
    ensures { Each IsValue (literals_of expr.now) }
{
    match expr {
        Expr::Col(_) => {}
        Expr::Literal(value) => look_at_value(value),
        Expr::Binary(_, a, b) => {
            look_at_expr(a.get());
            look_at_expr(b.get());
        }
        Expr::Not(a) => look_at_expr(a.get()),
    }
}

// Looks at each literal of the expressions.
#[tactic(auto, using(crate::proofs::LiteralLists::each_joined))]
fn look_at_exprs(exprs: &[Expr])
    ensures { Each IsValue (flat_map literals_of exprs.now) }
{
    match exprs {
        [] => {}
        [expr, others @ ..] => {
            look_at_expr(expr);
            look_at_exprs(others);
        }
    }
}

/// Looks at each literal of the plan: it is within the limits of its type, as a text can have it.
/// That is what a plan that checks still needs to be writable.
#[tactic(auto, using(crate::proofs::LiteralLists::each_joined))]
pub fn look_at_literals(plan: &Plan)
    ensures { Each IsValue (plan_literals plan.now) }
{
    match plan {
        Plan::Source(_) => {}
        Plan::Filter(condition, a) => {
            look_at_expr(condition);
            look_at_literals(a.get());
        }
        Plan::Map(exprs, a) => {
            look_at_exprs(exprs.as_slice());
            look_at_literals(a.get());
        }
        Plan::Union(a, b) => {
            look_at_literals(a.get());
            look_at_literals(b.get());
        }
        Plan::Join(_, condition, a, b) => {
            look_at_expr(condition);
            look_at_literals(a.get());
            look_at_literals(b.get());
        }
        Plan::Distinct(a) => look_at_literals(a.get()),
        Plan::Group(_, _, a) => look_at_literals(a.get()),
        Plan::Minus(a, b) => {
            look_at_literals(a.get());
            look_at_literals(b.get());
        }
    }
}
