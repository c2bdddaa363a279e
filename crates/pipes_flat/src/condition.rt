// A condition, with the schema over which it is typed.
ghost use Rattle.std.specs.Prelude.{◌≡◌, Some};
ghost use Rattle.pipes_tuple.specs.declared.value.Kind.{Kind};
ghost use Rattle.pipes_expr.specs.ExprValue.{passes};
ghost use Rattle.pipes_expr.specs.ExprKind.{expr_kind};

use pipes_plan::Expr;
use pipes_tuple::{Schema, Tuple};
use std::marker::Model;

// A condition over the tuples of a schema.
#[derive(Drop)]
pub(crate) struct Condition {
    expr: Expr,
    schema: Schema,
}

impl Model for Condition {
    ghost use Rattle.std.specs.Prelude.{◌≡◌, Some};
    ghost use Rattle.pipes_tuple.specs.declared.value.Kind.TheVariants as kinds;
    ghost use Rattle.pipes_expr.specs.ExprKind.{expr_kind};
    ghost use Rattle.std.specs.Coded.{codes};
    ghost use Rattle.pipes_expr.specs.contracts.expr.Expr as coding;
    ghost use Rattle.pipes_flat.specs.Typed.{ConditionOver};

    ghost Value = { ConditionOver };

    ghost coded = { Prim.hlevel (codes, coding.the_row.coded) };

    ghost view = { λ c. record { expr = c.expr; schema = c.schema } };

    ghost invariant = { λ c. expr_kind c.expr c.schema ≡ Some kinds.Flag };
}

impl Condition {
    // The condition, a flag over the schema.
    pub(crate) fn new(expr: Expr, schema: Schema) -> Condition
        requires { expr_kind expr schema ≡ Some Kind.Flag }
        ensures { result ≡ record { expr = expr; schema = schema } }
    {
        Condition { expr, schema }
    }

    // Whether the condition is true on the tuple.
    pub(crate) fn holds(&self, tuple: &Tuple) -> bool
        ensures { result ≡ passes self.now.expr tuple.now }
    {
        self.expr.test(tuple)
    }
}
