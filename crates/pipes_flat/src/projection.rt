// Expressions, with the schema over which they are typed.
ghost use Rattle.std.specs.Prelude.{◌≡◌, IfOk, length};
ghost use Rattle.std.specs.List.{All};
ghost use Rattle.pipes_relation.specs.Relations.{values_of};
ghost use Rattle.pipes_expr.specs.ExprKind.{IsTypedExpr};
ghost use Rattle.pipes_relation.specs.Relations.{IsWidth};

use pipes_plan::{Expr, Exprs};
use pipes_time::Memory;
use pipes_tuple::{Schema, Tuple};
use std::alloc::Global;
use std::marker::Model;

// Expressions over the tuples of a schema.
#[derive(Drop)]
pub(crate) struct Projection {
    alloc: Global,
    exprs: Exprs,
    schema: Schema,
}

impl Model for Projection {
    ghost use Rattle.std.specs.Prelude.{length};
    ghost use Rattle.std.specs.List.{All};
    ghost use Rattle.pipes_expr.specs.ExprKind.{IsTypedExpr};
    ghost use Rattle.pipes_relation.specs.Relations.{IsWidth};
    ghost use Rattle.std.specs.Coded.{codes};
    ghost use Rattle.pipes_expr.specs.contracts.expr.Expr as coding;
    ghost use Rattle.pipes_flat.specs.Typed.{ExprsOver};

    ghost Value = { ExprsOver };

    ghost coded = { Prim.hlevel (codes, coding.the_row.coded) };

    ghost view = { λ p. record { exprs = p.exprs; schema = p.schema } };

    ghost invariant = { λ p. IsWidth (length p.exprs) × All (λ e. IsTypedExpr e p.schema) p.exprs };
}

// The row of the expressions' values on a row.
fn values(alloc: Global, exprs: &[Expr], row: &Tuple) -> Result<Tuple, Memory>
    requires width { IsWidth (length exprs.now) }
    ensures { IfOk result (λ tuple. tuple ≡ values_of exprs.now row.now) }
{
    let mut list = Vec::new(alloc);
    for expr in exprs {
        list.push(expr.value(row)?)?;
    }
    Ok(Tuple::new(list).unwrap())
}

impl Projection {
    // The expressions, typed over the schema.
    pub(crate) fn new(alloc: Global, exprs: Exprs, schema: Schema) -> Projection
        requires width { IsWidth (length exprs) }
        requires typed { All (λ e. IsTypedExpr e schema) exprs }
        ensures { result ≡ record { exprs = exprs; schema = schema } }
    {
        Projection {
            alloc,
            exprs,
            schema,
        }
    }

    // The row of the expressions' values on the tuple.
    pub(crate) fn row(&self, tuple: &Tuple) -> Result<Tuple, Memory>
        ensures { IfOk result (λ row. row ≡ values_of self.now.exprs tuple.now) }
    {
        values(self.alloc, self.exprs.as_slice(), tuple)
    }
}
