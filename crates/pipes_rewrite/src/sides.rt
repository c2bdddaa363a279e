// Expressions over one side of a join, as expressions over both and back.
ghost use Rattle.std.specs.Prelude.{◌≡◌, IfOk};
ghost use Rattle.pipes_rewrite.specs.Changes as changes;
ghost use Rattle.pipes_rewrite.specs.Widths.{width as plan_width};

use crate::change::change_expr;
use crate::{Change, width};
use pipes_plan::{Expr, Plan};
use pipes_time::Memory;
use pipes_tuple::Schema;
use sqlite_items::Boxed;
use std::alloc::Global;

/// The expression with its columns as many places higher as the plan has columns.
pub fn raised(
    alloc: Global,
    schemas: &[Schema],
    a: &Boxed<Plan>,
    expr: &Expr,
) -> Result<Option<Expr>, Memory>
    ensures { IfOk result
        (λ new. new ≡ changes.raised (plan_width schemas.now a.now) expr.now) }
{
    change_expr(alloc, Change::Up(width(schemas, a.get())), expr)
}

/// The expression with its columns as many places lower as the plan has columns; nothing where one
/// of them is a column of the plan.
pub fn lowered(
    alloc: Global,
    schemas: &[Schema],
    a: &Boxed<Plan>,
    expr: &Expr,
) -> Result<Option<Expr>, Memory>
    ensures { IfOk result
        (λ new. new ≡ changes.lowered (plan_width schemas.now a.now) expr.now) }
{
    change_expr(alloc, Change::Down(width(schemas, a.get())), expr)
}

/// The same expression; nothing where one of its columns is none of the plan's.
pub fn within(
    alloc: Global,
    schemas: &[Schema],
    a: &Boxed<Plan>,
    expr: &Expr,
) -> Result<Option<Expr>, Memory>
    ensures { IfOk result
        (λ new. new ≡ changes.kept_below (plan_width schemas.now a.now) expr.now) }
{
    change_expr(alloc, Change::Below(width(schemas, a.get())), expr)
}

/// The expression with its columns at their places once the two sides of a join, which are these
/// plans, are exchanged.
pub fn turned(
    alloc: Global,
    schemas: &[Schema],
    a: &Boxed<Plan>,
    b: &Boxed<Plan>,
    expr: &Expr,
) -> Result<Option<Expr>, Memory>
    ensures { IfOk result
        (λ new. new ≡ changes.turned (plan_width schemas.now a.now)
        (plan_width schemas.now b.now) expr.now) }
{
    let left = width(schemas, a.get());
    change_expr(alloc, Change::Exchange(left, width(schemas, b.get())), expr)
}
