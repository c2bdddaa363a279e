// Rows one by one, and rows that differ.
ghost use Rattle.std.specs.Prelude.{◌≡◌, ◌++◌, map, IfOk, length};
ghost use Rattle.std.specs.List.{filter};
ghost use Rattle.pipes_expr.specs.ExprValue.{passes};
ghost use Rattle.pipes_relation.specs.Relations.{IsWidth, distinct, values_of};

use indexmap::IndexSet;
use pipes_expr::Expr;
use pipes_time::Memory;
use pipes_tuple::Tuple;
use std::alloc::Global;

/// Copies of the rows.
pub fn copy_rows(alloc: Global, rows: &[Tuple]) -> Result<Vec<Tuple>, Memory>
    ensures { IfOk result (λ out. out.items ≡ rows.now) }
{
    let mut out = Vec::new(alloc);
    for row in rows {
        out.push(row.copy()?)?;
    }
    Ok(out)
}

/// The rows on which the condition is true, in order.
pub fn filtered(alloc: Global, condition: &Expr, rows: Vec<Tuple>) -> Result<Vec<Tuple>, Memory>
    ensures { IfOk result (λ out. out.items ≡ filter (passes condition.now) rows.items) }
{
    let mut out = Vec::new(alloc);
    for row in rows {
        if condition.test(&row) {
            out.push(row)?;
        }
    }
    Ok(out)
}

// The row of the expressions' values.
fn values(alloc: Global, exprs: &[Expr], row: &Tuple) -> Result<Tuple, Memory>
    requires { IsWidth (length exprs.now) }
    ensures { IfOk result (λ tuple. tuple ≡ values_of exprs.now row.now) }
{
    let mut list = Vec::new(alloc);
    for expr in exprs {
        list.push(expr.value(row)?)?;
    }
    Ok(Tuple::new(list).unwrap())
}

/// Each row replaced by the values of the expressions, in order.
pub fn mapped(alloc: Global, exprs: &[Expr], rows: &[Tuple]) -> Result<Vec<Tuple>, Memory>
    requires { IsWidth (length exprs.now) }
    ensures { IfOk result (λ out. out.items ≡ map (values_of exprs.now) rows.now) }
{
    let mut out = Vec::new(alloc);
    for row in rows {
        out.push(values(alloc, exprs, row)?)?;
    }
    Ok(out)
}

/// The left rows, followed by the right ones.
pub fn united(mut left: Vec<Tuple>, mut right: Vec<Tuple>) -> Result<Vec<Tuple>, Memory>
    ensures { IfOk result (λ out. out.items ≡ left.items ++ right.items) }
{
    left.append(&mut right)?;
    Ok(left)
}

/// Each row once, at its first place. A row is looked up by its hash.
pub fn distinct(alloc: Global, rows: Vec<Tuple>) -> Result<Vec<Tuple>, Memory>
    ensures { IfOk result (λ out. out.items ≡ distinct rows.items) }
{
    let mut seen = IndexSet::new(alloc);
    for row in rows {
        seen.insert(row)?;
    }
    let mut out = Vec::new(alloc);
    for row in seen {
        out.push(row)?;
    }
    Ok(out)
}
