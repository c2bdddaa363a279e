// Expressions with other expressions in place of their columns.
ghost use Rattle.std.specs.Prelude.{◌≡◌, ◌∷◌, ◌↔◌, IfOk, IsTrue, Option, Some, None};
ghost use Rattle.std.specs.Option.{option_map};
ghost use Rattle.pipes_expr.specs.declared.op.Op.TheVariants.{And as Conjoin};
ghost use Rattle.pipes_rewrite.specs.Changes.{
  both_there,
  column_in,
  conjunction,
  exchanged,
  expr_changed,
  expr_in,
  exprs_changed,
  is_truth,
  lower_by,
  only_below,
  truth,
};
ghost use Rattle.pipes_rewrite.specs.ColumnChange.{meant};

use pipes_plan::{Expr, Exprs, Op};
use pipes_time::Memory;
use pipes_tuple::{Cols, Value};
use sqlite_items::Boxed;
use std::alloc::Global;

/// What comes in place of each column of an expression.
#[derive(Clone, Copy)]
pub enum Change<'a> {
    /// The column so many places higher.
    Up(u32),
    /// The column so many places lower; nothing for a column below this one.
    Down(u32),
    /// The same column; nothing for one at or above this one.
    Below(u32),
    /// The column's place once the two sides of a join, of these widths, are exchanged.
    Exchange(u32, u32),
    /// The column at this place of the list.
    Picked(&'a [u32]),
    /// The expression at this place of the list.
    Replaced(&'a [Expr]),
}

fn lower(i: u32, n: u32) -> Option<Expr>
    ensures { result ≡ lower_by n i }
{
    if n <= i { Some(Expr::Col(i - n)) } else { None }
}

fn kept(i: u32, n: u32) -> Option<Expr>
    ensures { result ≡ only_below n i }
{
    if i < n { Some(Expr::Col(i)) } else { None }
}

fn exchanged_column(i: u32, left: u32, right: u32) -> u32
    ensures { result ≡ exchanged left right i }
{
    if i < left {
        i.saturating_add(right)
    } else {
        i - left
    }
}

fn picked_column(columns: &[u32], i: u32) -> Option<Expr>
    ensures { result ≡ column_in columns.now i }
{
    match columns.get(i as usize) {
        Some(column) => Some(Expr::Col(*column)),
        None => None,
    }
}

fn replacement(alloc: Global, exprs: &[Expr], i: u32) -> Result<Option<Expr>, Memory>
    ensures { IfOk result (λ expr. expr ≡ expr_in exprs.now i) }
{
    match exprs.get(i as usize) {
        Some(expr) => Ok(Some(expr.copy(alloc)?)),
        None => Ok(None),
    }
}

// What comes in place of the column.
fn column_changed(alloc: Global, change: Change<'_>, i: u32) -> Result<Option<Expr>, Memory>
    ensures { IfOk result (λ expr. expr ≡ meant change.entry i) }
{
    match change {
        Change::Up(n) => Ok(Some(Expr::Col(i.saturating_add(n)))),
        Change::Down(n) => Ok(lower(i, n)),
        Change::Below(n) => Ok(kept(i, n)),
        Change::Exchange(left, right) => Ok(Some(Expr::Col(exchanged_column(i, left, right)))),
        Change::Picked(columns) => Ok(picked_column(columns, i)),
        Change::Replaced(exprs) => replacement(alloc, exprs, i),
    }
}

/// The expression between these sides.
pub fn binary(alloc: Global, op: Op, a: Expr, b: Expr) -> Result<Expr, Memory>
    ensures { IfOk result (λ expr. expr ≡ Expr.Binary op a b) }
{
    let a = Boxed::new(alloc, a)?;
    Ok(Expr::Binary(op, a, Boxed::new(alloc, b)?))
}

fn both_changed(
    alloc: Global,
    op: Op,
    a: Option<Expr>,
    b: Option<Expr>,
) -> Result<Option<Expr>, Memory>
    ensures { IfOk result (λ expr. expr ≡ both_there (λ x y. Expr.Binary op x y) a b) }
{
    let Some(a) = a else {
        return Ok(None);
    };
    let Some(b) = b else {
        return Ok(None);
    };
    Ok(Some(binary(alloc, op, a, b)?))
}

fn negation(alloc: Global, a: Option<Expr>) -> Result<Option<Expr>, Memory>
    ensures { IfOk result (λ expr. expr ≡ option_map (λ x. Expr.Not x) a) }
{
    let Some(a) = a else {
        return Ok(None);
    };
    Ok(Some(Expr::Not(Boxed::new(alloc, a)?)))
}

#[cycle(change_expr)]
fn change_binary(
    alloc: Global,
    change: Change<'_>,
    op: Op,
    a: &Expr,
    b: &Expr,
) -> Result<Option<Expr>, Memory>
    ensures { IfOk result (λ expr. expr ≡ both_there (λ x y. Expr.Binary op x y)
        (expr_changed (meant change.entry) a.now) (expr_changed (meant change.entry) b.now)) }
{
    let a = change_expr(alloc, change, a)?;
    let b = change_expr(alloc, change, b)?;
    both_changed(alloc, op, a, b)
}

#[cycle(change_expr)]
fn change_negation(alloc: Global, change: Change<'_>, a: &Expr) -> Result<Option<Expr>, Memory>
    ensures { IfOk result (λ expr. expr ≡ option_map (λ x. Expr.Not x)
        (expr_changed (meant change.entry) a.now)) }
{
    let a = change_expr(alloc, change, a)?;
    negation(alloc, a)
}

/// The expression with the change in place of each of its columns; nothing where one of them has
/// nothing in its place.
#[cycle(change_expr)]
pub fn change_expr(alloc: Global, change: Change<'_>, expr: &Expr) -> Result<Option<Expr>, Memory>
    ensures { IfOk result (λ new. new ≡ expr_changed (meant change.entry) expr.now) }
{
    match expr {
        Expr::Col(i) => column_changed(alloc, change, *i),
        Expr::Literal(value) => Ok(Some(Expr::Literal(value.copy()?))),
        Expr::Binary(op, a, b) => change_binary(alloc, change, *op, a.get(), b.get()),
        Expr::Not(a) => change_negation(alloc, change, a.get()),
    }
}

/// The expression with the column at the place of each of its columns in the list; nothing where
/// one of its columns is past the list.
pub fn with_columns(alloc: Global, columns: &Cols, expr: &Expr) -> Result<Option<Expr>, Memory>
    ensures { IfOk result (λ new. new ≡ expr_changed (column_in columns.now) expr.now) }
{
    change_expr(alloc, Change::Picked(columns.as_slice()), expr)
}

/// The expression with the expression at the place of each of its columns in the list; nothing
/// where one of its columns is past the list.
pub fn with_exprs(alloc: Global, exprs: &Exprs, expr: &Expr) -> Result<Option<Expr>, Memory>
    ensures { IfOk result (λ new. new ≡ expr_changed (expr_in exprs.now) expr.now) }
{
    change_expr(alloc, Change::Replaced(exprs.as_slice()), expr)
}

// The expressions with the change in place of each of their columns.
#[tactic(auto, using(crate::proofs::ChangedLoop::changed_more, crate::proofs::ChangedLoop::changed_none))]
fn change_all(
    alloc: Global,
    change: Change<'_>,
    exprs: &[Expr],
) -> Result<Option<Vec<Expr>>, Memory>
    ensures { IfOk result (λ new. option_map (λ v. v.items) new
        ≡ exprs_changed (meant change.entry) exprs.now) }
{
    let mut list = Vec::new(alloc);
    for expr in exprs {
        let Some(new) = change_expr(alloc, change, expr)? else {
            return Ok(None);
        };
        list.push(new)?;
    }
    Ok(Some(list))
}

/// The expressions with the change in place of each of their columns; nothing where one of these
/// has nothing in its place.
pub fn change_exprs(
    alloc: Global,
    change: Change<'_>,
    exprs: &Exprs,
) -> Result<Option<Exprs>, Memory>
    ensures { IfOk result (λ new. new ≡ exprs_changed (meant change.entry) exprs.now) }
{
    let Some(list) = change_all(alloc, change, exprs.as_slice())? else {
        return Ok(None);
    };
    Ok(Some(Exprs::new(list).unwrap()))
}

/// Whether the expression is the literal `true`.
pub fn is_true_literal(expr: &Expr) -> bool
    ensures { result ≡ is_truth expr.now }
{
    match expr {
        Expr::Literal(Value::Flag(flag)) => *flag,
        _ => false,
    }
}

/// The literal `true`.
pub fn true_literal() -> Expr
    ensures { result ≡ truth }
{
    Expr::Literal(Value::Flag(true))
}

/// An expression that is true where both are; a side that is the literal `true` is left out.
pub fn conjoin(alloc: Global, a: &Expr, b: &Expr) -> Result<Expr, Memory>
    ensures { IfOk result (λ expr. expr ≡ conjunction a.now b.now) }
{
    if is_true_literal(a) {
        return b.copy(alloc);
    }
    if is_true_literal(b) {
        return a.copy(alloc);
    }
    let a = a.copy(alloc)?;
    let b = b.copy(alloc)?;
    binary(alloc, Op::And, a, b)
}
