// Expressions.
ghost use Rattle.std.specs.Prelude.{◌≡◌, ◌↔◌, IfOk, IsTrue};

use crate::Op;
use pipes_time::Memory;
use pipes_tuple::{BoundedList, Value};
use sqlite_items::Boxed;
use std::alloc::Global;

/// An expression over the values of a row.
#[derive(Debug, Drop)]
pub enum Expr {
    /// The value of the column with this number, counted from 0.
    Col(u32),
    /// This value.
    Literal(Value),
    /// What the operator makes of the values of the two sides.
    Binary(Op, Boxed<Expr>, Boxed<Expr>),
    /// Whether a flag is false.
    Not(Boxed<Expr>),
}

/// At most 32 expressions.
pub type Exprs = BoundedList<Expr, 32>;

/// A list equal to this one.
pub fn copy_exprs(alloc: Global, exprs: &Exprs) -> Result<Exprs, Memory>
    ensures { IfOk result (λ copy. copy ≡ exprs.now) }
{
    let mut list = Vec::new(alloc);
    for expr in exprs.as_slice() {
        list.push(expr.copy(alloc)?)?;
    }
    Ok(Exprs::new(list).unwrap())
}

// A copy of a child.
#[cycle(copy)]
fn copy_boxed(alloc: Global, child: &Boxed<Expr>) -> Result<Boxed<Expr>, Memory>
    ensures { IfOk result (λ copy. copy ≡ child.now) }
{
    let copy = child.get().copy(alloc)?;
    Ok(Boxed::new(alloc, copy)?)
}

#[tactic(auto, using(crate::proofs::Comparisons::equal_values))]
fn same_values(a: &Value, b: &Value) -> bool
    ensures { IsTrue result ↔ (a.now ≡ b.now) }
{
    *a == *b
}

impl Expr {
    /// An expression equal to this one.
    #[cycle(copy)]
    pub fn copy(&self, alloc: Global) -> Result<Expr, Memory>
        ensures { IfOk result (λ copy. copy ≡ self.now) }
    {
        match self {
            Expr::Col(column) => Ok(Expr::Col(*column)),
            Expr::Literal(value) => Ok(Expr::Literal(value.copy()?)),
            Expr::Binary(op, a, b) => {
                Ok(Expr::Binary(*op, copy_boxed(alloc, a)?, copy_boxed(alloc, b)?))
            }
            Expr::Not(a) => Ok(Expr::Not(copy_boxed(alloc, a)?)),
        }
    }

    /// Whether two expressions are equal as trees.
    pub fn same(&self, other: &Expr) -> bool
        ensures { IsTrue result ↔ (self.now ≡ other.now) }
    {
        match (self, other) {
            (Expr::Col(i), Expr::Col(j)) => *i == *j,
            (Expr::Literal(v), Expr::Literal(w)) => same_values(v, w),
            (Expr::Binary(o, a, b), Expr::Binary(p, c, d)) => {
                *o == *p && a.get().same(c.get()) && b.get().same(d.get())
            }
            (Expr::Not(a), Expr::Not(b)) => a.get().same(b.get()),
            _ => false,
        }
    }
}

impl PartialEq for Expr {
    ghost use Rattle.pipes_expr.specs.CodedEqual.{coded_eq, coded_eq-equiv};
    ghost use Rattle.pipes_expr.specs.contracts.expr.Expr.{the_row};
    ghost use Rattle.std.specs.Cmp.{partial_equiv_from_equiv};

    ghost eq = { coded_eq the_row.coded };

    ghost laws = { partial_equiv_from_equiv (coded_eq-equiv the_row.coded) };

    #[tactic(auto, using(crate::specs::CodedEqual::decided))]
    fn eq(&self, other: &Expr) -> bool {
        self.same(other)
    }
}

impl Eq for Expr {
    ghost use Rattle.pipes_expr.specs.CodedEqual.{coded_eq, coded_eq-equiv};
    ghost use Rattle.pipes_expr.specs.contracts.expr.Expr.{the_row};

    ghost laws = { coded_eq-equiv the_row.coded };
}
