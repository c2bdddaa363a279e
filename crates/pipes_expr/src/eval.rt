// The values of expressions.
ghost use Rattle.std.specs.Prelude.{◌≡◌, ◌++◌, IfOk};
ghost use Rattle.pipes_expr.specs.ExprValue.{value_of, column, op_value, passes};
ghost use Rattle.pipes_expr.specs.Seen.{value_seen};

use crate::{Expr, Op, Seen};
use pipes_time::Memory;
use pipes_tuple::{Tuple, Value};

impl Expr {
    /// The value of the expression on the row; false where the expression isn't typed for it.
    #[tactic(auto, using(crate::proofs::ConcatenatedRows::alone))]
    pub fn value(&self, row: &Tuple) -> Result<Value, Memory>
        ensures { IfOk result (λ value. value ≡ value_of self.now row.now) }
    {
        look(self, row.as_slice(), &[]).copied()
    }

    /// Whether the expression is true on the row. Takes no memory.
    #[tactic(auto, using(crate::proofs::ConcatenatedRows::alone))]
    pub fn test(&self, row: &Tuple) -> bool
        ensures { result ≡ passes self.now row.now }
    {
        look(self, row.as_slice(), &[]).is_true()
    }

    /// Whether the expression is true on the columns of the left row and then those of the right
    /// one. Takes no memory.
    pub fn test_both(&self, left: &Tuple, right: &Tuple) -> bool
        ensures { result ≡ passes self.now (left.now ++ right.now) }
    {
        look(self, left.as_slice(), right.as_slice()).is_true()
    }
}

// The value of the expression on the columns of two rows, the left one's first.
#[cycle(look)]
fn look<'a>(expr: &'a Expr, left: &'a [Value], right: &'a [Value]) -> Seen<'a>
    ensures { value_seen result ≡ value_of expr.now (left.now ++ right.now) }
{
    match expr {
        Expr::Col(i) => column_of(left, right, *i as usize),
        Expr::Literal(value) => Seen::of(value),
        Expr::Binary(op, a, b) => {
            apply(
                *op,
                look_in(a.get(), left, right),
                look_in(b.get(), left, right),
            )
        }
        Expr::Not(a) => Seen::Flag(!look_in(a.get(), left, right).is_true()),
    }
}

// The same for a part of an expression. Most parts are columns and literals, which are read here,
// without a call.
#[cycle(look)]
#[inline(always)]
fn look_in<'a>(part: &'a Expr, left: &'a [Value], right: &'a [Value]) -> Seen<'a>
    ensures { value_seen result ≡ value_of part.now (left.now ++ right.now) }
{
    match part {
        Expr::Col(i) => column_of(left, right, *i as usize),
        Expr::Literal(value) => Seen::of(value),
        _ => look(part, left, right),
    }
}

// The value in the column of two rows, the left one's first, and false where there is none.
#[inline(always)]
#[tactic(auto, using(crate::proofs::ConcatenatedRows::columns))]
fn column_of<'a>(left: &'a [Value], right: &'a [Value], i: usize) -> Seen<'a>
    ensures { value_seen result ≡ column (left.now ++ right.now) i }
{
    if i < left.len() {
        Seen::at(left, i)
    } else {
        Seen::at(right, i - left.len())
    }
}

// What the operator makes of two values. Numbers are compared without a call.
#[inline(always)]
#[tactic(auto, using(crate::proofs::Comparisons::equal_by_order))]
fn apply<'a>(op: Op, a: Seen<'_>, b: Seen<'_>) -> Seen<'a>
    ensures { value_seen result ≡ op_value op (value_seen a.entry) (value_seen b.entry) }
{
    match (op, a, b) {
        (Op::Add, Seen::Int(m), Seen::Int(n)) => Seen::Int(m.saturating_add(n)),
        (Op::Sub, Seen::Int(m), Seen::Int(n)) => Seen::Int(m.saturating_sub(n)),
        (Op::Mul, Seen::Int(m), Seen::Int(n)) => Seen::Int(m.saturating_mul(n)),
        (Op::Add | Op::Sub | Op::Mul, _, _) => Seen::Flag(false),
        (Op::Eq, Seen::Int(m), Seen::Int(n)) => Seen::Flag(m == n),
        (Op::Lt, Seen::Int(m), Seen::Int(n)) => Seen::Flag(m < n),
        (Op::Le, Seen::Int(m), Seen::Int(n)) => Seen::Flag(m <= n),
        (Op::Eq, a, b) => Seen::Flag(a.order(b).is_eq()),
        (Op::Lt, a, b) => Seen::Flag(a.order(b).is_lt()),
        (Op::Le, a, b) => Seen::Flag(a.order(b).is_le()),
        (Op::And, a, b) => Seen::Flag(a.is_true() && b.is_true()),
        (Op::Or, a, b) => Seen::Flag(a.is_true() || b.is_true()),
    }
}
