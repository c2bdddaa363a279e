// The kinds of expressions.
ghost use Rattle.std.specs.Prelude.{◌≡◌, slice_get};
ghost use Rattle.pipes_expr.specs.ExprKind.{expr_kind, op_kind, not_kind};
ghost use Rattle.pipes_expr.specs.ExprWhys.{expr_whys, column_whys};
ghost use Rattle.pipes_expr.specs.Outcomes.{Settles, kind_or, kind_or_why, result_two, result_one};

use crate::size::{MOST_DEPTH, MOST_NODES};
use crate::{Expr, Op, Why};
use pipes_tuple::Kind;

impl Expr {
    /// The kind of the expression over columns of these kinds, or its first refusal: TooMany, then
    /// TooDeep, and then, its children first and the left one before the right one, NoColumn and
    /// WrongKind.
    pub fn check(&self, kinds: &[Kind]) -> Result<Kind, Why>
        ensures { Settles result (expr_whys kinds.now self.now) (expr_kind self.now kinds.now) }
    {
        if self.spend(MOST_NODES).is_none() {
            return Err(Why::TooMany);
        }
        if !self.is_within(MOST_DEPTH) {
            return Err(Why::TooDeep);
        }
        read_expr(self, kinds)
    }
}

// The kind of an expression, or the first refusal in it.
fn read_expr(expr: &Expr, kinds: &[Kind]) -> Result<Kind, Why>
    ensures { result ≡ kind_or_why expr.now kinds.now }
{
    match expr {
        Expr::Col(i) => column_kind(*i, kinds),
        Expr::Literal(value) => Ok(value.kind()),
        Expr::Binary(op, a, b) => {
            operated(*op, read_expr(a.get(), kinds), read_expr(b.get(), kinds))
        }
        Expr::Not(a) => negated(read_expr(a.get(), kinds)),
    }
}

/// The kind of the column, or NoColumn exactly where it isn't there.
pub fn column_kind(i: u32, kinds: &[Kind]) -> Result<Kind, Why>
    ensures value { result ≡ kind_or Why.NoColumn (slice_get kinds.now i) }
    ensures settles { Settles result (column_whys kinds.now i) (slice_get kinds.now i) }
{
    match kinds.get(i as usize) {
        Some(kind) => Ok(*kind),
        None => Err(Why::NoColumn),
    }
}

// The kind of what the operator makes, where both sides have kinds that suit it.
fn operated(op: Op, a: Result<Kind, Why>, b: Result<Kind, Why>) -> Result<Kind, Why>
    ensures { result ≡ result_two (op_kind op) a b }
{
    let a = a?;
    let b = b?;
    match kind_of_op(op, a, b) {
        Some(kind) => Ok(kind),
        None => Err(Why::WrongKind),
    }
}

// The operator's kind on sides of these kinds.
fn kind_of_op(op: Op, a: Kind, b: Kind) -> Option<Kind>
    ensures { result ≡ op_kind op a b }
{
    match (op, a, b) {
        (Op::Add | Op::Sub | Op::Mul, Kind::Int, Kind::Int) => Some(Kind::Int),
        (Op::Eq | Op::Lt | Op::Le, Kind::Int, Kind::Int) => Some(Kind::Flag),
        (Op::Eq | Op::Lt | Op::Le, Kind::Text, Kind::Text) => Some(Kind::Flag),
        (Op::Eq | Op::Lt | Op::Le, Kind::Flag, Kind::Flag) => Some(Kind::Flag),
        (Op::And | Op::Or, Kind::Flag, Kind::Flag) => Some(Kind::Flag),
        _ => None,
    }
}

fn negated(a: Result<Kind, Why>) -> Result<Kind, Why>
    ensures { result ≡ result_one not_kind a }
{
    match a? {
        Kind::Flag => Ok(Kind::Flag),
        _ => Err(Why::WrongKind),
    }
}
