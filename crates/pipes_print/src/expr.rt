// Expressions.
ghost use Rattle.std.specs.Prelude.{◌≡◌, ◌++◌, List, OnOk, OnErr, codes};
ghost use Rattle.pipes_token.specs.declared.token.TokenKind.{TokenKind as AKind};
ghost use Rattle.pipes_grammar.specs.Limits.{IsExprText, AreExprsText};
ghost use Rattle.pipes_print.specs.ExprText.{op_text, sides_text, expr_text, list_text};
ghost use Rattle.pipes_print.specs.Printed.{AreSpelled, ExprPrinted, ExprsPrinted};
ghost use Rattle.pipes_print.specs.Writable.{IsWritableExpr, AreWritableExprs};

use crate::list::{Entry, push_list};
use pipes_plan::{Expr, Op};
use pipes_time::Memory;
use pipes_tuple::{append, append_number};

/// Appends the text of the expression. After out of memory `out` is as before.
#[tactic(auto, using(crate::proofs::WritablePlans::expr_printed, crate::proofs::WritablePlans::expr_writable))]
pub fn print_expr(expr: &Expr, out: &mut Vec<u8>) -> Result<(), Memory>
    ensures ok { OnOk result (out.new.items ≡ out.old.items ++ expr_text expr.now) }
    ensures err { OnErr result (out.new.items ≡ out.old.items) }
    // What is printed of a writable expression is read back, wherever it is written.
    ensures read_back { IsWritableExpr expr.now → ExprPrinted expr.now }
    // An expression that some text has is writable.
    ensures writable { (kinds : List AKind) → IsExprText expr.now kinds → AreSpelled kinds
        → IsWritableExpr expr.now }
{
    let mut text = Vec::new(*out.allocator());
    push_expr(expr, &mut text)?;
    append(text.as_slice(), out)
}

/// Appends the text of the list of expressions, in brackets. After out of memory `out` is as
/// before.
#[tactic(auto, using(crate::proofs::WritablePlans::exprs_printed, crate::proofs::WritablePlans::exprs_writable))]
pub fn print_exprs(exprs: &[Expr], out: &mut Vec<u8>) -> Result<(), Memory>
    ensures ok { OnOk result (out.new.items ≡ out.old.items ++ list_text expr_text exprs.now) }
    ensures err { OnErr result (out.new.items ≡ out.old.items) }
    // What is printed of writable expressions is read back, wherever it is written.
    ensures read_back { AreWritableExprs exprs.now → ExprsPrinted exprs.now }
    // Expressions that some text has are writable.
    ensures writable { (kinds : List AKind) → AreExprsText exprs.now kinds → AreSpelled kinds
        → AreWritableExprs exprs.now }
{
    let mut text = Vec::new(*out.allocator());
    push_list(exprs, &mut text)?;
    append(text.as_slice(), out)
}

impl Entry for Expr {
    ghost use Rattle.pipes_print.specs.ExprText.{expr_text};

    ghost text = { expr_text };

    fn push_to(&self, out: &mut Vec<u8>) -> Result<(), Memory> {
        push_expr(self, out)
    }
}

// Appends the text of the expression.
#[cycle(push)]
pub(crate) fn push_expr(expr: &Expr, out: &mut Vec<u8>) -> Result<(), Memory>
    ensures { OnOk result (out.new.items ≡ out.old.items ++ expr_text expr.now) }
{
    match expr {
        Expr::Col(column) => {
            append(b"$", out)?;
            append_number(u64::from(*column), out)
        }
        Expr::Literal(value) => value.print(out),
        Expr::Binary(op, a, b) => push_sides(a.get(), *op, b.get(), out),
        Expr::Not(a) => {
            append(b"not ", out)?;
            push_expr(a.get(), out)
        }
    }
}

// Appends two sides in brackets.
#[cycle(push)]
fn push_sides(a: &Expr, op: Op, b: &Expr, out: &mut Vec<u8>) -> Result<(), Memory>
    ensures { OnOk result (out.new.items ≡ out.old.items ++ sides_text op (expr_text a.now)
        (expr_text b.now)) }
{
    append(b"(", out)?;
    push_expr(a, out)?;
    append(between(op), out)?;
    push_expr(b, out)?;
    append(b")", out)
}

// What stands between the two sides.
fn between(op: Op) -> &'static [u8]
    ensures { result.now ≡ op_text op }
{
    match op {
        Op::Add => b" + ",
        Op::Sub => b" - ",
        Op::Mul => b" * ",
        Op::Eq => b" = ",
        Op::Lt => b" < ",
        Op::Le => b" <= ",
        Op::And => b" and ",
        Op::Or => b" or ",
    }
}
