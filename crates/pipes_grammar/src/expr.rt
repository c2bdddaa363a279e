// Expressions.
ghost use Rattle.std.specs.Prelude.{◌≡◌, IfOk, IfErr, List};
ghost use Rattle.pipes_token.specs.declared.token.Token.{Token};
ghost use Rattle.pipes_expr.specs.declared.expr.Expr.{Expr};
ghost use Rattle.pipes_grammar.specs.Limits.{IsExprText};
ghost use Rattle.pipes_reader.specs.Reading.{Gives, done};
ghost use Rattle.pipes_grammar.specs.Reading.{SentencePrefix};
ghost use Rattle.pipes_grammar.specs.ExprReading as spec;
ghost use Rattle.pipes_grammar.specs.Places.{ExprRefused};

use crate::ParseFault;
use crate::op::op_of;
use crate::start::{ExprStart, expr_start};
use crate::tokens::{after_close, out_of_range};
use pipes_plan::{Expr, Op};
use pipes_reader::{place_of, ran_out, refused, too_deep};
use pipes_token::{Token, TokenKind};
use pipes_tuple::Value;
use sqlite_items::Boxed;
use std::alloc::Global;

// The most levels of an expression.
const MOST_LEVELS: u32 = 32;

// One more than the greatest number of a column.
const COLUMNS: u64 = 32;

// What no integer reaches.
const END_OF_INTS: u64 = 1 << 63;

// A column's number.
#[tactic(auto, unfolding(crate::specs::ExprReading::read_column))]
pub fn read_column(tokens: &[Token]) -> Result<(u32, &[Token]), ParseFault>
    ensures { Gives (λ x. (x.0, x.1.now)) result (spec.read_column tokens.now) }
{
    match tokens {
        [] => Err(ParseFault::Refused(ran_out())),
        [token, rest @ ..] => match token.kind {
            TokenKind::Number(n) => {
                if n < COLUMNS {
                    Ok((n as u32, rest))
                } else {
                    Err(out_of_range(token))
                }
            }
            _ => Err(ParseFault::Refused(refused(token))),
        },
    }
}

// A number after a minus sign.
#[tactic(auto, unfolding(crate::specs::ExprReading::read_negative))]
fn read_negative(tokens: &[Token]) -> Result<(i64, &[Token]), ParseFault>
    ensures { Gives (λ x. (x.0, x.1.now)) result (spec.read_negative tokens.now) }
{
    match tokens {
        [] => Err(ParseFault::Refused(ran_out())),
        [token, rest @ ..] => match token.kind {
            TokenKind::Number(n) => {
                if n < END_OF_INTS {
                    Ok((-(n as i64), rest))
                } else if n == END_OF_INTS {
                    Ok((i64::MIN, rest))
                } else {
                    Err(out_of_range(token))
                }
            }
            _ => Err(ParseFault::Refused(refused(token))),
        },
    }
}

#[tactic(auto, unfolding(crate::specs::ExprReading::read_op))]
fn read_op(tokens: &[Token]) -> Result<(Op, &[Token]), ParseFault>
    ensures { Gives (λ x. (x.0, x.1.now)) result (spec.read_op tokens.now) }
{
    match tokens {
        [] => Err(ParseFault::Refused(ran_out())),
        [token, rest @ ..] => match op_of(&token.kind) {
            Some(op) => Ok((op, rest)),
            None => Err(ParseFault::Refused(refused(token))),
        },
    }
}

// What stands after `(`.
#[cycle(expr)]
#[tactic(auto, unfolding(crate::specs::ExprReading::pair_from))]
fn pair_from(
    alloc: Global,
    whole: usize,
    left: u32,
    tokens: &[Token],
) -> Result<(Expr, &[Token]), ParseFault>
    ensures { Gives (λ x. (x.0, x.1.now)) result (spec.pair_from (spec.expr_within left whole)
        tokens.now) }
{
    let (a, rest) = expr_within(alloc, whole, left, tokens)?;
    let (op, rest) = read_op(rest)?;
    let (b, rest) = expr_within(alloc, whole, left, rest)?;
    let rest = after_close(rest)?;
    let a = Boxed::new(alloc, a)?;
    let b = Boxed::new(alloc, b)?;
    Ok((Expr::Binary(op, a, b), rest))
}

// What stands after `not`.
#[cycle(expr)]
#[tactic(auto, unfolding(crate::specs::ExprReading::not_from))]
fn not_from(
    alloc: Global,
    whole: usize,
    left: u32,
    tokens: &[Token],
) -> Result<(Expr, &[Token]), ParseFault>
    ensures { Gives (λ x. (x.0, x.1.now)) result (spec.not_from (spec.expr_within left whole)
        tokens.now) }
{
    let (a, rest) = expr_within(alloc, whole, left, tokens)?;
    Ok((Expr::Not(Boxed::new(alloc, a)?), rest))
}

#[tactic(auto, unfolding(crate::specs::ExprReading::column_expr))]
fn column_expr(tokens: &[Token]) -> Result<(Expr, &[Token]), ParseFault>
    ensures { Gives (λ x. (x.0, x.1.now)) result (spec.column_expr tokens.now) }
{
    let (column, rest) = read_column(tokens)?;
    Ok((Expr::Col(column), rest))
}

#[tactic(auto, unfolding(crate::specs::ExprReading::negative_expr))]
fn negative_expr(tokens: &[Token]) -> Result<(Expr, &[Token]), ParseFault>
    ensures { Gives (λ x. (x.0, x.1.now)) result (spec.negative_expr tokens.now) }
{
    let (number, rest) = read_negative(tokens)?;
    Ok((Expr::Literal(Value::Int(number)), rest))
}

// An expression of one token.
fn leaf_by<'a>(token: &Token, rest: &'a [Token]) -> Result<(Expr, &'a [Token]), ParseFault>
    ensures { Gives (λ x. (x.0, x.1.now)) result (spec.leaf_by token.now.kind token.now.at
        rest.now) }
{
    match &token.kind {
        TokenKind::Number(n) => {
            if *n < END_OF_INTS {
                Ok((Expr::Literal(Value::Int(*n as i64)), rest))
            } else {
                Err(out_of_range(token))
            }
        }
        TokenKind::Text(text) => Ok((Expr::Literal(Value::Text(text.copy()?)), rest)),
        TokenKind::Cut(refusal) => Err(ParseFault::Refused(*refusal)),
        _ => Err(ParseFault::Refused(refused(token))),
    }
}

// The expression at the start, with so many levels left, in one that begins at a place.
#[cycle(expr)]
#[tactic(auto, unfolding(crate::specs::ExprReading::expr_within, crate::specs::ExprReading::expr_layer))]
fn expr_within(
    alloc: Global,
    whole: usize,
    left: u32,
    tokens: &[Token],
) -> Result<(Expr, &[Token]), ParseFault>
    ensures { Gives (λ x. (x.0, x.1.now)) result (spec.expr_within left whole tokens.now) }
{
    if left == 0 {
        return Err(ParseFault::Refused(too_deep(whole, tokens)));
    }
    match tokens {
        [] => Err(ParseFault::Refused(ran_out())),
        [token, rest @ ..] => match expr_start(&token.kind) {
            ExprStart::Pair => pair_from(alloc, whole, left - 1, rest),
            ExprStart::Not => not_from(alloc, whole, left - 1, rest),
            ExprStart::Column => column_expr(rest),
            ExprStart::Negative => negative_expr(rest),
            ExprStart::Flag(flag) => Ok((Expr::Literal(Value::Flag(flag)), rest)),
            ExprStart::Leaf => leaf_by(token, rest),
        },
    }
}

// A whole expression.
#[tactic(auto, unfolding(crate::specs::ExprReading::parse_expr))]
pub fn parse_expr(alloc: Global, tokens: &[Token]) -> Result<(Expr, &[Token]), ParseFault>
    ensures { Gives (λ x. (x.0, x.1.now)) result (spec.parse_expr tokens.now) }
{
    expr_within(alloc, place_of(tokens), MOST_LEVELS, tokens)
}

/// The expression at the start, and the tokens after it.
#[tactic(auto, using(crate::proofs::WholeExprs::expr_found, crate::proofs::WholeExprs::expr_refused))]
pub fn read_expr(alloc: Global, tokens: &[Token]) -> Result<(Expr, &[Token]), ParseFault>
    // What is read is spelled by the tokens before the rest.
    ensures found { IfOk result (λ x. SentencePrefix IsExprText x.0 tokens.now x.1.now) }
    // What is spelled so is read, unless memory runs out.
    ensures only { (e : Expr) (rest : List Token) → SentencePrefix IsExprText e tokens.now rest
        → Gives (λ x. (x.0, x.1.now)) result (done e rest) }
    // A refusal comes at the first token with which no expression goes on.
    ensures first { IfErr result (λ fault. ExprRefused spec.parse_expr tokens.now fault) }
    // Which refusal it is.
    ensures exact { Gives (λ x. (x.0, x.1.now)) result (spec.parse_expr tokens.now) }
{
    parse_expr(alloc, tokens)
}
