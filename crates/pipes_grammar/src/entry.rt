// The entries of the lists in plans.
ghost use Rattle.std.specs.Prelude.{◌≡◌};
ghost use Rattle.pipes_relation.specs.declared.lists.Agg.TheVariants as agg;
ghost use Rattle.pipes_reader.specs.Reading.{Gives};
ghost use Rattle.pipes_grammar.specs.ExprReading as exprs;
ghost use Rattle.pipes_grammar.specs.ListReading as spec;

use crate::ParseFault;
use crate::expr::{parse_expr, read_column};
use crate::list::Entry;
use crate::start::{AggStart, agg_start};
use crate::tokens::after_equal;
use pipes_plan::{Agg, Expr, Pair};
use pipes_reader::{ran_out, refused};
use pipes_token::Token;
use std::alloc::Global;

#[tactic(auto, unfolding(crate::specs::ListReading::read_pair))]
fn read_pair(tokens: &[Token]) -> Result<(Pair, &[Token]), ParseFault>
    ensures { Gives (λ x. (x.0, x.1.now)) result (spec.read_pair tokens.now) }
{
    let (left, rest) = read_column(tokens)?;
    let rest = after_equal(rest)?;
    let (right, rest) = read_column(rest)?;
    Ok((Pair { left, right }, rest))
}

#[tactic(auto, unfolding(crate::specs::ListReading::agg_of))]
fn read_sum(tokens: &[Token]) -> Result<(Agg, &[Token]), ParseFault>
    ensures { Gives (λ x. (x.0, x.1.now)) result (spec.agg_of (λ i. agg.Sum i) tokens.now) }
{
    let (column, rest) = read_column(tokens)?;
    Ok((Agg::Sum(column), rest))
}

#[tactic(auto, unfolding(crate::specs::ListReading::agg_of))]
fn read_min(tokens: &[Token]) -> Result<(Agg, &[Token]), ParseFault>
    ensures { Gives (λ x. (x.0, x.1.now)) result (spec.agg_of (λ i. agg.Min i) tokens.now) }
{
    let (column, rest) = read_column(tokens)?;
    Ok((Agg::Min(column), rest))
}

#[tactic(auto, unfolding(crate::specs::ListReading::agg_of))]
fn read_max(tokens: &[Token]) -> Result<(Agg, &[Token]), ParseFault>
    ensures { Gives (λ x. (x.0, x.1.now)) result (spec.agg_of (λ i. agg.Max i) tokens.now) }
{
    let (column, rest) = read_column(tokens)?;
    Ok((Agg::Max(column), rest))
}

#[tactic(auto, unfolding(crate::specs::ListReading::agg_of))]
fn read_avg(tokens: &[Token]) -> Result<(Agg, &[Token]), ParseFault>
    ensures { Gives (λ x. (x.0, x.1.now)) result (spec.agg_of (λ i. agg.Avg i) tokens.now) }
{
    let (column, rest) = read_column(tokens)?;
    Ok((Agg::Avg(column), rest))
}

#[tactic(auto, unfolding(crate::specs::ListReading::read_agg))]
fn read_agg(tokens: &[Token]) -> Result<(Agg, &[Token]), ParseFault>
    ensures { Gives (λ x. (x.0, x.1.now)) result (spec.read_agg tokens.now) }
{
    match tokens {
        [] => Err(ParseFault::Refused(ran_out())),
        [token, rest @ ..] => match agg_start(&token.kind) {
            AggStart::Count => Ok((Agg::Count, rest)),
            AggStart::Sum => read_sum(rest),
            AggStart::Min => read_min(rest),
            AggStart::Max => read_max(rest),
            AggStart::Avg => read_avg(rest),
            AggStart::Other => Err(ParseFault::Refused(refused(token))),
        },
    }
}

impl Entry for Expr {
    ghost entry = { exprs.parse_expr };

    fn read(alloc: Global, tokens: &[Token]) -> Result<(Expr, &[Token]), ParseFault> {
        parse_expr(alloc, tokens)
    }
}

/// A column's number.
impl Entry for u32 {
    ghost entry = { exprs.read_column };

    fn read(_alloc: Global, tokens: &[Token]) -> Result<(u32, &[Token]), ParseFault> {
        read_column(tokens)
    }
}

impl Entry for Pair {
    ghost entry = { spec.read_pair };

    fn read(_alloc: Global, tokens: &[Token]) -> Result<(Pair, &[Token]), ParseFault> {
        read_pair(tokens)
    }
}

impl Entry for Agg {
    ghost entry = { spec.read_agg };

    fn read(_alloc: Global, tokens: &[Token]) -> Result<(Agg, &[Token]), ParseFault> {
        read_agg(tokens)
    }
}
