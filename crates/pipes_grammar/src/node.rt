// What stands in the nodes of plans beside their plans, and the nodes made of it.
ghost use Rattle.std.specs.Prelude.{◌≡◌, IfOk};
ghost use Rattle.pipes_plan.specs.declared.plan.Plan.TheVariants as plan;
ghost use Rattle.pipes_reader.specs.Reading.{Gives};
ghost use Rattle.pipes_grammar.specs.ListReading as lists;
ghost use Rattle.pipes_grammar.specs.PlanReading as spec;

use crate::ParseFault;
use crate::expr::parse_expr;
use crate::list::{filled_from, list_from};
use crate::tokens::{after_comma, after_open};
use pipes_plan::{Aggs, Expr, Exprs, Pairs, Plan};
use pipes_time::Memory;
use pipes_token::Token;
use pipes_tuple::Cols;
use sqlite_items::Boxed;
use std::alloc::Global;

#[tactic(auto, unfolding(crate::specs::ListReading::parse_exprs))]
pub fn parse_exprs(alloc: Global, tokens: &[Token]) -> Result<(Exprs, &[Token]), ParseFault>
    ensures { Gives (λ x. (x.0, x.1.now)) result (lists.parse_exprs tokens.now) }
{
    filled_from::<Expr>(alloc, tokens)
}

#[tactic(auto, unfolding(crate::specs::ListReading::parse_pairs))]
fn parse_pairs(alloc: Global, tokens: &[Token]) -> Result<(Pairs, &[Token]), ParseFault>
    ensures { Gives (λ x. (x.0, x.1.now)) result (lists.parse_pairs tokens.now) }
{
    list_from(alloc, tokens)
}

#[tactic(auto, unfolding(crate::specs::ListReading::parse_columns))]
fn parse_columns(alloc: Global, tokens: &[Token]) -> Result<(Cols, &[Token]), ParseFault>
    ensures { Gives (λ x. (x.0, x.1.now)) result (lists.parse_columns tokens.now) }
{
    list_from(alloc, tokens)
}

#[tactic(auto, unfolding(crate::specs::ListReading::parse_aggs))]
fn parse_aggs(alloc: Global, tokens: &[Token]) -> Result<(Aggs, &[Token]), ParseFault>
    ensures { Gives (λ x. (x.0, x.1.now)) result (lists.parse_aggs tokens.now) }
{
    list_from(alloc, tokens)
}

// The condition of a filter, between `(` and `,`.
#[tactic(auto, unfolding(crate::specs::PlanReading::filter_head))]
pub fn filter_head(alloc: Global, tokens: &[Token]) -> Result<(Expr, &[Token]), ParseFault>
    ensures { Gives (λ x. (x.0, x.1.now)) result (spec.filter_head tokens.now) }
{
    let rest = after_open(tokens)?;
    let (condition, rest) = parse_expr(alloc, rest)?;
    let rest = after_comma(rest)?;
    Ok((condition, rest))
}

// The expressions of a map, between `(` and `,`.
#[tactic(auto, unfolding(crate::specs::PlanReading::map_head))]
pub fn map_head(alloc: Global, tokens: &[Token]) -> Result<(Exprs, &[Token]), ParseFault>
    ensures { Gives (λ x. (x.0, x.1.now)) result (spec.map_head tokens.now) }
{
    let rest = after_open(tokens)?;
    let (exprs, rest) = parse_exprs(alloc, rest)?;
    let rest = after_comma(rest)?;
    Ok((exprs, rest))
}

// The pairs and the condition of a join, between `(` and `,`.
#[tactic(auto, unfolding(crate::specs::PlanReading::join_head))]
pub fn join_head(alloc: Global, tokens: &[Token]) -> Result<(Pairs, Expr, &[Token]), ParseFault>
    ensures { Gives (λ x. ((x.0, x.1), x.2.now)) result (spec.join_head tokens.now) }
{
    let rest = after_open(tokens)?;
    let (pairs, rest) = parse_pairs(alloc, rest)?;
    let rest = after_comma(rest)?;
    let (condition, rest) = parse_expr(alloc, rest)?;
    let rest = after_comma(rest)?;
    Ok((pairs, condition, rest))
}

// The columns and the aggregates of a group, between `(` and `,`.
#[tactic(auto, unfolding(crate::specs::PlanReading::group_head))]
pub fn group_head(alloc: Global, tokens: &[Token]) -> Result<(Cols, Aggs, &[Token]), ParseFault>
    ensures { Gives (λ x. ((x.0, x.1), x.2.now)) result (spec.group_head tokens.now) }
{
    let rest = after_open(tokens)?;
    let (columns, rest) = parse_columns(alloc, rest)?;
    let rest = after_comma(rest)?;
    let (aggs, rest) = parse_aggs(alloc, rest)?;
    let rest = after_comma(rest)?;
    Ok((columns, aggs, rest))
}

pub fn source(alloc: Global, number: u32) -> Result<Boxed<Plan>, Memory>
    ensures { IfOk result (λ p. p ≡ plan.Source number) }
{
    Ok(Boxed::new(alloc, Plan::Source(number))?)
}

pub fn filter(alloc: Global, condition: Expr, a: Boxed<Plan>) -> Result<Boxed<Plan>, Memory>
    ensures { IfOk result (λ p. p ≡ plan.Filter condition a) }
{
    Ok(Boxed::new(alloc, Plan::Filter(condition, a))?)
}

pub fn map(alloc: Global, exprs: Exprs, a: Boxed<Plan>) -> Result<Boxed<Plan>, Memory>
    ensures { IfOk result (λ p. p ≡ plan.Map exprs a) }
{
    Ok(Boxed::new(alloc, Plan::Map(exprs, a))?)
}

pub fn union(alloc: Global, a: Boxed<Plan>, b: Boxed<Plan>) -> Result<Boxed<Plan>, Memory>
    ensures { IfOk result (λ p. p ≡ plan.Union a b) }
{
    Ok(Boxed::new(alloc, Plan::Union(a, b))?)
}

pub fn join(
    alloc: Global,
    pairs: Pairs,
    condition: Expr,
    a: Boxed<Plan>,
    b: Boxed<Plan>,
) -> Result<Boxed<Plan>, Memory>
    ensures { IfOk result (λ p. p ≡ plan.Join pairs condition a b) }
{
    Ok(Boxed::new(alloc, Plan::Join(pairs, condition, a, b))?)
}

pub fn distinct(alloc: Global, a: Boxed<Plan>) -> Result<Boxed<Plan>, Memory>
    ensures { IfOk result (λ p. p ≡ plan.Distinct a) }
{
    Ok(Boxed::new(alloc, Plan::Distinct(a))?)
}

pub fn group(
    alloc: Global,
    columns: Cols,
    aggs: Aggs,
    a: Boxed<Plan>,
) -> Result<Boxed<Plan>, Memory>
    ensures { IfOk result (λ p. p ≡ plan.Group columns aggs a) }
{
    Ok(Boxed::new(alloc, Plan::Group(columns, aggs, a))?)
}

pub fn minus(alloc: Global, a: Boxed<Plan>, b: Boxed<Plan>) -> Result<Boxed<Plan>, Memory>
    ensures { IfOk result (λ p. p ≡ plan.Minus a b) }
{
    Ok(Boxed::new(alloc, Plan::Minus(a, b))?)
}
