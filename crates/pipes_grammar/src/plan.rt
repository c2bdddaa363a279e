// Plans.
ghost use Rattle.std.specs.Prelude.{◌≡◌, ◌<◌, ◌^◌, IfOk, IfErr, IfSome, List, length};
ghost use Rattle.pipes_token.specs.declared.token.Token.{Token};
ghost use Rattle.pipes_plan.specs.declared.plan.Plan.{Plan};
ghost use Rattle.pipes_grammar.specs.Grammar as grammar;
ghost use Rattle.pipes_grammar.specs.Limits.{IsPlanText};
ghost use Rattle.pipes_reader.specs.Reading.{Gives, done};
ghost use Rattle.pipes_grammar.specs.Reading.{SentencePrefix};
ghost use Rattle.pipes_grammar.specs.PlanReading as spec;
ghost use Rattle.pipes_grammar.specs.Places.{PlanRefused};

use crate::start::{PlanStart, plan_start};
use crate::tokens::{after_close, after_comma, after_open};
use crate::{ParseFault, node};
use pipes_plan::Plan;
use pipes_reader::{place_of, ran_out, refused, too_deep};
use pipes_token::{Refusal, TextWhy, Token, TokenKind};
use pipes_tuple::Text;
use sqlite_items::Boxed;
use std::alloc::Global;

// The most levels of a plan.
const MOST_LEVELS: u32 = 32;

// The place of the first of the names that is this word.
fn place_named(names: &[Text], word: &Text) -> Option<usize>
    ensures value { result ≡ grammar.source_named names.now word.now }
    ensures bound { IfSome result (λ place. place < length names.now) }
{
    names.iter().position(|name| *word == *name)
}

/// The number of the first declared source with this name.
pub fn source_named(names: &[Text], word: &Text) -> Option<u32>
    requires { length names.now < 2 ^ 32 }
    ensures value { result ≡ grammar.source_named names.now word.now }
    ensures bound { IfSome result (λ number. number < length names.now) }
{
    match place_named(names, word) {
        Some(place) => Some(place as u32),
        None => None,
    }
}

// A plan that is the name of a source.
fn source_by<'a>(
    alloc: Global,
    names: &[Text],
    token: &Token,
    rest: &'a [Token],
) -> Result<(Boxed<Plan>, &'a [Token]), ParseFault>
    requires { length names.now < 2 ^ 32 }
    ensures { Gives (λ x. (x.0, x.1.now)) result (spec.source_by names.now token.now.kind
        token.now.at rest.now) }
{
    match &token.kind {
        TokenKind::Name(word) => match source_named(names, word) {
            Some(number) => Ok((node::source(alloc, number)?, rest)),
            None => Err(ParseFault::Refused(Refusal {
                at: token.at,
                why: TextWhy::Name,
            })),
        },
        _ => Err(ParseFault::Refused(refused(token))),
    }
}

// The one plan of a node, and its end.
#[cycle(plan)]
#[tactic(auto, unfolding(crate::specs::PlanReading::one_from))]
fn one_from<'a>(
    alloc: Global,
    names: &[Text],
    whole: usize,
    left: u32,
    tokens: &'a [Token],
) -> Result<(Boxed<Plan>, &'a [Token]), ParseFault>
    requires { length names.now < 2 ^ 32 }
    ensures { Gives (λ x. (x.0, x.1.now)) result (spec.one_from
        (spec.plan_within names.now left whole) tokens.now) }
{
    let (a, rest) = plan_within(alloc, names, whole, left, tokens)?;
    let rest = after_close(rest)?;
    Ok((a, rest))
}

// The two plans of a node, and its end.
#[cycle(plan)]
#[tactic(auto, unfolding(crate::specs::PlanReading::two_from))]
fn two_from<'a>(
    alloc: Global,
    names: &[Text],
    whole: usize,
    left: u32,
    tokens: &'a [Token],
) -> Result<(Boxed<Plan>, Boxed<Plan>, &'a [Token]), ParseFault>
    requires { length names.now < 2 ^ 32 }
    ensures { Gives (λ x. ((x.0, x.1), x.2.now)) result (spec.two_from
        (spec.plan_within names.now left whole) tokens.now) }
{
    let (a, rest) = plan_within(alloc, names, whole, left, tokens)?;
    let rest = after_comma(rest)?;
    let (b, rest) = plan_within(alloc, names, whole, left, rest)?;
    let rest = after_close(rest)?;
    Ok((a, b, rest))
}

#[cycle(plan)]
#[tactic(auto, unfolding(crate::specs::PlanReading::filter_from))]
fn filter_from<'a>(
    alloc: Global,
    names: &[Text],
    whole: usize,
    left: u32,
    tokens: &'a [Token],
) -> Result<(Boxed<Plan>, &'a [Token]), ParseFault>
    requires { length names.now < 2 ^ 32 }
    ensures { Gives (λ x. (x.0, x.1.now)) result (spec.filter_from
        (spec.plan_within names.now left whole) tokens.now) }
{
    let (condition, rest) = node::filter_head(alloc, tokens)?;
    let (a, rest) = one_from(alloc, names, whole, left, rest)?;
    Ok((node::filter(alloc, condition, a)?, rest))
}

#[cycle(plan)]
#[tactic(auto, unfolding(crate::specs::PlanReading::map_from))]
fn map_from<'a>(
    alloc: Global,
    names: &[Text],
    whole: usize,
    left: u32,
    tokens: &'a [Token],
) -> Result<(Boxed<Plan>, &'a [Token]), ParseFault>
    requires { length names.now < 2 ^ 32 }
    ensures { Gives (λ x. (x.0, x.1.now)) result (spec.map_from
        (spec.plan_within names.now left whole) tokens.now) }
{
    let (exprs, rest) = node::map_head(alloc, tokens)?;
    let (a, rest) = one_from(alloc, names, whole, left, rest)?;
    Ok((node::map(alloc, exprs, a)?, rest))
}

#[cycle(plan)]
#[tactic(auto, unfolding(crate::specs::PlanReading::union_from))]
fn union_from<'a>(
    alloc: Global,
    names: &[Text],
    whole: usize,
    left: u32,
    tokens: &'a [Token],
) -> Result<(Boxed<Plan>, &'a [Token]), ParseFault>
    requires { length names.now < 2 ^ 32 }
    ensures { Gives (λ x. (x.0, x.1.now)) result (spec.union_from
        (spec.plan_within names.now left whole) tokens.now) }
{
    let rest = after_open(tokens)?;
    let (a, b, rest) = two_from(alloc, names, whole, left, rest)?;
    Ok((node::union(alloc, a, b)?, rest))
}

#[cycle(plan)]
#[tactic(auto, unfolding(crate::specs::PlanReading::join_from))]
fn join_from<'a>(
    alloc: Global,
    names: &[Text],
    whole: usize,
    left: u32,
    tokens: &'a [Token],
) -> Result<(Boxed<Plan>, &'a [Token]), ParseFault>
    requires { length names.now < 2 ^ 32 }
    ensures { Gives (λ x. (x.0, x.1.now)) result (spec.join_from
        (spec.plan_within names.now left whole) tokens.now) }
{
    let (pairs, condition, rest) = node::join_head(alloc, tokens)?;
    let (a, b, rest) = two_from(alloc, names, whole, left, rest)?;
    Ok((node::join(alloc, pairs, condition, a, b)?, rest))
}

#[cycle(plan)]
#[tactic(auto, unfolding(crate::specs::PlanReading::distinct_from))]
fn distinct_from<'a>(
    alloc: Global,
    names: &[Text],
    whole: usize,
    left: u32,
    tokens: &'a [Token],
) -> Result<(Boxed<Plan>, &'a [Token]), ParseFault>
    requires { length names.now < 2 ^ 32 }
    ensures { Gives (λ x. (x.0, x.1.now)) result (spec.distinct_from
        (spec.plan_within names.now left whole) tokens.now) }
{
    let rest = after_open(tokens)?;
    let (a, rest) = one_from(alloc, names, whole, left, rest)?;
    Ok((node::distinct(alloc, a)?, rest))
}

#[cycle(plan)]
#[tactic(auto, unfolding(crate::specs::PlanReading::group_from))]
fn group_from<'a>(
    alloc: Global,
    names: &[Text],
    whole: usize,
    left: u32,
    tokens: &'a [Token],
) -> Result<(Boxed<Plan>, &'a [Token]), ParseFault>
    requires { length names.now < 2 ^ 32 }
    ensures { Gives (λ x. (x.0, x.1.now)) result (spec.group_from
        (spec.plan_within names.now left whole) tokens.now) }
{
    let (columns, aggs, rest) = node::group_head(alloc, tokens)?;
    let (a, rest) = one_from(alloc, names, whole, left, rest)?;
    Ok((node::group(alloc, columns, aggs, a)?, rest))
}

#[cycle(plan)]
#[tactic(auto, unfolding(crate::specs::PlanReading::minus_from))]
fn minus_from<'a>(
    alloc: Global,
    names: &[Text],
    whole: usize,
    left: u32,
    tokens: &'a [Token],
) -> Result<(Boxed<Plan>, &'a [Token]), ParseFault>
    requires { length names.now < 2 ^ 32 }
    ensures { Gives (λ x. (x.0, x.1.now)) result (spec.minus_from
        (spec.plan_within names.now left whole) tokens.now) }
{
    let rest = after_open(tokens)?;
    let (a, b, rest) = two_from(alloc, names, whole, left, rest)?;
    Ok((node::minus(alloc, a, b)?, rest))
}

// The plan at the start, with so many levels left, in one that begins at a place.
#[cycle(plan)]
#[tactic(auto, unfolding(crate::specs::PlanReading::plan_within, crate::specs::PlanReading::plan_layer))]
fn plan_within<'a>(
    alloc: Global,
    names: &[Text],
    whole: usize,
    left: u32,
    tokens: &'a [Token],
) -> Result<(Boxed<Plan>, &'a [Token]), ParseFault>
    requires { length names.now < 2 ^ 32 }
    ensures { Gives (λ x. (x.0, x.1.now)) result (spec.plan_within names.now left whole
        tokens.now) }
{
    if left == 0 {
        return Err(ParseFault::Refused(too_deep(whole, tokens)));
    }
    match tokens {
        [] => Err(ParseFault::Refused(ran_out())),
        [token, rest @ ..] => match plan_start(&token.kind) {
            PlanStart::Source => source_by(alloc, names, token, rest),
            PlanStart::Filter => filter_from(alloc, names, whole, left - 1, rest),
            PlanStart::Map => map_from(alloc, names, whole, left - 1, rest),
            PlanStart::Union => union_from(alloc, names, whole, left - 1, rest),
            PlanStart::Join => join_from(alloc, names, whole, left - 1, rest),
            PlanStart::Distinct => distinct_from(alloc, names, whole, left - 1, rest),
            PlanStart::Group => group_from(alloc, names, whole, left - 1, rest),
            PlanStart::Minus => minus_from(alloc, names, whole, left - 1, rest),
        },
    }
}

// A whole plan.
#[tactic(auto, unfolding(crate::specs::PlanReading::parse_plan))]
fn parse_plan<'a>(
    alloc: Global,
    names: &[Text],
    tokens: &'a [Token],
) -> Result<(Plan, &'a [Token]), ParseFault>
    requires { length names.now < 2 ^ 32 }
    ensures { Gives (λ x. (x.0, x.1.now)) result (spec.parse_plan names.now tokens.now) }
{
    let (plan, rest) = plan_within(alloc, names, place_of(tokens), MOST_LEVELS, tokens)?;
    Ok((plan.into_inner(), rest))
}

/// The plan at the start, over declared sources with these names, and the tokens after it.
#[tactic(auto, using(crate::proofs::WholePlans::plan_found, crate::proofs::WholePlans::plan_refused))]
pub fn read_plan<'a>(
    alloc: Global,
    names: &[Text],
    tokens: &'a [Token],
) -> Result<(Plan, &'a [Token]), ParseFault>
    requires { length names.now < 2 ^ 32 }
    // What is read is spelled by the tokens before the rest.
    ensures found { IfOk result
        (λ x. SentencePrefix (IsPlanText names.now) x.0 tokens.now x.1.now) }
    // What is spelled so is read, unless memory runs out.
    ensures only { (p : Plan) (rest : List Token)
        → SentencePrefix (IsPlanText names.now) p tokens.now rest
        → Gives (λ x. (x.0, x.1.now)) result (done p rest) }
    // Where a source is declared by a name that texts have, a refusal comes at the first token with
    // which no plan goes on.
    ensures first { grammar.HasSourceName names.now
        → IfErr result (λ fault. PlanRefused names.now (spec.parse_plan names.now) tokens.now
        fault) }
    // Which refusal it is.
    ensures exact { Gives (λ x. (x.0, x.1.now)) result (spec.parse_plan names.now tokens.now) }
{
    parse_plan(alloc, names, tokens)
}
