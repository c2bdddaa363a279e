// By which token an expression, an aggregate or a plan begins.
ghost use Rattle.std.specs.Prelude.{◌≡◌};
ghost use Rattle.pipes_grammar.specs.ExprReading as exprs;
ghost use Rattle.pipes_grammar.specs.ListReading as lists;
ghost use Rattle.pipes_grammar.specs.PlanReading as plans;

use pipes_token::{Keyword, Sign, TokenKind};

/// How an expression begins.
#[derive(Clone, Copy, Debug, PartialEq, Eq)]
pub enum ExprStart {
    /// With `(`.
    Pair,
    /// With `not`.
    Not,
    /// With `$`.
    Column,
    /// With `-`.
    Negative,
    /// With `true` or `false`.
    Flag(bool),
    /// With another token: a number, a string, or one that begins no expression.
    Leaf,
}

fn expr_start_of_sign(sign: Sign) -> ExprStart
    ensures { result ≡ exprs.start_of_sign sign }
{
    match sign {
        Sign::Open => ExprStart::Pair,
        Sign::Dollar => ExprStart::Column,
        Sign::Minus => ExprStart::Negative,
        _ => ExprStart::Leaf,
    }
}

fn expr_start_of_keyword(keyword: Keyword) -> ExprStart
    ensures { result ≡ exprs.start_of_keyword keyword }
{
    match keyword {
        Keyword::Not => ExprStart::Not,
        Keyword::True => ExprStart::Flag(true),
        Keyword::False => ExprStart::Flag(false),
        _ => ExprStart::Leaf,
    }
}

pub fn expr_start(kind: &TokenKind) -> ExprStart
    ensures { result ≡ exprs.expr_start_of kind.now }
{
    match kind {
        TokenKind::Sign(sign) => expr_start_of_sign(*sign),
        TokenKind::Keyword(keyword) => expr_start_of_keyword(*keyword),
        _ => ExprStart::Leaf,
    }
}

/// How an aggregate begins.
#[derive(Clone, Copy, Debug, PartialEq, Eq)]
pub enum AggStart {
    /// With `count`.
    Count,
    /// With `sum`.
    Sum,
    /// With `min`.
    Min,
    /// With `max`.
    Max,
    /// With `avg`.
    Avg,
    /// With a token that begins no aggregate.
    Other,
}

fn agg_start_of_keyword(keyword: Keyword) -> AggStart
    ensures { result ≡ lists.agg_start_of_keyword keyword }
{
    match keyword {
        Keyword::Count => AggStart::Count,
        Keyword::Sum => AggStart::Sum,
        Keyword::Min => AggStart::Min,
        Keyword::Max => AggStart::Max,
        Keyword::Avg => AggStart::Avg,
        _ => AggStart::Other,
    }
}

pub fn agg_start(kind: &TokenKind) -> AggStart
    ensures { result ≡ lists.agg_start_of kind.now }
{
    match kind {
        TokenKind::Keyword(keyword) => agg_start_of_keyword(*keyword),
        _ => AggStart::Other,
    }
}

/// How a plan begins.
#[derive(Clone, Copy, Debug, PartialEq, Eq)]
pub enum PlanStart {
    /// With a source's name, or a token that begins no plan.
    Source,
    /// With `filter`.
    Filter,
    /// With `map`.
    Map,
    /// With `union`.
    Union,
    /// With `join`.
    Join,
    /// With `distinct`.
    Distinct,
    /// With `group`.
    Group,
    /// With `minus`.
    Minus,
}

fn plan_start_of_keyword(keyword: Keyword) -> PlanStart
    ensures { result ≡ plans.plan_start_of_keyword keyword }
{
    match keyword {
        Keyword::Filter => PlanStart::Filter,
        Keyword::Map => PlanStart::Map,
        Keyword::Union => PlanStart::Union,
        Keyword::Join => PlanStart::Join,
        Keyword::Distinct => PlanStart::Distinct,
        Keyword::Group => PlanStart::Group,
        Keyword::Minus => PlanStart::Minus,
        _ => PlanStart::Source,
    }
}

pub fn plan_start(kind: &TokenKind) -> PlanStart
    ensures { result ≡ plans.plan_start_of kind.now }
{
    match kind {
        TokenKind::Keyword(keyword) => plan_start_of_keyword(*keyword),
        _ => PlanStart::Source,
    }
}
