// One token, as a reader wants it.
ghost use Rattle.std.specs.Prelude.{◌≡◌};
ghost use Rattle.pipes_reader.specs.Reading.{Gives};
ghost use Rattle.pipes_grammar.specs.Reading.{wanted};
ghost use Rattle.pipes_grammar.specs.ExprReading as exprs;
ghost use Rattle.pipes_grammar.specs.ListReading as lists;
ghost use Rattle.pipes_grammar.specs.PlanReading as plans;

use pipes_reader::{ParseFault, ran_out, refused};
use pipes_token::{Refusal, Sign, TextWhy, Token, TokenKind};

// The refusal of a number that is out of range.
pub fn out_of_range(token: &Token) -> ParseFault
    ensures { result ≡ ParseFault.Refused (record { at = token.now.at; why = TextWhy.Range }) }
{
    ParseFault::Refused(Refusal {
        at: token.at,
        why: TextWhy::Range,
    })
}

fn is_open(kind: &TokenKind) -> bool
    ensures { result ≡ plans.is_open kind.now }
{
    matches!(kind, TokenKind::Sign(Sign::Open))
}

fn is_close(kind: &TokenKind) -> bool
    ensures { result ≡ exprs.is_close kind.now }
{
    matches!(kind, TokenKind::Sign(Sign::Close))
}

fn is_comma(kind: &TokenKind) -> bool
    ensures { result ≡ plans.is_comma kind.now }
{
    matches!(kind, TokenKind::Sign(Sign::Comma))
}

fn is_equal(kind: &TokenKind) -> bool
    ensures { result ≡ lists.is_equal kind.now }
{
    matches!(kind, TokenKind::Sign(Sign::Equal))
}

fn is_open_list(kind: &TokenKind) -> bool
    ensures { result ≡ lists.is_open_list kind.now }
{
    matches!(kind, TokenKind::Sign(Sign::OpenList))
}

// What stands after `(`.
#[tactic(auto, unfolding(crate::specs::Reading::wanted))]
pub fn after_open(tokens: &[Token]) -> Result<&[Token], ParseFault>
    ensures { Gives (λ rest. (tt, rest.now)) result (wanted plans.is_open tokens.now) }
{
    match tokens {
        [] => Err(ParseFault::Refused(ran_out())),
        [token, rest @ ..] => {
            if is_open(&token.kind) {
                Ok(rest)
            } else {
                Err(ParseFault::Refused(refused(token)))
            }
        }
    }
}

// What stands after `)`.
#[tactic(auto, unfolding(crate::specs::Reading::wanted))]
pub fn after_close(tokens: &[Token]) -> Result<&[Token], ParseFault>
    ensures { Gives (λ rest. (tt, rest.now)) result (wanted exprs.is_close tokens.now) }
{
    match tokens {
        [] => Err(ParseFault::Refused(ran_out())),
        [token, rest @ ..] => {
            if is_close(&token.kind) {
                Ok(rest)
            } else {
                Err(ParseFault::Refused(refused(token)))
            }
        }
    }
}

// What stands after `,`.
#[tactic(auto, unfolding(crate::specs::Reading::wanted))]
pub fn after_comma(tokens: &[Token]) -> Result<&[Token], ParseFault>
    ensures { Gives (λ rest. (tt, rest.now)) result (wanted plans.is_comma tokens.now) }
{
    match tokens {
        [] => Err(ParseFault::Refused(ran_out())),
        [token, rest @ ..] => {
            if is_comma(&token.kind) {
                Ok(rest)
            } else {
                Err(ParseFault::Refused(refused(token)))
            }
        }
    }
}

// What stands after `=`.
#[tactic(auto, unfolding(crate::specs::Reading::wanted))]
pub fn after_equal(tokens: &[Token]) -> Result<&[Token], ParseFault>
    ensures { Gives (λ rest. (tt, rest.now)) result (wanted lists.is_equal tokens.now) }
{
    match tokens {
        [] => Err(ParseFault::Refused(ran_out())),
        [token, rest @ ..] => {
            if is_equal(&token.kind) {
                Ok(rest)
            } else {
                Err(ParseFault::Refused(refused(token)))
            }
        }
    }
}

// What stands after `[`.
#[tactic(auto, unfolding(crate::specs::Reading::wanted))]
pub fn after_open_list(tokens: &[Token]) -> Result<&[Token], ParseFault>
    ensures { Gives (λ rest. (tt, rest.now)) result (wanted lists.is_open_list tokens.now) }
{
    match tokens {
        [] => Err(ParseFault::Refused(ran_out())),
        [token, rest @ ..] => {
            if is_open_list(&token.kind) {
                Ok(rest)
            } else {
                Err(ParseFault::Refused(refused(token)))
            }
        }
    }
}
