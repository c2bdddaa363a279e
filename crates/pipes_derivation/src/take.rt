// Reading one token of a derivation: it is taken as a value, or refused.
ghost use Rattle.std.specs.Prelude.{◌≡◌};
ghost use Rattle.pipes_reader.specs.Reading.{GivesFrom};
ghost use Rattle.pipes_derivation.specs.Taking as value;
ghost use Rattle.pipes_derivation.specs.Reading as spec;

use pipes_reader::{Cursor, ParseFault, ran_out, refused};
use pipes_rules::{Rule, rule_by_name};
use pipes_token::{Keyword, Refusal, Sign, TextWhy, Token, TokenKind};

fn rule_of(kind: &TokenKind) -> Option<Rule>
    ensures { result ≡ value.rule_of kind.now }
{
    match kind {
        TokenKind::Name(word) => rule_by_name(word.as_str()),
        _ => None,
    }
}

fn rule_refused(token: &Token) -> Refusal
    ensures { result ≡ value.rule_refused token.now.kind token.now.at }
{
    match token.kind {
        TokenKind::Name(_) | TokenKind::Keyword(_) => Refusal {
            at: token.at,
            why: TextWhy::Name,
        },
        _ => refused(token),
    }
}

// A rule by its name.
#[tactic(auto, unfolding(crate::specs::Reading::take_rule, pipes_reader::specs::Reading::take_by, pipes_reader::specs::Reading::take_first))]
pub fn take_rule(cursor: &mut Cursor<'_>) -> Result<Rule, ParseFault>
    ensures { GivesFrom (λ rule. rule) spec.take_rule cursor.old cursor.new result }
{
    match cursor.rest() {
        [] => Err(ParseFault::Refused(ran_out())),
        [token, ..] => cursor.take(rule_of(&token.kind), rule_refused(token)),
    }
}

// Whether the step goes back.
#[tactic(auto, unfolding(crate::specs::Reading::read_direction, pipes_reader::specs::Reading::optional))]
pub fn read_direction(cursor: &mut Cursor<'_>) -> Result<bool, ParseFault>
    ensures { GivesFrom (λ back. back) spec.read_direction cursor.old cursor.new result }
{
    match cursor.rest() {
        [token, ..] if matches!(token.kind, TokenKind::Keyword(Keyword::Back)) => {
            cursor.skip();
            Ok(true)
        }
        _ => Ok(false),
    }
}

fn at_mark(kind: &TokenKind) -> Option<()>
    ensures { result ≡ value.at_mark kind.now }
{
    match kind {
        TokenKind::Keyword(Keyword::At) => Some(()),
        _ => None,
    }
}

// The word before the path.
#[tactic(auto, unfolding(crate::specs::Reading::read_at_word, pipes_reader::specs::Reading::take_by, pipes_reader::specs::Reading::take_first))]
pub fn read_at_word(cursor: &mut Cursor<'_>) -> Result<(), ParseFault>
    ensures { GivesFrom (λ done. done) spec.read_at_word cursor.old cursor.new result }
{
    match cursor.rest() {
        [] => Err(ParseFault::Refused(ran_out())),
        [token, ..] => cursor.take(at_mark(&token.kind), refused(token)),
    }
}

// Whether the token is the path of the root.
pub fn is_top(kind: &TokenKind) -> bool
    ensures { result ≡ value.is_top kind.now }
{
    matches!(kind, TokenKind::Keyword(Keyword::Top))
}

// Whether the token begins a list.
pub fn is_list_mark(kind: &TokenKind) -> bool
    ensures { result ≡ value.is_list_mark kind.now }
{
    matches!(kind, TokenKind::Sign(Sign::OpenList))
}

fn step_or_plan(kind: &TokenKind) -> Option<bool>
    ensures { result ≡ value.step_or_plan kind.now }
{
    match kind {
        TokenKind::Keyword(Keyword::Step) => Some(true),
        TokenKind::Keyword(Keyword::Plan) => Some(false),
        _ => None,
    }
}

// Whether another step follows, or the plan.
#[tactic(auto, unfolding(crate::specs::Reading::read_step_or_plan, pipes_reader::specs::Reading::take_by, pipes_reader::specs::Reading::take_first))]
pub fn read_step_or_plan(cursor: &mut Cursor<'_>) -> Result<bool, ParseFault>
    ensures { GivesFrom (λ another. another) spec.read_step_or_plan cursor.old cursor.new result }
{
    match cursor.rest() {
        [] => Err(ParseFault::Refused(ran_out())),
        [token, ..] => cursor.take(step_or_plan(&token.kind), refused(token)),
    }
}

// Refuses another step, after the last that a derivation may have.
#[tactic(auto, unfolding(crate::specs::Reading::read_no_step, pipes_reader::specs::Reading::unless))]
pub fn read_no_step(cursor: &Cursor<'_>) -> Result<(), ParseFault>
    ensures { GivesFrom (λ done. done) spec.read_no_step cursor.now cursor.now result }
{
    match cursor.rest() {
        [token, ..] => match token.kind {
            TokenKind::Keyword(Keyword::Step) => Err(ParseFault::Refused(Refusal {
                at: token.at,
                why: TextWhy::Many,
            })),
            _ => Ok(()),
        },
        [] => Ok(()),
    }
}

fn plan_mark(kind: &TokenKind) -> Option<()>
    ensures { result ≡ value.plan_mark kind.now }
{
    match kind {
        TokenKind::Keyword(Keyword::Plan) => Some(()),
        _ => None,
    }
}

// The plan's keyword, after the last step that a derivation may have.
#[tactic(auto, unfolding(crate::specs::Reading::read_plan_word, pipes_reader::specs::Reading::take_by, pipes_reader::specs::Reading::take_first))]
pub fn read_plan_word(cursor: &mut Cursor<'_>) -> Result<(), ParseFault>
    ensures { GivesFrom (λ done. done) spec.read_plan_word cursor.old cursor.new result }
{
    match cursor.rest() {
        [] => Err(ParseFault::Refused(ran_out())),
        [token, ..] => cursor.take(plan_mark(&token.kind), refused(token)),
    }
}
