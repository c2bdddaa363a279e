// Reading one token of a query: it is taken as a value, or refused.
ghost use Rattle.std.specs.Prelude.{◌≡◌, IfOk, if◌then◌else◌, Some};
ghost use Rattle.pipes_token.specs.Keywords.{keyword_text};
ghost use Rattle.pipes_reader.specs.Reading.{GivesFrom, take_by};
ghost use Rattle.pipes_reader.specs.Taking.{take_name};
ghost use Rattle.pipes_text.specs.Grammar as grammar;
ghost use Rattle.pipes_text.specs.Taking as value;
ghost use Rattle.pipes_text.specs.Reading as spec;

use crate::mark::{Mark, Measure, is_mark};
use pipes_reader::{Cursor, ParseFault, name_refused, ran_out, refused, unless_taken};
use pipes_time::Memory;
use pipes_token::{Keyword, Refusal, Sign, TextWhy, Token, TokenKind};
use pipes_tuple::{Kind, Text};
use std::alloc::Global;

fn mark_value(mark: Mark, kind: &TokenKind) -> Option<()>
    ensures { result ≡ value.mark_value mark kind.now }
{
    if is_mark(mark, kind) { Some(()) } else { None }
}

// The token that is expected here, and nothing else.
#[tactic(auto, unfolding(crate::specs::Reading::expect, pipes_reader::specs::Reading::take_by, pipes_reader::specs::Reading::take_first))]
pub fn expect(mark: Mark, cursor: &mut Cursor<'_>) -> Result<(), ParseFault>
    ensures { GivesFrom (λ done. done) (spec.expect mark) cursor.old cursor.new result }
{
    match cursor.rest() {
        [] => Err(ParseFault::Refused(ran_out())),
        [token, ..] => cursor.take(mark_value(mark, &token.kind), refused(token)),
    }
}

fn kind_of(kind: &TokenKind) -> Option<Kind>
    ensures { result ≡ grammar.kind_of_token kind.now }
{
    match kind {
        TokenKind::Keyword(Keyword::Int) => Some(Kind::Int),
        TokenKind::Keyword(Keyword::Text) => Some(Kind::Text),
        TokenKind::Keyword(Keyword::Flag) => Some(Kind::Flag),
        _ => None,
    }
}

// A column's kind.
#[tactic(auto, unfolding(crate::specs::Reading::read_kind, pipes_reader::specs::Reading::take_by, pipes_reader::specs::Reading::take_first))]
pub fn read_kind(cursor: &mut Cursor<'_>) -> Result<Kind, ParseFault>
    ensures { GivesFrom (λ kind. kind) spec.read_kind cursor.old cursor.new result }
{
    match cursor.rest() {
        [] => Err(ParseFault::Refused(ran_out())),
        [token, ..] => cursor.take(kind_of(&token.kind), refused(token)),
    }
}

fn comma_of(kind: &TokenKind) -> Option<bool>
    ensures { result ≡ value.comma_of kind.now }
{
    match kind {
        TokenKind::Sign(Sign::Comma) => Some(true),
        TokenKind::Sign(Sign::Close) => Some(false),
        _ => None,
    }
}

// Whether another column follows.
#[tactic(auto, unfolding(crate::specs::Reading::read_comma, pipes_reader::specs::Reading::take_by, pipes_reader::specs::Reading::take_first))]
pub fn read_comma(cursor: &mut Cursor<'_>) -> Result<bool, ParseFault>
    ensures { GivesFrom (λ more. more) spec.read_comma cursor.old cursor.new result }
{
    match cursor.rest() {
        [] => Err(ParseFault::Refused(ran_out())),
        [token, ..] => cursor.take(comma_of(&token.kind), refused(token)),
    }
}

fn measure_of(kind: &TokenKind) -> Option<Measure>
    ensures { result ≡ value.measure_of kind.now }
{
    match kind {
        TokenKind::Keyword(Keyword::Time) => Some(Measure::Time),
        TokenKind::Keyword(Keyword::Count) => Some(Measure::Count),
        _ => None,
    }
}

// What a window is measured in.
#[tactic(auto, unfolding(crate::specs::Reading::read_measure, pipes_reader::specs::Reading::take_by, pipes_reader::specs::Reading::take_first))]
pub fn read_measure(cursor: &mut Cursor<'_>) -> Result<Measure, ParseFault>
    ensures { GivesFrom (λ measure. measure) spec.read_measure cursor.old cursor.new result }
{
    match cursor.rest() {
        [] => Err(ParseFault::Refused(ran_out())),
        [token, ..] => cursor.take(measure_of(&token.kind), refused(token)),
    }
}

fn source_or_plan(some: bool, kind: &TokenKind) -> Option<bool>
    ensures { result ≡ value.source_or_plan some kind.now }
{
    match kind {
        TokenKind::Keyword(Keyword::Source) => Some(true),
        TokenKind::Keyword(Keyword::Plan) if some => Some(false),
        _ => None,
    }
}

// Whether another source follows, or, where there are some, the plan.
#[tactic(auto, unfolding(crate::specs::Reading::read_next, pipes_reader::specs::Reading::take_by, pipes_reader::specs::Reading::take_first))]
pub fn read_next(some: bool, cursor: &mut Cursor<'_>) -> Result<bool, ParseFault>
    ensures { GivesFrom (λ another. another) (spec.read_next some) cursor.old cursor.new result }
{
    match cursor.rest() {
        [] => Err(ParseFault::Refused(ran_out())),
        [token, ..] => cursor.take(source_or_plan(some, &token.kind), refused(token)),
    }
}

fn plan_of(some: bool, kind: &TokenKind) -> Option<()>
    ensures { result ≡ value.plan_of some kind.now }
{
    match kind {
        TokenKind::Keyword(Keyword::Plan) if some => Some(()),
        _ => None,
    }
}

// Refuses another source, after the last that a query may have.
#[tactic(auto, unfolding(crate::specs::Reading::read_no_source, pipes_reader::specs::Reading::unless))]
pub fn read_no_source(cursor: &Cursor<'_>) -> Result<(), ParseFault>
    ensures { GivesFrom (λ done. done) spec.read_no_source cursor.now cursor.now result }
{
    match cursor.rest() {
        [token, ..] => match token.kind {
            TokenKind::Keyword(Keyword::Source) => Err(ParseFault::Refused(Refusal {
                at: token.at,
                why: TextWhy::Many,
            })),
            _ => Ok(()),
        },
        [] => Ok(()),
    }
}

// The plan's keyword, after the last source that a query may have.
#[tactic(auto, unfolding(crate::specs::Reading::read_plan_mark, pipes_reader::specs::Reading::take_by, pipes_reader::specs::Reading::take_first))]
pub fn read_plan_mark(some: bool, cursor: &mut Cursor<'_>) -> Result<(), ParseFault>
    ensures { GivesFrom (λ done. done) (spec.read_plan_mark some) cursor.old cursor.new result }
{
    match cursor.rest() {
        [] => Err(ParseFault::Refused(ran_out())),
        [token, ..] => cursor.take(plan_of(some, &token.kind), refused(token)),
    }
}

// ---- names

// The word that a token is, where it is no keyword.
fn source_word(kind: &TokenKind) -> Result<Option<Text>, Memory>
    ensures { IfOk result (λ word. word ≡ value.source_word kind.now) }
{
    match kind {
        TokenKind::Name(word) => Ok(Some(word.copy()?)),
        _ => Ok(None),
    }
}

// A source's name, beside others.
#[tactic(auto, unfolding(pipes_reader::specs::Taking::take_name, pipes_reader::specs::Reading::take_by, pipes_reader::specs::Reading::take_first))]
pub fn read_source_name(names: &[Text], cursor: &mut Cursor<'_>) -> Result<Text, ParseFault>
    ensures { GivesFrom (λ name. name)
        (take_name value.source_word names.now) cursor.old cursor.new result }
{
    match cursor.rest() {
        [] => Err(ParseFault::Refused(ran_out())),
        [token, ..] => {
            let word = source_word(&token.kind)?;
            let refusal = name_refused(&word, token);
            cursor.take(unless_taken(names, word), refusal)
        }
    }
}

// A keyword as a word. None is longer than a text.
fn keyword_text(alloc: Global, keyword: Keyword) -> Result<Text, Memory>
    ensures { IfOk result (λ word. word ≡ keyword_text keyword) }
{
    match Text::new(alloc, keyword.text()) {
        Ok(word) => Ok(word),
        Err(_) => Err(Memory),
    }
}

// The word that a token is, a keyword or not.
fn word_of(alloc: Global, kind: &TokenKind) -> Result<Option<Text>, Memory>
    ensures { IfOk result (λ word. word ≡ grammar.word_of kind.now) }
{
    match kind {
        TokenKind::Name(word) => Ok(Some(word.copy()?)),
        TokenKind::Keyword(keyword) => Ok(Some(keyword_text(alloc, *keyword)?)),
        _ => Ok(None),
    }
}

// A column's name, beside others.
#[tactic(auto, unfolding(pipes_reader::specs::Taking::take_name, pipes_reader::specs::Reading::take_by, pipes_reader::specs::Reading::take_first))]
pub fn read_column_name(
    alloc: Global,
    names: &[Text],
    cursor: &mut Cursor<'_>,
) -> Result<Text, ParseFault>
    ensures { GivesFrom (λ name. name)
        (take_name grammar.word_of names.now) cursor.old cursor.new result }
{
    match cursor.rest() {
        [] => Err(ParseFault::Refused(ran_out())),
        [token, ..] => {
            let word = word_of(alloc, &token.kind)?;
            let refusal = name_refused(&word, token);
            cursor.take(unless_taken(names, word), refusal)
        }
    }
}
