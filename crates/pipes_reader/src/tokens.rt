// Values of one token: numbers, strings and names.
ghost use Rattle.std.specs.Prelude.{◌≡◌, ◌≤◌, IfOk, IfSome};
ghost use Rattle.pipes_reader.specs.Names as named;
ghost use Rattle.pipes_reader.specs.Reading.{GivesFrom};
ghost use Rattle.pipes_reader.specs.Taking as spec;

use crate::{Cursor, ParseFault, ran_out, refused};
use pipes_token::{Refusal, TextWhy, Token, TokenKind};
use pipes_tuple::Text;

fn number_between(low: u64, high: u64, kind: &TokenKind) -> Option<u64>
    ensures value { result ≡ spec.number_between low high kind.now }
    ensures bound { IfSome result (λ number. (low ≤ number) × (number ≤ high)) }
{
    match kind {
        TokenKind::Number(number) if low <= *number && *number <= high => Some(*number),
        _ => None,
    }
}

fn number_refused(token: &Token) -> Refusal
    ensures { result ≡ spec.number_refused token.now.kind token.now.at }
{
    match token.kind {
        TokenKind::Number(_) => Refusal {
            at: token.at,
            why: TextWhy::Range,
        },
        _ => refused(token),
    }
}

/// Takes a number between these.
#[tactic(auto, unfolding(crate::specs::Taking::take_number, crate::specs::Reading::take_by, crate::specs::Reading::take_first))]
pub fn take_number(low: u64, high: u64, cursor: &mut Cursor<'_>) -> Result<u64, ParseFault>
    ensures exact { GivesFrom (λ number. number)
        (spec.take_number low high) cursor.old cursor.new result }
    ensures bound { IfOk result (λ number. (low ≤ number) × (number ≤ high)) }
{
    match cursor.rest() {
        [] => Err(ParseFault::Refused(ran_out())),
        [token, ..] => cursor.take(
            number_between(low, high, &token.kind),
            number_refused(token),
        ),
    }
}

fn text_refused(token: &Token) -> Refusal
    ensures { result ≡ spec.text_refused token.now.kind token.now.at }
{
    match &token.kind {
        TokenKind::Cut(refusal) => *refusal,
        _ => refused(token),
    }
}

/// Takes a string.
#[tactic(auto, unfolding(crate::specs::Taking::take_text, crate::specs::Reading::take_by, crate::specs::Reading::take_first))]
pub fn take_text(cursor: &mut Cursor<'_>) -> Result<Text, ParseFault>
    ensures { GivesFrom (λ text. text) spec.take_text cursor.old cursor.new result }
{
    match cursor.rest() {
        [] => Err(ParseFault::Refused(ran_out())),
        [token, ..] => {
            let text = match &token.kind {
                TokenKind::Text(text) => Some(text.copy()?),
                _ => None,
            };
            cursor.take(text, text_refused(token))
        }
    }
}

/// Whether the word is one of the names.
pub fn is_taken(names: &[Text], word: &Text) -> bool
    ensures { result ≡ named.is_taken names.now word.now }
{
    names.iter().any(|name| word.as_str() == name.as_str())
}

/// The word, unless it is one of the names.
pub fn unless_taken(names: &[Text], word: Option<Text>) -> Option<Text>
    ensures { result ≡ spec.unless_taken names.now word }
{
    match word {
        Some(word) => {
            if is_taken(names, &word) {
                None
            } else {
                Some(word)
            }
        }
        None => None,
    }
}

/// Why a word that isn't a new name is refused.
pub fn name_refused(word: &Option<Text>, token: &Token) -> Refusal
    ensures { result ≡ spec.name_refused word.now token.now.kind token.now.at }
{
    match word {
        Some(_) => Refusal {
            at: token.at,
            why: TextWhy::Name,
        },
        None => refused(token),
    }
}
