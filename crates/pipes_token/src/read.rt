// One token at the start of a text.
ghost use Rattle.std.specs.Prelude.{◌≡◌, ◌≤◌, ◌<◌, ◌-◌, ◌^◌, ◌∷◌, [], List, ℕ, length, min, drop};
ghost use Rattle.std.specs.Prelude.{IfOk, IfSome, IfNone, MatchOption, true, false};
ghost use Rattle.std.specs.Char.{is_ascii_lowercase, is_ascii_digit};
ghost use Rattle.std.specs.List.{list_all, prefix_len};
ghost use Rattle.std.specs.Str.Parse.{digits_value};
ghost use Rattle.pipes_token.specs.declared.token.Sign.{Sign as ASign};
ghost use Rattle.pipes_token.specs.Strings.{IsString};
ghost use Rattle.pipes_token.specs.Spelling.{is_word, is_word_byte, sign_text, Spells, BeginsNone};
ghost use Rattle.pipes_token.specs.Tokens.{TokenBegins, ReadsToken};

use crate::bytes::first;
use crate::keyword::{KEYWORDS, find_word};
use crate::quoted::inside;
use crate::token::LONGEST_WORD;
use crate::{Refusal, Sign, TextWhy, TokenKind};
use pipes_time::Memory;
use pipes_tuple::{Text, TextFault};
use std::alloc::Global;
use std::str;

// What stands here in a text of `total` bytes, and what is left after it.
pub(crate) fn read(alloc: Global, total: usize, here: &[u8]) -> Result<(TokenKind, &[u8]), Memory>
    requires { length here.now ≤ total }
    ensures { IfOk result (λ x. ReadsToken total here.now x.0 x.1.now) }
{
    let Some((byte, later)) = first(here) else {
        return Ok((TokenKind::End, here));
    };
    if byte == b'"' {
        return string(alloc, total, here, later);
    }
    if byte.is_ascii_lowercase() {
        return word(alloc, here, byte, later);
    }
    if byte.is_ascii_digit() {
        return Ok(number(here, byte, later));
    }
    Ok(sign(here, byte, later))
}

// The word that begins here with the letter `byte`.
fn word<'a>(
    alloc: Global,
    here: &'a [u8],
    byte: u8,
    later: &'a [u8],
) -> Result<(TokenKind, &'a [u8]), Memory>
    requires parts { here.now ≡ byte ∷ later.now }
    requires letter { is_ascii_lowercase byte ≡ true }
    ensures { IfOk result (λ x. TokenBegins x.0 here.now x.1.now) }
{
    let (word, rest) = here.split_at(word_len(here));
    Ok((word_kind(alloc, word)?, rest))
}

// How many bytes of words stand at the start.
fn word_len(bytes: &[u8]) -> usize
    ensures value { result ≡ prefix_len is_word_byte bytes.now }
    ensures bound { result ≤ length bytes.now }
{
    bytes.iter().take_while(|byte| is_in_words(**byte)).count()
}

// Whether the byte may stand in a word.
fn is_in_words(byte: u8) -> bool
    ensures { result ≡ is_word_byte byte }
{
    byte.is_ascii_lowercase() || byte.is_ascii_digit() || byte == b'_'
}

// What the word is.
fn word_kind(alloc: Global, word: &[u8]) -> Result<TokenKind, Memory>
    requires { is_word word.now ≡ true }
    ensures { IfOk result (λ kind. Spells kind word.now) }
{
    if word.len() > LONGEST_WORD {
        return Ok(TokenKind::Long);
    }
    match find_word(&KEYWORDS, word) {
        Some(keyword) => Ok(TokenKind::Keyword(keyword)),
        None => Ok(TokenKind::Name(word_text(alloc, word)?)),
    }
}

// The word as a text.
fn word_text(alloc: Global, word: &[u8]) -> Result<Text, Memory>
    requires word { is_word word.now ≡ true }
    requires short { length word.now ≤ LONGEST_WORD }
    ensures { IfOk result (λ text. text ≡ word.now) }
{
    match str::from_utf8(word) {
        Ok(text) => short_text(alloc, text),
        Err(_) => unreachable!(),
    }
}

// A text that is short enough.
fn short_text(alloc: Global, text: &str) -> Result<Text, Memory>
    requires { length text.now ≤ LONGEST_WORD }
    ensures { IfOk result (λ made. made ≡ text.now) }
{
    match Text::new(alloc, text) {
        Ok(made) => Ok(made),
        Err(TextFault::TooLong) => unreachable!(),
        Err(TextFault::Memory) => Err(Memory),
    }
}

// The number that begins here with the digit `byte`.
fn number<'a>(here: &'a [u8], byte: u8, later: &'a [u8]) -> (TokenKind, &'a [u8])
    requires parts { here.now ≡ byte ∷ later.now }
    requires digit { is_ascii_digit byte ≡ true }
    ensures { TokenBegins result.0 here.now result.1.now }
{
    let (digits, rest) = here.split_at(digits_len(here));
    (TokenKind::Number(value_of(digits)), rest)
}

// How many digits stand at the start.
fn digits_len(bytes: &[u8]) -> usize
    ensures value { result ≡ prefix_len is_ascii_digit bytes.now }
    ensures bound { result ≤ length bytes.now }
{
    bytes
        .iter()
        .take_while(|byte| byte.is_ascii_digit())
        .count()
}

// The number that the digits write, or the greatest of 64 bits where it is greater.
fn value_of(digits: &[u8]) -> u64
    requires { list_all is_ascii_digit digits.now ≡ true }
    ensures { result ≡ min (digits_value 10 digits.now) (2 ^ 64 - 1) }
{
    let mut value = 0u64;
    for digit in digits {
        value = value
            .saturating_mul(10)
            .saturating_add(u64::from(digit.saturating_sub(b'0')));
    }
    value
}

// The string that begins here, or its refusal.
fn string<'a>(
    alloc: Global,
    total: usize,
    here: &'a [u8],
    later: &'a [u8],
) -> Result<(TokenKind, &'a [u8]), Memory>
    requires quote { here.now ≡ 34 ∷ later.now }
    requires place { length here.now ≤ total }
    ensures { IfOk result (λ x. ReadsToken total here.now x.0 x.1.now) }
{
    let (content, left) = inside(alloc, later)?;
    match first(left) {
        Some((byte, rest)) => {
            if byte == b'"' {
                Ok((string_kind(alloc, content.as_str())?, rest))
            } else {
                Ok((cut(total - left.len(), TextWhy::Byte), left))
            }
        }
        None => Ok((cut(total, TextWhy::Ended), left)),
    }
}

// A refusal inside a string.
fn cut(at: usize, why: TextWhy) -> TokenKind
    ensures { result ≡ TokenKind.Cut (record { at = at; why = why }) }
{
    TokenKind::Cut(Refusal { at, why })
}

// What a string with this content is.
fn string_kind(alloc: Global, content: &str) -> Result<TokenKind, Memory>
    ensures { IfOk result (λ kind. (bs : List ℕ) → IsString content.now bs → Spells kind bs) }
{
    match Text::new(alloc, content) {
        Ok(text) => Ok(TokenKind::Text(text)),
        Err(TextFault::TooLong) => Ok(TokenKind::Long),
        Err(TextFault::Memory) => Err(Memory),
    }
}

// The sign that begins here with the byte, or that no token begins with it.
fn sign<'a>(here: &'a [u8], byte: u8, later: &'a [u8]) -> (TokenKind, &'a [u8])
    requires parts { here.now ≡ byte ∷ later.now }
    requires no_letter { is_ascii_lowercase byte ≡ false }
    requires no_digit { is_ascii_digit byte ≡ false }
    requires no_quote { byte ≡ 34 → ⊥ }
    ensures { (n : ℕ) → ReadsToken n here.now result.0 result.1.now }
{
    if byte == b'<' {
        return less(here, later);
    }
    match sign_of(byte) {
        Some(sign) => (TokenKind::Sign(sign), later),
        None => (TokenKind::Byte, here),
    }
}

// The sign that begins here with `<`.
fn less<'a>(here: &'a [u8], later: &'a [u8]) -> (TokenKind, &'a [u8])
    requires { here.now ≡ 60 ∷ later.now }
    ensures { TokenBegins result.0 here.now result.1.now }
{
    match first(later) {
        Some((b'=', rest)) => (TokenKind::Sign(Sign::AtMost), rest),
        _ => (TokenKind::Sign(Sign::Less), later),
    }
}

// The sign that this byte alone spells, where it isn't `<`.
fn sign_of(byte: u8) -> Option<Sign>
    ensures some { IfSome result (λ sign. byte ∷ [] ≡ sign_text sign) }
    ensures none { IfNone result ((sign : ASign) (bs : List ℕ) → byte ∷ bs ≡ sign_text sign
        → byte ≡ 60) }
{
    match byte {
        b'(' => Some(Sign::Open),
        b')' => Some(Sign::Close),
        b'[' => Some(Sign::OpenList),
        b']' => Some(Sign::CloseList),
        b',' => Some(Sign::Comma),
        b'$' => Some(Sign::Dollar),
        b'.' => Some(Sign::Point),
        b'=' => Some(Sign::Equal),
        b'+' => Some(Sign::Plus),
        b'-' => Some(Sign::Minus),
        b'*' => Some(Sign::Star),
        _ => None,
    }
}
