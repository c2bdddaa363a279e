// The inside of strings.
ghost use Rattle.std.specs.Prelude.{◌≡◌, ◌≢◌, ◌≤◌, ◌<◌, ◌++◌, ◌∷◌, [], List, ℕ, length, take};
ghost use Rattle.std.specs.Prelude.{string_bytes, IfOk, IfSome, IfNone, false};
ghost use Rattle.std.specs.Bool.{MatchBool};
ghost use Rattle.std.specs.Char.{IsScalar, encode_utf8, is_ascii};
ghost use Rattle.std.specs.Str.{IsUtf8, StartsWithNoChar};
ghost use Rattle.pipes_token.specs.Strings.{is_plain, escaped_by, BeginsChar, HasNoChar, IsInside};

use crate::bytes::first;
use pipes_time::Memory;
use std::alloc::Global;
use std::str;

// The content of a string up to where it can't go on, and what is left there.
pub(crate) fn inside(alloc: Global, bytes: &[u8]) -> Result<(String, &[u8]), Memory>
    ensures inside { IfOk result (λ x. IsInside bytes.now (string_bytes x.0) x.1.now) }
    ensures bound { IfOk result (λ x. length x.1.now ≤ length bytes.now) }
{
    let mut content = String::new(alloc);
    let mut rest = bytes;
    'characters: loop {
        match character(rest) {
            Some((character, later)) => {
                content.push(character)?;
                rest = later;
            }
            None => return Ok((content, rest)),
        }
    }
}

// The character that the bytes begin with inside a string, and what is left after it.
fn character(bytes: &[u8]) -> Option<(char, &[u8])>
    ensures begins { IfSome result (λ x. BeginsChar bytes.now x.0 x.1.now) }
    ensures none { IfNone result (HasNoChar bytes.now) }
    ensures shorter { IfSome result (λ x. length x.1.now < length bytes.now) }
{
    let Some((byte, later)) = first(bytes) else {
        return None;
    };
    if is_end(byte) {
        return None;
    }
    if byte == b'\\' {
        return escape(bytes, later);
    }
    if byte < 128 {
        return Some((char::from(byte), later));
    }
    wide_character(bytes)
}

// Whether no character begins with the byte inside a string: a quote ends it, and a line feed can't
// stand there.
fn is_end(byte: u8) -> bool
    ensures { MatchBool result ((byte < 128) × (is_plain byte ≡ false) × (byte ≢ 92)) ((byte ≢ 34)
        × (byte ≢ 10)) }
{
    byte == b'"' || byte == b'\n'
}

// The character that a backslash and the byte after it stand for.
fn escape<'a>(bytes: &'a [u8], later: &'a [u8]) -> Option<(char, &'a [u8])>
    requires { bytes.now ≡ 92 ∷ later.now }
    ensures begins { IfSome result (λ x. BeginsChar bytes.now x.0 x.1.now) }
    ensures none { IfNone result (HasNoChar bytes.now) }
    ensures shorter { IfSome result (λ x. length x.1.now < length bytes.now) }
{
    let Some((code, rest)) = first(later) else {
        return None;
    };
    match escaped(code) {
        Some(character) => Some((character, rest)),
        None => None,
    }
}

// The character that a backslash and this byte stand for.
fn escaped(code: u8) -> Option<char>
    ensures { result ≡ escaped_by code }
{
    match code {
        b'"' => Some('"'),
        b'\\' => Some('\\'),
        b'n' => Some('\n'),
        b'r' => Some('\r'),
        _ => None,
    }
}

// The character whose UTF-8 begins the bytes, and what is left after it.
fn wide_character(bytes: &[u8]) -> Option<(char, &[u8])>
    requires { (b : ℕ) (bs : List ℕ) → bytes.now ≡ b ∷ bs → 128 ≤ b }
    ensures begins { IfSome result (λ x. BeginsChar bytes.now x.0 x.1.now) }
    ensures none { IfNone result (HasNoChar bytes.now) }
    ensures shorter { IfSome result (λ x. length x.1.now < length bytes.now) }
{
    let prefix = valid_prefix(&bytes[..bytes.len().min(4)]);
    match prefix.chars().next() {
        Some(character) => Some((character, bytes.split_at(character.len_utf8()).1)),
        None => None,
    }
}

// The longest prefix of the bytes that is a text.
fn valid_prefix(bytes: &[u8]) -> &str
    ensures prefix { result.now ≡ take (length result.now) bytes.now }
    ensures longest { (n : ℕ) → length result.now < n → n ≤ length bytes.now
        → ¬ (IsUtf8 (take n bytes.now)) }
    ensures bound { length result.now ≤ length bytes.now }
{
    match str::from_utf8(bytes) {
        Ok(text) => text,
        Err(error) => valid(&bytes[..error.valid_up_to()]),
    }
}

// The bytes, which are a text, as one.
fn valid(bytes: &[u8]) -> &str
    requires { IsUtf8 bytes.now }
    ensures { result.now ≡ bytes.now }
{
    match str::from_utf8(bytes) {
        Ok(text) => text,
        Err(_) => unreachable!(),
    }
}
