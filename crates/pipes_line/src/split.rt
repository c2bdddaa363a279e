// Lines whose fields are parts of them.
ghost use Rattle.std.specs.Prelude.{◌≡◌, ◌≤◌, ◌<◌, IfOk, IfSome, IsTrue, length, take, drop, true};
ghost use Rattle.std.specs.Prelude.{false};
ghost use Rattle.std.specs.List.{list_all};
ghost use Rattle.pipes_line.specs.Bytes.{is_inner, is_no_quote, QuoteAt};
ghost use Rattle.pipes_line.specs.Content.{single, content_of};
ghost use Rattle.pipes_line.specs.Fields.{fields_in};
ghost use Rattle.pipes_line.specs.Marks.{may_be_marked};
ghost use Rattle.pipes_line.specs.Parts.{IsField};
ghost use Rattle.pipes_line.specs.Parts as parts;

use crate::Record;
use crate::part::Part;
use pipes_time::Memory;

impl Record {
    // Splits a line at its commas and takes the quotes off its fields, unless a field has a quote
    // beside or between those at its ends, or a record ends inside the line.
    pub(crate) fn split(&mut self, line: &[u8]) -> Result<bool, Memory>
        requires some { 0 < length line.now }
        requires plain { may_be_marked line.now ≡ false }
        ensures { IfOk result (λ whole. IsTrue whole → content_of line.now ≡ single
            (fields_in self.new line.now)) }
    {
        self.is_copied = false;
        self.parts.clear();
        let mut from = 0;
        'fields: loop {
            let Some((part, next)) = field_from(line, from) else {
                return Ok(false);
            };
            self.parts.push(part)?;
            if next == line.len() {
                return Ok(true);
            }
            if line[next] != b',' {
                return Ok(false);
            }
            from = next + 1;
        }
    }
}

// The field that begins at this place, and where it ends; none where a quote is not followed by
// another.
fn field_from(line: &[u8], from: usize) -> Option<(Part, usize)>
    requires within { from ≤ length line.now }
    requires some { 0 < length line.now }
    ensures { IfSome result (λ field. IsField line.now from field.0 field.1) }
{
    let rest = from_on(line, from);
    if begins_quoted(rest) {
        let len = quote_at(from_on(rest, 1))?;
        let to = from + 1 + len;
        Some((Part { from: from + 1, to }, to + 1))
    } else {
        let to = from + field_len(rest);
        Some((Part { from, to }, to))
    }
}

// The bytes from this place on.
fn from_on(bytes: &[u8], place: usize) -> &[u8]
    requires { place ≤ length bytes.now }
    ensures { result.now ≡ drop place bytes.now }
{
    &bytes[place..]
}

// Whether a field begins with a quote.
fn begins_quoted(rest: &[u8]) -> bool
    ensures { result ≡ parts.begins_quoted rest.now }
{
    match rest {
        [] => false,
        [byte, ..] => *byte == b'"',
    }
}

// How many bytes stand before the first comma or line's end.
fn field_len(rest: &[u8]) -> usize
    ensures within { result ≤ length rest.now }
    ensures inner { list_all is_inner (take result rest.now) ≡ true }
{
    for (i, byte) in rest.iter().enumerate() {
        if *byte == b',' || *byte == b'\r' || *byte == b'\n' {
            return i;
        }
    }
    rest.len()
}

// The place of the first quote.
fn quote_at(rest: &[u8]) -> Option<usize>
    ensures { IfSome result (QuoteAt rest.now) }
{
    for (i, byte) in rest.iter().enumerate() {
        if *byte == b'"' {
            return Some(i);
        }
    }
    None
}
