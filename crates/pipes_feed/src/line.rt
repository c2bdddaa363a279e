// What a whole line is.
ghost use Rattle.std.specs.Prelude.{◌≡◌, ◌≤◌, ◌+◌, IfOk, length};
ghost use Rattle.std.specs.Str.Lines.{strip_carriage_return};
ghost use Rattle.pipes_line.specs.Content.{Content, content_of, Shows};
ghost use Rattle.pipes_line.specs.Fields.{fields_in};
ghost use Rattle.pipes_line.specs.Lines as lines;
ghost use Rattle.pipes_feed.specs.Reached.{most_bytes};
ghost use Rattle.pipes_feed.specs.Judged as judged;

use crate::RowWhy;
use crate::judge::{Fault, item_of};
use crate::place::{MOST_BYTES, MOST_ITEMS, Place};
use pipes_line::{Record, Shape};
use pipes_time::Memory;
use pipes_tuple::Schema;
use pipes_window::Item;
use std::alloc::Global;

/// What a line is.
#[derive(Debug, Drop)]
pub(crate) enum Verdict {
    /// It is passed over.
    Pass,
    /// It is an arrival.
    Give(Item),
    /// It is refused.
    Refuse(RowWhy),
    /// It is past a limit.
    Limit,
}

/// What a line is; its fields are left in `fields`.
#[tactic(auto, unfolding(crate::specs::Judged::judge))]
pub(crate) fn judge(
    alloc: Global,
    schema: &Schema,
    slack: u64,
    place: &Place,
    text: &[u8],
    ended: bool,
    fields: &mut Record,
) -> Result<Verdict, Memory>
    requires { length text.now ≤ most_bytes }
    ensures { IfOk result (λ verdict. verdict ≡ judged.judge schema.now slack place.now
        (record { text = text.now; ended = ended })) }
{
    if MOST_BYTES < place.bytes() + size_of(text, ended) {
        return Ok(Verdict::Limit);
    }
    let line = strip(text);
    let shape = fields.read(line)?;
    if place.lines() == 0 {
        Ok(judge_header(schema, shape, line, fields))
    } else {
        judge_later(alloc, schema, slack, place, shape, line, fields)
    }
}

/// How many bytes a line has, its line feed included.
pub(crate) fn size_of(text: &[u8], ended: bool) -> u64
    requires { length text.now ≤ most_bytes }
    ensures value { result ≡ lines.size_of (record { text = text.now; ended = ended }) }
    ensures bound { result ≤ most_bytes + 1 }
{
    let feed = if ended { 1 } else { 0 };
    text.len() as u64 + feed
}

// Without one carriage return at its end.
fn strip(text: &[u8]) -> &[u8]
    ensures { result.now ≡ strip_carriage_return text.now }
{
    let len = text.len();
    if len > 0 && text[len - 1] == b'\r' {
        &text[..len - 1]
    } else {
        text
    }
}

fn judge_header(schema: &Schema, shape: Shape, line: &[u8], fields: &Record) -> Verdict
    ensures { (content : Content) → Shows shape (fields_in fields.now line.now) content
        → result ≡ judged.judge_header schema.now content }
{
    match shape {
        Shape::Single if fields.len() == schema.as_slice().len() + 1 => Verdict::Pass,
        _ => Verdict::Refuse(RowWhy::Header),
    }
}

fn judge_later(
    alloc: Global,
    schema: &Schema,
    slack: u64,
    place: &Place,
    shape: Shape,
    line: &[u8],
    fields: &Record,
) -> Result<Verdict, Memory>
    ensures { IfOk result (λ verdict. (content : Content) → Shows shape
        (fields_in fields.now line.now) content → verdict ≡ judged.judge_later schema.now slack
        place.now content) }
{
    match shape {
        Shape::Blank => Ok(Verdict::Pass),
        _ if place.items() == MOST_ITEMS => Ok(Verdict::Limit),
        Shape::Several => Ok(Verdict::Refuse(RowWhy::Fields)),
        Shape::Single => match item_of(alloc, schema, place.floor(slack), line, fields) {
            Ok(item) => Ok(Verdict::Give(item)),
            Err(Fault::Refused(why)) => Ok(Verdict::Refuse(why)),
            Err(Fault::Memory) => Err(Memory),
        },
    }
}
