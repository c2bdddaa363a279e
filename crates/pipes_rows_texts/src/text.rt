// Texts put together, and where they are refused.
ghost use Rattle.std.specs.Prelude.{◌≤◌, IfOk, length};

use pipes_query::Query;
use pipes_text::read_query;
use pipes_token::{ReadFault, TextRefusal, TextWhy};
use std::alloc::Global;
use std::test::Fail;

/// A source's name, file and columns.
pub const HEAD: &[u8] = b"source a from \"a.csv\" (v int)";

/// A plan over that source.
pub const PLAN: &[u8] = b"\nplan filter((0 < $0), filter(($0 < 100), a))\n";

/// A part of a text, and where and why the whole is refused.
#[derive(Clone, Copy)]
pub struct Row<'a> {
    pub part: &'a [u8],
    pub place: (u32, u32),
    pub why: TextWhy,
}

/// Refused in this line, at this column.
pub fn stop(part: &[u8], line: u32, column: u32, why: TextWhy) -> Row<'_> {
    Row {
        part,
        place: (line, column),
        why,
    }
}

/// The pieces as one text.
pub fn joined(alloc: Global, pieces: &[&[u8]]) -> Result<Vec<u8>, Fail> {
    let mut text = Vec::new(alloc);
    for piece in pieces {
        text.extend_from_slice(piece)?;
    }
    Ok(text)
}

/// The piece so many times.
pub fn repeated(alloc: Global, piece: &[u8], times: u32) -> Result<Vec<u8>, Fail> {
    let mut text = Vec::new(alloc);
    for _ in 0..times {
        text.extend_from_slice(piece)?;
    }
    Ok(text)
}

/// Whether it was refused where the row says, and for that.
pub fn is_refused<T: Drop>(read: Result<T, ReadFault>, row: &Row<'_>) -> bool {
    match read {
        Err(ReadFault::Text(refusal)) => is_at(&refusal, row),
        _ => false,
    }
}

fn is_at(refusal: &TextRefusal, row: &Row<'_>) -> bool {
    (refusal.line, refusal.column) == row.place && refusal.why == row.why
}

/// A query of one source, which is `a`.
pub fn query(alloc: Global) -> Result<Query, Fail>
    ensures { IfOk result (λ query. 1 ≤ length query.sources) }
{
    let text = joined(alloc, &[HEAD, b" window time 10", PLAN])?;
    Ok(read_query(alloc, text.as_slice())?)
}
