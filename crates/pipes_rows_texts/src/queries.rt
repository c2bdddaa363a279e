// Queries: what is read and printed, and what is refused where and why.
use crate::text::{HEAD, PLAN, Row, is_refused, joined, repeated, stop};
use pipes_query::Query;
use pipes_text::{print_plan, print_query, read_query};
use pipes_token::TextWhy;
use std::alloc::Global;
use std::test::Fail;

// ---- what is read and printed

fn prints(alloc: Global, query: &Query, text: &[u8]) -> Result<bool, Fail> {
    let mut out = Vec::new(alloc);
    print_query(query, &mut out)?;
    Ok(out.as_slice() == text)
}

fn prints_plan(alloc: Global, query: &Query, line: &[u8]) -> Result<bool, Fail> {
    let mut out = Vec::new(alloc);
    print_plan(query, &query.plan, &mut out)?;
    Ok(out.as_slice() == line)
}

// Whether a query with this slack and window is printed as it is written.
fn is_same(alloc: Global, middle: &[u8]) -> Result<bool, Fail> {
    let text = joined(alloc, &[HEAD, middle, PLAN])?;
    let query = read_query(alloc, text.as_slice())?;
    Ok(prints(alloc, &query, text.as_slice())? && prints_plan(alloc, &query, &PLAN[1..])?)
}

// How many of them are, up to the first that isn't.
fn same(alloc: Global, middles: &[&[u8]]) -> Result<usize, Fail> {
    let mut done = 0_usize;
    for middle in middles {
        if !is_same(alloc, middle)? {
            break;
        }
        done = done.saturating_add(1);
    }
    Ok(done)
}

#[test]
fn windows_and_slack_are_printed_as_they_are_read(rt: HostRuntime) -> Result<(), Fail> {
    let middles = [
        &b" window time 10"[..],
        b" window count 1000000",
        b" window time 1000000000000000 slide 1000000000000000",
        b" slack 1 window time 10 slide 5",
        b" slack 1000000000000000 window count 1",
    ];
    assert_eq!(rt; same(rt.alloc(), &middles)?, 5);
    Ok(())
}

// ---- what is refused

// Whether the text with the row's part between these is refused so.
fn one_refused(alloc: Global, first: &[u8], row: &Row<'_>, last: &[u8]) -> Result<bool, Fail> {
    let text = joined(alloc, &[first, row.part, last])?;
    Ok(is_refused(read_query(alloc, text.as_slice()), row))
}

// How many of the rows are refused so, up to the first that isn't.
fn refused(alloc: Global, first: &[u8], rows: &[Row<'_>], last: &[u8]) -> Result<usize, Fail> {
    let mut done = 0_usize;
    for row in rows {
        if !one_refused(alloc, first, row, last)? {
            break;
        }
        done = done.saturating_add(1);
    }
    Ok(done)
}

#[test]
fn windows_and_slack_are_refused_where_they_stop(rt: HostRuntime) -> Result<(), Fail> {
    let rows = [
        stop(b" slack 0 window time 10", 1, 37, TextWhy::Range),
        stop(
            b" slack 1000000000000001 window time 10",
            1,
            37,
            TextWhy::Range,
        ),
        stop(b" slack window time 10", 1, 37, TextWhy::Token),
        stop(b" slack 1 slack 1 window time 10", 1, 39, TextWhy::Token),
        stop(b" window slack 1 time 10", 1, 38, TextWhy::Token),
        stop(b" window time 10 slide 0", 1, 52, TextWhy::Range),
        stop(b" window time 10 slide 5 slide 5", 1, 54, TextWhy::Token),
        stop(b" window count 10 slide 5", 1, 47, TextWhy::Token),
        stop(b" window slide 5", 1, 38, TextWhy::Token),
    ];
    assert_eq!(rt; refused(rt.alloc(), HEAD, &rows, PLAN)?, 9);
    Ok(())
}

#[test]
fn queries_are_refused_where_they_stop(rt: HostRuntime) -> Result<(), Fail> {
    let line = joined(rt.alloc(), &[HEAD, b" window time 3\n"])?;
    let rows = [
        stop(b"plan", 2, 5, TextWhy::Ended),
        stop(b"plan b", 2, 6, TextWhy::Name),
        stop(b"plan slide", 2, 6, TextWhy::Token),
        stop(b"source a", 2, 8, TextWhy::Name),
        stop(b"source slack", 2, 8, TextWhy::Token),
        stop(b"plan a a", 2, 8, TextWhy::Token),
        stop(b"plan map([$32], a)", 2, 12, TextWhy::Range),
    ];
    assert_eq!(rt; refused(rt.alloc(), line.as_slice(), &rows, b"")?, 7);
    Ok(())
}

#[test]
fn a_level_too_deep_is_refused_where_its_whole_begins(rt: HostRuntime) -> Result<(), Fail> {
    let line = joined(rt.alloc(), &[HEAD, b" window time 3\n"])?;
    let nots = repeated(rt.alloc(), b"not ", 32)?;
    let deep = joined(
        rt.alloc(),
        &[b"plan filter(", nots.as_slice(), b"(0 < $0), a)"],
    )?;
    let rows = [stop(deep.as_slice(), 2, 13, TextWhy::Deep)];
    assert_eq!(rt; refused(rt.alloc(), line.as_slice(), &rows, b"")?, 1);
    Ok(())
}

// ---- one too many

fn source_line(name: u8, text: &mut Vec<u8>) -> Result<(), Fail> {
    text.extend_from_slice(b"source ")?;
    text.push(name)?;
    text.extend_from_slice(b" from \"f\" (v int) window time 1\n")?;
    Ok(())
}

// Sixteen sources.
fn most_sources(alloc: Global) -> Result<Vec<u8>, Fail> {
    let mut text = Vec::new(alloc);
    for name in b"abcdefghijklmnop" {
        source_line(*name, &mut text)?;
    }
    Ok(text)
}

#[test]
fn one_source_too_many(rt: HostRuntime) -> Result<(), Fail> {
    let sources = most_sources(rt.alloc())?;
    let rows = [
        stop(b"source q", 17, 1, TextWhy::Many),
        stop(b"plan", 17, 5, TextWhy::Ended),
        stop(b"sourc q", 17, 1, TextWhy::Token),
        stop(b"@", 17, 1, TextWhy::Byte),
    ];
    assert_eq!(rt; refused(rt.alloc(), sources.as_slice(), &rows, b"")?, 4);
    let most = joined(rt.alloc(), &[sources.as_slice(), b"plan a"])?;
    assert!(rt; read_query(rt.alloc(), most.as_slice()).is_ok());
    Ok(())
}

#[test]
fn one_entry_too_many(rt: HostRuntime) -> Result<(), Fail> {
    let zeros = repeated(rt.alloc(), b"0, ", 32)?;
    let pieces = [HEAD, b" window time 3\nplan group([", zeros.as_slice()];
    let line = joined(rt.alloc(), &pieces)?;
    let rows = [
        stop(b"0], [], a)", 2, 109, TextWhy::Many),
        stop(b"99], [], a)", 2, 109, TextWhy::Many),
        stop(b"], [], a)", 2, 109, TextWhy::Many),
        stop(b"", 2, 109, TextWhy::Ended),
    ];
    assert_eq!(rt; refused(rt.alloc(), line.as_slice(), &rows, b"")?, 4);
    Ok(())
}
