// Sources whose rows may come late, and sliding windows.
use crate::program::{CHECK, RUN, expect_rows};
use std::process::Abort;
use std::test::Fail;
use std::thread::Threads;

// Answers the query over the rows at each of these instants.
fn expect_answers<R: AllocGlobal + Abort + Threads + Sync>(
    rt: &R,
    query: &str,
    rows: &str,
    wants: &[(&str, &str)],
) -> Result<(), Fail> {
    for (time, want) in wants {
        expect_rows(rt, &["at", "q.txt", *time], query, rows, (0, *want, ""))?;
    }
    Ok(())
}

#[test]
fn windows_with_a_slide(rt: HostRuntime) -> Result<(), Fail> {
    let count = "source a from \"a.csv\" (v int) window time 10 slide 5\n\
        plan group([], [count], a)\n";
    let rows = "at,v\n3,7\n5,8\n12,9\n";
    let wants = [
        ("4", ""),
        ("5", "2\n"),
        ("14", "2\n"),
        ("15", "1\n"),
        ("24", "1\n"),
        ("25", ""),
    ];
    expect_answers(&rt, count, rows, &wants)?;
    // The first row is valid at no multiple of the slide.
    let short = "source a from \"a.csv\" (v int) window time 2 slide 5\nplan a\n";
    let rows = "at,v\n1,7\n4,8\n";
    expect_answers(
        &rt,
        short,
        rows,
        &[("1", ""), ("5", "8\n"), ("9", "8\n"), ("10", "")],
    )?;
    expect_rows(&rt, RUN, short, rows, (0, "+ 5 10 8\nend\n", ""))
}

const LATE: &str = "source a from \"a.csv\" (v int) slack 2 window time 10\n\
    plan filter((0 < $0), filter(($0 < 100), a))\n";

#[test]
fn rows_that_come_late(rt: HostRuntime) -> Result<(), Fail> {
    let rows = "at,v\n5,1\n3,2\n6,3\n";
    let wants = [
        ("2", ""),
        ("3", "2\n"),
        ("5", "1\n2\n"),
        ("13", "1\n3\n"),
        ("16", ""),
    ];
    expect_answers(&rt, LATE, rows, &wants)?;
    // The last row by its stamp is not the last line.
    let last = "source a from \"a.csv\" (v int) slack 5 window count 1\nplan a\n";
    expect_answers(&rt, last, "at,v\n5,1\n3,2\n", &[("4", "2\n"), ("6", "1\n")])
}

#[test]
fn rows_below_the_floor(rt: HostRuntime) -> Result<(), Fail> {
    let at = ["at", "q.txt", "5"].as_slice();
    let want = (3, "", "pipes: row a 4 falling 2 3\n");
    expect_rows(&rt, at, LATE, "at,v\n5,1\n3,2\n2,3\n", want)?;
    let five = "source a from \"a.csv\" (v int) slack 5 window time 10\nplan a\n";
    let want = (3, "", "pipes: row a 4 falling 3 4\n");
    expect_rows(&rt, at, five, "at,v\n5,1\n4\n3,2\n", want)
}

#[test]
fn queries_with_a_slack_or_a_slide(rt: HostRuntime) -> Result<(), Fail> {
    let query = "source a from \"a.csv\" (v int) slack 2 window time 10 slide 5\nplan a\n";
    let printed = "source a from \"a.csv\" (v int) slack 2 window time 10 slide 5\n\
        plan a\nkinds int\n";
    expect_rows(&rt, CHECK, query, "", (0, printed, ""))?;
    expect_rows(&rt, RUN, query, "at,v\n", (0, "end\n", ""))?;
    let none = "source a from \"a.csv\" (v int) slack 0 window time 10\nplan a\n";
    expect_rows(&rt, CHECK, none, "", (2, "", "pipes: query 1 37 range\n"))
}
