// Runs of plans of all kinds, over one source and over two, worked out by hand.
use crate::program::{JOIN, NORMAL, RUN, expect_call, expect_rows, market};
use pipes_edge::{MemFiles, MemSink};
use std::alloc::Global;
use std::process::Abort;
use std::test::Fail;
use std::thread::Threads;

// A query over two sources, and their rows.
fn two(alloc: Global, query: &str, a: &str, b: &str) -> Result<MemFiles, Fail> {
    let mut files = MemFiles::new(alloc);
    files.add("q.txt", query.as_bytes())?;
    files.add("s.txt", b"")?;
    files.add("bids.csv", a.as_bytes())?;
    files.add("asks.csv", b.as_bytes())?;
    Ok(files)
}

// Runs the query over two sources.
fn expect_two<R: AllocGlobal + Abort + Threads + Sync>(
    rt: &R,
    list: &[&str],
    query: &str,
    a: &str,
    b: &str,
    want: (u8, &str, &str),
) -> Result<(), Fail> {
    let alloc = rt.alloc();
    let files = two(alloc, query, a, b)?;
    expect_call(rt, list, files, MemSink::new(alloc, 100), want)
}

#[test]
fn a_join_of_two_sources(rt: HostRuntime) -> Result<(), Fail> {
    let alloc = rt.alloc();
    // The first bid and the first ask are both valid on [2, 5), the second ones on [6, 8).
    let want = (0, "+ 2 5 1 10 1 9\n+ 6 8 2 20 2 21\nend\n", "");
    expect_call(&rt, RUN, market(alloc)?, MemSink::new(alloc, 100), want)?;
    let want = (0, "= 2 5 1 1 10 1 9\n= 6 8 1 2 20 2 21\n", "");
    expect_call(&rt, NORMAL, market(alloc)?, MemSink::new(alloc, 100), want)
}

#[test]
fn options_in_any_order(rt: HostRuntime) -> Result<(), Fail> {
    let alloc = rt.alloc();
    let normal = "= 2 5 1 1 10 1 9\n= 6 8 1 2 20 2 21\n";
    let lists: [&[&str]; 4] = [
        &[
            "run",
            "q.txt",
            "s.txt",
            "--form",
            "normal",
            "--workers",
            "4",
        ],
        &[
            "run",
            "q.txt",
            "s.txt",
            "--workers",
            "4",
            "--form",
            "normal",
        ],
        &[
            "run", "q.txt", "s.txt", "--mode", "inline", "--form", "normal",
        ],
        &[
            "run",
            "q.txt",
            "s.txt",
            "--workers",
            "016",
            "--mode",
            "inline",
            "--form",
            "normal",
        ],
    ];
    for list in lists {
        let out = MemSink::new(alloc, 100);
        expect_call(&rt, list, market(alloc)?, out, (0, normal, ""))?;
    }
    Ok(())
}

const LONG: &str = "source a from \"a.csv\" (v int) window time 10\nplan ";

// Runs a plan over one source with windows of ten instants, in the normal form.
fn expect_plan<R: AllocGlobal + Abort + Threads + Sync>(
    rt: &R,
    plan: &str,
    rows: &str,
    normal: &str,
) -> Result<(), Fail> {
    let mut query = String::from_str(rt.alloc(), LONG)?;
    query.push_str(plan)?;
    expect_rows(rt, NORMAL, query.as_str(), rows, (0, normal, ""))
}

#[test]
fn plans_over_one_source(rt: HostRuntime) -> Result<(), Fail> {
    // 5 on [0, 10) and on [2, 12), 7 on [4, 14).
    let rows = "at,v\n0,5\n2,5\n4,7\n";
    for (plan, normal) in [
        (
            "group([0], [count], a)",
            "= 0 2 1 5 1\n= 2 10 1 5 2\n= 4 14 1 7 1\n= 10 12 1 5 1\n",
        ),
        ("distinct(a)", "= 0 12 1 5\n= 4 14 1 7\n"),
        (
            "union(a, filter((5 < $0), a))",
            "= 0 2 1 5\n= 2 10 2 5\n= 4 14 2 7\n= 10 12 1 5\n",
        ),
        ("minus(a, distinct(a))", "= 2 10 1 5\n"),
        (
            "map([($0 + 1)], filter(($0 < 7), a))",
            "= 0 2 1 6\n= 2 10 2 6\n= 10 12 1 6\n",
        ),
    ] {
        expect_plan(&rt, plan, rows, normal)?;
    }
    Ok(())
}

#[test]
fn late_rows_and_slides(rt: HostRuntime) -> Result<(), Fail> {
    let late = "source a from \"a.csv\" (v int) slack 2 window time 10\nplan a\n";
    let rows = "at,v\n5,1\n3,2\n6,3\n";
    let want = (0, "+ 3 13 2\n+ 5 15 1\n+ 6 16 3\nend\n", "");
    expect_rows(&rt, RUN, late, rows, want)?;
    // The rows before the refused one, in order.
    let rows = "at,v\n5,1\n3,2\n2,3\n";
    let want = (
        3,
        "+ 3 13 2\n+ 5 15 1\nstop\n",
        "pipes: row a 4 falling 2 3\n",
    );
    expect_rows(&rt, RUN, late, rows, want)?;
    // The last row by its stamp is the second line.
    let last = "source a from \"a.csv\" (v int) slack 5 window count 1\nplan a\n";
    let want = (0, "= 3 5 1 2\n= 5 1000000000000000 1 1\n", "");
    expect_rows(&rt, NORMAL, last, "at,v\n5,1\n3,2\n", want)?;
    let slide = "source a from \"a.csv\" (v int) window time 10 slide 5\nplan a\n";
    let want = (0, "+ 5 15 7\n+ 5 15 8\n+ 15 25 9\nend\n", "");
    expect_rows(&rt, RUN, slide, "at,v\n3,7\n5,8\n12,9\n", want)
}

#[test]
fn a_fault_of_one_of_two_sources(rt: HostRuntime) -> Result<(), Fail> {
    let asks = "at,item,price\n0,1,9\n6,2,21\n";
    // The ask and the bid before the refused line are both valid on [2, 5).
    let bids = "at,item,price\n2,1,10\nx,2,20\n";
    let line = "pipes: row bids 3 stamp\n";
    expect_two(
        &rt,
        RUN,
        JOIN,
        bids,
        asks,
        (3, "+ 2 5 1 10 1 9\nstop\n", line),
    )?;
    expect_two(
        &rt,
        NORMAL,
        JOIN,
        bids,
        asks,
        (3, "= 2 5 1 1 10 1 9\n", line),
    )?;
    // A fault comes before any arrival: nothing was taken of the other source.
    expect_two(
        &rt,
        RUN,
        JOIN,
        "at,item,price\n0,1,10\n",
        "",
        (3, "stop\n", "pipes: row asks 1 header\n"),
    )
}

#[test]
fn one_of_two_sources_is_missing(rt: HostRuntime) -> Result<(), Fail> {
    let alloc = rt.alloc();
    let mut files = MemFiles::new(alloc);
    files.add("q.txt", JOIN.as_bytes())?;
    files.add("s.txt", b"")?;
    files.add("bids.csv", b"at,item,price\n")?;
    let want = (4, "", "pipes: missing \"asks.csv\"\n");
    expect_call(&rt, RUN, files, MemSink::new(alloc, 9), want)?;
    let mut failing = market(alloc)?;
    failing.fail_at("asks.csv", 2)?;
    let want = (
        4,
        "+ 2 5 1 10 1 9\n+ 6 8 2 20 2 21\nstop\n",
        "pipes: read \"asks.csv\"\n",
    );
    expect_call(&rt, RUN, failing, MemSink::new(alloc, 100), want)
}
