// The program's calls over files in memory.
use pipes_edge::{MemFiles, MemSink, NoGate};
use pipes_run::pipes;
use std::alloc::Global;
use std::process::Abort;
use std::test::Fail;
use std::thread::Threads;

const QUERY: &str = "source a from \"a.csv\" (v int) window time 3\nplan filter((0 < $0), a)\n";

const ROWS: &str = "at,v\n0,7\n1,8\n";

const WHOLE: &str = "+ 0 3 7\n+ 1 4 8\nend\n";

pub(crate) const RUN: &[&str] = &["run", "q.txt", "s.txt"];

pub(crate) const NORMAL: &[&str] = &["run", "q.txt", "s.txt", "--form", "normal"];

pub(crate) const CHECK: &[&str] = &["check", "q.txt"];

fn words(alloc: Global, list: &[&str]) -> Result<Vec<String>, Fail> {
    let mut words = Vec::new(alloc);
    for word in list {
        words.push(String::from_str(alloc, word)?)?;
    }
    Ok(words)
}

// A query, an empty script and one source.
fn files(alloc: Global, query: &str, rows: &str) -> Result<MemFiles, Fail> {
    let mut files = MemFiles::new(alloc);
    files.add("q.txt", query.as_bytes())?;
    files.add("s.txt", b"")?;
    files.add("a.csv", rows.as_bytes())?;
    Ok(files)
}

// Calls with these words, and compares the status, the output and the line of the fault.
pub(crate) fn expect_call<R: AllocGlobal + Abort + Threads + Sync>(
    rt: &R,
    list: &[&str],
    mut files: MemFiles,
    mut out: MemSink,
    want: (u8, &str, &str),
) -> Result<(), Fail> {
    let words = words(rt.alloc(), list)?;
    let mut err = MemSink::new(rt.alloc(), 3);
    let status = pipes(
        rt,
        words.as_slice(),
        &mut files,
        &mut out,
        &mut err,
        &NoGate,
    );
    assert_eq!(rt; status, want.0);
    assert_eq!(rt; out.bytes(), want.1.as_bytes());
    assert_eq!(rt; err.bytes(), want.2.as_bytes());
    Ok(())
}

// The same, of a query over one source's rows.
pub(crate) fn expect_rows<R: AllocGlobal + Abort + Threads + Sync>(
    rt: &R,
    list: &[&str],
    query: &str,
    rows: &str,
    want: (u8, &str, &str),
) -> Result<(), Fail> {
    let alloc = rt.alloc();
    expect_call(
        rt,
        list,
        files(alloc, query, rows)?,
        MemSink::new(alloc, 100),
        want,
    )
}

const COUNT_TWO: &str = "source a from \"a.csv\" (v int) window count 2\nplan a\n";

const COUNT_ONE: &str = "source a from \"a.csv\" (v int) window count 1\nplan a\n";

const TWO_FILTERS: &str = "source a from \"a.csv\" (v int) window time 10\n\
    plan filter((0 < $0), filter(($0 < 100), a))\n";

const TEXTS: &str = "source a from \"a.csv\" (s text, f flag) window time 2\nplan filter($1, a)\n";

#[test]
fn runs_of_windows_of_both_kinds(rt: HostRuntime) -> Result<(), Fail> {
    for (rows, want) in [
        (ROWS, WHOLE),
        ("at,v\n0,7\n1,8", WHOLE),
        ("at,v\r\n0,7\r\n\r\n1,8\r\n", WHOLE),
        ("at,v", "end\n"),
        (
            "stamp,number\n0,0\n0,-7\n5,1\n5,1\n",
            "+ 5 8 1\n+ 5 8 1\nend\n",
        ),
        (
            "at,v\n999999999999999,9\n",
            "+ 999999999999999 1000000000000000 9\nend\n",
        ),
    ] {
        expect_rows(&rt, RUN, QUERY, rows, (0, want, ""))?;
    }
    let normal = "= 1 4 1 8\n= 1 1000000000000000 1 7\n= 4 1000000000000000 1 9\n";
    expect_rows(
        &rt,
        NORMAL,
        COUNT_TWO,
        "at,v\n1,8\n1,7\n4,9\n",
        (0, normal, ""),
    )?;
    let last = "= 1 1000000000000000 1 8\n";
    expect_rows(&rt, NORMAL, COUNT_ONE, "at,v\n1,7\n1,8\n", (0, last, ""))
}

#[test]
fn texts_quotes_and_heartbeats(rt: HostRuntime) -> Result<(), Fail> {
    let rows = "at,s,f\n0,\"a,\"\"b\"\"\",true\n0001,,false\n1,x y,true\n\n7\n";
    let want = "+ 0 2 \"a,\\\"b\\\"\" true\n+ 1 3 \"x y\" true\nend\n";
    expect_rows(&rt, RUN, TEXTS, rows, (0, want, ""))?;
    // The last item is a heartbeat, and a row before it is refused as one that falls after it.
    let late = "at,s,f\n0,a,true\n7\n6,b,true\n";
    let want = (
        3,
        "+ 0 2 \"a\" true\nstop\n",
        "pipes: row a 4 falling 6 7\n",
    );
    expect_rows(&rt, RUN, TEXTS, late, want)
}

#[test]
fn a_refused_line_stops_the_run(rt: HostRuntime) -> Result<(), Fail> {
    for (rows, out, line) in [
        ("", "stop\n", "pipes: row a 1 header\n"),
        (
            "at,v\n3,1\n5,2\n4,3\n",
            "+ 3 13 1\n+ 5 15 2\nstop\n",
            "pipes: row a 4 falling 4 5\n",
        ),
        (
            "at,v\n0,5\n5,6,7\n20\n",
            "+ 0 10 5\nstop\n",
            "pipes: row a 3 fields\n",
        ),
        (
            "at,v\n0,5\nx,6\n20\n",
            "+ 0 10 5\nstop\n",
            "pipes: row a 3 stamp\n",
        ),
        (
            "at,v\n0,5\n1000000000000000,6\n",
            "+ 0 10 5\nstop\n",
            "pipes: row a 3 range\n",
        ),
        (
            "at,v\n5,9223372036854775808\n",
            "stop\n",
            "pipes: row a 2 value 0 intrange\n",
        ),
        ("at,v\n5,five\n", "stop\n", "pipes: row a 2 value 0 int\n"),
        ("at,v\n5,1\r5,2\n", "stop\n", "pipes: row a 2 fields\n"),
    ] {
        expect_rows(&rt, RUN, TWO_FILTERS, rows, (3, out, line))?;
    }
    Ok(())
}

#[test]
fn the_normal_form_before_a_refused_line(rt: HostRuntime) -> Result<(), Fail> {
    let rows = "at,v\n3,1\n5,2\n4,3\n";
    let want = (
        3,
        "= 3 13 1 1\n= 5 15 1 2\n",
        "pipes: row a 4 falling 4 5\n",
    );
    expect_rows(&rt, NORMAL, TWO_FILTERS, rows, want)?;
    expect_rows(
        &rt,
        NORMAL,
        TWO_FILTERS,
        "",
        (3, "", "pipes: row a 1 header\n"),
    )
}

#[test]
fn words_that_are_no_command(rt: HostRuntime) -> Result<(), Fail> {
    let lists: [&[&str]; 14] = [
        &[],
        &["run", "q.txt"],
        &["derive", "q.txt"],
        &["run", "", "s.txt"],
        &["at", "q.txt", "1000000000000000"],
        &["check"],
        &["run", "q.txt", "s.txt", "--form", "text"],
        &["run", "--form", "normal", "q.txt", "s.txt"],
        &["run", "q.txt", "s.txt", "--form"],
        // An option twice, also with one value.
        &[
            "run", "q.txt", "s.txt", "--form", "normal", "--form", "normal",
        ],
        &["run", "q.txt", "s.txt", "--workers", "0"],
        &["run", "q.txt", "s.txt", "--workers", "17"],
        &["run", "q.txt", "s.txt", "--mode", "both"],
        &["make", "7", "0"],
    ];
    for list in lists {
        expect_rows(&rt, list, QUERY, ROWS, (1, "", "pipes: words\n"))?;
    }
    Ok(())
}

#[test]
fn queries_that_are_refused(rt: HostRuntime) -> Result<(), Fail> {
    for (query, line) in [
        ("", "pipes: query 1 1 end\n"),
        (
            "source a from \"a.csv\" (v int) window time 10\nplan",
            "pipes: query 2 5 end\n",
        ),
        (
            "source a from \"a.csv\" (v int) window time 3\nplan filter($0, a)\n",
            "pipes: query type 0 kind\n",
        ),
    ] {
        for list in [RUN, CHECK, &["at", "q.txt", "1"]] {
            expect_rows(&rt, list, query, ROWS, (2, "", line))?;
        }
    }
    Ok(())
}

#[test]
fn a_query_is_checked(rt: HostRuntime) -> Result<(), Fail> {
    let laid_out = "source  a from\t\"a.csv\" (v int)window time 3 # three\nplan filter((0<$0),a)";
    let printed =
        "source a from \"a.csv\" (v int) window time 3\nplan filter((0 < $0), a)\nkinds int\n";
    expect_rows(&rt, CHECK, QUERY, ROWS, (0, printed, ""))?;
    expect_rows(&rt, CHECK, laid_out, ROWS, (0, printed, ""))?;
    let texts = "source a from \"a.csv\" (s text, f flag) window time 2\nplan filter($1, a)\n\
        kinds text flag\n";
    expect_rows(&rt, CHECK, TEXTS, ROWS, (0, texts, ""))
}

pub(crate) const JOIN: &str = "source bids from \"bids.csv\" (item int, price int) window time 5\n\
    source asks from \"asks.csv\" (item int, price int) window time 5\n\
    plan join([0=0], true, bids, asks)\n";

pub(crate) fn market(alloc: Global) -> Result<MemFiles, Fail> {
    let mut files = MemFiles::new(alloc);
    files.add("q.txt", JOIN.as_bytes())?;
    files.add("s.txt", b"")?;
    files.add("bids.csv", b"at,item,price\n0,1,10\n3,2,20\n")?;
    files.add("asks.csv", b"at,item,price\n2,1,9\n6,2,21\n")?;
    Ok(files)
}

#[test]
fn answers_at_an_instant(rt: HostRuntime) -> Result<(), Fail> {
    let alloc = rt.alloc();
    for (time, want) in [("2", "1 10 1 9\n"), ("5", ""), ("0007", "2 20 2 21\n")] {
        let out = MemSink::new(alloc, 1);
        let at = ["at", "q.txt", time];
        expect_call(&rt, &at, market(alloc)?, out, (0, want, ""))?;
    }
    let at = ["at", "q.txt", "1"].as_slice();
    // By number, one line for each copy.
    let rows = "at,v\n0,10\n0,9\n0,20\n1,9\n";
    expect_rows(&rt, at, QUERY, rows, (0, "9\n9\n10\n20\n", ""))?;
    // Nothing is written of rows before one that is refused.
    let rows = "at,v\n0,10\n0,x\n";
    expect_rows(
        &rt,
        at,
        QUERY,
        rows,
        (3, "", "pipes: row a 3 value 0 int\n"),
    )
}

#[test]
fn what_is_not_served_yet(rt: HostRuntime) -> Result<(), Fail> {
    let alloc = rt.alloc();
    let unbuilt = (9, "", "pipes: unbuilt\n");
    let mut scripted = files(alloc, QUERY, ROWS)?;
    scripted.add("s.txt", b" ")?;
    expect_call(&rt, RUN, scripted, MemSink::new(alloc, 9), unbuilt)?;
    // Before any file is looked for.
    let lists: [&[&str]; 3] = [
        &["make", "7", "1000"],
        &["make", "7", "1000", "--mode", "inline", "--workers", "2"],
        &["run", "q.txt", "s.txt", "--mode", "threaded"],
    ];
    for list in lists {
        let none = MemFiles::new(alloc);
        expect_call(&rt, list, none, MemSink::new(alloc, 9), unbuilt)?;
    }
    Ok(())
}

#[test]
fn files_that_are_missing(rt: HostRuntime) -> Result<(), Fail> {
    let alloc = rt.alloc();
    let mut lacking = MemFiles::new(alloc);
    let want = (4, "", "pipes: missing \"q.txt\"\n");
    expect_call(&rt, RUN, lacking, MemSink::new(alloc, 9), want)?;
    lacking = MemFiles::new(alloc);
    lacking.add("q.txt", QUERY.as_bytes())?;
    let want = (4, "", "pipes: missing \"s.txt\"\n");
    expect_call(&rt, RUN, lacking, MemSink::new(alloc, 9), want)?;
    lacking = MemFiles::new(alloc);
    lacking.add("q.txt", QUERY.as_bytes())?;
    lacking.add("s.txt", b"")?;
    let want = (4, "", "pipes: missing \"a.csv\"\n");
    expect_call(&rt, RUN, lacking, MemSink::new(alloc, 9), want)
}

#[test]
fn reads_that_fail(rt: HostRuntime) -> Result<(), Fail> {
    let alloc = rt.alloc();
    for (name, call, out, line) in [
        ("q.txt", 1, "", "pipes: read \"q.txt\"\n"),
        ("q.txt", 2, "", "pipes: read \"q.txt\"\n"),
        ("s.txt", 1, "", "pipes: read \"s.txt\"\n"),
        ("a.csv", 1, "stop\n", "pipes: read \"a.csv\"\n"),
        (
            "a.csv",
            2,
            "+ 0 3 7\n+ 1 4 8\nstop\n",
            "pipes: read \"a.csv\"\n",
        ),
    ] {
        let mut failing = files(alloc, QUERY, ROWS)?;
        failing.fail_at(name, call)?;
        expect_call(&rt, RUN, failing, MemSink::new(alloc, 100), (4, out, line))?;
    }
    let mut failing = files(alloc, QUERY, ROWS)?;
    failing.fail_at("a.csv", 2)?;
    let at = ["at", "q.txt", "1"].as_slice();
    let want = (4, "", "pipes: read \"a.csv\"\n");
    expect_call(&rt, at, failing, MemSink::new(alloc, 100), want)
}

#[test]
fn a_write_that_fails_leaves_a_prefix(rt: HostRuntime) -> Result<(), Fail> {
    let alloc = rt.alloc();
    for call in 1..21 {
        let mut out = MemSink::new(alloc, 1);
        out.fail_at(call)?;
        let kept = usize::try_from(call)?.saturating_sub(1);
        let want = (5, WHOLE.get(..kept).ok_or("no front")?, "pipes: write\n");
        expect_call(&rt, RUN, files(alloc, QUERY, ROWS)?, out, want)?;
    }
    Ok(())
}

#[test]
fn a_source_past_its_limit(rt: HostRuntime) -> Result<(), Fail> {
    let alloc = rt.alloc();
    let mut lines = String::new(alloc);
    for _ in 0..1000 {
        lines.push_str("0\n")?;
    }
    let mut rows = String::from_str(alloc, "at,v\n0\n")?;
    for _ in 0..4000 {
        rows.push_str(lines.as_str())?;
    }
    let want = (8, "", "pipes: limit a 4000002\n");
    expect_rows(&rt, &["at", "q.txt", "0"], QUERY, rows.as_str(), want)
}
