// The program's derivations over files in memory. No source's file is there.
use crate::program::expect_call;
use pipes_edge::{MemFiles, MemSink};
use std::alloc::Global;
use std::process::Abort;
use std::test::Fail;
use std::thread::Threads;

const DERIVE: &[&str] = &["derive", "q.txt", "d.txt"];

const FILTERS: &str = "source a from \"a.csv\" (v int) window time 10\n\
    plan filter((0 < $0), filter(($0 < 100), a))\n";

const ONE: &str = "source a from \"a.csv\" (v int) window time 10\nplan a\n";

const COUNTED: &str = "source a from \"a.csv\" (v int) window time 10\n\
    plan group([], [count], distinct(a))\n";

const JOINED: &str = "source a from \"a.csv\" (x int, y int) window time 5\n\
    source b from \"b.csv\" (x int, y int) window time 5\n\
    plan join([0=1], ($1 < $2), a, b)\n";

const SUMS: &str = "source a from \"a.csv\" (x int, y int) window time 5\n\
    plan filter((5 < $1), map([$0, ($0 + $1)], a))\n";

const MERGED: &str = "step filter_merge at top plan filter(((0 < $0) and ($0 < 100)), a)";

fn files(alloc: Global, query: &str, derivation: &str) -> Result<MemFiles, Fail> {
    let mut files = MemFiles::new(alloc);
    files.add("q.txt", query.as_bytes())?;
    files.add("d.txt", derivation.as_bytes())?;
    Ok(files)
}

// Derives, and compares the status, the output and the line of the fault.
fn expect_derived<R: AllocGlobal + Abort + Threads + Sync>(
    rt: &R,
    query: &str,
    derivation: &str,
    want: (u8, &str, &str),
) -> Result<(), Fail> {
    let alloc = rt.alloc();
    let files = files(alloc, query, derivation)?;
    expect_call(rt, DERIVE, files, MemSink::new(alloc, 100), want)
}

#[test]
fn derivations_that_lead_to_their_plan(rt: HostRuntime) -> Result<(), Fail> {
    for (query, derivation) in [
        (FILTERS, MERGED),
        (ONE, "plan a"),
        (ONE, "step filter_true back at top\nplan filter(true, a)\n"),
        (
            JOINED,
            "step join_commute at top plan map([$2, $3, $0, $1], join([1=0], ($3 < $0), b, a))",
        ),
        (
            SUMS,
            "step filter_map at top plan map([$0, ($0 + $1)], filter((5 < ($0 + $1)), a))",
        ),
    ] {
        expect_derived(&rt, query, derivation, (0, "derived\n", ""))?;
    }
    Ok(())
}

#[test]
fn steps_that_are_refused(rt: HostRuntime) -> Result<(), Fail> {
    for (query, derivation, out) in [
        (
            FILTERS,
            "step filter_merge at top step filter_merge at top plan a",
            "steps 2\n",
        ),
        // A group that counts keeps each copy.
        (
            COUNTED,
            "step group_distinct at top\nplan group([], [count], a)\n",
            "steps 1\n",
        ),
        // All steps apply, and the plan that they make is another.
        (FILTERS, "step filter_merge at top plan a", "steps 2\n"),
        (ONE, "plan filter(true, a)", "steps 1\n"),
        // No node is there.
        (ONE, "step filter_true back at 0 plan a", "steps 1\n"),
    ] {
        expect_derived(&rt, query, derivation, (0, out, ""))?;
    }
    Ok(())
}

#[test]
fn derivations_without_a_reading(rt: HostRuntime) -> Result<(), Fail> {
    for (derivation, line) in [
        (
            "step filter_marge at top plan a",
            "pipes: derivation \"d.txt\" 1 6 name\n",
        ),
        (
            "step filter_merge\nat 2 plan a",
            "pipes: derivation \"d.txt\" 2 4 range\n",
        ),
        ("", "pipes: derivation \"d.txt\" 1 1 end\n"),
        ("plan b", "pipes: derivation \"d.txt\" 1 6 name\n"),
    ] {
        expect_derived(&rt, ONE, derivation, (7, "", line))?;
    }
    // The query comes first.
    let line = "pipes: query 1 1 end\n";
    expect_derived(&rt, "", "step", (2, "", line))
}

#[test]
fn the_file_of_a_derivation(rt: HostRuntime) -> Result<(), Fail> {
    let alloc = rt.alloc();
    let mut lacking = MemFiles::new(alloc);
    lacking.add("q.txt", ONE.as_bytes())?;
    let want = (4, "", "pipes: missing \"d.txt\"\n");
    expect_call(&rt, DERIVE, lacking, MemSink::new(alloc, 9), want)?;
    let mut failing = files(alloc, ONE, "plan a")?;
    failing.fail_at("d.txt", 1)?;
    let want = (4, "", "pipes: read \"d.txt\"\n");
    expect_call(&rt, DERIVE, failing, MemSink::new(alloc, 9), want)
}

#[test]
fn a_verdict_that_is_not_written(rt: HostRuntime) -> Result<(), Fail> {
    let alloc = rt.alloc();
    for (call, kept) in [(1, ""), (2, "d"), (8, "derived")] {
        let mut out = MemSink::new(alloc, 1);
        out.fail_at(call)?;
        let want = (5, kept, "pipes: write\n");
        expect_call(&rt, DERIVE, files(alloc, ONE, "plan a")?, out, want)?;
    }
    Ok(())
}
