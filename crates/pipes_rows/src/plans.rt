// Values, answers and refusals of plans, as texts that are checked and answered.
use crate::program::{CHECK, expect_rows};
use std::process::Abort;
use std::test::Fail;
use std::thread::Threads;

const AT: &[&str] = &["at", "q.txt", "0"];

const ONE: &str = "source a from \"a.csv\" (i int, t text, f flag) window time 1\n";

const ROW: &str = "at,i,t,f\n0,1,a,true\n";

// Checks or answers the plan over the rows.
fn expect<R: AllocGlobal + Abort + Threads + Sync>(
    rt: &R,
    list: &[&str],
    sources: &str,
    plan: &str,
    rows: &str,
    want: (u8, &str, &str),
) -> Result<(), Fail> {
    let mut query = String::from_str(rt.alloc(), sources)?;
    query.push_str("plan ")?;
    query.push_str(plan)?;
    expect_rows(rt, list, query.as_str(), rows, want)
}

#[test]
fn values_of_expressions(rt: HostRuntime) -> Result<(), Fail> {
    for (expr, value) in [
        ("(9223372036854775807 + 1)", "9223372036854775807\n"),
        ("(-9223372036854775808 - $0)", "-9223372036854775808\n"),
        ("(-9223372036854775808 * -2)", "9223372036854775807\n"),
        ("(9223372036854775807 * -2)", "-9223372036854775808\n"),
        ("(-3 * 4)", "-12\n"),
        ("$0", "1\n"),
        ("($1 < \"b\")", "true\n"),
        ("($1 < $1)", "false\n"),
        ("($1 <= $1)", "true\n"),
        ("($0 <= 0)", "false\n"),
        ("(false < $2)", "true\n"),
        ("(2 = $0)", "false\n"),
        ("(\"a\" = $1)", "true\n"),
        ("($2 and false)", "false\n"),
        ("(false or $2)", "true\n"),
        ("(false or false)", "false\n"),
        ("not $2", "false\n"),
    ] {
        let mut plan = String::from_str(rt.alloc(), "map([")?;
        plan.push_str(expr)?;
        plan.push_str("], a)")?;
        expect(&rt, AT, ONE, plan.as_str(), ROW, (0, value, ""))?;
    }
    Ok(())
}

// Two windows over one file.
const TWO: &str = "source a from \"a.csv\" (v int) window count 4\n\
    source b from \"a.csv\" (v int) window count 2\n";

#[test]
fn answers_of_plans(rt: HostRuntime) -> Result<(), Fail> {
    // So a has 5, 6, 7 and 7, and b has 7 and 6.
    let rows = "at,v\n0,5\n0,7\n0,7\n0,6\n";
    for (plan, want) in [
        ("filter(($0 < 7), a)", "5\n6\n"),
        ("map([($0 + 1), $0], b)", "7 6\n8 7\n"),
        ("union(b, a)", "5\n6\n6\n7\n7\n7\n"),
        ("distinct(a)", "5\n6\n7\n"),
        ("minus(a, b)", "5\n7\n"),
        ("join([0=0], true, a, b)", "6 6\n7 7\n7 7\n"),
        ("join([0=0], false, a, b)", ""),
        ("join([], ($1 < $0), a, b)", "7 6\n7 6\n"),
        ("group([0], [count], a)", "5 1\n6 1\n7 2\n"),
    ] {
        expect(&rt, AT, TWO, plan, rows, (0, want, ""))?;
    }
    Ok(())
}

#[test]
fn aggregates_of_rows(rt: HostRuntime) -> Result<(), Fail> {
    let plan = "group([], [count, sum 0, avg 0, min 0, max 0], a)";
    for (rows, want) in [
        ("at,v\n", ""),
        ("at,v\n0,-1\n0,-2\n0,0\n", "3 -3 -1 -2 0\n"),
        ("at,v\n0,-1\n0,-2\n", "2 -3 -2 -2 -1\n"),
        (
            "at,v\n0,9223372036854775807\n0,9223372036854775807\n0,-1\n",
            "3 9223372036854775807 6148914691236517204 -1 9223372036854775807\n",
        ),
        (
            "at,v\n0,-9223372036854775808\n0,2\n0,-9223372036854775808\n",
            "3 -9223372036854775808 -6148914691236517205 -9223372036854775808 2\n",
        ),
        (
            "at,v\n0,-9223372036854775808\n0,-9223372036854775808\n",
            "2 -9223372036854775808 -9223372036854775808 -9223372036854775808 \
                -9223372036854775808\n",
        ),
    ] {
        expect(&rt, AT, TWO, plan, rows, (0, want, ""))?;
    }
    Ok(())
}

const KINDS: &str = "source a from \"a.csv\" (i int, t text) window time 1\n\
    source b from \"b.csv\" (i int) window time 1\n";

#[test]
fn refusals_of_plans(rt: HostRuntime) -> Result<(), Fail> {
    for (plan, line) in [
        ("union(a, b)", "0 kind"),
        ("minus(b, a)", "0 kind"),
        ("filter($0, a)", "0 kind"),
        ("filter($2, a)", "0 column"),
        // The child before its parent.
        ("filter($2, filter(1, a))", "1 kind"),
        // The left side before the right one, and both before the node's own.
        ("union(map([$5], a), filter(1, a))", "1 column"),
        ("join([1=0], 1, a, b)", "0 kind"),
        ("join([0=0, 0=1], 1, a, b)", "0 column"),
        ("join([0=0], $3, a, b)", "0 column"),
        ("group([], [], a)", "0 width"),
        ("group([2], [sum 1], a)", "0 column"),
        ("group([], [sum 1, avg 7], a)", "0 kind"),
        ("group([], [min 1, max 2], a)", "0 column"),
    ] {
        let mut known = String::from_str(rt.alloc(), "pipes: query type ")?;
        known.push_str(line)?;
        known.push_str("\n")?;
        expect(&rt, CHECK, KINDS, plan, "", (2, "", known.as_str()))?;
    }
    Ok(())
}

// A plan that checks, as it is printed, with the kinds of its result.
fn expect_checked<R: AllocGlobal + Abort + Threads + Sync>(
    rt: &R,
    plan: &str,
    kinds: &str,
) -> Result<(), Fail> {
    let mut printed = String::from_str(rt.alloc(), KINDS)?;
    printed.push_str("plan ")?;
    printed.push_str(plan)?;
    printed.push_str("\nkinds ")?;
    printed.push_str(kinds)?;
    printed.push_str("\n")?;
    expect(rt, CHECK, KINDS, plan, "", (0, printed.as_str(), ""))
}

// The pieces one after another.
fn joined<R: AllocGlobal>(rt: &R, pieces: &[&str]) -> Result<String, Fail> {
    let mut text = String::new(rt.alloc());
    for piece in pieces {
        text.push_str(piece)?;
    }
    Ok(text)
}

// The text joined with itself, level upon level.
fn doubled<R: AllocGlobal>(
    rt: &R,
    leaf: &str,
    open: &str,
    between: &str,
    levels: u32,
) -> Result<String, Fail> {
    let mut text = String::from_str(rt.alloc(), leaf)?;
    for _ in 0..levels {
        text = joined(rt, &[open, text.as_str(), between, text.as_str(), ")"])?;
    }
    Ok(text)
}

#[test]
fn numbers_of_nodes(rt: HostRuntime) -> Result<(), Fail> {
    let sum = doubled(&rt, "1", "(", " + ", 6)?;
    let most = joined(
        &rt,
        &["filter((", sum.as_str(), " = ", sum.as_str(), "), b)"],
    )?;
    expect_checked(&rt, most.as_str(), "int")?;
    let many = (2, "", "pipes: query type 0 many\n");
    let more = joined(
        &rt,
        &["filter(not (", sum.as_str(), " = ", sum.as_str(), "), b)"],
    )?;
    expect(&rt, CHECK, KINDS, more.as_str(), "", many)?;
    let most = doubled(&rt, "b", "union(", ", ", 7)?;
    expect_checked(&rt, most.as_str(), "int")?;
    // Known before what is refused in a node.
    let more = joined(&rt, &["filter(1, ", most.as_str(), ")"])?;
    expect(&rt, CHECK, KINDS, more.as_str(), "", many)
}

#[test]
fn columns_of_groups(rt: HostRuntime) -> Result<(), Fail> {
    expect_checked(&rt, "group([1], [], a)", "text")?;
    let mut counts = String::from_str(rt.alloc(), "count")?;
    let mut kinds = String::from_str(rt.alloc(), "text int")?;
    for _ in 1..31 {
        counts.push_str(", count")?;
        kinds.push_str(" int")?;
    }
    let most = joined(&rt, &["group([1], [", counts.as_str(), "], a)"])?;
    expect_checked(&rt, most.as_str(), kinds.as_str())?;
    let more = joined(&rt, &["group([1, 0], [", counts.as_str(), "], a)"])?;
    let width = (2, "", "pipes: query type 0 width\n");
    expect(&rt, CHECK, KINDS, more.as_str(), "", width)
}
