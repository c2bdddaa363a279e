// Steps of each rule in both directions, and steps that aren't made.
use crate::sources::{query_over, read_over};
use pipes_derivation::Derivation;
use pipes_query::Query;
use pipes_rules::{DeriveRefusal, derive};
use std::alloc::Global;
use std::test::Fail;

// The number of the step at which the derivation fails, 0 where it doesn't.
fn failing(alloc: Global, query: &Query, derivation: &Derivation) -> Result<u32, Fail> {
    let schemas = query.schemas(alloc)?;
    match query.plan.check(alloc, &schemas) {
        Ok(_) => {}
        Err(_) => return Ok(Err("no plan")?),
    }
    let (steps, plan) = (&derivation.steps, &derivation.plan);
    match derive(alloc, &schemas, &query.plan, steps, plan) {
        Ok(()) => Ok(0),
        Err(DeriveRefusal::NotDerived { step }) => Ok(step),
        Err(DeriveRefusal::Memory) => Ok(Err("no memory")?),
    }
}

// The same of texts: a plan, and the steps with the plan that they are to make.
fn fails_at(alloc: Global, plan: &str, steps: &str) -> Result<u32, Fail> {
    let query = query_over(alloc, plan)?;
    match read_over(alloc, &query, steps)? {
        Ok(derivation) => failing(alloc, &query, &derivation),
        Err(_) => Ok(Err("no derivation")?),
    }
}

// Whether the step makes this plan of that one.
fn makes(alloc: Global, step: &str, from: &str, to: &str) -> Result<bool, Fail> {
    let text = format!(in alloc; "step {step} plan {to}")?;
    Ok(fails_at(alloc, from, text.as_str())? == 0)
}

// The name of a rule, a plan, and what the rule makes of it; back it takes nothing, and makes the
// former of the latter.
type Both = (&'static str, &'static str, &'static str);

const BOTH_WAYS: [Both; 20] = [
    (
        "filter_merge",
        "filter((0 < $0), filter(($1 < 5), a))",
        "filter(((0 < $0) and ($1 < 5)), a)",
    ),
    (
        "filter_swap",
        "filter((0 < $0), filter(($1 < 5), a))",
        "filter(($1 < 5), filter((0 < $0), a))",
    ),
    (
        "filter_union",
        "filter((0 < $0), union(a, b))",
        "union(filter((0 < $0), a), filter((0 < $0), b))",
    ),
    (
        "filter_distinct",
        "filter((0 < $0), distinct(a))",
        "distinct(filter((0 < $0), a))",
    ),
    (
        "filter_minus",
        "filter((0 < $0), minus(a, b))",
        "minus(filter((0 < $0), a), filter((0 < $0), b))",
    ),
    (
        "filter_left",
        "filter((0 < $1), join([0=1], true, a, b))",
        "join([0=1], true, filter((0 < $1), a), b)",
    ),
    (
        "filter_right",
        "filter((0 < $3), join([0=1], true, a, b))",
        "join([0=1], true, a, filter((0 < $1), b))",
    ),
    (
        "join_commute",
        "join([0=1], ($1 < $2), a, b)",
        "map([$2, $3, $0, $1], join([1=0], ($3 < $0), b, a))",
    ),
    (
        "join_union",
        "join([0=0], true, union(a, b), a)",
        "union(join([0=0], true, a, a), join([0=0], true, b, a))",
    ),
    ("union_commute", "union(a, b)", "union(b, a)"),
    (
        "union_assoc",
        "union(union(a, b), a)",
        "union(a, union(b, a))",
    ),
    ("distinct_twice", "distinct(distinct(a))", "distinct(a)"),
    (
        "distinct_union",
        "distinct(union(a, b))",
        "distinct(union(distinct(a), distinct(b)))",
    ),
    (
        "distinct_join",
        "distinct(join([0=0], true, a, b))",
        "join([0=0], true, distinct(a), distinct(b))",
    ),
    (
        "distinct_group",
        "distinct(group([0], [count], a))",
        "group([0], [count], a)",
    ),
    (
        "map_union",
        "map([$1], union(a, b))",
        "union(map([$1], a), map([$1], b))",
    ),
    (
        "minus_assoc",
        "minus(minus(a, b), a)",
        "minus(a, union(b, a))",
    ),
    (
        "join_union_right",
        "join([0=0], true, a, union(a, b))",
        "union(join([0=0], true, a, a), join([0=0], true, a, b))",
    ),
    (
        "distinct_map",
        "distinct(map([$1], distinct(a)))",
        "distinct(map([$1], a))",
    ),
    (
        "group_distinct",
        "group([0], [min 1, max 1], distinct(a))",
        "group([0], [min 1, max 1], a)",
    ),
];

fn goes_both_ways(alloc: Global, row: &Both) -> Result<bool, Fail> {
    let (rule, left, right) = *row;
    let forward = format!(in alloc; "{rule} at top")?;
    let back = format!(in alloc; "{rule} back at top")?;
    Ok(makes(alloc, forward.as_str(), left, right)? && makes(alloc, back.as_str(), right, left)?)
}

// How many go both ways, up to the first that doesn't.
fn gone_both_ways(alloc: Global, rows: &[Both]) -> Result<usize, Fail> {
    let mut done = 0_usize;
    for row in rows {
        if !goes_both_ways(alloc, row)? {
            break;
        }
        done = done.saturating_add(1);
    }
    Ok(done)
}

#[test]
fn rules_that_go_back_by_themselves(rt: HostRuntime) -> Result<(), Fail> {
    assert_eq!(rt; gone_both_ways(rt.alloc(), &BOTH_WAYS)?, 20);
    Ok(())
}

// A step, a plan, and what the step makes of it.
type Made = (&'static str, &'static str, &'static str);

// The other rules, forward and back: those that take something back, or that aren't at the top, or
// whose way back makes another plan than the one they came from.
const ONE_WAY: [Made; 13] = [
    (
        "filter_map at top",
        "filter((5 < $1), map([$0, ($0 + $1)], a))",
        "map([$0, ($0 + $1)], filter((5 < ($0 + $1)), a))",
    ),
    (
        "filter_cond at top",
        "filter((0 < $3), join([0=1], ($1 < $2), a, b))",
        "join([0=1], (($1 < $2) and (0 < $3)), a, b)",
    ),
    (
        "filter_group at top",
        "filter((0 < $0), group([1], [count], a))",
        "group([1], [count], filter((0 < $1), a))",
    ),
    (
        "join_assoc at top",
        "join([2=0, 0=1], ($1 < $4), join([0=1], ($1 < $3), a, b), a)",
        "join([0=1, 0=3], (($1 < $3) and ($1 < $4)), a, join([0=0], true, b, a))",
    ),
    (
        "map_merge at top",
        "map([($0 + $1)], map([$1, 7], a))",
        "map([($1 + 7)], a)",
    ),
    (
        "filter_true at 0",
        "distinct(filter(true, a))",
        "distinct(a)",
    ),
    // back
    (
        "filter_map back at top with (5 < $1)",
        "map([$0, ($0 + $1)], filter((5 < ($0 + $1)), a))",
        "filter((5 < $1), map([$0, ($0 + $1)], a))",
    ),
    (
        "filter_group back at top with (0 < $0)",
        "group([1], [count], filter((0 < $1), a))",
        "filter((0 < $0), group([1], [count], a))",
    ),
    (
        "filter_cond back at top",
        "join([0=1], (($1 < $2) and (0 < $3)), a, b)",
        "filter((0 < $3), join([0=1], ($1 < $2), a, b))",
    ),
    (
        "filter_cond back at top",
        "join([], ($0 < $2), a, b)",
        "filter(($0 < $2), join([], true, a, b))",
    ),
    (
        "join_assoc back at top",
        "join([0=1, 0=3], ($1 < $3), a, join([0=0], ($0 < $2), b, a))",
        "join([2=0, 0=1], (($1 < $3) and ($2 < $4)), join([0=1], true, a, b), a)",
    ),
    (
        "map_merge back at top with [($0 + $1)] [$1, 7]",
        "map([($1 + 7)], a)",
        "map([($0 + $1)], map([$1, 7], a))",
    ),
    (
        "filter_true back at 0",
        "distinct(a)",
        "distinct(filter(true, a))",
    ),
];

// How many make what they are to make, up to the first that doesn't.
fn made(alloc: Global, rows: &[Made]) -> Result<usize, Fail> {
    let mut done = 0_usize;
    for (step, from, to) in rows {
        if !makes(alloc, step, from, to)? {
            break;
        }
        done = done.saturating_add(1);
    }
    Ok(done)
}

#[test]
fn rules_that_go_back_another_way(rt: HostRuntime) -> Result<(), Fail> {
    assert_eq!(rt; made(rt.alloc(), &ONE_WAY)?, 13);
    Ok(())
}

// A plan, a derivation, and the step at which it fails.
type Failing = (&'static str, &'static str, u32);

const NOT_DERIVED: [Failing; 12] = [
    // no node there
    ("filter(true, a)", "step filter_true at 0.0 plan a", 1),
    ("filter(true, a)", "step filter_true at 1 plan a", 1),
    // made twice
    (
        "filter((0 < $0), filter(($0 < 9), a))",
        "step filter_merge at top step filter_merge at top \
         plan filter(((0 < $0) and ($0 < 9)), a)",
        2,
    ),
    // the steps make another plan
    ("filter(true, a)", "step filter_true at top plan b", 2),
    ("union(a, b)", "plan union(b, a)", 1),
    // equal rows are counted
    (
        "group([], [count], distinct(a))",
        "step group_distinct at top plan group([], [count], a)",
        1,
    ),
    // a column of the other side
    (
        "filter((0 < $1), join([], true, a, b))",
        "step filter_right at top plan join([], true, a, filter((0 < $1), b))",
        1,
    ),
    (
        "filter((0 < $2), join([], true, a, b))",
        "step filter_left at top plan join([], true, filter((0 < $2), a), b)",
        1,
    ),
    // an argument that is missing, is one too many, or is another
    (
        "map([$1], filter((0 < $1), a))",
        "step filter_map back at top plan filter((0 < $0), map([$1], a))",
        1,
    ),
    (
        "filter((0 < $0), map([$1], a))",
        "step filter_map at top with (0 < $0) plan map([$1], filter((0 < $1), a))",
        1,
    ),
    (
        "map([$1], filter((0 < $1), a))",
        "step filter_map back at top with (1 < $0) plan filter((1 < $0), map([$1], a))",
        1,
    ),
    // columns that don't come back to their places
    (
        "map([$0, $1, $2, $3], join([], true, b, a))",
        "step join_commute back at top plan join([], true, a, b)",
        1,
    ),
];

fn fails_there(alloc: Global, row: &Failing) -> Result<bool, Fail> {
    let (plan, steps, at) = *row;
    Ok(fails_at(alloc, plan, steps)? == at)
}

#[test]
fn steps_that_are_refused(rt: HostRuntime) -> Result<(), Fail> {
    let mut done = 0_usize;
    for row in &NOT_DERIVED {
        if !fails_there(rt.alloc(), row)? {
            break;
        }
        done = done.saturating_add(1);
    }
    assert_eq!(rt; done, 12);
    Ok(())
}

// A plan as deep as one may be can't grow deeper.
#[test]
fn past_the_greatest_depth(rt: HostRuntime) -> Result<(), Fail> {
    let alloc = rt.alloc();
    let above = "distinct(".repeat(alloc, 31)?;
    let below = ")".repeat(alloc, 31)?;
    let deep = format!(in alloc; "{above}a{below}")?;
    let grown = "step filter_true back at top plan a";
    assert_eq!(rt; fails_at(alloc, deep.as_str(), grown)?, 1);
    let shrunk = "step distinct_twice at top plan a";
    assert_eq!(rt; fails_at(alloc, deep.as_str(), shrunk)?, 2);
    Ok(())
}
