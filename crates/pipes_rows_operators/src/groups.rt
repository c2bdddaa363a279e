// Groups, message by message.
ghost use Rattle.std.specs.Prelude.{◌≡◌, ◌∷◌, [], IfOk};
ghost use Rattle.std.specs.Bool.{OnTrue};
ghost use Rattle.pipes_plan.specs.declared.plan.Plan.TheVariants as plan;
ghost use Rattle.pipes_plan.specs.PlanKinds.{IsTyped};

use pipes_group::Group;
use pipes_plan::{Plan, Schemas};
use pipes_relation::{Agg, Aggs};
use pipes_rows_kit::{Cell, Said, Step, at_port, cells, message, row, schema, steps_done};
use pipes_stream::Operator;
use pipes_time::CLOSED;
use pipes_tuple::{Cols, Kind, Schema};
use sqlite_items::Boxed;
use std::alloc::Global;
use std::slice;
use std::test::Fail;

// Whether the plan's check accepts the group.
fn is_accepted(alloc: Global, columns: &Cols, aggs: &Aggs, input: &Schema) -> Result<bool, Fail>
    ensures { IfOk result (λ accepted. OnTrue accepted
        (IsTyped (plan.Group columns.now aggs.now (plan.Source 0)) (input.now ∷ []))) }
{
    let schemas = Vec::from_array(alloc, [input.copy()?])?;
    let schemas = Schemas::new(schemas).ok_or("too many")?;
    let rows = Boxed::new(alloc, Plan::Source(0))?;
    let group = Plan::Group(columns.copy()?, aggs.copy()?, rows);
    match group.check(alloc, &schemas) {
        Ok(_) => Ok(true),
        Err(_) => Ok(false),
    }
}

// A group of rows of these kinds.
fn group_of(alloc: Global, columns: &[u32], aggs: &[Agg], kinds: &[Kind]) -> Result<Group, Fail>
    ensures { IfOk result (λ g. (⟦<Group as Operator>⟧.task g).ports ≡ 1) }
{
    let columns = Cols::new(Vec::from_slice(alloc, columns)?).ok_or("too many")?;
    let aggs = Aggs::new(Vec::from_slice(alloc, aggs)?).ok_or("too many")?;
    let input = schema(alloc, kinds)?;
    if !is_accepted(alloc, &columns, &aggs, &input)? {
        return Ok(Err("not typed")?);
    }
    Ok(Group::new(alloc, columns, aggs, input)?)
}

// The steps that a count and a sum of the second column for each value of the first do.
fn done(alloc: Global, steps: &[Step<'_>]) -> Result<usize, Fail> {
    let aggs = [Agg::Count, Agg::Sum(1)];
    let mut group = group_of(alloc, &[0], &aggs, &[Kind::Int, Kind::Int])?;
    steps_done(alloc, &mut group, steps)
}

#[test]
fn a_group_has_a_piece_between_two_changes(rt: HostRuntime) -> Result<(), Fail> {
    let first = [row(&[1, 1, 5], 0, 2), Said::Beat(2)];
    let both = [row(&[1, 2, 12], 2, 4), Said::Beat(4)];
    let second = [row(&[1, 1, 7], 4, 6), Said::Beat(6)];
    let last = [row(&[1, 1, 9], 6, 8), Said::End];
    let steps = [
        at_port(0, row(&[1, 5], 0, 4), &[], 0, 1),
        at_port(0, row(&[1, 7], 2, 6), &first, 2, 2),
        at_port(0, Said::Beat(4), &both, 4, 1),
        // one that starts where the other ends
        at_port(0, row(&[1, 9], 6, 8), &second, 6, 1),
        at_port(0, Said::End, &last, CLOSED, 0),
    ];
    assert_eq!(rt; done(rt.alloc(), &steps)?, 5);
    Ok(())
}

#[test]
fn pieces_go_out_in_the_order_of_their_starts(rt: HostRuntime) -> Result<(), Fail> {
    let all = [row(&[1, 1, 5], 0, 9), row(&[2, 1, 6], 1, 3), Said::End];
    let steps = [
        at_port(0, row(&[1, 5], 0, 9), &[], 0, 1),
        at_port(0, row(&[2, 6], 1, 3), &[], 0, 2),
        // the piece of key 2 has ended, and waits for that of key 1, which started before
        at_port(0, Said::Beat(5), &[], 0, 1),
        at_port(0, Said::End, &all, CLOSED, 0),
    ];
    assert_eq!(rt; done(rt.alloc(), &steps)?, 4);
    Ok(())
}

// The numbers of one group, and their number, sum, least, greatest and average.
#[derive(Clone, Copy)]
struct Case<'a> {
    numbers: &'a [i64],
    wanted: [i64; 5],
}

// Each number is given over [0, 4), and then the end.
fn is_right(alloc: Global, case: &Case<'_>) -> Result<bool, Fail> {
    let aggs = [
        Agg::Count,
        Agg::Sum(0),
        Agg::Min(0),
        Agg::Max(0),
        Agg::Avg(0),
    ];
    let mut group = group_of(alloc, &[], &aggs, &[Kind::Int])?;
    let mut held = 0_u64;
    for number in case.numbers {
        held = held.saturating_add(1);
        let given = Said::Numbers(slice::from_ref(number), 0, 4);
        let step = at_port(0, given, &[], 0, held);
        if steps_done(alloc, &mut group, &[step])? != 1 {
            return Ok(false);
        }
    }
    let wanted = [Said::Numbers(&case.wanted, 0, 4), Said::End];
    let end = at_port(0, Said::End, &wanted, CLOSED, 0);
    Ok(steps_done(alloc, &mut group, &[end])? == 1)
}

#[test]
fn sums_are_clamped_once_and_averages_rounded_down(rt: HostRuntime) -> Result<(), Fail> {
    let alloc = rt.alloc();
    let cases = [
        // Clamped at each step the sum would be 20 below the greatest.
        Case {
            numbers: &[i64::MAX, 10, -20],
            wanted: [3, i64::MAX - 10, -20, i64::MAX, 3074457345618258599],
        },
        Case {
            numbers: &[i64::MAX, i64::MAX],
            wanted: [2, i64::MAX, i64::MAX, i64::MAX, i64::MAX],
        },
        Case {
            numbers: &[i64::MIN, -1, i64::MIN],
            wanted: [3, i64::MIN, i64::MIN, -1, -6148914691236517206],
        },
        Case {
            numbers: &[-3, -4],
            wanted: [2, -7, -4, -3, -4],
        },
        Case {
            numbers: &[0, -1],
            wanted: [2, -1, -1, 0, -1],
        },
        Case {
            numbers: &[4, 3],
            wanted: [2, 7, 3, 4, 3],
        },
    ];
    for case in &cases {
        assert!(rt; is_right(alloc, case)?);
    }
    Ok(())
}

const STAYS: [Cell; 2] = [Cell::Text("b"), Cell::Flag(true)];

const GOES: [Cell; 2] = [Cell::Text("ab"), Cell::Flag(false)];

// The least and the greatest of both columns of both rows.
const BOTH: [Cell; 4] = [
    Cell::Text("ab"),
    Cell::Text("b"),
    Cell::Flag(false),
    Cell::Flag(true),
];

const ONE: [Cell; 4] = [
    Cell::Text("b"),
    Cell::Text("b"),
    Cell::Flag(true),
    Cell::Flag(true),
];

#[test]
fn the_least_and_greatest_go_with_their_rows(rt: HostRuntime) -> Result<(), Fail> {
    let alloc = rt.alloc();
    let aggs = [Agg::Min(0), Agg::Max(0), Agg::Min(1), Agg::Max(1)];
    let mut group = group_of(alloc, &[], &aggs, &[Kind::Text, Kind::Flag])?;
    let all = [cells(&BOTH, 0, 2), cells(&ONE, 2, 3), Said::End];
    let steps = [
        at_port(0, cells(&STAYS, 0, 3), &[], 0, 1),
        at_port(0, cells(&GOES, 0, 2), &[], 0, 2),
        at_port(0, Said::End, &all, CLOSED, 0),
    ];
    assert_eq!(rt; steps_done(alloc, &mut group, &steps)?, 3);
    Ok(())
}

// A group that has taken a long element and a thousand short ones of other keys.
fn after_a_long_one(alloc: Global) -> Result<Group, Fail> {
    let mut group = group_of(alloc, &[0], &[Agg::Count], &[Kind::Int])?;
    let mut out = Vec::new(alloc);
    group.take(0, message(alloc, &row(&[-1], 0, 9999))?, &mut out)?;
    for start in 1..1000_u64 {
        let given = message(alloc, &row(&[start as i64], start, start + 1))?;
        group.take(0, given, &mut out)?;
    }
    Ok(group)
}

#[test]
fn few_pieces_wait_after_a_long_element(rt: HostRuntime) -> Result<(), Fail> {
    let group = after_a_long_one(rt.alloc())?;
    // Two elements live; the piece of the long one is cut so that the others can go.
    assert_eq!(rt; group.held(), 2);
    assert!(rt; group.beat_now() > 950);
    Ok(())
}
