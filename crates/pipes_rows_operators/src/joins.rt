// Joins of two inputs, message by message.
ghost use Rattle.std.specs.Prelude.{◌≡◌, ◌∷◌, [], IfOk};
ghost use Rattle.std.specs.Bool.{OnTrue};
ghost use Rattle.pipes_plan.specs.declared.plan.Plan.TheVariants as plan;
ghost use Rattle.pipes_plan.specs.PlanKinds.{IsTyped};

use pipes_pair::Join;
use pipes_plan::{Expr, Op, Pair, Pairs, Plan, Schemas};
use pipes_rows_kit::{Cell, Said, Step, at_port, cells, message, row, schema, sent, steps_done};
use pipes_stream::Message;
use pipes_time::CLOSED;
use pipes_tuple::{Kind, Schema, Value};
use sqlite_items::Boxed;
use std::alloc::Global;
use std::test::Fail;

const LEFT: u32 = 0;

const RIGHT: u32 = 1;

// The plan of a join of two sources.
fn plan_of(alloc: Global, pairs: &Pairs, condition: &Expr) -> Result<Plan, Fail>
    ensures { IfOk result (λ p. p ≡
        plan.Join pairs.now condition.now (plan.Source 0) (plan.Source 1)) }
{
    let left = Boxed::new(alloc, Plan::Source(0))?;
    let right = Boxed::new(alloc, Plan::Source(1))?;
    Ok(Plan::Join(pairs.copy()?, condition.copy(alloc)?, left, right))
}

// Whether the plan's check accepts the join.
fn is_accepted(
    alloc: Global,
    pairs: &Pairs,
    condition: &Expr,
    left: &Schema,
    right: &Schema,
) -> Result<bool, Fail>
    ensures { IfOk result (λ accepted. OnTrue accepted
        (IsTyped (plan.Join pairs.now condition.now (plan.Source 0) (plan.Source 1))
        (left.now ∷ right.now ∷ []))) }
{
    let schemas = Vec::from_array(alloc, [left.copy()?, right.copy()?])?;
    let schemas = Schemas::new(schemas).ok_or("too many")?;
    let join = plan_of(alloc, pairs, condition)?;
    match join.check(alloc, &schemas) {
        Ok(_) => Ok(true),
        Err(_) => Ok(false),
    }
}

// A join of two sides that the plan's check accepts.
fn checked(
    alloc: Global,
    pairs: Pairs,
    condition: Expr,
    left: Schema,
    right: Schema,
) -> Result<Join, Fail> {
    if !is_accepted(alloc, &pairs, &condition, &left, &right)? {
        return Ok(Err("not typed")?);
    }
    Ok(Join::new(alloc, pairs, condition, left, right)?)
}

// A join of two sides of rows of these kinds.
fn join_of(alloc: Global, pairs: &[Pair], condition: Expr, kinds: &[Kind]) -> Result<Join, Fail> {
    let pairs = Pairs::new(Vec::from_slice(alloc, pairs)?).ok_or("too many")?;
    let left = schema(alloc, kinds)?;
    let right = schema(alloc, kinds)?;
    checked(alloc, pairs, condition, left, right)
}

// A join of two sides of rows of these kinds by their first columns.
fn by_first(alloc: Global, kinds: &[Kind]) -> Result<Join, Fail> {
    let first = [Pair { left: 0, right: 0 }];
    join_of(alloc, &first, Expr::Literal(Value::Flag(true)), kinds)
}

// A join of two sides of two numbers without pairs, on the condition that the second column of the
// left side is below that of the right side.
fn by_second(alloc: Global) -> Result<Join, Fail> {
    let left = Boxed::new(alloc, Expr::Col(1))?;
    let right = Boxed::new(alloc, Expr::Col(3))?;
    let below = Expr::Binary(Op::Lt, left, right);
    join_of(alloc, &[], below, &[Kind::Int, Kind::Int])
}

// The steps that a join of two sides of two numbers by their first columns does.
fn done(alloc: Global, steps: &[Step<'_>]) -> Result<usize, Fail> {
    let mut join = by_first(alloc, &[Kind::Int, Kind::Int])?;
    steps_done(alloc, &mut join, steps)
}

// The steps that are done of a heartbeat at the left and both ends, where one pair is due.
fn last_done(alloc: Global, join: &mut Join) -> Result<usize, Fail> {
    let pair = [row(&[7, 1, 7, 4], 2, 5), Said::Beat(2)];
    let last = [
        at_port(LEFT, Said::Beat(3), &pair, 2, 2),
        at_port(LEFT, Said::End, &[], 2, 1),
        at_port(RIGHT, Said::End, &[Said::End], CLOSED, 0),
    ];
    steps_done(alloc, join, &last)
}

// The steps that are done where these come first, and then those.
fn done_after(alloc: Global, first: &[Step<'_>]) -> Result<usize, Fail> {
    let mut join = by_first(alloc, &[Kind::Int, Kind::Int])?;
    let begun = steps_done(alloc, &mut join, first)?;
    let last = last_done(alloc, &mut join)?;
    Ok(begun.saturating_add(last))
}

#[test]
fn a_pair_is_sent_in_either_order_of_its_sides(rt: HostRuntime) -> Result<(), Fail> {
    let alloc = rt.alloc();
    let left = row(&[7, 1], 0, 5);
    let right = row(&[7, 4], 2, 9);
    let left_first = [
        at_port(LEFT, left, &[], 0, 1),
        at_port(RIGHT, right, &[], 0, 2),
    ];
    let right_first = [
        at_port(RIGHT, right, &[], 0, 1),
        at_port(LEFT, left, &[], 0, 2),
    ];
    assert_eq!(rt; done_after(alloc, &left_first)?, 5);
    assert_eq!(rt; done_after(alloc, &right_first)?, 5);
    Ok(())
}

#[test]
fn rows_of_one_key_are_joined_while_both_are_valid(rt: HostRuntime) -> Result<(), Fail> {
    let pair = [row(&[7, 2, 7, 4], 5, 7), Said::Beat(5)];
    let steps = [
        at_port(LEFT, row(&[7, 1], 0, 5), &[], 0, 1),
        at_port(LEFT, row(&[7, 2], 1, 9), &[], 0, 2),
        // another key
        at_port(RIGHT, row(&[8, 3], 2, 6), &[Said::Beat(1)], 1, 3),
        // its span only touches that of the first, which is not kept: the right side is at 5
        at_port(RIGHT, row(&[7, 4], 5, 7), &[], 1, 3),
        at_port(LEFT, Said::End, &pair, 5, 1),
        at_port(RIGHT, Said::End, &[Said::End], CLOSED, 0),
    ];
    assert_eq!(rt; done(rt.alloc(), &steps)?, 6);
    Ok(())
}

// A join that has taken three elements of the left side and two of the right one, all of one key.
fn of_one_key(alloc: Global) -> Result<Join, Fail> {
    let mut join = by_first(alloc, &[Kind::Int, Kind::Int])?;
    let given = [
        (LEFT, row(&[1, 1], 0, 10)),
        (RIGHT, row(&[1, 5], 1, 4)),
        (LEFT, row(&[1, 2], 0, 10)),
        (LEFT, row(&[1, 1], 0, 10)),
        (RIGHT, row(&[1, 6], 2, 3)),
    ];
    let mut held = 0_u64;
    for (port, given) in &given {
        held = held.saturating_add(1);
        let step = at_port(*port, *given, &[], 0, held);
        if steps_done(alloc, &mut join, &[step])? != 1 {
            return Ok(Err("not as wanted")?);
        }
    }
    Ok(join)
}

// How often the message is there.
fn times(alloc: Global, sent: &[Message], said: &Said<'_>) -> Result<usize, Fail> {
    let message = message(alloc, said)?;
    Ok(sent.iter().filter(|one| **one == message).count())
}

#[test]
fn each_element_of_a_key_meets_each_of_the_other_side(rt: HostRuntime) -> Result<(), Fail> {
    let alloc = rt.alloc();
    let mut join = of_one_key(alloc)?;
    let sent = sent(alloc, &mut join, LEFT, &Said::End)?;
    // Elements of one start may go in any order.
    let cases = [
        (row(&[1, 1, 1, 5], 1, 4), 2),
        (row(&[1, 2, 1, 5], 1, 4), 1),
        (row(&[1, 1, 1, 6], 2, 3), 2),
        (row(&[1, 2, 1, 6], 2, 3), 1),
        (Said::Beat(2), 1),
    ];
    for (said, wanted) in &cases {
        assert_eq!(rt; times(alloc, sent.as_slice(), said)?, *wanted);
    }
    assert_eq!(rt; sent.len(), 7);
    let end = at_port(RIGHT, Said::End, &[Said::End], CLOSED, 0);
    assert_eq!(rt; steps_done(alloc, &mut join, &[end])?, 1);
    Ok(())
}

#[test]
fn all_rows_meet_without_pairs_where_the_condition_holds(rt: HostRuntime) -> Result<(), Fail> {
    let alloc = rt.alloc();
    let mut join = by_second(alloc)?;
    let pair = [row(&[5, 6, 1, 9], 4, 6), Said::Beat(4)];
    let steps = [
        at_port(RIGHT, row(&[1, 2], 3, 6), &[], 0, 1),
        at_port(RIGHT, row(&[1, 9], 3, 6), &[], 0, 2),
        at_port(RIGHT, Said::End, &[], 0, 2),
        // it is not kept: no other comes at the right
        at_port(LEFT, row(&[5, 6], 4, 9), &pair, 4, 2),
        at_port(LEFT, Said::End, &[Said::End], CLOSED, 0),
    ];
    assert_eq!(rt; steps_done(alloc, &mut join, &steps)?, 5);
    Ok(())
}

const LONG: [Cell; 1] = [Cell::Text("ab")];

const SHORT: [Cell; 1] = [Cell::Text("a")];

const LONG_TWICE: [Cell; 2] = [Cell::Text("ab"), Cell::Text("ab")];

#[test]
fn texts_are_joined_by_their_characters(rt: HostRuntime) -> Result<(), Fail> {
    let alloc = rt.alloc();
    let mut join = by_first(alloc, &[Kind::Text])?;
    let pair = [cells(&LONG_TWICE, 2, 9), Said::Beat(2)];
    let steps = [
        at_port(LEFT, cells(&LONG, 0, 9), &[], 0, 1),
        at_port(LEFT, cells(&SHORT, 0, 9), &[], 0, 2),
        at_port(RIGHT, cells(&LONG, 2, 9), &[], 0, 3),
        at_port(LEFT, Said::End, &pair, 2, 2),
        at_port(RIGHT, Said::End, &[Said::End], CLOSED, 0),
    ];
    assert_eq!(rt; steps_done(alloc, &mut join, &steps)?, 5);
    Ok(())
}
