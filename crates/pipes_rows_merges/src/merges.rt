// Two streams merged at a split.
ghost use Rattle.std.specs.Prelude.{◌<◌};

use pipes_coalesce::Coalesce;
use pipes_stream::{Elem, Message, Watch};
use pipes_time::{CLOSED, Interval, Memory};
use pipes_tuple::{Tuple, Value};
use std::alloc::Global;
use std::process::Abort;
use std::test::Fail;

// An element: its number, its start and its end.
type Row = (i64, u64, u64);

// A message: an element, a heartbeat or the end.
#[derive(Clone, Copy)]
enum Given {
    Elem(i64, u64, u64),
    Beat(u64),
    End,
}

#[derive(Clone, Copy)]
enum Side {
    Old,
    Fresh,
}

// A message of either side.
type Step = (Side, Given);

fn message(alloc: Global, given: Given) -> Result<Message, Fail> {
    match given {
        Given::Elem(number, start, end) => {
            let values = Vec::from_array(alloc, [Value::Int(number)])?;
            let tuple = Tuple::new(values).ok_or("no tuple")?;
            let span = Interval::new(start, end).ok_or("no interval")?;
            Ok(Message::Elem(Elem { tuple, span }))
        }
        Given::Beat(at) => Ok(Message::Beat(at)),
        Given::End => Ok(Message::End),
    }
}

fn is_row(message: &Message, row: Row) -> bool {
    match message {
        Message::Elem(elem) => {
            let number = elem.tuple.get(0) == Some(&Value::Int(row.0));
            number && (elem.span.start(), elem.span.end()) == (row.1, row.2)
        }
        Message::Beat(_) => false,
        Message::End => false,
    }
}

fn is_elem(message: &Message) -> bool {
    matches!(message, Message::Elem(_))
}

// How often the row is among the messages.
fn times(sent: &[Message], row: Row) -> usize {
    sent.iter().filter(|message| is_row(message, row)).count()
}

// How often the row is in the list.
fn times_wanted(rows: &[Row], row: Row) -> usize {
    rows.iter().filter(|other| **other == row).count()
}

// Whether the elements among the messages are these rows, each as often, in any order.
fn are(sent: &[Message], rows: &[Row]) -> bool {
    let elements = sent.iter().filter(|message| is_elem(message)).count();
    elements == rows.len()
        && rows
            .iter()
            .all(|row| times(sent, *row) == times_wanted(rows, *row))
}

// Takes the message of a side.
fn take(
    alloc: Global,
    merge: &mut Coalesce,
    (side, given): Step,
    sent: &mut Vec<Message>,
) -> Result<(), Fail> {
    let message = message(alloc, given)?;
    match side {
        Side::Old => merge.old(message, sent)?,
        Side::Fresh => merge.fresh(message, sent)?,
    }
    Ok(())
}

// What is sent for these messages.
fn sent_for(alloc: Global, merge: &mut Coalesce, steps: &[Step]) -> Result<Vec<Message>, Fail> {
    let mut sent = Vec::new(alloc);
    for step in steps {
        take(alloc, merge, *step, &mut sent)?;
    }
    Ok(sent)
}

// Takes the messages: the elements that are sent for them must be these rows, and the heartbeat and
// the number of those held must be these then.
fn expect<R: AllocGlobal + Abort>(
    rt: &R,
    merge: &mut Coalesce,
    steps: &[Step],
    rows: &[Row],
    wanted: (u64, u64),
) -> Result<(), Fail> {
    let sent = sent_for(rt.alloc(), merge, steps)?;
    assert!(rt; are(sent.as_slice(), rows));
    assert_eq!(rt; (merge.beat_now(), merge.held()), wanted);
    Ok(())
}

#[test]
fn one_element_of_two(rt: HostRuntime) -> Result<(), Fail> {
    let mut merge = Coalesce::two(rt.alloc(), 11);
    let sent = sent_for(
        rt.alloc(),
        &mut merge,
        &[(Side::Old, Given::Elem(6, 5, 11))],
    )?;
    assert!(rt; sent.as_slice() == [Message::Beat(5)].as_slice());
    assert_eq!(rt; (merge.beat_now(), merge.held()), (5, 1));
    let fresh = [(Side::Fresh, Given::Elem(6, 11, 15))];
    expect(&rt, &mut merge, &fresh, &[(6, 5, 15)], (5, 0))?;
    let over = [(Side::Old, Given::End), (Side::Fresh, Given::Beat(20))];
    expect(&rt, &mut merge, &over, &[], (20, 0))?;
    assert!(rt; merge.is_over());
    expect(
        &rt,
        &mut merge,
        &[(Side::Fresh, Given::End)],
        &[],
        (CLOSED, 0),
    )
}

#[test]
fn the_first_to_come_gets_the_partner(rt: HostRuntime) -> Result<(), Fail> {
    let mut merge = Coalesce::two(rt.alloc(), 11);
    let olds = [
        (Side::Old, Given::Elem(6, 5, 11)),
        (Side::Old, Given::Elem(7, 5, 9)),
        (Side::Old, Given::Elem(6, 7, 11)),
        (Side::Old, Given::Elem(8, 7, 10)),
        (Side::Old, Given::Elem(9, 8, 11)),
    ];
    // One with the start of the first is sent, since nothing with a smaller start waits.
    expect(&rt, &mut merge, &olds, &[(7, 5, 9)], (5, 4))?;
    expect(
        &rt,
        &mut merge,
        &[(Side::Fresh, Given::Elem(9, 11, 12))],
        &[],
        (5, 5),
    )?;
    let six = [(Side::Fresh, Given::Elem(6, 11, 20))];
    expect(&rt, &mut merge, &six, &[(6, 5, 20), (8, 7, 10)], (7, 3))?;
    let above = [(Side::Fresh, Given::Elem(5, 12, 13))];
    expect(&rt, &mut merge, &above, &[(6, 7, 11), (9, 8, 12)], (8, 1))?;
    expect(
        &rt,
        &mut merge,
        &[(Side::Old, Given::End)],
        &[(5, 12, 13)],
        (12, 0),
    )?;
    assert!(rt; merge.is_over());
    Ok(())
}

#[test]
fn fresh_elements_come_first(rt: HostRuntime) -> Result<(), Fail> {
    let mut merge = Coalesce::two(rt.alloc(), 11);
    let fresh = [
        (Side::Fresh, Given::Elem(6, 11, 15)),
        (Side::Fresh, Given::Elem(7, 11, 12)),
        (Side::Fresh, Given::Elem(6, 11, 15)),
        (Side::Fresh, Given::Elem(8, 14, 15)),
    ];
    expect(&rt, &mut merge, &fresh, &[], (0, 4))?;
    let olds = [
        (Side::Old, Given::Elem(6, 3, 11)),
        (Side::Old, Given::Elem(8, 4, 11)),
    ];
    expect(&rt, &mut merge, &olds, &[(6, 3, 15), (8, 4, 11)], (4, 3))?;
    let beat = [(Side::Old, Given::Beat(12))];
    expect(&rt, &mut merge, &beat, &[(6, 11, 15), (7, 11, 12)], (12, 1))?;
    expect(
        &rt,
        &mut merge,
        &[(Side::Old, Given::End)],
        &[(8, 14, 15)],
        (14, 0),
    )?;
    assert!(rt; merge.is_over());
    Ok(())
}

const SPLIT: u64 = 10;

// Whether the message that comes in this turn is the fresh side's: the bits of the order say so,
// from the lowest on.
fn is_fresh(order: u32, turn: u32) -> bool
    requires { turn < 32 }
{
    (order >> turn) & 1 == 1
}

// The messages of both sides in this order. After 10 turns the rest comes, the old side's first.
fn in_order(
    alloc: Global,
    olds: &[Given],
    fresh: &[Given],
    order: u32,
) -> Result<Vec<Step>, Memory> {
    let mut steps = Vec::new(alloc);
    let mut olds = olds.iter();
    let mut fresh = fresh.iter();
    for turn in 0..10_u32 {
        if is_fresh(order, turn) {
            if let Some(given) = fresh.next() {
                steps.push((Side::Fresh, *given))?;
            }
        } else if let Some(given) = olds.next() {
            steps.push((Side::Old, *given))?;
        }
    }
    for given in olds {
        steps.push((Side::Old, *given))?;
    }
    for given in fresh {
        steps.push((Side::Fresh, *given))?;
    }
    Ok(steps)
}

// Whether the list is valid and has ended.
fn is_whole(sent: &[Message]) -> bool {
    let mut watch = Watch::new();
    let mut is_valid = true;
    for message in sent {
        is_valid = watch.step(message) && is_valid;
    }
    is_valid && watch.is_ended()
}

// Whether a merge that takes the messages sends these rows and then the end.
fn sends(alloc: Global, steps: &[Step], rows: &[Row]) -> Result<bool, Fail> {
    let mut merge = Coalesce::two(alloc, SPLIT);
    let sent = sent_for(alloc, &mut merge, steps)?;
    Ok(are(sent.as_slice(), rows) && is_whole(sent.as_slice()))
}

// Takes the messages of both sides in every order: these rows must be sent.
fn expect_always<R: AllocGlobal + Abort>(
    rt: &R,
    olds: &[Given],
    fresh: &[Given],
    rows: &[Row],
) -> Result<(), Fail> {
    for order in 0..1_024_u32 {
        let steps = in_order(rt.alloc(), olds, fresh, order)?;
        assert!(rt; sends(rt.alloc(), steps.as_slice(), rows)?, "order {order}");
    }
    Ok(())
}

#[test]
fn partners_in_every_order(rt: HostRuntime) -> Result<(), Fail> {
    let old = [Given::Elem(6, 5, 10), Given::End];
    expect_always(
        &rt,
        &old,
        &[Given::Elem(6, 10, 15), Given::End],
        &[(6, 5, 15)],
    )?;
    // The old one that started first gets the one partner.
    let olds = [Given::Elem(6, 3, 10), Given::Elem(6, 5, 10), Given::End];
    let fresh = [Given::Elem(6, 10, 12), Given::End];
    expect_always(&rt, &olds, &fresh, &[(6, 3, 12), (6, 5, 10)])?;
    // The one old one gets one partner.
    let twice = [Given::Elem(6, 10, 12), Given::Elem(6, 10, 12), Given::End];
    expect_always(&rt, &old, &twice, &[(6, 5, 12), (6, 10, 12)])
}

#[test]
fn no_partners_in_every_order(rt: HostRuntime) -> Result<(), Fail> {
    let old = [Given::Elem(6, 5, 10), Given::End];
    // another tuple, a later start, an earlier end
    let seven = [Given::Elem(7, 10, 15), Given::End];
    expect_always(&rt, &old, &seven, &[(6, 5, 10), (7, 10, 15)])?;
    let later = [Given::Beat(10), Given::Elem(6, 11, 15), Given::End];
    expect_always(&rt, &old, &later, &[(6, 5, 10), (6, 11, 15)])?;
    let earlier = [Given::Elem(6, 5, 9), Given::Beat(10), Given::End];
    let six = [Given::Elem(6, 10, 15), Given::End];
    expect_always(&rt, &earlier, &six, &[(6, 5, 9), (6, 10, 15)])
}

#[test]
fn a_side_without_elements(rt: HostRuntime) -> Result<(), Fail> {
    let six = [Given::Elem(6, 10, 12), Given::End];
    expect_always(&rt, &[Given::End], &six, &[(6, 10, 12)])?;
    let old = [Given::Elem(6, 0, 10), Given::End];
    expect_always(&rt, &old, &[Given::End], &[(6, 0, 10)])?;
    expect_always(&rt, &[Given::End], &[Given::End], &[])
}

#[test]
fn all_kinds_in_every_order(rt: HostRuntime) -> Result<(), Fail> {
    let olds = [
        Given::Elem(7, 2, 8),
        Given::Elem(6, 4, 10),
        Given::Elem(8, 4, 9),
        Given::Elem(8, 6, 10),
        Given::End,
    ];
    let fresh = [
        Given::Beat(10),
        Given::Elem(6, 10, 11),
        Given::Beat(12),
        Given::Elem(9, 12, 13),
        Given::End,
    ];
    let rows = [(7, 2, 8), (6, 4, 11), (8, 4, 9), (8, 6, 10), (9, 12, 13)];
    expect_always(&rt, &olds, &fresh, &rows)
}
