// What whole plans answer: the snapshots of what comes to the top, by any number of workers, in
// links of any room.
ghost use Rattle.std.specs.Prelude.{◌≤◌};
ghost use Rattle.pipes_box.specs.Boxes.{IsSound};

use crate::boxes::{box_of, gives};
use pipes_box::PlanBox;
use pipes_edge::NoGate;
use pipes_rows_kit::{Said, message, row};
use pipes_stream::{Elem, Message};
use pipes_tuple::Tuple;
use std::alloc::Global;
use std::test::Fail;
use std::thread::Threads;

// A plan, what is given at its leaves, one after the other, and elements whose snapshots are those
// that are to come.
#[derive(Clone, Copy)]
struct Case<'a> {
    plan: &'a str,
    given: &'a [(u32, Said<'a>)],
    wanted: &'a [Said<'a>],
}

// Instants before this are looked at.
const UNTIL: u64 = 25;

fn is_valid(elem: &Elem, at: u64) -> bool {
    elem.span.start() <= at && at < elem.span.end()
}

// How many elements are valid at the instant.
fn valid(messages: &[Message], at: u64) -> usize {
    let mut many = 0_usize;
    for message in messages {
        match message {
            Message::Elem(elem) if is_valid(elem, at) => many = many.saturating_add(1),
            _ => {}
        }
    }
    many
}

// How often the row is there at the instant.
fn copies(messages: &[Message], tuple: &Tuple, at: u64) -> usize {
    let mut many = 0_usize;
    for message in messages {
        match message {
            Message::Elem(elem) if is_valid(elem, at) && elem.tuple == *tuple => {
                many = many.saturating_add(1);
            }
            _ => {}
        }
    }
    many
}

// Whether each row of the one list that is valid at the instant is there equally often in both.
fn has_copies(one: &[Message], other: &[Message], at: u64) -> bool {
    for message in one {
        if let Message::Elem(elem) = message {
            if copies(one, &elem.tuple, at) != copies(other, &elem.tuple, at) {
                return false;
            }
        }
    }
    true
}

// Whether the rows that are valid at each instant are the same, each as often.
fn same_snapshots(sent: &[Message], wanted: &[Message]) -> bool {
    for at in 0..UNTIL {
        if valid(sent, at) != valid(wanted, at) || !has_copies(sent, wanted, at) {
            return false;
        }
    }
    true
}

fn messages(alloc: Global, said: &[Said<'_>]) -> Result<Vec<Message>, Fail> {
    let mut list = Vec::new(alloc);
    for one in said {
        list.push(message(alloc, one)?)?;
    }
    Ok(list)
}

// Gives the message at the leaf; where there is no room, after what is on its way is worked off.
fn feed<R: Threads + Sync>(
    rt: &R,
    b: &mut PlanBox,
    workers: u32,
    leaf: u32,
    given: Message,
    out: &mut Vec<Message>,
) -> Result<(), Fail>
    requires sound { IsSound b.old }
    requires some { 1 ≤ workers }
    requires most { workers ≤ 16 }
    ensures { IsSound b.new }
{
    if leaf >= b.leaf_count() {
        return Ok(Err("no leaf")?);
    }
    if let Err(full) = b.give(leaf, given) {
        b.work_off(rt, workers, &NoGate, out)?;
        if !gives(b, leaf, full.0) {
            return Ok(Err("no room")?);
        }
    }
    Ok(())
}

// What comes to the top.
fn sent<R: Threads + Sync>(
    rt: &R,
    alloc: Global,
    case: &Case<'_>,
    workers: u32,
    room: u32,
) -> Result<Vec<Message>, Fail>
    requires some { 1 ≤ workers }
    requires most { workers ≤ 16 }
{
    let mut b = box_of(alloc, case.plan, room)?;
    let mut out = Vec::new(alloc);
    for (leaf, said) in case.given {
        let given = message(alloc, said)?;
        feed(rt, &mut b, workers, *leaf, given, &mut out)?;
    }
    b.work_off(rt, workers, &NoGate, &mut out)?;
    if !b.is_ended() || b.held() > 0 {
        return Ok(Err("not ended, or elements are kept")?);
    }
    Ok(out)
}

fn is_right<R: Threads + Sync>(
    rt: &R,
    alloc: Global,
    case: &Case<'_>,
    workers: u32,
    room: u32,
) -> Result<bool, Fail> {
    if workers == 0 || workers > 16 {
        return Ok(Err("no such number of workers")?);
    }
    let out = sent(rt, alloc, case, workers, room)?;
    let wanted = messages(alloc, case.wanted)?;
    Ok(same_snapshots(out.as_slice(), wanted.as_slice()))
}

// How many of some numbers of workers and rooms are right.
fn right<R: Threads + Sync>(rt: &R, alloc: Global, case: &Case<'_>) -> Result<usize, Fail> {
    let tries = [(1_u32, 1_u32), (1, 8), (2, 1), (2, 8), (4, 3), (16, 2)];
    let mut right = 0_usize;
    for (workers, room) in &tries {
        if is_right(rt, alloc, case, *workers, *room)? {
            right = right.saturating_add(1);
        }
    }
    Ok(right)
}

// Rows of which one fails, two at a time.
#[test]
fn a_filter_and_a_map_over_a_union(rt: HostRuntime) -> Result<(), Fail> {
    let given = [
        (0, row(&[-1], 0, 5)),
        (1, row(&[-2], 1, 6)),
        (0, row(&[1], 2, 7)),
        (0, row(&[2], 4, 9)),
        (1, row(&[1], 3, 8)),
        (1, row(&[1], 3, 4)),
        (0, Said::End),
        (1, Said::Beat(9)),
        (1, Said::End),
    ];
    let wanted = [
        row(&[-1], 1, 6),
        row(&[2], 2, 7),
        row(&[2], 3, 8),
        row(&[2], 3, 4),
        row(&[3], 4, 9),
    ];
    let case = Case {
        plan: "plan map([($0 + 1)], union(filter((0 < $0), a), b))",
        given: &given,
        wanted: &wanted,
    };
    assert_eq!(rt; right(&rt, rt.alloc(), &case)?, 6);
    Ok(())
}

#[test]
fn a_join(rt: HostRuntime) -> Result<(), Fail> {
    let given = [
        (0, row(&[1], 0, 10)),
        (0, row(&[2], 3, 8)),
        (1, row(&[2], 5, 12)),
        (1, row(&[-1], 6, 12)),
        (0, Said::End),
        (1, row(&[1], 9, 11)),
        (1, Said::End),
    ];
    let wanted = [row(&[2, 2], 5, 8), row(&[1, 1], 9, 10)];
    let case = Case {
        plan: "plan join([0=0], true, a, filter((0 < $0), b))",
        given: &given,
        wanted: &wanted,
    };
    assert_eq!(rt; right(&rt, rt.alloc(), &case)?, 6);
    Ok(())
}

#[test]
fn each_row_once(rt: HostRuntime) -> Result<(), Fail> {
    let given = [
        (0, row(&[1], 0, 10)),
        (0, row(&[1], 4, 12)),
        (0, row(&[2], 5, 6)),
        (0, Said::End),
    ];
    let wanted = [row(&[1], 0, 12), row(&[2], 5, 6)];
    let case = Case {
        plan: "plan distinct(a)",
        given: &given,
        wanted: &wanted,
    };
    assert_eq!(rt; right(&rt, rt.alloc(), &case)?, 6);
    Ok(())
}

#[test]
fn a_row_for_each_group(rt: HostRuntime) -> Result<(), Fail> {
    let given = [
        (0, row(&[1], 0, 10)),
        (0, row(&[1], 4, 12)),
        (0, row(&[2], 5, 6)),
        (0, Said::End),
    ];
    let wanted = [
        row(&[1, 1, 1], 0, 4),
        row(&[1, 2, 2], 4, 10),
        row(&[2, 1, 2], 5, 6),
        row(&[1, 1, 1], 10, 12),
    ];
    let case = Case {
        plan: "plan group([0], [count, sum 0], a)",
        given: &given,
        wanted: &wanted,
    };
    assert_eq!(rt; right(&rt, rt.alloc(), &case)?, 6);
    Ok(())
}

#[test]
fn the_left_rows_less_the_right(rt: HostRuntime) -> Result<(), Fail> {
    let given = [
        (0, row(&[1], 0, 10)),
        (1, row(&[1], 2, 5)),
        (1, Said::End),
        (0, row(&[1], 4, 12)),
        (0, row(&[2], 5, 6)),
        (0, Said::End),
    ];
    // from 4 on two are at the left, and one at the right until 5
    let wanted = [
        row(&[1], 0, 2),
        row(&[1], 4, 10),
        row(&[1], 5, 12),
        row(&[2], 5, 6),
    ];
    let case = Case {
        plan: "plan minus(a, b)",
        given: &given,
        wanted: &wanted,
    };
    assert_eq!(rt; right(&rt, rt.alloc(), &case)?, 6);
    Ok(())
}

// Leaves in preorder: the first source twice, and then the second one twice.
#[test]
fn all_kinds_together(rt: HostRuntime) -> Result<(), Fail> {
    let given = [
        (0, row(&[1], 0, 10)),
        (1, row(&[1], 0, 10)),
        (2, row(&[1], 2, 6)),
        (3, row(&[1], 2, 6)),
        (3, row(&[7], 3, 5)),
        (3, Said::End),
        (2, Said::End),
        (1, Said::End),
        (0, Said::End),
    ];
    // From 2 to 6 two rows less one are at the left, and one at the right: one group of one row.
    let wanted = [row(&[2, 1], 2, 6)];
    let case = Case {
        plan: "plan map([($0 + $1), $1], group([0], [count], join([0=0], ($0 < 5), \
               minus(union(a, a), distinct(b)), b)))",
        given: &given,
        wanted: &wanted,
    };
    assert_eq!(rt; right(&rt, rt.alloc(), &case)?, 6);
    Ok(())
}
