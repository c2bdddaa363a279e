// Plans at work, step by step: the messages that come to the top, and what waits on the way.
ghost use Rattle.std.specs.Prelude.{◌≤◌};
ghost use Rattle.pipes_box.specs.Boxes.{IsSound};

use crate::boxes::{box_of, gives};
use pipes_box::PlanBox;
use pipes_edge::NoGate;
use pipes_rows_kit::{Said, are_wanted, message, row};
use std::alloc::Global;
use std::test::Fail;
use std::thread::Threads;

// What is done with a plan at work, by one worker, and what is to come of it.
#[derive(Clone, Copy)]
enum Act<'a> {
    // A message is given at a leaf, which has room for it.
    Give(u32, Said<'a>),
    // The leaf has no room for it.
    Full(u32, Said<'a>),
    // A round takes and puts so many messages.
    Round(u64),
    // All that is on its way is worked off, and these messages come to the top.
    Sent(&'a [Said<'a>]),
    // This message, or none, is taken from the top.
    Top(&'a [Said<'a>]),
    // Of the numbers of the backlog those of depths 2, 1 and 0: what waits for the nodes there,
    // and what is pending with them.
    Backlog([u128; 6]),
    // Whether the end came to the top.
    Ended(bool),
    // The sources of the leaves.
    Leaves(&'a [u32]),
}

fn sends<R: Threads + Sync>(
    rt: &R,
    alloc: Global,
    b: &mut PlanBox,
    wanted: &[Said<'_>],
) -> Result<bool, Fail>
    requires { IsSound b.old }
    ensures { IsSound b.new }
{
    let mut out = Vec::new(alloc);
    b.work_off(rt, 1, &NoGate, &mut out)?;
    are_wanted(alloc, out.as_slice(), wanted)
}

fn has_top(alloc: Global, b: &mut PlanBox, wanted: &[Said<'_>]) -> Result<bool, Fail>
    requires { IsSound b.old }
    ensures { IsSound b.new }
{
    let mut out = Vec::new(alloc);
    if let Some(message) = b.take() {
        out.push(message)?;
    }
    are_wanted(alloc, out.as_slice(), wanted)
}

fn has_backlog(b: &mut PlanBox, wanted: &[u128; 6]) -> bool
    requires { IsSound b.old }
    ensures { IsSound b.new }
{
    let numbers = [
        b.backlog_at(58),
        b.backlog_at(59),
        b.backlog_at(60),
        b.backlog_at(61),
        b.backlog_at(62),
        b.backlog_at(63),
    ];
    numbers == *wanted
}

fn has_leaves(b: &PlanBox, wanted: &[u32]) -> bool {
    let count = b.leaf_count();
    if wanted.len() != count as usize {
        return false;
    }
    for leaf in 0..count {
        if wanted.get(leaf as usize) != Some(&b.leaf_source(leaf)) {
            return false;
        }
    }
    true
}

fn does<R: Threads + Sync>(
    rt: &R,
    alloc: Global,
    b: &mut PlanBox,
    act: &Act<'_>,
) -> Result<bool, Fail>
    requires { IsSound b.old }
    ensures { IsSound b.new }
{
    match act {
        Act::Give(leaf, said) => Ok(gives(b, *leaf, message(alloc, said)?)),
        Act::Full(leaf, said) => Ok(!gives(b, *leaf, message(alloc, said)?)),
        Act::Round(moved) => Ok(b.round(rt, 1, &NoGate)? == *moved),
        Act::Sent(wanted) => sends(rt, alloc, b, wanted),
        Act::Top(wanted) => has_top(alloc, b, wanted),
        Act::Backlog(wanted) => Ok(has_backlog(b, wanted)),
        Act::Ended(ended) => Ok(b.is_ended() == *ended),
        Act::Leaves(sources) => Ok(has_leaves(b, sources)),
    }
}

// How many of the acts come to what they are to, up to the first that doesn't.
fn done<R: Threads + Sync>(
    rt: &R,
    alloc: Global,
    plan: &str,
    room: u32,
    acts: &[Act<'_>],
) -> Result<usize, Fail> {
    let mut b = box_of(alloc, plan, room)?;
    let mut done = 0_usize;
    for act in acts {
        if !does(rt, alloc, &mut b, act)? {
            break;
        }
        done = done.saturating_add(1);
    }
    Ok(done)
}

#[test]
fn heartbeats_are_merged(rt: HostRuntime) -> Result<(), Fail> {
    let last = [row(&[8], 12, 20)];
    let acts = [
        // three elements of which none passes: one heartbeat
        Act::Give(0, row(&[-7], 1, 6)),
        Act::Give(0, row(&[-7], 2, 7)),
        Act::Give(0, row(&[-7], 10, 15)),
        Act::Sent(&[Said::Beat(10)]),
        // a heartbeat that says no more than the one before it, and one that the next element brings
        Act::Give(0, Said::Beat(10)),
        Act::Give(0, Said::Beat(11)),
        Act::Give(0, row(&[7], 12, 20)),
        Act::Sent(&last),
    ];
    let plan = "plan map([($0 + 1)], filter((0 < $0), a))";
    assert_eq!(rt; done(&rt, rt.alloc(), plan, 16, &acts)?, 8);
    Ok(())
}

#[test]
fn a_message_that_fails_is_passed_over(rt: HostRuntime) -> Result<(), Fail> {
    let left = [row(&[8], 5, 9), Said::End];
    let acts = [
        Act::Leaves(&[0]),
        Act::Give(0, Said::Beat(5)),
        // it starts before the heartbeat
        Act::Give(0, row(&[7], 4, 9)),
        Act::Give(0, left[0]),
        Act::Give(0, Said::End),
        Act::Full(0, Said::End),
        // four are taken, and two put
        Act::Round(6),
        Act::Ended(false),
        Act::Sent(&left),
        Act::Ended(true),
    ];
    let plan = "plan filter((0 < $0), a)";
    assert_eq!(rt; done(&rt, rt.alloc(), plan, 4, &acts)?, 10);
    Ok(())
}

// The map is at depth 0, the filter at depth 1, the source at depth 2.
#[test]
fn rounds_lower_the_backlog(rt: HostRuntime) -> Result<(), Fail> {
    let passed = [row(&[8], 0, 3)];
    let acts = [
        Act::Backlog([0, 0, 0, 0, 0, 0]),
        Act::Give(0, row(&[7], 0, 3)),
        Act::Backlog([0, 0, 1, 0, 0, 0]),
        // the filter takes it and puts it
        Act::Round(2),
        Act::Backlog([0, 0, 0, 0, 1, 0]),
        // no place is free for the filter's End: the map takes the element only after it
        Act::Give(0, Said::End),
        Act::Round(3),
        Act::Backlog([0, 0, 0, 1, 0, 0]),
        Act::Round(1),
        Act::Backlog([0, 0, 0, 0, 1, 0]),
        // the element waits in the top link
        Act::Round(1),
        Act::Backlog([0, 0, 0, 0, 0, 1]),
        Act::Round(0),
        Act::Top(&passed),
        Act::Round(1),
        Act::Backlog([0, 0, 0, 0, 0, 0]),
        Act::Top(&[Said::End]),
        Act::Ended(true),
        Act::Top(&[]),
    ];
    let plan = "plan map([($0 + 1)], filter((0 < $0), a))";
    assert_eq!(rt; done(&rt, rt.alloc(), plan, 1, &acts)?, 19);
    Ok(())
}

#[test]
fn leaves_are_in_preorder(rt: HostRuntime) -> Result<(), Fail> {
    let acts = [Act::Leaves(&[1, 0, 1])];
    let plan = "plan union(union(b, a), b)";
    assert_eq!(rt; done(&rt, rt.alloc(), plan, 4, &acts)?, 1);
    Ok(())
}
