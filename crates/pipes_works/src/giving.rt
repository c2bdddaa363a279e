// One message given at several leaves of a plan at work.
ghost use Rattle.std.specs.Prelude.{◌≡◌, ◌≤◌, ◌<◌, [], ◌∷◌, length, OnOk};
ghost use Rattle.pipes_box.specs.Boxes.{IsSound, HasPlace, GivesOne};
ghost use Rattle.pipes_works.specs.Passed.{CanGive, GivesEach};

use pipes_box::PlanBox;
use pipes_edge::Gate;
use pipes_stream::Message;
use pipes_time::Memory;
use std::thread::Threads;

// Gives a message at a leaf whose link has a free place.
fn give_free(plan_box: &mut PlanBox, leaf: u32, message: Message)
    requires sound { IsSound plan_box.old }
    requires in_range { leaf < length plan_box.old.leaves.items }
    requires place { HasPlace plan_box.old leaf }
    ensures sound { IsSound plan_box.new }
    ensures gave { GivesOne plan_box.old plan_box.new leaf message }
{
    match plan_box.give(leaf, message) {
        Ok(()) => {}
        Err(_) => unreachable!(),
    }
}

// Works the box off, and gives a message at a leaf.
fn give_after<R: Threads + Sync, G: Gate>(
    plan_box: &mut PlanBox,
    rt: &R,
    workers: u32,
    gate: &G,
    leaf: u32,
    message: Message,
    out: &mut Vec<Message>,
) -> Result<(), Memory>
    requires some { 1 ≤ workers }
    requires most { workers ≤ 16 }
    requires can { CanGive plan_box.old (leaf ∷ []) message }
    ensures sound { IsSound plan_box.new }
    ensures gave { OnOk result (GivesEach plan_box.old plan_box.new (leaf ∷ []) message
        out.old.items out.new.items) }
{
    plan_box.work_off(rt, workers, gate, out)?;
    plan_box.keeps_up();
    give_free(plan_box, leaf, message);
    Ok(())
}

// Gives a message at a leaf; the box is worked off first where the leaf's link is full.
fn give_one<R: Threads + Sync, G: Gate>(
    plan_box: &mut PlanBox,
    rt: &R,
    workers: u32,
    gate: &G,
    leaf: u32,
    message: Message,
    out: &mut Vec<Message>,
) -> Result<(), Memory>
    requires some { 1 ≤ workers }
    requires most { workers ≤ 16 }
    requires can { CanGive plan_box.old (leaf ∷ []) message }
    ensures sound { IsSound plan_box.new }
    ensures gave { OnOk result (GivesEach plan_box.old plan_box.new (leaf ∷ []) message
        out.old.items out.new.items) }
{
    match plan_box.give(leaf, message) {
        Ok(()) => Ok(()),
        Err(full) => {
            let given = give_after(plan_box, rt, workers, gate, leaf, full.0, out)?;
            Ok(given)
        }
    }
}

// Gives a message at each of these leaves, a copy at all but the last. Where a leaf's link is full
// the box is worked off, and what comes to the top is appended.
pub(crate) fn give_each<R: Threads + Sync, G: Gate>(
    plan_box: &mut PlanBox,
    rt: &R,
    workers: u32,
    gate: &G,
    leaves: &[u32],
    message: Message,
    out: &mut Vec<Message>,
) -> Result<(), Memory>
    requires some { 1 ≤ workers }
    requires most { workers ≤ 16 }
    requires can { CanGive plan_box.old leaves.now message }
    ensures sound { IsSound plan_box.new }
    ensures gave { OnOk result (GivesEach plan_box.old plan_box.new leaves.now message
        out.old.items out.new.items) }
{
    match leaves {
        [] => Ok(()),
        [leaf] => {
            let given = give_one(plan_box, rt, workers, gate, *leaf, message, out)?;
            Ok(given)
        }
        [leaf, rest @ ..] => {
            let copy = message.copy()?;
            give_one(plan_box, rt, workers, gate, *leaf, copy, out)?;
            let rest_given = give_each(plan_box, rt, workers, gate, rest, message, out)?;
            Ok(rest_given)
        }
    }
}
