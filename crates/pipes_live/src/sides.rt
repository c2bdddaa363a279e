// A message of a source, given to the plans on both sides of a split.
ghost use Rattle.std.specs.Prelude.{◌≡◌, ◌<◌, [], OnOk, OnErr, option_to_list};
ghost use Rattle.pipes_works.specs.Standing.{source_count};
ghost use Rattle.pipes_moving.specs.Moves.{IsWholeMoving};
ghost use Rattle.pipes_moving.specs.Steps.{CountsStay, MakesEntries};
ghost use Rattle.pipes_live.specs.Deeds.{GivesBelow, GivesFrom, GivesBoth};

use pipes_edge::Gate;
use pipes_halves::Halves;
use pipes_moving::Moving;
use pipes_stream::Message;
use pipes_time::Memory;
use std::thread::Threads;

// Gives the old plan what is for it, if anything is.
fn give_below<R: Threads + Sync, G: Gate>(
    moving: &mut Moving,
    rt: &R,
    gate: &G,
    source: u32,
    part: Option<Message>,
) -> Result<(), Memory>
    requires whole { IsWholeMoving moving.old }
    requires in_range { source < source_count moving.old.old_works }
    ensures whole { IsWholeMoving moving.new }
    ensures count { CountsStay moving.old moving.new }
    ensures gives { OnOk result (GivesBelow moving.old moving.new source (option_to_list part)) }
    ensures entries { OnErr result (MakesEntries moving.old moving.new []) }
{
    match part {
        Some(message) => moving.take_old(rt, gate, source, message),
        None => Ok(()),
    }
}

// Gives the fresh plan what is for it, if anything is.
fn give_from<R: Threads + Sync, G: Gate>(
    moving: &mut Moving,
    rt: &R,
    gate: &G,
    source: u32,
    part: Option<Message>,
) -> Result<(), Memory>
    requires whole { IsWholeMoving moving.old }
    requires in_range { source < source_count moving.old.fresh_works }
    ensures whole { IsWholeMoving moving.new }
    ensures count { CountsStay moving.old moving.new }
    ensures gives { OnOk result (GivesFrom moving.old moving.new source (option_to_list part)) }
    ensures entries { OnErr result (MakesEntries moving.old moving.new []) }
{
    match part {
        Some(message) => moving.take_fresh(rt, gate, source, message),
        None => Ok(()),
    }
}

// Gives both plans what is for them.
pub(crate) fn give_both<R: Threads + Sync, G: Gate>(
    moving: &mut Moving,
    rt: &R,
    gate: &G,
    source: u32,
    halves: Halves,
) -> Result<(), Memory>
    requires whole { IsWholeMoving moving.old }
    requires in_range { source < source_count moving.old.old_works }
    requires in_range_fresh { source < source_count moving.old.fresh_works }
    ensures whole { IsWholeMoving moving.new }
    ensures count { CountsStay moving.old moving.new }
    ensures gives { OnOk result (GivesBoth moving.old moving.new source
        (option_to_list halves.below) (option_to_list halves.from)) }
    ensures entries { OnErr result (MakesEntries moving.old moving.new []) }
{
    give_below(moving, rt, gate, source, halves.below)?;
    give_from(moving, rt, gate, source, halves.from)?;
    Ok(())
}
