// What comes first of each source to two plans, where one begins to take the place of the other.
ghost use Rattle.std.specs.Prelude.{◌≡◌, ◌<◌, [], OnOk, OnErr, length};
ghost use Rattle.pipes_halves.specs.Halves.{low_opening, high_opening};
ghost use Rattle.pipes_works.specs.Standing.{source_count};
ghost use Rattle.pipes_moving.specs.Moves.{IsWholeMoving};
ghost use Rattle.pipes_moving.specs.Steps.{CountsStay, MakesEntries};
ghost use Rattle.pipes_live.specs.Deeds.{GivesBoth, Opens};

use crate::sides::give_both;
use crate::source::Source;
use pipes_edge::Gate;
use pipes_halves::opening;
use pipes_moving::Moving;
use pipes_time::Memory;
use std::thread::Threads;

// Gives both plans what comes first of a source that has come so far.
fn open_one<R: Threads + Sync, G: Gate>(
    moving: &mut Moving,
    rt: &R,
    gate: &G,
    source: usize,
    from: &Source,
    split: u64,
) -> Result<(), Memory>
    requires whole { IsWholeMoving moving.old }
    requires in_range { source < source_count moving.old.old_works }
    requires in_range_fresh { source < source_count moving.old.fresh_works }
    ensures whole { IsWholeMoving moving.new }
    ensures count { CountsStay moving.old moving.new }
    ensures gives { OnOk result (GivesBoth moving.old moving.new source
        (low_opening from.now.watch.beat split)
        (high_opening from.now.watch.beat from.now.watch.ended split)) }
    ensures entries { OnErr result (MakesEntries moving.old moving.new []) }
{
    if source > u32::MAX as usize {
        return Err(Memory);
    }
    let halves = opening(from.watch.beat_now(), from.watch.is_ended(), split);
    give_both(moving, rt, gate, source as u32, halves)?;
    Ok(())
}

// Gives both plans what comes first of each of these sources.
pub(crate) fn open_each<R: Threads + Sync, G: Gate>(
    moving: &mut Moving,
    rt: &R,
    gate: &G,
    sources: &[Source],
    split: u64,
) -> Result<(), Memory>
    requires whole { IsWholeMoving moving.old }
    requires count { source_count moving.old.old_works ≡ length sources.now }
    requires count_fresh { source_count moving.old.fresh_works ≡ length sources.now }
    ensures whole { IsWholeMoving moving.new }
    ensures count { CountsStay moving.old moving.new }
    ensures opens { OnOk result
        (Opens moving.old moving.new sources.now split (length sources.now)) }
    ensures entries { OnErr result (MakesEntries moving.old moving.new []) }
{
    for source in 0..sources.len() {
        open_one(moving, rt, gate, source, &sources[source], split)?;
    }
    Ok(())
}
