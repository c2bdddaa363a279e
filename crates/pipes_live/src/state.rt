// The plans at work: one, or two while one is replaced.
ghost use Rattle.std.specs.Prelude.{◌≡◌, ◌<◌, ◌∷◌, [], ℕ, List, OnOk, OnErr, ◌↔◌, IsTrue};
ghost use Rattle.std.specs.Prelude.{length};
ghost use Rattle.pipes_written.specs.Made.{last_entry, drained, TellsMove};
ghost use Rattle.pipes_time.specs.Interval.{closed};
ghost use Rattle.pipes_tuple.specs.declared.value.Kind.{Kind};
ghost use Rattle.pipes_stream.specs.Lists.{Valid};
ghost use Rattle.pipes_stream.specs.Lawful.{Lists};
ghost use Rattle.pipes_plan.specs.declared.plan.Plan.{Plan as Tree};
ghost use Rattle.pipes_window.specs.declared.item.Item.{Item};
ghost use Rattle.pipes_query.specs.declared.query.Query.{Query};
ghost use Rattle.pipes_output.specs.declared.entry.Entry.{Entry as Line};
ghost use Rattle.pipes_semantics.specs.Answer.{bags_at, schemas_of};
ghost use Rattle.pipes_semantics.specs.Written.{results};
ghost use Rattle.pipes_semantics.specs.Right.{Final, Right};
ghost use Rattle.pipes_told.specs.Coalesced.{CoalescedAt};
ghost use Rattle.pipes_works.specs.Standing.{source_count};
ghost use Rattle.pipes_standing.specs.Calms.{Rows};
ghost use Rattle.pipes_moving.specs.Moves.{IsReady};
ghost use Rattle.pipes_live.specs.Lives.{count_in, IsWholeIn, AtWork};
ghost use Rattle.pipes_live.specs.Deeds.{TakesNext, MakesIn, StaysIn};
ghost use Rattle.pipes_live.specs.declared.state.State.TheVariants as state;

use crate::openings::open_each;
use crate::sides::give_both;
use crate::source::Source;
use pipes_edge::Gate;
use pipes_halves::split_message;
use pipes_moving::{Moving, Next};
use pipes_output::Entry;
use pipes_standing::Standing;
use pipes_stream::Message;
use pipes_time::Memory;
use pipes_written::Entries;
use std::thread::Threads;

/// The plans at work.
#[derive(Drop)]
pub enum State {
    /// One plan.
    Alone(Standing),
    /// One plan and the one that takes its place.
    Moving(Moving),
    /// No plan, only while a change begins or ends.
    Gone,
}

impl State {
    ghost use Rattle.pipes_live.specs.Lives.{beat_in, entries_in, IsSettledIn, IsAlone};
    ghost use Rattle.pipes_live.specs.Deeds.{SettlesIn, TellsIn, EmptiesIn, EndsIn, ReachesIn};
    ghost use Rattle.pipes_live.specs.Deeds.{BeginsWith, OpensIn};

    // Takes a message of a source in, which may come next.
    pub(crate) fn take<R: Threads + Sync, G: Gate>(
        &mut self,
        rt: &R,
        gate: &G,
        source: u32,
        message: Message,
    ) -> Result<(), Memory>
        requires whole { IsWholeIn self.old }
        requires in_range { source < count_in self.old }
        ensures whole { IsWholeIn self.new }
        ensures stays { StaysIn self.old self.new }
        ensures takes { OnOk result (TakesNext self.old self.new source message) }
        ensures entries { OnErr result (MakesIn self.old self.new []) }
    {
        match self {
            State::Alone(standing) => standing.take(rt, gate, source, message),
            State::Moving(moving) => take_split(moving, rt, gate, source, message),
            State::Gone => unreachable!(),
        }
    }

    // Works until nothing is on its way, and writes what came to the tops.
    pub(crate) fn settle<R: Threads + Sync, G: Gate>(
        &mut self,
        rt: &R,
        gate: &G,
    ) -> Result<(), Memory>
        requires { IsWholeIn self.old }
        ensures whole { IsWholeIn self.new }
        ensures stays { StaysIn self.old self.new }
        ensures settles { OnOk result (SettlesIn self.old self.new) }
        ensures entries { OnErr result (MakesIn self.old self.new []) }
    {
        match self {
            State::Alone(standing) => standing.settle(rt, gate),
            State::Moving(moving) => moving.settle(rt, gate),
            State::Gone => unreachable!(),
        }
    }

    // Tells of a change of plan.
    pub(crate) fn tell(&mut self, entry: Entry) -> Result<(), Memory>
        requires whole { IsWholeIn self.old }
        requires of_move { TellsMove entry }
        ensures whole { IsWholeIn self.new }
        ensures stays { StaysIn self.old self.new }
        ensures tells { OnOk result (TellsIn self.old self.new (entry ∷ [])) }
        ensures entries { OnErr result (MakesIn self.old self.new []) }
    {
        match self {
            State::Alone(standing) => standing.tell(entry),
            State::Moving(moving) => moving.tell(entry),
            State::Gone => unreachable!(),
        }
    }

    // Tells the heartbeat of the output, and that a drain is done with the inputs at this one.
    pub(crate) fn tell_drain(&mut self, inputs: u64) -> Result<(), Memory>
        requires { IsWholeIn self.old }
        ensures whole { IsWholeIn self.new }
        ensures stays { StaysIn self.old self.new }
        ensures tells { OnOk result
            (TellsIn self.old self.new (drained inputs (beat_in self.old))) }
        ensures entries { OnErr result (MakesIn self.old self.new []) }
    {
        match self {
            State::Alone(standing) => standing.tell_drain(inputs),
            State::Moving(moving) => moving.tell_drain(inputs),
            State::Gone => unreachable!(),
        }
    }

    // Tells that the run has ended, or was stopped.
    pub(crate) fn tell_end(&mut self, stopped: bool) -> Result<(), Memory>
        requires { IsWholeIn self.old }
        ensures whole { IsWholeIn self.new }
        ensures stays { StaysIn self.old self.new }
        ensures tells { OnOk result (TellsIn self.old self.new (last_entry stopped ∷ [])) }
        ensures entries { OnErr result (MakesIn self.old self.new []) }
    {
        match self {
            State::Alone(standing) => standing.tell_end(stopped),
            State::Moving(moving) => moving.tell_end(stopped),
            State::Gone => unreachable!(),
        }
    }

    // The entries that were made and not taken yet.
    pub(crate) fn take_entries(&mut self) -> Entries
        requires { IsWholeIn self.old }
        ensures taken { result ≡ entries_in self.old }
        ensures whole { IsWholeIn self.new }
        ensures stays { StaysIn self.old self.new }
        ensures empties { EmptiesIn self.old self.new }
    {
        match self {
            State::Alone(standing) => standing.take_entries(),
            State::Moving(moving) => moving.take_entries(),
            State::Gone => unreachable!(),
        }
    }

    // The plan that is ready begins to take the place of the one that is alone. Neither is told
    // yet how far the sources have come.
    pub(crate) fn begin(self, next: Next, split: u64) -> State
        requires whole { IsWholeIn self }
        requires alone { IsAlone self }
        requires settled { IsSettledIn self }
        requires ready { IsReady next }
        requires count { source_count next.works ≡ count_in self }
        ensures whole { IsWholeIn result }
        ensures count { count_in result ≡ count_in self }
        ensures begins { BeginsWith self result next split }
    {
        match self {
            State::Alone(standing) => {
                standing.keeps_up();
                State::Moving(Moving::begin(standing, next, split))
            }
            State::Moving(_) => unreachable!(),
            State::Gone => unreachable!(),
        }
    }

    // Tells both plans how far the sources have come.
    pub(crate) fn open<R: Threads + Sync, G: Gate>(
        &mut self,
        rt: &R,
        gate: &G,
        sources: &[Source],
        split: u64,
    ) -> Result<(), Memory>
        requires whole { IsWholeIn self.old }
        requires moving { IsAlone self.old → ⊥ }
        requires count { count_in self.old ≡ length sources.now }
        ensures whole { IsWholeIn self.new }
        ensures stays { StaysIn self.old self.new }
        ensures opens { OnOk result (OpensIn self.old self.new sources.now split) }
        ensures entries { OnErr result (MakesIn self.old self.new []) }
    {
        match self {
            State::Alone(_) => unreachable!(),
            State::Moving(moving) => open_each(moving, rt, gate, sources, split),
            State::Gone => unreachable!(),
        }
    }

    // Drops the plan that is replaced, if one is.
    pub(crate) fn end(self) -> State
        requires whole { IsWholeIn self }
        requires settled { IsSettledIn self }
        ensures whole { IsWholeIn result }
        ensures count { count_in result ≡ count_in self }
        ensures ends { EndsIn self result }
    {
        match self {
            State::Alone(standing) => State::Alone(standing),
            State::Moving(moving) => State::Alone(moving.into_standing()),
            State::Gone => unreachable!(),
        }
    }

    // What is written is final at each heartbeat, and right once the output has ended: a law.
    pub(crate) fn tells(&self)
        requires { IsWholeIn self.now }
        ensures order { (query : Query) (items : List (List Item)) (plan : Tree)
            (earlier : List Tree) (split : ℕ) (by_source : Lists) (entries : List Line)
            → AtWork self.now (schemas_of query) query.plan plan earlier
            (bags_at query.sources items) split by_source entries → Final query items entries }
        ensures whole { (query : Query) (items : List (List Item)) (plan : Tree)
            (earlier : List Tree) (split : ℕ) (by_source : Lists) (entries : List Line)
            → AtWork self.now (schemas_of query) query.plan plan earlier
            (bags_at query.sources items) split by_source entries → beat_in self.now ≡ closed
            → Right query items entries }
    {
        match self {
            State::Alone(standing) => standing.tells_alike(),
            State::Moving(moving) => moving.tells(),
            State::Gone => unreachable!(),
        }
    }

    // Once settled, the output has come as far as the sources allow: a law.
    pub(crate) fn keeps_up(&self)
        requires whole { IsWholeIn self.now }
        requires settled { IsSettledIn self.now }
        ensures { (schemas : List (List Kind)) (query plan : Tree) (earlier : List Tree)
            (rows : Rows) (split : ℕ) (by_source : Lists) (entries : List Line)
            → AtWork self.now schemas query plan earlier rows split by_source entries
            → ((s : ℕ) → Valid (by_source s))
            → ReachesIn self.now schemas plan earlier split by_source }
    {
        match self {
            State::Alone(standing) => standing.keeps_up(),
            State::Moving(moving) => moving.keeps_up(),
            State::Gone => unreachable!(),
        }
    }

    // While a plan is replaced no result is cut in two at the split: a law.
    pub(crate) fn coalesces(&self)
        ensures { (IsAlone self.now → ⊥) → (schemas : List (List Kind)) (query plan : Tree)
            (earlier : List Tree) (rows : Rows) (split : ℕ) (by_source : Lists)
            (entries : List Line)
            → AtWork self.now schemas query plan earlier rows split by_source entries
            → CoalescedAt (results entries) split }
    {
        match self {
            State::Alone(_) => {}
            State::Moving(moving) => moving.coalesces(),
            State::Gone => {}
        }
    }

    // How far the output has come.
    pub(crate) fn beat_now(&self) -> u64
        ensures { result ≡ beat_in self.now }
    {
        match self {
            State::Alone(standing) => standing.beat_now(),
            State::Moving(moving) => moving.beat_now(),
            State::Gone => 0,
        }
    }

    // Whether a plan is replaced.
    pub(crate) fn is_moving(&self) -> bool
        requires { IsWholeIn self.now }
        ensures { IsTrue result ↔ (IsAlone self.now → ⊥) }
    {
        match self {
            State::Alone(_) => false,
            State::Moving(_) => true,
            State::Gone => true,
        }
    }
}

// Gives both plans what of the message is for them.
fn take_split<R: Threads + Sync, G: Gate>(
    moving: &mut Moving,
    rt: &R,
    gate: &G,
    source: u32,
    message: Message,
) -> Result<(), Memory>
    requires whole { IsWholeIn (state.Moving moving.old) }
    requires in_range { source < count_in (state.Moving moving.old) }
    ensures whole { IsWholeIn (state.Moving moving.new) }
    ensures count { count_in (state.Moving moving.new) ≡ count_in (state.Moving moving.old) }
    ensures takes { OnOk result
        (TakesNext (state.Moving moving.old) (state.Moving moving.new) source message) }
    ensures entries { OnErr result
        (MakesIn (state.Moving moving.old) (state.Moving moving.new) []) }
{
    let halves = split_message(message, moving.split())?;
    give_both(moving, rt, gate, source, halves)?;
    Ok(())
}
