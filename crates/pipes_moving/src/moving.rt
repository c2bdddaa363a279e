// A standing query whose plan is being replaced.
ghost use Rattle.std.specs.Prelude.{◌≡◌, ◌≤◌, ◌<◌, ◌∷◌, ◌++◌, ◌-◌, ◌^◌, [], ℕ, List, max, min};
ghost use Rattle.std.specs.Prelude.{true, false, OnOk, OnErr, IsErr, ◌↔◌, IsTrue, ◌+◌, vec_len};
ghost use Rattle.std.specs.Prelude.{vec_capacity};
ghost use Rattle.std.specs.Bool.{OnTrue};
ghost use Rattle.pipes_time.specs.Interval.{closed};
ghost use Rattle.pipes_tuple.specs.declared.value.Kind.{Kind};
ghost use Rattle.pipes_stream.specs.declared.message.Message.{Message as Sent};
ghost use Rattle.pipes_stream.specs.Lawful.{Lists};
ghost use Rattle.pipes_plan.specs.declared.plan.Plan.{Plan as Tree};
ghost use Rattle.pipes_window.specs.declared.item.Item.{Item};
ghost use Rattle.pipes_query.specs.declared.query.Query.{Query};
ghost use Rattle.pipes_output.specs.declared.entry.Entry.{Entry as Line};
ghost use Rattle.pipes_semantics.specs.Answer.{bags_at, schemas_of};
ghost use Rattle.pipes_semantics.specs.Written.{results};
ghost use Rattle.pipes_semantics.specs.Right.{Final, Right};
ghost use Rattle.pipes_told.specs.Coalesced.{CoalescedAt};
ghost use Rattle.pipes_box.specs.Boxes.{IsStill, all_held};
ghost use Rattle.pipes_box.specs.Prompt.{floors};
ghost use Rattle.pipes_works.specs.Sources.{AllSourcesEnded, AllReached, AllWithin};
ghost use Rattle.pipes_stream.specs.declared.Elem.{Elem as Lasting};
ghost use Rattle.pipes_works.specs.Standing.{IsWhole, source_count};
ghost use Rattle.pipes_written.specs.Made.{last_entry, drained, TellsMove};
ghost use Rattle.pipes_standing.specs.Calms.{Calm, Rows, AnswerAlike};
ghost use Rattle.pipes_standing.specs.Calms.{IsSettled as IsSettledStanding};
ghost use Rattle.pipes_stream.specs.declared.message.Message.TheVariants as variant;
ghost use Rattle.pipes_seam.specs.Seams.{end_of};

use crate::next::Next;
use crate::sides::{beat_below, beat_from, ends_by, starts_from};
use pipes_edge::Gate;
use pipes_output::Entry;
use pipes_seam::Seam;
use pipes_standing::{Parts, Standing};
use pipes_stream::Message;
use pipes_time::{CLOSED, Memory};
use pipes_works::Works;
use pipes_written::{Entries, Output};
use std::thread::Threads;

/// A query whose plan is being replaced: before the split the old plan answers, and from it on the
/// fresh one. What comes to their tops is merged there, and written.
#[derive(Drop)]
pub struct Moving {
    pub(crate) old_works: Works,
    pub(crate) fresh_works: Works,
    // what came to the tops and was not given to the merge yet
    pub(crate) old_sent: Vec<Message>,
    pub(crate) fresh_sent: Vec<Message>,
    pub(crate) seam: Seam,
    pub(crate) output: Output,
    pub(crate) failed: bool,
}

impl Moving {
    ghost use Rattle.pipes_moving.specs.Moves.{IsMoving, IsReady, IsWholeMoving, IsPassed};
    ghost use Rattle.pipes_moving.specs.Moves.{split_of, IsOverAt, lag_between, IsNoFurther};
    ghost use Rattle.pipes_moving.specs.Steps.{MakesEntries, IsSettled, TakesOld, TakesFresh};
    ghost use Rattle.pipes_moving.specs.Steps.{WorksBothOff, Settles, Begins};
    ghost use Rattle.pipes_moving.specs.Steps.{MayComeOld, MayComeFresh, CountsStay, TakesBeat};
    ghost use Rattle.pipes_moving.specs.Steps.{Tells};

    /// The plan that is ready begins to take the place of the one at work, at this split. No memory
    /// is taken.
    pub fn begin(standing: Standing, next: Next, split: u64) -> Moving
        requires whole { IsWhole standing.works }
        requires ready { IsReady next }
        ensures whole { IsWholeMoving result }
        ensures begins { Begins standing next split result }
        ensures count { source_count result.old_works ≡ source_count standing.works }
        ensures count_fresh { source_count result.fresh_works ≡ source_count next.works }
        ensures failed { result.failed ≡ standing.failed }
    {
        let parts = standing.into_parts();
        let first = parts.output.beat_now();
        let alloc = *parts.sent.allocator();
        let old_sent = opened(next.opening, first, parts.works.is_ended());
        Moving {
            old_works: parts.works,
            fresh_works: next.works,
            old_sent,
            fresh_sent: Vec::new(alloc),
            seam: Seam::new(alloc, split, first),
            output: parts.output,
            failed: parts.failed,
        }
    }

    /// Takes a message of a source in for the old plan, where it may come next; else it is passed
    /// over: where the source's list would not stay valid, a tuple doesn't fit, or an element ends
    /// above the split. Nothing is written. After out of memory each call answers it.
    pub fn take_old<R: Threads + Sync, G: Gate>(
        &mut self,
        rt: &R,
        gate: &G,
        source: u32,
        message: Message,
    ) -> Result<(), Memory>
        requires whole { IsWholeMoving self.old }
        requires in_range { source < source_count self.old.old_works }
        ensures whole { IsWholeMoving self.new }
        ensures count { CountsStay self.old self.new }
        ensures takes { OnOk result (TakesOld self.old self.new source message) }
        ensures entries { OnErr result (MakesEntries self.old self.new []) }
        ensures memory { OnErr result (self.new.failed ≡ true) }
        ensures stays_failed { OnTrue self.old.failed (IsErr result) }
    {
        if self.failed {
            return Err(Memory);
        }
        if !self.may_come_old(source, &message) {
            return Ok(());
        }
        self.put_old(rt, gate, source, message)
    }

    // Whether the message may come next to the old plan.
    fn may_come_old(&self, source: u32, message: &Message) -> bool
        requires { source < source_count self.now.old_works }
        ensures { IsTrue result ↔ MayComeOld self.now source message.now }
    {
        ends_by(message, self.seam.split()) && self.old_works.may_come(source, message)
    }

    // Takes a message in for the old plan, which may come next.
    fn put_old<R: Threads + Sync, G: Gate>(
        &mut self,
        rt: &R,
        gate: &G,
        source: u32,
        message: Message,
    ) -> Result<(), Memory>
        requires whole { IsWholeMoving self.old }
        requires in_range { source < source_count self.old.old_works }
        requires may { MayComeOld self.old source message }
        requires going { self.old.failed ≡ false }
        ensures whole { IsWholeMoving self.new }
        ensures count { CountsStay self.old self.new }
        ensures takes { OnOk result (TakesOld self.old self.new source message) }
        ensures entries { OnErr result (MakesEntries self.old self.new []) }
        ensures memory { OnErr result (self.new.failed ≡ true) }
    {
        self.failed = true;
        self.old_works
            .put(rt, gate, source, message, &mut self.old_sent)?;
        self.failed = false;
        Ok(())
    }

    /// Takes a message of a source in for the fresh plan, in the same way; passed over is also an
    /// element that starts below the split, or below where the output was at the beginning.
    pub fn take_fresh<R: Threads + Sync, G: Gate>(
        &mut self,
        rt: &R,
        gate: &G,
        source: u32,
        message: Message,
    ) -> Result<(), Memory>
        requires whole { IsWholeMoving self.old }
        requires in_range { source < source_count self.old.fresh_works }
        ensures whole { IsWholeMoving self.new }
        ensures count { CountsStay self.old self.new }
        ensures takes { OnOk result (TakesFresh self.old self.new source message) }
        ensures entries { OnErr result (MakesEntries self.old self.new []) }
        ensures memory { OnErr result (self.new.failed ≡ true) }
        ensures stays_failed { OnTrue self.old.failed (IsErr result) }
    {
        if self.failed {
            return Err(Memory);
        }
        if !self.may_come_fresh(source, &message) {
            return Ok(());
        }
        self.put_fresh(rt, gate, source, message)
    }

    // Whether the message may come next to the fresh plan.
    fn may_come_fresh(&self, source: u32, message: &Message) -> bool
        requires { source < source_count self.now.fresh_works }
        ensures { IsTrue result ↔ MayComeFresh self.now source message.now }
    {
        let low = self.seam.split().max(self.seam.first());
        starts_from(message, low) && self.fresh_works.may_come(source, message)
    }

    // Takes a message in for the fresh plan, which may come next.
    fn put_fresh<R: Threads + Sync, G: Gate>(
        &mut self,
        rt: &R,
        gate: &G,
        source: u32,
        message: Message,
    ) -> Result<(), Memory>
        requires whole { IsWholeMoving self.old }
        requires in_range { source < source_count self.old.fresh_works }
        requires may { MayComeFresh self.old source message }
        requires going { self.old.failed ≡ false }
        ensures whole { IsWholeMoving self.new }
        ensures count { CountsStay self.old self.new }
        ensures takes { OnOk result (TakesFresh self.old self.new source message) }
        ensures entries { OnErr result (MakesEntries self.old self.new []) }
        ensures memory { OnErr result (self.new.failed ≡ true) }
    {
        self.failed = true;
        self.fresh_works
            .put(rt, gate, source, message, &mut self.fresh_sent)?;
        self.failed = false;
        Ok(())
    }

    /// Tells both plans the heartbeat of a source: the old one up to the split, where it is the
    /// end; the fresh one from the split on, and the end once the source has ended. Out of memory
    /// as in `take_old`.
    pub fn take_beat<R: Threads + Sync, G: Gate>(
        &mut self,
        rt: &R,
        gate: &G,
        source: u32,
        at: u64,
        ended: bool,
    ) -> Result<(), Memory>
        requires whole { IsWholeMoving self.old }
        requires in_range { source < source_count self.old.old_works }
        requires in_range_fresh { source < source_count self.old.fresh_works }
        ensures whole { IsWholeMoving self.new }
        ensures count { CountsStay self.old self.new }
        ensures takes { OnOk result (TakesBeat self.old self.new source at ended) }
        ensures entries { OnErr result (MakesEntries self.old self.new []) }
        ensures memory { OnErr result (self.new.failed ≡ true) }
        ensures stays_failed { OnTrue self.old.failed (IsErr result) }
    {
        let split = self.seam.split();
        self.take_old(rt, gate, source, beat_below(split, at))?;
        self.take_fresh(rt, gate, source, beat_from(split, at, ended))?;
        Ok(())
    }

    // Works both plans off.
    fn work_both_off<R: Threads + Sync, G: Gate>(&mut self, rt: &R, gate: &G) -> Result<(), Memory>
        requires { IsWholeMoving self.old }
        ensures whole { IsWholeMoving self.new }
        ensures count { CountsStay self.old self.new }
        ensures works { OnOk result (WorksBothOff self.old self.new) }
        ensures output { self.new.output ≡ self.old.output }
        ensures failed { self.new.failed ≡ self.old.failed }
    {
        self.old_works.work_off(rt, gate, &mut self.old_sent)?;
        self.fresh_works.work_off(rt, gate, &mut self.fresh_sent)?;
        Ok(())
    }

    // Writes what came to the tops, where nothing is on its way.
    fn write_tops(&mut self) -> Result<(), Memory>
        requires whole { IsWholeMoving self.old }
        requires old_still { IsStill self.old.old_works.plan_box }
        requires fresh_still { IsStill self.old.fresh_works.plan_box }
        ensures works { self.new.old_works ≡ self.old.old_works }
        ensures fresh { self.new.fresh_works ≡ self.old.fresh_works }
        ensures settles { OnOk result (Settles self.old self.new) }
        ensures entries { OnErr result (MakesEntries self.old self.new []) }
        ensures failed { self.new.failed ≡ self.old.failed }
    {
        let mut sent = Vec::new(*self.old_sent.allocator());
        self.seam
            .join(&mut self.old_sent, &mut self.fresh_sent, &mut sent)?;
        self.seam.held();
        self.old_works.answers();
        self.old_works.keeps_up();
        self.fresh_works.answers();
        self.fresh_works.keeps_up();
        self.output.write(&mut sent, 0)?;
        Ok(())
    }

    /// Works until nothing is on its way in either plan, and writes a result for each element that
    /// the merge of both tops lets go, in order. Out of memory nothing is written, and each later
    /// call answers it.
    pub fn settle<R: Threads + Sync, G: Gate>(&mut self, rt: &R, gate: &G) -> Result<(), Memory>
        requires { IsWholeMoving self.old }
        ensures whole { IsWholeMoving self.new }
        ensures count { CountsStay self.old self.new }
        ensures settles { OnOk result (Settles self.old self.new) }
        ensures entries { OnErr result (MakesEntries self.old self.new []) }
        ensures memory { OnErr result (self.new.failed ≡ true) }
        ensures stays_failed { OnTrue self.old.failed (IsErr result) }
    {
        if self.failed {
            return Err(Memory);
        }
        self.failed = true;
        self.work_both_off(rt, gate)?;
        self.write_tops()?;
        self.failed = false;
        Ok(())
    }

    /// Tells of a migration: the reply to what was asked for, that it is idle, or that it is over.
    /// Out of memory nothing is told, and each later call answers it.
    pub fn tell(&mut self, entry: Entry) -> Result<(), Memory>
        requires whole { IsWholeMoving self.old }
        requires of_move { TellsMove entry }
        ensures whole { IsWholeMoving self.new }
        ensures count { CountsStay self.old self.new }
        ensures tells { OnOk result (Tells self.old self.new (entry ∷ [])) }
        ensures entries { OnErr result (MakesEntries self.old self.new []) }
        ensures memory { OnErr result (self.new.failed ≡ true) }
        ensures stays_failed { OnTrue self.old.failed (IsErr result) }
    {
        if self.failed {
            return Err(Memory);
        }
        self.failed = true;
        self.output.reserve(1)?;
        self.output.tell(entry);
        self.failed = false;
        Ok(())
    }

    /// Tells the heartbeat of the output, and that a drain is done with the inputs at this
    /// heartbeat. Out of memory nothing is told, and each later call answers it.
    pub fn tell_drain(&mut self, inputs: u64) -> Result<(), Memory>
        requires { IsWholeMoving self.old }
        ensures whole { IsWholeMoving self.new }
        ensures count { CountsStay self.old self.new }
        ensures tells { OnOk result
            (Tells self.old self.new (drained inputs self.old.output.beat)) }
        ensures entries { OnErr result (MakesEntries self.old self.new []) }
        ensures memory { OnErr result (self.new.failed ≡ true) }
        ensures stays_failed { OnTrue self.old.failed (IsErr result) }
    {
        if self.failed {
            return Err(Memory);
        }
        self.failed = true;
        self.output.reserve(2)?;
        self.output.drain(inputs);
        self.failed = false;
        Ok(())
    }

    /// Tells that the run has ended, or was stopped. Out of memory nothing is told, and each later
    /// call answers it.
    pub fn tell_end(&mut self, stopped: bool) -> Result<(), Memory>
        requires { IsWholeMoving self.old }
        ensures whole { IsWholeMoving self.new }
        ensures count { CountsStay self.old self.new }
        ensures tells { OnOk result (Tells self.old self.new (last_entry stopped ∷ [])) }
        ensures entries { OnErr result (MakesEntries self.old self.new []) }
        ensures memory { OnErr result (self.new.failed ≡ true) }
        ensures stays_failed { OnTrue self.old.failed (IsErr result) }
    {
        if self.failed {
            return Err(Memory);
        }
        self.failed = true;
        self.output.reserve(1)?;
        self.output.end(stopped);
        self.failed = false;
        Ok(())
    }

    /// What is written is final at each heartbeat, and right once the output has ended, for a query
    /// whose plan has the answer of the plan that is replaced: a law, and nothing to run.
    pub fn tells(&self)
        ensures order { (query : Query) (items : List (List Item)) (before after : Tree) (base : ℕ)
            (below from : Lists) (entries : List Line)
            → AnswerAlike (schemas_of query) query.plan before (bags_at query.sources items)
            → IsMoving self.now (schemas_of query) before after (bags_at query.sources items) base
            below from entries → Final query items entries }
        ensures whole { (query : Query) (items : List (List Item)) (before after : Tree) (base : ℕ)
            (below from : Lists) (entries : List Line)
            → AnswerAlike (schemas_of query) query.plan before (bags_at query.sources items)
            → IsMoving self.now (schemas_of query) before after (bags_at query.sources items) base
            below from entries → self.now.output.beat ≡ closed → Right query items entries }
    {
        self.output.tells();
    }

    /// Once settled, after the end of all that the old plan is given it keeps no element. The
    /// output is no further than the sources, and kept back by no more than the elements that reach
    /// as far as they have come; once all have come to the end, so has the output. A law, and
    /// nothing to run.
    pub fn keeps_up(&self)
        requires whole { IsWholeMoving self.now }
        requires settled { IsSettled self.now }
        ensures keeps_none { (schemas : List (List Kind)) (before after : Tree) (rows : Rows)
            (base : ℕ) (below from : Lists) (entries : List Line)
            → IsMoving self.now schemas before after rows base below from entries
            → AllSourcesEnded schemas before below → all_held self.now.old_works.plan_box ≡ 0 }
        ensures far { (schemas : List (List Kind)) (before after : Tree) (rows : Rows)
            (base : ℕ) (below from : Lists) (entries : List Line)
            → IsMoving self.now schemas before after rows base below from entries
            → (h : ℕ) (es : List Lasting) → AllReached schemas before below h
            → AllReached schemas after from h → AllWithin schemas before below es
            → AllWithin schemas after from es
            → floors (lag_between schemas before after) h es ≤ self.now.output.beat }
        ensures ends { (schemas : List (List Kind)) (before after : Tree) (rows : Rows)
            (base : ℕ) (below from : Lists) (entries : List Line)
            → IsMoving self.now schemas before after rows base below from entries
            → AllReached schemas before below closed → AllReached schemas after from closed
            → self.now.output.beat ≡ closed }
        ensures no_further { (schemas : List (List Kind)) (before after : Tree) (rows : Rows)
            (base : ℕ) (below from : Lists) (entries : List Line)
            → IsMoving self.now schemas before after rows base below from entries
            → IsNoFurther self.now schemas before after below from }
    {
        self.seam.held();
        self.old_works.answers();
        self.old_works.keeps_up();
        self.fresh_works.answers();
        self.fresh_works.keeps_up();
    }

    /// No result ends at the split where one of the same tuple starts there: a law, and nothing to
    /// run.
    pub fn coalesces(&self)
        ensures { (schemas : List (List Kind)) (before after : Tree) (rows : Rows) (base : ℕ)
            (below from : Lists) (entries : List Line)
            → IsMoving self.now schemas before after rows base below from entries
            → CoalescedAt (results entries) (split_of self.now) }
    {
        self.seam.held();
    }

    /// The fresh plan stands alone from now on, and the old one and the merge are dropped. It is
    /// calm where all that came was written and the change has passed (`IsPassed`).
    pub fn into_standing(self) -> Standing
        requires whole { IsWholeMoving self }
        requires settled { IsSettled self }
        ensures whole { IsWhole result.works }
        ensures count { source_count result.works ≡ source_count self.fresh_works }
        ensures beat { result.output.beat ≡ self.output.beat }
        ensures entries { result.output.entries.items ≡ self.output.entries.items }
        ensures settled { IsSettledStanding result }
        ensures failed { result.failed ≡ self.failed }
        ensures calm { (schemas : List (List Kind)) (before after : Tree) (rows : Rows)
            (base : ℕ) (below from : Lists) (entries : List Line)
            → IsMoving self schemas before after rows base below from entries
            → IsPassed self schemas before after below from
            → (got : List Sent) × Calm result schemas after rows (split_of self) from got entries }
    {
        self.seam.held();
        self.old_works.answers();
        self.old_works.keeps_up();
        self.fresh_works.answers();
        self.fresh_works.keeps_up();
        Standing::of_parts(Parts {
            works: self.fresh_works,
            sent: self.fresh_sent,
            output: self.output,
            failed: self.failed,
        })
    }

    /// The entries that were made and not taken yet.
    pub fn take_entries(&mut self) -> Entries
        ensures taken { result ≡ self.old.output.entries.items }
        ensures none { self.new.output.entries.items ≡ [] }
        ensures whole { IsWholeMoving self.old → IsWholeMoving self.new }
        ensures count { CountsStay self.old self.new }
        ensures seam { self.new.seam ≡ self.old.seam }
        ensures beat { self.new.output.beat ≡ self.old.output.beat }
        ensures settled { IsSettled self.old → IsSettled self.new }
        ensures failed { self.new.failed ≡ self.old.failed }
        ensures moves { (schemas : List (List Kind)) (before after : Tree) (rows : Rows)
            (base : ℕ) (below from : Lists) (entries : List Line)
            → IsMoving self.old schemas before after rows base below from entries
            → IsMoving self.new schemas before after rows base below from entries }
    {
        self.output.take_entries()
    }

    /// How far the output has come: no later result starts below.
    pub fn beat_now(&self) -> u64
        ensures { result ≡ self.now.output.beat }
    {
        self.output.beat_now()
    }

    /// The split.
    pub fn split(&self) -> u64
        ensures { result ≡ split_of self.now }
    {
        self.seam.split()
    }

    /// Whether the old plan may be told to be idle, the inputs having come so far: to the split.
    pub fn is_idle(&self, inputs: u64) -> bool
        ensures { IsTrue result ↔ (split_of self.now ≤ inputs) }
    {
        self.seam.split() <= inputs
    }

    /// Whether the change may be told to be over, the inputs having come so far: to the split, and
    /// the output above it; or to the end.
    pub fn is_over(&self, inputs: u64) -> bool
        ensures { IsTrue result ↔ IsOverAt (split_of self.now) self.now.output.beat inputs }
    {
        self.is_idle(inputs) && (self.seam.split() < self.output.beat_now() || inputs == CLOSED)
    }

    /// How many elements from its sources the old plan's operators keep, clamped to 64 bits.
    pub fn held_old(&self) -> u64
        ensures { result ≡ min (all_held self.now.old_works.plan_box) (2 ^ 64 - 1) }
    {
        self.old_works.held()
    }
}

// What the old side of the merge begins with: how far the output is, and the end where the old top
// has ended.
fn opened(mut opening: Vec<Message>, first: u64, ended: bool) -> Vec<Message>
    requires none { opening.items ≡ [] }
    requires room { vec_len opening + 2 ≤ vec_capacity opening }
    ensures { result.items ≡ variant.Beat first ∷ end_of ended }
{
    opening.push_reserved(Message::Beat(first));
    if ended {
        opening.push_reserved(Message::End);
    }
    opening
}
