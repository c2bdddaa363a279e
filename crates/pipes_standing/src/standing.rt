// A query of which one plan is at work.
ghost use Rattle.std.specs.Prelude.{◌≡◌, ◌≤◌, ◌<◌, ◌^◌, ◌-◌, [], ◌∷◌, ℕ, List, min, true, false};
ghost use Rattle.std.specs.Prelude.{IfOk, OnOk, OnErr, IsErr, ◌↔◌, IsTrue};
ghost use Rattle.std.specs.Bool.{OnTrue};
ghost use Rattle.pipes_time.specs.Interval.{closed};
ghost use Rattle.pipes_tuple.specs.declared.value.Kind.{Kind};
ghost use Rattle.pipes_stream.specs.declared.message.Message.{Message as Sent};
ghost use Rattle.pipes_stream.specs.Lists.{HasEnded};
ghost use Rattle.pipes_stream.specs.Lawful.{Lists, no_messages, least};
ghost use Rattle.pipes_plan.specs.declared.plan.Plan.{Plan as Tree};
ghost use Rattle.pipes_plan.specs.PlanKinds.{IsTyped};
ghost use Rattle.pipes_plan.specs.Refusals.{Checks};
ghost use Rattle.pipes_window.specs.declared.item.Item.{Item};
ghost use Rattle.pipes_query.specs.declared.query.Query.{Query};
ghost use Rattle.pipes_output.specs.declared.entry.Entry.{Entry as Line};
ghost use Rattle.pipes_semantics.specs.Answer.{bags_at, schemas_of};
ghost use Rattle.pipes_semantics.specs.Right.{Final, Right};
ghost use Rattle.pipes_box.specs.Boxes.{all_held};
ghost use Rattle.pipes_works.specs.Sources.{AllSourcesEnded};
ghost use Rattle.pipes_works.specs.Standing.{IsWhole, WorksStand, MayCome, source_count};
ghost use Rattle.pipes_written.specs.Made.{last_entry, drained, TellsMove};

use pipes_edge::Gate;
use pipes_output::Entry;
use pipes_plan::{Plan, Schemas};
use pipes_stream::Message;
use pipes_time::Memory;
use pipes_works::Works;
use pipes_written::{Entries, Output};
use std::alloc::Global;
use std::thread::Threads;

/// A query of which one plan is at work: it takes what its sources give, and makes the entries of
/// its answer.
#[derive(Drop)]
pub struct Standing {
    pub(crate) works: Works,
    // what came to the top and is not written yet
    pub(crate) sent: Vec<Message>,
    pub(crate) output: Output,
    pub(crate) failed: bool,
}

/// What a standing query is made of.
#[derive(Drop)]
pub struct Parts {
    /// The plan at work.
    pub works: Works,
    /// What came to the top and is not written yet.
    pub sent: Vec<Message>,
    /// What was written.
    pub output: Output,
    /// Whether a call was out of memory once, so that each later one answers that.
    pub failed: bool,
}

impl Standing {
    ghost use Rattle.pipes_standing.specs.Calms.{Calm, Rows, IsSettled, TakesIn, Settles};
    ghost use Rattle.pipes_standing.specs.Calms.{MakesEntries, IsUpToDate};
    ghost use Rattle.pipes_standing.specs.Calms.{AnswerAlike, Tells};

    /// The plan at work over sources with these schemas, by at most so many workers. Nothing has
    /// come, and nothing is written.
    pub fn new(
        alloc: Global,
        plan: &Plan,
        schemas: &Schemas,
        workers: u32,
    ) -> Result<Standing, Memory>
        requires typed { IsTyped plan.now schemas.now }
        requires checks { Checks schemas.now plan.now }
        requires some { 1 ≤ workers }
        requires most { workers ≤ 16 }
        ensures whole { IfOk result (λ s. IsWhole s.works) }
        ensures calm { IfOk result (λ s. (rows : Rows)
            → Calm s schemas.now plan.now rows 0 no_messages [] []) }
        ensures none { IfOk result (λ s. s.output.entries.items ≡ []) }
        ensures start { IfOk result (λ s. s.output.beat ≡ 0) }
    {
        let works = Works::new(alloc, plan, schemas, workers)?;
        Ok(Standing {
            works,
            sent: Vec::new(alloc),
            output: Output::new(alloc),
            failed: false,
        })
    }

    /// Takes the standing query apart.
    pub fn into_parts(self) -> Parts
        ensures works { result.works ≡ self.works }
        ensures sent { result.sent ≡ self.sent }
        ensures output { result.output ≡ self.output }
        ensures failed { result.failed ≡ self.failed }
    {
        Parts {
            works: self.works,
            sent: self.sent,
            output: self.output,
            failed: self.failed,
        }
    }

    /// Puts a standing query together. Nothing is said of how the parts belong together: `Calm` of
    /// them is for the caller to show.
    pub fn of_parts(parts: Parts) -> Standing
        ensures { result ≡ record {
          works = parts.works;
          sent = parts.sent;
          output = parts.output;
          failed = parts.failed;
        } }
    {
        Standing {
            works: parts.works,
            sent: parts.sent,
            output: parts.output,
            failed: parts.failed,
        }
    }

    /// Takes a message of a source in, where it may come next; else it is passed over: where the
    /// source's list would not stay valid, or a tuple doesn't fit. Nothing is written. After out of
    /// memory each call answers it.
    pub fn take<R: Threads + Sync, G: Gate>(
        &mut self,
        rt: &R,
        gate: &G,
        source: u32,
        message: Message,
    ) -> Result<(), Memory>
        requires whole { IsWhole self.old.works }
        requires in_range { source < source_count self.old.works }
        ensures whole { IsWhole self.new.works }
        ensures count { source_count self.new.works ≡ source_count self.old.works }
        ensures takes { OnOk result (TakesIn self.old self.new source message) }
        ensures entries { OnErr result (MakesEntries self.old self.new []) }
        ensures memory { OnErr result (self.new.failed ≡ true) }
        ensures stays_failed { OnTrue self.old.failed (IsErr result) }
    {
        if self.failed {
            return Err(Memory);
        }
        if !self.works.may_come(source, &message) {
            return Ok(());
        }
        self.put(rt, gate, source, message)
    }

    // Takes a message of a source in, which may come next.
    fn put<R: Threads + Sync, G: Gate>(
        &mut self,
        rt: &R,
        gate: &G,
        source: u32,
        message: Message,
    ) -> Result<(), Memory>
        requires whole { IsWhole self.old.works }
        requires in_range { source < source_count self.old.works }
        requires may { MayCome self.old.works source message }
        requires going { self.old.failed ≡ false }
        ensures whole { IsWhole self.new.works }
        ensures count { source_count self.new.works ≡ source_count self.old.works }
        ensures takes { OnOk result (TakesIn self.old self.new source message) }
        ensures entries { OnErr result (MakesEntries self.old self.new []) }
        ensures memory { OnErr result (self.new.failed ≡ true) }
    {
        self.failed = true;
        self.works.put(rt, gate, source, message, &mut self.sent)?;
        self.failed = false;
        Ok(())
    }

    /// Works until nothing is on its way, and writes a result for each element that came to the
    /// top, in order. Out of memory nothing is written, and each later call answers it.
    pub fn settle<R: Threads + Sync, G: Gate>(&mut self, rt: &R, gate: &G) -> Result<(), Memory>
        requires { IsWhole self.old.works }
        ensures whole { IsWhole self.new.works }
        ensures count { source_count self.new.works ≡ source_count self.old.works }
        ensures settles { OnOk result (Settles self.old self.new) }
        ensures entries { OnErr result (MakesEntries self.old self.new []) }
        ensures memory { OnErr result (self.new.failed ≡ true) }
        ensures stays_failed { OnTrue self.old.failed (IsErr result) }
    {
        if self.failed {
            return Err(Memory);
        }
        self.failed = true;
        self.works.work_off(rt, gate, &mut self.sent)?;
        self.works.answers();
        self.works.keeps_up();
        self.output.write(&mut self.sent, 0)?;
        self.failed = false;
        Ok(())
    }

    /// Tells of a migration: the reply to what was asked for, that it is idle, or that it is over.
    /// Out of memory nothing is told, and each later call answers it.
    pub fn tell(&mut self, entry: Entry) -> Result<(), Memory>
        requires whole { IsWhole self.old.works }
        requires of_move { TellsMove entry }
        ensures whole { IsWhole self.new.works }
        ensures count { source_count self.new.works ≡ source_count self.old.works }
        ensures tells { OnOk result (Tells self.old self.new (entry ∷ [])) }
        ensures entries { OnErr result (MakesEntries self.old self.new []) }
        ensures memory { OnErr result (self.new.failed ≡ true) }
        ensures stays_failed { OnTrue self.old.failed (IsErr result) }
    {
        if self.failed {
            return Err(Memory);
        }
        self.failed = true;
        self.output.reserve(1)?;
        self.output.tell(entry);
        self.failed = false;
        Ok(())
    }

    /// Tells the heartbeat of the output, and that a drain is done with the inputs at this
    /// heartbeat. Out of memory nothing is told, and each later call answers it.
    pub fn tell_drain(&mut self, inputs: u64) -> Result<(), Memory>
        requires { IsWhole self.old.works }
        ensures whole { IsWhole self.new.works }
        ensures count { source_count self.new.works ≡ source_count self.old.works }
        ensures tells { OnOk result
            (Tells self.old self.new (drained inputs self.old.output.beat)) }
        ensures entries { OnErr result (MakesEntries self.old self.new []) }
        ensures memory { OnErr result (self.new.failed ≡ true) }
        ensures stays_failed { OnTrue self.old.failed (IsErr result) }
    {
        if self.failed {
            return Err(Memory);
        }
        self.failed = true;
        self.output.reserve(2)?;
        self.output.drain(inputs);
        self.failed = false;
        Ok(())
    }

    /// Tells that the run has ended, or was stopped. Out of memory nothing is told, and each later
    /// call answers it.
    pub fn tell_end(&mut self, stopped: bool) -> Result<(), Memory>
        requires { IsWhole self.old.works }
        ensures whole { IsWhole self.new.works }
        ensures count { source_count self.new.works ≡ source_count self.old.works }
        ensures tells { OnOk result (Tells self.old self.new (last_entry stopped ∷ [])) }
        ensures entries { OnErr result (MakesEntries self.old self.new []) }
        ensures memory { OnErr result (self.new.failed ≡ true) }
        ensures stays_failed { OnTrue self.old.failed (IsErr result) }
    {
        if self.failed {
            return Err(Memory);
        }
        self.failed = true;
        self.output.reserve(1)?;
        self.output.end(stopped);
        self.failed = false;
        Ok(())
    }

    /// Once settled, the output has come as far as the sources allow, and to the end after the end
    /// of all of them, when no element is kept: a law, and nothing to run.
    pub fn keeps_up(&self)
        requires whole { IsWhole self.now.works }
        requires settled { IsSettled self.now }
        ensures up_to_date { (schemas : List (List Kind)) (plan : Tree) (rows : Rows) (base : ℕ)
            (by_source : Lists) (got : List Sent) (entries : List Line)
            → Calm self.now schemas plan rows base by_source got entries
            → IsUpToDate schemas plan by_source self.now.output.beat }
        ensures keeps_none { (schemas : List (List Kind)) (plan : Tree) (by_source : Lists)
            (got : List Sent) → WorksStand self.now.works schemas plan by_source got
            → AllSourcesEnded schemas plan by_source → all_held self.now.works.plan_box ≡ 0 }
    {
        self.works.answers();
        self.works.keeps_up();
    }

    /// What is written of a query is final at each heartbeat, and right once the output has ended:
    /// a law, and nothing to run.
    pub fn tells(&self)
        ensures order { (query : Query) (items : List (List Item)) (base : ℕ) (by_source : Lists)
            (got : List Sent) (entries : List Line)
            → Calm self.now (schemas_of query) query.plan (bags_at query.sources items) base
            by_source got entries → Final query items entries }
        ensures whole { (query : Query) (items : List (List Item)) (base : ℕ) (by_source : Lists)
            (got : List Sent) (entries : List Line)
            → Calm self.now (schemas_of query) query.plan (bags_at query.sources items) base
            by_source got entries → self.now.output.beat ≡ closed → Right query items entries }
    {
        self.output.tells();
    }

    /// So it is whichever plan is at work, if its answer is that of the query's plan at each
    /// instant: a law, and nothing to run.
    pub fn tells_alike(&self)
        ensures order { (query : Query) (items : List (List Item)) (plan : Tree) (base : ℕ)
            (by_source : Lists) (got : List Sent) (entries : List Line)
            → AnswerAlike (schemas_of query) query.plan plan (bags_at query.sources items)
            → Calm self.now (schemas_of query) plan (bags_at query.sources items) base by_source
            got entries → Final query items entries }
        ensures whole { (query : Query) (items : List (List Item)) (plan : Tree) (base : ℕ)
            (by_source : Lists) (got : List Sent) (entries : List Line)
            → AnswerAlike (schemas_of query) query.plan plan (bags_at query.sources items)
            → Calm self.now (schemas_of query) plan (bags_at query.sources items) base by_source
            got entries → self.now.output.beat ≡ closed → Right query items entries }
    {
        self.output.tells();
    }

    /// The entries that were made and not taken yet.
    pub fn take_entries(&mut self) -> Entries
        ensures taken { result ≡ self.old.output.entries.items }
        ensures none { self.new.output.entries.items ≡ [] }
        ensures works { self.new.works ≡ self.old.works }
        ensures beat { self.new.output.beat ≡ self.old.output.beat }
        ensures settled { IsSettled self.old → IsSettled self.new }
        ensures failed { self.new.failed ≡ self.old.failed }
        ensures calm { (schemas : List (List Kind)) (plan : Tree) (rows : Rows) (base : ℕ)
            (by_source : Lists) (got : List Sent) (entries : List Line)
            → Calm self.old schemas plan rows base by_source got entries
            → Calm self.new schemas plan rows base by_source got entries }
    {
        self.output.take_entries()
    }

    /// The least heartbeat of the sources.
    pub fn inputs_beat(&self) -> u64
        ensures { (schemas : List (List Kind)) (plan : Tree) (by_source : Lists) (got : List Sent)
            → WorksStand self.now.works schemas plan by_source got
            → result ≡ least (source_count self.now.works) by_source }
    {
        self.works.inputs_beat()
    }

    /// How far the output has come: no later result starts below.
    pub fn beat_now(&self) -> u64
        ensures { result ≡ self.now.output.beat }
    {
        self.output.beat_now()
    }

    /// Whether the source has ended.
    pub fn has_ended(&self, source: u32) -> bool
        requires { source < source_count self.now.works }
        ensures { (schemas : List (List Kind)) (plan : Tree) (by_source : Lists) (got : List Sent)
            → WorksStand self.now.works schemas plan by_source got
            → IsTrue result ↔ HasEnded (by_source source) }
    {
        self.works.has_ended(source)
    }

    /// How many elements from its sources the plan's operators keep, clamped to 64 bits.
    pub fn held(&self) -> u64
        ensures { result ≡ min (all_held self.now.works.plan_box) (2 ^ 64 - 1) }
    {
        self.works.held()
    }
}
