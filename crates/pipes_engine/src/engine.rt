// A query that is run while its plan may be replaced.
ghost use Rattle.std.specs.Prelude.{◌≡◌, ◌≤◌, ◌<◌, ◌+◌, ◌^◌, [], ℕ, List, length, IfOk, OnOk};
ghost use Rattle.std.specs.Prelude.{OnErr, IsErr, true};
ghost use Rattle.std.specs.List.{All};
ghost use Rattle.pipes_stream.specs.Lawful.{Lists, no_messages};
ghost use Rattle.pipes_plan.specs.PlanKinds.{IsTyped};
ghost use Rattle.pipes_plan.specs.Refusals.{Checks};
ghost use Rattle.pipes_window.specs.declared.item.Item.{Item};
ghost use Rattle.pipes_query.specs.declared.query.Query.{Query as AQuery};
ghost use Rattle.pipes_output.specs.declared.entry.Entry.{Entry as Line};
ghost use Rattle.pipes_output.specs.Lines.{IsEntry};
ghost use Rattle.pipes_semantics.specs.Answer.{schemas_of};
ghost use Rattle.pipes_derivation.specs.declared.derivation.Derivation.{Derivation as Moved};
ghost use Rattle.pipes_told.specs.Asks.{Ask};

use crate::limits::are_entries;
use crate::serving::Serving;
use pipes_derivation::Derivation;
use pipes_edge::Gate;
use pipes_query::Query;
use pipes_stream::Message;
use pipes_time::Memory;
use pipes_written::Entries;
use std::alloc::Global;
use std::thread::Threads;

/// A query that is run: by its own plan at first, and by others that derivations make of it. It
/// takes what its sources give, replies to what is asked for, and makes the entries of its answer.
///
/// Out of memory no entry is taken back, and each later call answers `Memory`.
#[derive(Drop)]
pub struct Engine {
    pub(crate) serving: Serving,
    pub(crate) failed: bool,
}

impl Engine {
    ghost use Rattle.pipes_engine.specs.Runs.{Runs, IsWholeEngine, HasFailed, source_count};
    ghost use Rattle.pipes_engine.specs.Runs.{commands_of, entries_of, beat_of};
    ghost use Rattle.pipes_engine.specs.Deeds.{Takes, Answers, nothing_asked, a_drain, a_migration};
    ghost use Rattle.pipes_engine.specs.Deeds.{Finishes, IsSoFar};

    /// The query, of which nothing has come and nothing was written, by at most so many workers.
    pub fn new(alloc: Global, query: &Query, workers: u32) -> Result<Engine, Memory>
        requires typed { IsTyped query.now.plan (schemas_of query.now) }
        requires checks { Checks (schemas_of query.now) query.now.plan }
        requires some { 1 ≤ workers }
        requires most { workers ≤ 16 }
        ensures whole { IfOk result (λ e. IsWholeEngine e) }
        ensures count { IfOk result (λ e. source_count e ≡ length query.now.sources) }
        ensures commands { IfOk result (λ e. commands_of e ≡ 0) }
        ensures none { IfOk result (λ e. entries_of e ≡ []) }
        ensures runs { IfOk result (λ e. (items : List (List Item)) (asks : List (Ask Moved))
            → Runs e query.now items asks asks no_messages []) }
    {
        let serving = Serving::new(alloc, query, workers)?;
        Ok(Engine {
            serving,
            failed: false,
        })
    }

    /// Takes a message of a source in, which may come next (`Takes`); another one is passed over.
    /// No entry is made.
    pub fn take<R: Threads + Sync, G: Gate>(
        &mut self,
        rt: &R,
        gate: &G,
        source: u32,
        message: Message,
    ) -> Result<(), Memory>
        requires whole { IsWholeEngine self.old }
        requires in_range { source < source_count self.old }
        ensures whole { IsWholeEngine self.new }
        ensures count { source_count self.new ≡ source_count self.old }
        ensures commands { commands_of self.new ≡ commands_of self.old }
        ensures takes { OnOk result (Takes self.old self.new source message) }
        ensures failed { OnErr result (HasFailed self.new) }
        ensures stays_failed { HasFailed self.old → IsErr result }
    {
        if self.failed {
            return Err(Memory);
        }
        self.failed = true;
        self.serving.take(rt, gate, source, message)?;
        self.failed = false;
        Ok(())
    }

    /// Works until nothing is on its way: makes a result for each element that came to the top, in
    /// order, and tells of a migration that it is idle or over, where it is. Once it is over its
    /// old plan is dropped.
    pub fn settle<R: Threads + Sync, G: Gate>(&mut self, rt: &R, gate: &G) -> Result<(), Memory>
        requires whole { IsWholeEngine self.old }
        ensures whole { IsWholeEngine self.new }
        ensures count { source_count self.new ≡ source_count self.old }
        ensures commands { commands_of self.new ≡ commands_of self.old }
        ensures answers { OnOk result (Answers self.old self.new nothing_asked) }
        ensures failed { OnErr result (HasFailed self.new) }
        ensures stays_failed { HasFailed self.old → IsErr result }
    {
        if self.failed {
            return Err(Memory);
        }
        self.failed = true;
        self.serving.settle(rt, gate)?;
        self.failed = false;
        Ok(())
    }

    /// Settles, and then replies to a drain: how far the output and the inputs have come.
    pub fn drain<R: Threads + Sync, G: Gate>(&mut self, rt: &R, gate: &G) -> Result<(), Memory>
        requires whole { IsWholeEngine self.old }
        ensures whole { IsWholeEngine self.new }
        ensures count { source_count self.new ≡ source_count self.old }
        ensures commands { commands_of self.new ≡ commands_of self.old }
        ensures answers { OnOk result (Answers self.old self.new a_drain) }
        ensures failed { OnErr result (HasFailed self.new) }
        ensures stays_failed { HasFailed self.old → IsErr result }
    {
        if self.failed {
            return Err(Memory);
        }
        self.failed = true;
        self.serving.drain(rt, gate)?;
        self.failed = false;
        Ok(())
    }

    /// Settles, and then replies to a migrate command: it is refused for the first cause, or
    /// accepted, and then the derivation's plan takes the place of the one now, from a split above
    /// every end that is known.
    pub fn migrate<R: Threads + Sync, G: Gate>(
        &mut self,
        rt: &R,
        gate: &G,
        derivation: &Derivation,
    ) -> Result<(), Memory>
        requires whole { IsWholeEngine self.old }
        requires commands { commands_of self.old + 1 < 2 ^ 32 }
        ensures whole { IsWholeEngine self.new }
        ensures count { source_count self.new ≡ source_count self.old }
        ensures commands { OnOk result (commands_of self.new ≡ commands_of self.old + 1) }
        ensures answers { OnOk result (Answers self.old self.new (a_migration derivation.now)) }
        ensures failed { OnErr result (HasFailed self.new) }
        ensures stays_failed { HasFailed self.old → IsErr result }
    {
        if self.failed {
            return Err(Memory);
        }
        self.failed = true;
        self.serving.migrate(rt, gate, derivation)?;
        self.failed = false;
        Ok(())
    }

    /// Settles, and then tells that the run has ended, or was stopped. All sources have ended, and
    /// each command has its reply.
    pub fn finish<R: Threads + Sync, G: Gate>(
        &mut self,
        rt: &R,
        gate: &G,
        stopped: bool,
    ) -> Result<(), Memory>
        requires whole { IsWholeEngine self.old }
        ensures whole { IsWholeEngine self.new }
        ensures count { source_count self.new ≡ source_count self.old }
        ensures finishes { OnOk result (Finishes self.old self.new stopped) }
        ensures failed { OnErr result (HasFailed self.new) }
        ensures stays_failed { HasFailed self.old → IsErr result }
    {
        if self.failed {
            return Err(Memory);
        }
        self.failed = true;
        self.serving.finish(rt, gate, stopped)?;
        self.failed = false;
        Ok(())
    }

    /// The entries that were made and not taken yet, in order. Their numbers, intervals and tuples
    /// are within the limits of their types.
    pub fn take_entries(&mut self) -> Entries
        requires whole { IsWholeEngine self.old }
        ensures taken { result ≡ entries_of self.old }
        ensures typed { All IsEntry result }
        ensures none { entries_of self.new ≡ [] }
        ensures whole { IsWholeEngine self.new }
        ensures count { source_count self.new ≡ source_count self.old }
        ensures commands { commands_of self.new ≡ commands_of self.old }
        ensures beat { beat_of self.new ≡ beat_of self.old }
        ensures runs { (query : AQuery) (items : List (List Item)) (asks later : List (Ask Moved))
            (by_source : Lists) (entries : List Line)
            → Runs self.old query items asks later by_source entries
            → Runs self.new query items asks later by_source entries }
    {
        let entries = self.serving.live.take_entries();
        are_entries(entries.as_slice());
        entries
    }

    /// What the entries so far are: they may follow one another, are final, and below the heartbeat
    /// of the output they are the answer. A law, and nothing to run.
    pub fn tells(&self)
        requires whole { IsWholeEngine self.now }
        ensures so_far { (query : AQuery) (items : List (List Item)) (asks later : List (Ask Moved))
            (by_source : Lists) (entries : List Line)
            → Runs self.now query items asks later by_source entries
            → IsSoFar query items asks (beat_of self.now) entries }
    {
        self.serving.tells();
    }

    /// How far the output has come: no later result starts below.
    pub fn beat_now(&self) -> u64
        ensures { result ≡ beat_of self.now }
    {
        self.serving.live.beat_now()
    }
}
