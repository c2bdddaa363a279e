// A standing query whose plan can be replaced.
ghost use Rattle.std.specs.Prelude.{◌≡◌, ◌≤◌, ◌<◌, ◌∷◌, [], ℕ, List, length, true, IfOk, OnOk};
ghost use Rattle.std.specs.Prelude.{OnErr, IsErr, ◌↔◌, IsTrue};
ghost use Rattle.std.specs.Bool.{OnTrue};
ghost use Rattle.pipes_time.specs.Interval.{closed};
ghost use Rattle.pipes_tuple.specs.declared.value.Kind.{Kind};
ghost use Rattle.pipes_stream.specs.Lawful.{Lists, no_messages, least};
ghost use Rattle.pipes_plan.specs.declared.plan.Plan.{Plan as Tree};
ghost use Rattle.pipes_plan.specs.PlanKinds.{IsTyped};
ghost use Rattle.pipes_plan.specs.Refusals.{Checks};
ghost use Rattle.pipes_window.specs.declared.item.Item.{Item};
ghost use Rattle.pipes_query.specs.declared.query.Query.{Query};
ghost use Rattle.pipes_output.specs.declared.entry.Entry.{Entry as Line};
ghost use Rattle.pipes_semantics.specs.Answer.{bags_at, schemas_of};
ghost use Rattle.pipes_semantics.specs.Written.{results};
ghost use Rattle.pipes_semantics.specs.Right.{Final, Right};
ghost use Rattle.pipes_told.specs.Coalesced.{CoalescedAt};
ghost use Rattle.pipes_works.specs.Standing.{source_count};
ghost use Rattle.pipes_written.specs.Written.{IsWritten};
ghost use Rattle.pipes_written.specs.Made.{last_entry, drained, TellsMove};
ghost use Rattle.pipes_standing.specs.Calms.{Rows, answer_of, kinds_of};
ghost use Rattle.pipes_moving.specs.Moves.{IsReady};

use crate::source::{Source, least_beat, sources_of};
use crate::state::State;
use pipes_edge::Gate;
use pipes_moving::Next;
use pipes_output::Entry;
use pipes_plan::{Plan, Schemas};
use pipes_standing::Standing;
use pipes_stream::Message;
use pipes_time::Memory;
use pipes_written::Entries;
use std::alloc::Global;
use std::mem::replace;
use std::thread::Threads;

/// A query that is served by one plan at a time, or by two while one is replaced. It takes what its
/// sources give, and makes the entries of its answer.
#[derive(Drop)]
pub struct Live {
    pub(crate) state: State,
    pub(crate) sources: Vec<Source>,
    // the split of the last change of plan, 0 before any
    pub(crate) split: u64,
    pub(crate) failed: bool,
}

impl Live {
    ghost use Rattle.pipes_live.specs.Lives.{Serves, IsWholeLive, IsWholeIn, IsSettledIn, IsAlone};
    ghost use Rattle.pipes_live.specs.Lives.{beat_in, entries_in, count_in};
    ghost use Rattle.pipes_live.specs.Deeds.{MayCome, Takes, Settles, Tells, MakesEntries, Stays};
    ghost use Rattle.pipes_live.specs.Deeds.{Noted, Begins, BeginsWith, Ends, Empties, Reaches};

    /// The plan at work over sources with these schemas, by at most so many workers. Nothing has
    /// come, and nothing is written.
    pub fn new(alloc: Global, plan: &Plan, schemas: &Schemas, workers: u32) -> Result<Live, Memory>
        requires typed { IsTyped plan.now schemas.now }
        requires checks { Checks schemas.now plan.now }
        requires some { 1 ≤ workers }
        requires most { workers ≤ 16 }
        ensures whole { IfOk result (λ l. IsWholeLive l) }
        ensures serves { IfOk result (λ l. (rows : Rows)
            → Serves l schemas.now plan.now plan.now [] rows no_messages []) }
        ensures none { IfOk result (λ l. entries_in l.state ≡ []) }
        ensures alone { IfOk result (λ l. IsAlone l.state) }
        ensures split { IfOk result (λ l. l.split ≡ 0) }
        ensures start { IfOk result (λ l. beat_in l.state ≡ 0) }
        ensures count { IfOk result (λ l. length l.sources.items ≡ length schemas.now) }
    {
        let standing = Standing::new(alloc, plan, schemas, workers)?;
        let sources = sources_of(alloc, schemas)?;
        Ok(Live {
            state: State::Alone(standing),
            sources,
            split: 0,
            failed: false,
        })
    }

    /// Takes a message of a source in, where it may come next; else it is passed over: where the
    /// source's list would not stay valid, or a tuple doesn't fit. While a plan is replaced each
    /// plan is given what of it is on its side of the split. Nothing is written. After out of
    /// memory each call answers it.
    pub fn take<R: Threads + Sync, G: Gate>(
        &mut self,
        rt: &R,
        gate: &G,
        source: u32,
        message: Message,
    ) -> Result<(), Memory>
        requires whole { IsWholeLive self.old }
        requires in_range { source < length self.old.sources.items }
        ensures whole { IsWholeLive self.new }
        ensures stays { Stays self.old self.new }
        ensures takes { OnOk result (Takes self.old self.new source message) }
        ensures entries { OnErr result (MakesEntries self.old self.new []) }
        ensures memory { OnErr result (self.new.failed ≡ true) }
        ensures stays_failed { OnTrue self.old.failed (IsErr result) }
    {
        if self.failed {
            return Err(Memory);
        }
        if !self.may_come(source, &message) {
            return Ok(());
        }
        self.put(rt, gate, source, message)
    }

    // Whether the message may come next from the source.
    fn may_come(&self, source: u32, message: &Message) -> bool
        requires { source < length self.now.sources.items }
        ensures { IsTrue result ↔ MayCome self.now source message.now }
    {
        self.sources[source as usize].may_come(message)
    }

    // The watch of the source moves past a message that may come next.
    fn note(&mut self, source: u32, message: &Message)
        requires in_range { source < length self.old.sources.items }
        requires may { MayCome self.old source message.now }
        ensures noted { Noted self.old self.new source message.now }
        ensures failed { self.new.failed ≡ self.old.failed }
        ensures count { length self.new.sources.items ≡ length self.old.sources.items }
    {
        self.sources[source as usize].note(message);
    }

    // Takes a message of a source in, which may come next.
    fn put<R: Threads + Sync, G: Gate>(
        &mut self,
        rt: &R,
        gate: &G,
        source: u32,
        message: Message,
    ) -> Result<(), Memory>
        requires whole { IsWholeLive self.old }
        requires in_range { source < length self.old.sources.items }
        requires may { MayCome self.old source message }
        ensures whole { IsWholeLive self.new }
        ensures stays { Stays self.old self.new }
        ensures takes { OnOk result (Takes self.old self.new source message) }
        ensures entries { OnErr result (MakesEntries self.old self.new []) }
        ensures memory { OnErr result (self.new.failed ≡ true) }
    {
        self.failed = true;
        self.note(source, &message);
        self.state.take(rt, gate, source, message)?;
        self.failed = false;
        Ok(())
    }

    /// Works until nothing is on its way, and writes a result for each element that came to the
    /// top, in order. Out of memory nothing is written, and each later call answers it.
    pub fn settle<R: Threads + Sync, G: Gate>(&mut self, rt: &R, gate: &G) -> Result<(), Memory>
        requires { IsWholeLive self.old }
        ensures whole { IsWholeLive self.new }
        ensures sources { self.new.sources ≡ self.old.sources }
        ensures stays { Stays self.old self.new }
        ensures settles { OnOk result (Settles self.old self.new) }
        ensures entries { OnErr result (MakesEntries self.old self.new []) }
        ensures memory { OnErr result (self.new.failed ≡ true) }
        ensures stays_failed { OnTrue self.old.failed (IsErr result) }
    {
        if self.failed {
            return Err(Memory);
        }
        self.failed = true;
        self.state.settle(rt, gate)?;
        self.failed = false;
        Ok(())
    }

    /// Tells of a change of plan: the reply to what was asked for, that it is idle, or that it is
    /// over. Out of memory nothing is told, and each later call answers it.
    pub fn tell(&mut self, entry: Entry) -> Result<(), Memory>
        requires whole { IsWholeLive self.old }
        requires of_move { TellsMove entry }
        ensures whole { IsWholeLive self.new }
        ensures sources { self.new.sources ≡ self.old.sources }
        ensures stays { Stays self.old self.new }
        ensures tells { OnOk result (Tells self.old self.new (entry ∷ [])) }
        ensures entries { OnErr result (MakesEntries self.old self.new []) }
        ensures memory { OnErr result (self.new.failed ≡ true) }
        ensures stays_failed { OnTrue self.old.failed (IsErr result) }
    {
        if self.failed {
            return Err(Memory);
        }
        self.failed = true;
        self.state.tell(entry)?;
        self.failed = false;
        Ok(())
    }

    /// Tells the heartbeat of the output, and that a drain is done with the inputs at this
    /// heartbeat. Out of memory nothing is told, and each later call answers it.
    pub fn tell_drain(&mut self, inputs: u64) -> Result<(), Memory>
        requires { IsWholeLive self.old }
        ensures whole { IsWholeLive self.new }
        ensures sources { self.new.sources ≡ self.old.sources }
        ensures stays { Stays self.old self.new }
        ensures tells { OnOk result
            (Tells self.old self.new (drained inputs (beat_in self.old.state))) }
        ensures entries { OnErr result (MakesEntries self.old self.new []) }
        ensures memory { OnErr result (self.new.failed ≡ true) }
        ensures stays_failed { OnTrue self.old.failed (IsErr result) }
    {
        if self.failed {
            return Err(Memory);
        }
        self.failed = true;
        self.state.tell_drain(inputs)?;
        self.failed = false;
        Ok(())
    }

    /// Tells that the run has ended, or was stopped. Out of memory nothing is told, and each later
    /// call answers it.
    pub fn tell_end(&mut self, stopped: bool) -> Result<(), Memory>
        requires { IsWholeLive self.old }
        ensures whole { IsWholeLive self.new }
        ensures sources { self.new.sources ≡ self.old.sources }
        ensures stays { Stays self.old self.new }
        ensures tells { OnOk result (Tells self.old self.new (last_entry stopped ∷ [])) }
        ensures entries { OnErr result (MakesEntries self.old self.new []) }
        ensures memory { OnErr result (self.new.failed ≡ true) }
        ensures stays_failed { OnTrue self.old.failed (IsErr result) }
    {
        if self.failed {
            return Err(Memory);
        }
        self.failed = true;
        self.state.tell_end(stopped)?;
        self.failed = false;
        Ok(())
    }

    /// A plan that is ready begins to take the place of the one at work, where that is alone and
    /// all that came to it is written. The split lies above every end that the sources gave so far
    /// (`MaySplit`). Nothing is written; out of memory each later call answers it.
    pub fn begin<R: Threads + Sync, G: Gate>(
        &mut self,
        rt: &R,
        gate: &G,
        next: Next,
        split: u64,
    ) -> Result<(), Memory>
        requires whole { IsWholeLive self.old }
        requires settled { IsSettledIn self.old.state }
        requires alone { IsAlone self.old.state }
        requires ready { IsReady next }
        requires count { source_count next.works ≡ length self.old.sources.items }
        ensures whole { IsWholeLive self.new }
        ensures sources { self.new.sources ≡ self.old.sources }
        ensures begins { OnOk result (Begins self.old self.new next split) }
        ensures entries { OnErr result (MakesEntries self.old self.new []) }
        ensures memory { OnErr result (self.new.failed ≡ true) }
        ensures stays_failed { OnTrue self.old.failed (IsErr result) }
    {
        if self.failed {
            return Err(Memory);
        }
        self.failed = true;
        self.change(next, split);
        self.state.open(rt, gate, self.sources.as_slice(), split)?;
        self.failed = false;
        Ok(())
    }

    // The plan that is ready is put beside the one at work.
    fn change(&mut self, next: Next, split: u64)
        requires whole { IsWholeIn self.old.state }
        requires settled { IsSettledIn self.old.state }
        requires alone { IsAlone self.old.state }
        requires ready { IsReady next }
        requires count { source_count next.works ≡ count_in self.old.state }
        ensures whole { IsWholeIn self.new.state }
        ensures count { count_in self.new.state ≡ count_in self.old.state }
        ensures sources { self.new.sources ≡ self.old.sources }
        ensures split { self.new.split ≡ split }
        ensures failed { self.new.failed ≡ self.old.failed }
        ensures begins { BeginsWith self.old.state self.new.state next split }
    {
        let state = replace(&mut self.state, State::Gone);
        self.state = state.begin(next, split);
        self.split = split;
    }

    /// The plan that took the place of another stands alone from now on, and the old one is
    /// dropped: where all that came was written and the change has passed (`HasPassed`). Where one
    /// plan was at work, it stays.
    pub fn end(&mut self)
        requires whole { IsWholeLive self.old }
        requires settled { IsSettledIn self.old.state }
        ensures whole { IsWholeLive self.new }
        ensures sources { self.new.sources ≡ self.old.sources }
        ensures split { self.new.split ≡ self.old.split }
        ensures failed { self.new.failed ≡ self.old.failed }
        ensures ends { Ends self.old self.new }
    {
        let state = replace(&mut self.state, State::Gone);
        self.state = state.end();
    }

    /// What is written of a query is its answer as far as the output has come; final at each
    /// heartbeat, and right once the output has ended, whichever plans were at work: a law, and
    /// nothing to run.
    pub fn tells(&self)
        requires { IsWholeLive self.now }
        ensures written { (schemas : List (List Kind)) (query plan : Tree) (earlier : List Tree)
            (rows : Rows) (by_source : Lists) (entries : List Line)
            → Serves self.now schemas query plan earlier rows by_source entries
            → IsWritten (kinds_of schemas query) (answer_of query rows) (beat_in self.now.state)
            entries }
        ensures order { (query : Query) (items : List (List Item)) (plan : Tree)
            (earlier : List Tree) (by_source : Lists) (entries : List Line)
            → Serves self.now (schemas_of query) query.plan plan earlier
            (bags_at query.sources items) by_source entries → Final query items entries }
        ensures whole { (query : Query) (items : List (List Item)) (plan : Tree)
            (earlier : List Tree) (by_source : Lists) (entries : List Line)
            → Serves self.now (schemas_of query) query.plan plan earlier
            (bags_at query.sources items) by_source entries → beat_in self.now.state ≡ closed
            → Right query items entries }
    {
        self.state.tells();
    }

    /// Once settled, the output has come as far as the sources allow (`Reaches`), and to the end
    /// after the end of all; a change of plan has passed as soon as it may be told to be over: a
    /// law, and nothing to run.
    pub fn keeps_up(&self)
        requires whole { IsWholeLive self.now }
        requires settled { IsSettledIn self.now.state }
        ensures { (schemas : List (List Kind)) (query plan : Tree) (earlier : List Tree)
            (rows : Rows) (by_source : Lists) (entries : List Line)
            → Serves self.now schemas query plan earlier rows by_source entries
            → Reaches self.now schemas plan earlier
            (least (length self.now.sources.items) by_source) by_source }
    {
        self.state.keeps_up();
    }

    /// While a plan is replaced, no result ends at the split where one of the same tuple starts
    /// there: a law, and nothing to run.
    pub fn coalesces(&self)
        ensures { (IsAlone self.now.state → ⊥) → (schemas : List (List Kind)) (query plan : Tree)
            (earlier : List Tree) (rows : Rows) (by_source : Lists) (entries : List Line)
            → Serves self.now schemas query plan earlier rows by_source entries
            → CoalescedAt (results entries) self.now.split }
    {
        self.state.coalesces();
    }

    /// The entries that were made and not taken yet.
    pub fn take_entries(&mut self) -> Entries
        requires { IsWholeLive self.old }
        ensures taken { result ≡ entries_in self.old.state }
        ensures whole { IsWholeLive self.new }
        ensures sources { self.new.sources ≡ self.old.sources }
        ensures stays { Stays self.old self.new }
        ensures failed { self.new.failed ≡ self.old.failed }
        ensures empties { Empties self.old self.new }
    {
        self.state.take_entries()
    }

    /// The least heartbeat of the sources, `CLOSED` where there are none.
    pub fn inputs_beat(&self) -> u64
        ensures { (schemas : List (List Kind)) (query plan : Tree) (earlier : List Tree)
            (rows : Rows) (by_source : Lists) (entries : List Line)
            → Serves self.now schemas query plan earlier rows by_source entries
            → result ≡ least (length self.now.sources.items) by_source }
    {
        least_beat(self.sources.as_slice())
    }

    /// Whether a plan is being replaced.
    pub fn is_moving(&self) -> bool
        requires { IsWholeLive self.now }
        ensures { IsTrue result ↔ (IsAlone self.now.state → ⊥) }
    {
        self.state.is_moving()
    }

    /// How far the output has come: no later result starts below.
    pub fn beat_now(&self) -> u64
        ensures { result ≡ beat_in self.now.state }
    {
        self.state.beat_now()
    }

    /// The split of the last change of plan, 0 before any.
    pub fn split(&self) -> u64
        ensures { result ≡ self.now.split }
    {
        self.split
    }
}
