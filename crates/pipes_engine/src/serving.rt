// What an engine is made of, and what it does while memory lasts.
ghost use Rattle.std.specs.Prelude.{◌≡◌, ◌≤◌, ◌<◌, ◌+◌, ◌^◌, ◌∷◌, [], ℕ, List, length, IfOk, OnOk};
ghost use Rattle.pipes_time.specs.Interval.{horizon};
ghost use Rattle.pipes_stream.specs.Lists.{elements};
ghost use Rattle.pipes_stream.specs.Lawful.{Lists, no_messages};
ghost use Rattle.pipes_plan.specs.PlanKinds.{IsTyped};
ghost use Rattle.pipes_plan.specs.Refusals.{Checks};
ghost use Rattle.pipes_window.specs.declared.item.Item.{Item};
ghost use Rattle.pipes_query.specs.declared.query.Query.{Query as AQuery};
ghost use Rattle.pipes_output.specs.declared.entry.Entry.{Entry as Line};
ghost use Rattle.pipes_semantics.specs.Answer.{schemas_of};
ghost use Rattle.pipes_derivation.specs.declared.derivation.Derivation.{Derivation as Moved};
ghost use Rattle.pipes_told.specs.Asks.{Ask};
ghost use Rattle.pipes_live.specs.Lives.{IsSettledIn, entries_in};
ghost use Rattle.pipes_course.specs.Known.{last_end};

use pipes_derivation::Derivation;
use pipes_edge::Gate;
use pipes_live::Live;
use pipes_plan::{Plan, Schemas};
use pipes_query::Query;
use pipes_replies::Replies;
use pipes_stream::Message;
use pipes_time::Memory;
use std::alloc::Global;
use std::thread::Threads;

/// The plans at work, and what is known beside them.
#[derive(Drop)]
pub struct Serving {
    pub(crate) alloc: Global,
    pub(crate) live: Live,
    pub(crate) replies: Replies,
    // the plan now
    pub(crate) plan: Plan,
    pub(crate) schemas: Schemas,
    pub(crate) workers: u32,
    // the greatest end of an element that came, 0 before any
    pub(crate) end: u64,
}

// The end of the message's element, 0 where it has none.
fn end_of(message: &Message) -> u64
    ensures end { result ≡ last_end (elements (message.now ∷ [])) }
    ensures within { result ≤ horizon }
{
    match message {
        Message::Elem(elem) => elem.span.end(),
        Message::Beat(_) => 0,
        Message::End => 0,
    }
}

impl Serving {
    ghost use Rattle.pipes_engine.specs.Runs.{IsSound, IsInOrder, IsRunning};
    ghost use Rattle.pipes_engine.specs.Deeds.{TakesIn, AnswersIn, FinishesIn, IsSoFar};
    ghost use Rattle.pipes_engine.specs.Deeds.{nothing_asked, a_drain, a_migration};
    ghost use Rattle.pipes_engine.specs.Parts.{SameBeside, SettlesIn};
    ghost use Rattle.pipes_engine.specs.Runs.{beat_now};

    // The query, of which nothing has come and nothing was written.
    pub(crate) fn new(alloc: Global, query: &Query, workers: u32) -> Result<Serving, Memory>
        requires typed { IsTyped query.now.plan (schemas_of query.now) }
        requires checks { Checks (schemas_of query.now) query.now.plan }
        requires some { 1 ≤ workers }
        requires most { workers ≤ 16 }
        ensures sound { IfOk result (λ s. IsSound s) }
        ensures order { IfOk result (λ s. IsInOrder s) }
        ensures schemas { IfOk result (λ s. s.schemas ≡ schemas_of query.now) }
        ensures commands { IfOk result (λ s. s.replies.commands ≡ 0) }
        ensures none { IfOk result (λ s. entries_in s.live.state ≡ []) }
        ensures runs { IfOk result (λ s. (items : List (List Item)) (asks : List (Ask Moved))
            → IsRunning s query.now items asks asks no_messages []) }
    {
        let schemas = query.schemas(alloc)?;
        let live = Live::new(alloc, &query.plan, &schemas, workers)?;
        let plan = query.plan.copy(alloc)?;
        Ok(Serving {
            alloc,
            live,
            replies: Replies::new(),
            plan,
            schemas,
            workers,
            end: 0,
        })
    }

    // Takes a message of a source in, which may come next.
    pub(crate) fn take<R: Threads + Sync, G: Gate>(
        &mut self,
        rt: &R,
        gate: &G,
        source: u32,
        message: Message,
    ) -> Result<(), Memory>
        requires sound { IsSound self.old }
        requires in_range { source < length self.old.schemas }
        ensures sound { IsSound self.new }
        ensures order { IsInOrder self.old → IsInOrder self.new }
        ensures schemas { self.new.schemas ≡ self.old.schemas }
        ensures commands { self.new.replies.commands ≡ self.old.replies.commands }
        ensures takes { OnOk result (TakesIn self.old self.new source message) }
    {
        let end = end_of(&message);
        self.live.take(rt, gate, source, message)?;
        self.end = self.end.max(end);
        Ok(())
    }

    // Makes a result for each element that came to the top.
    fn write<R: Threads + Sync, G: Gate>(&mut self, rt: &R, gate: &G) -> Result<(), Memory>
        requires sound { IsSound self.old }
        requires order { IsInOrder self.old }
        ensures sound { IsSound self.new }
        ensures same { SameBeside self.old self.new }
        ensures order { IsInOrder self.new }
        ensures settled { OnOk result (IsSettledIn self.new.live.state) }
        ensures answers { OnOk result (AnswersIn self.old self.new nothing_asked) }
    {
        self.live.settle(rt, gate)?;
        self.live.tells();
        self.live.coalesces();
        Ok(())
    }

    // Makes these, and tells of a migration that it is idle or over, where it is.
    pub(crate) fn settle<R: Threads + Sync, G: Gate>(
        &mut self,
        rt: &R,
        gate: &G,
    ) -> Result<(), Memory>
        requires sound { IsSound self.old }
        requires order { IsInOrder self.old }
        ensures sound { IsSound self.new }
        ensures schemas { self.new.schemas ≡ self.old.schemas }
        ensures commands { self.new.replies.commands ≡ self.old.replies.commands }
        ensures order { OnOk result (IsInOrder self.new) }
        ensures settled { OnOk result (IsSettledIn self.new.live.state) }
        ensures settles { OnOk result (SettlesIn self.old self.new) }
    {
        self.write(rt, gate)?;
        self.pace()?;
        Ok(())
    }

    // Settles, and replies to a drain.
    pub(crate) fn drain<R: Threads + Sync, G: Gate>(
        &mut self,
        rt: &R,
        gate: &G,
    ) -> Result<(), Memory>
        requires sound { IsSound self.old }
        requires order { IsInOrder self.old }
        ensures sound { IsSound self.new }
        ensures schemas { self.new.schemas ≡ self.old.schemas }
        ensures commands { self.new.replies.commands ≡ self.old.replies.commands }
        ensures order { OnOk result (IsInOrder self.new) }
        ensures answers { OnOk result (AnswersIn self.old self.new a_drain) }
    {
        self.settle(rt, gate)?;
        self.tell_drain()?;
        Ok(())
    }

    // Settles, and replies to a migrate command.
    pub(crate) fn migrate<R: Threads + Sync, G: Gate>(
        &mut self,
        rt: &R,
        gate: &G,
        derivation: &Derivation,
    ) -> Result<(), Memory>
        requires sound { IsSound self.old }
        requires order { IsInOrder self.old }
        requires commands { self.old.replies.commands + 1 < 2 ^ 32 }
        ensures sound { IsSound self.new }
        ensures schemas { self.new.schemas ≡ self.old.schemas }
        ensures commands { OnOk result
            (self.new.replies.commands ≡ self.old.replies.commands + 1) }
        ensures order { OnOk result (IsInOrder self.new) }
        ensures answers { OnOk result (AnswersIn self.old self.new (a_migration derivation.now)) }
    {
        self.settle(rt, gate)?;
        self.reply(rt, gate, derivation)?;
        Ok(())
    }

    // Settles, and tells that the run has ended, or was stopped.
    pub(crate) fn finish<R: Threads + Sync, G: Gate>(
        &mut self,
        rt: &R,
        gate: &G,
        stopped: bool,
    ) -> Result<(), Memory>
        requires sound { IsSound self.old }
        requires order { IsInOrder self.old }
        ensures sound { IsSound self.new }
        ensures schemas { self.new.schemas ≡ self.old.schemas }
        ensures order { OnOk result (IsInOrder self.new) }
        ensures finishes { OnOk result (FinishesIn self.old self.new stopped) }
    {
        self.settle(rt, gate)?;
        self.tell_end(stopped)?;
        Ok(())
    }

    // What the entries so far are: a law.
    pub(crate) fn tells(&self)
        requires { IsSound self.now }
        ensures { (query : AQuery) (items : List (List Item)) (asks later : List (Ask Moved))
            (by_source : Lists) (entries : List Line)
            → IsRunning self.now query items asks later by_source entries
            → IsSoFar query items asks (beat_now self.now) entries }
    {
        self.live.tells();
    }
}
