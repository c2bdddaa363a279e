// A plan at work over its sources.
ghost use Rattle.std.specs.Prelude.{◌≡◌, ◌≤◌, ◌<◌, ◌^◌, ◌-◌, [], ℕ, List, length, min, true, get_or};
ghost use Rattle.std.specs.Prelude.{false, IfOk, OnOk, OnErr, IsErr, ◌↔◌, IsTrue};
ghost use Rattle.std.specs.Bool.{OnTrue};
ghost use Rattle.pipes_tuple.specs.declared.value.Kind.{Kind};
ghost use Rattle.pipes_stream.specs.declared.message.Message.{Message as Sent};
ghost use Rattle.pipes_stream.specs.Lists.{beat, HasEnded};
ghost use Rattle.pipes_stream.specs.Lawful.{Lists, no_messages, least};
ghost use Rattle.pipes_plan.specs.declared.plan.Plan.{Plan as Tree};
ghost use Rattle.pipes_plan.specs.PlanKinds.{IsTyped};
ghost use Rattle.pipes_plan.specs.Refusals.{Checks};
ghost use Rattle.pipes_box.specs.Boxes.{IsSound, IsStill, all_held};
ghost use Rattle.pipes_works.specs.Sources.{AnswersSources, KeepsUpWithSources, AllSourcesEnded};

use crate::giving::give_each;
use crate::input::{Input, inputs_of};
use pipes_box::PlanBox;
use pipes_edge::Gate;
use pipes_plan::{Plan, Schemas};
use pipes_stream::Message;
use pipes_time::{CLOSED, Memory};
use std::alloc::Global;
use std::thread::Threads;

// How many messages a link between two nodes has room for.
const ROOM: u32 = 1024;

/// A plan at work over its sources: what a source gives is given at each leaf that reads it, and
/// what comes to the top is the plan's answer.
#[derive(Drop)]
pub struct Works {
    pub(crate) plan_box: PlanBox,
    pub(crate) inputs: Vec<Input>,
    // at most so many threads share out a round
    pub(crate) workers: u32,
    pub(crate) failed: bool,
}

// The lesser of two heartbeats.
fn lesser(a: u64, b: u64) -> u64
    ensures { result ≡ min b a }
{
    b.min(a)
}

impl Works {
    ghost use Rattle.pipes_works.specs.Standing.{WorksStand, IsWhole, MayCome, Puts, WorksOff};
    ghost use Rattle.pipes_works.specs.Standing.{source_count, Noted};
    ghost use Rattle.pipes_works.specs.Passed.{CanGive, GivesEach};
    ghost use Rattle.pipes_works.specs.declared.input.Input.{Input as Source};

    /// The plan at work over sources with these schemas, by at most so many workers. Nothing has
    /// come yet.
    pub fn new(alloc: Global, plan: &Plan, schemas: &Schemas, workers: u32) -> Result<Works, Memory>
        requires typed { IsTyped plan.now schemas.now }
        requires checks { Checks schemas.now plan.now }
        requires some { 1 ≤ workers }
        requires most { workers ≤ 16 }
        ensures whole { IfOk result (λ w. IsWhole w) }
        ensures stands { IfOk result (λ w. WorksStand w schemas.now plan.now no_messages []) }
        ensures going { IfOk result (λ w. w.failed ≡ false) }
    {
        let plan_box = PlanBox::build(alloc, plan, schemas, ROOM)?;
        let inputs = inputs_of(alloc, &plan_box, schemas)?;
        Ok(Works {
            plan_box,
            inputs,
            workers,
            failed: false,
        })
    }

    /// Whether the message may come next from the source: its list stays valid, and its tuple fits
    /// the source's schema.
    pub fn may_come(&self, source: u32, message: &Message) -> bool
        requires { source < source_count self.now }
        ensures { IsTrue result ↔ MayCome self.now source message.now }
    {
        self.inputs[source as usize].may_come(message)
    }

    /// Takes a message of the source, which may come next, and gives it at each leaf that reads
    /// the source; a source that no leaf reads is only watched. Where there is no room, the box is
    /// worked off first, and what comes to the top is appended. After out of memory each call
    /// answers it.
    pub fn put<R: Threads + Sync, G: Gate>(
        &mut self,
        rt: &R,
        gate: &G,
        source: u32,
        message: Message,
        out: &mut Vec<Message>,
    ) -> Result<(), Memory>
        requires whole { IsWhole self.old }
        requires in_range { source < source_count self.old }
        requires may { MayCome self.old source message }
        ensures whole { IsWhole self.new }
        ensures count { source_count self.new ≡ source_count self.old }
        ensures puts { OnOk result
            (Puts self.old self.new source message out.old.items out.new.items) }
        ensures going { OnOk result (self.new.failed ≡ false) }
        ensures memory { OnErr result (self.new.failed ≡ true) }
        ensures stays_failed { OnTrue self.old.failed (IsErr result) }
    {
        if self.failed {
            return Err(Memory);
        }
        self.failed = true;
        self.note(source, &message);
        self.give(rt, gate, source, message, out)?;
        self.failed = false;
        Ok(())
    }

    // The watch of the source moves past a message that may come next.
    fn note(&mut self, source: u32, message: &Message)
        requires in_range { source < source_count self.old }
        requires may { MayCome self.old source message.now }
        ensures noted { Noted self.old self.new source message.now }
        ensures failed { self.new.failed ≡ self.old.failed }
    {
        self.inputs[source as usize].note(message);
    }

    // Gives a message at each leaf of the source.
    fn give<R: Threads + Sync, G: Gate>(
        &mut self,
        rt: &R,
        gate: &G,
        source: u32,
        message: Message,
        out: &mut Vec<Message>,
    ) -> Result<(), Memory>
        requires in_range { source < source_count self.old }
        requires some { 1 ≤ self.old.workers }
        requires most { self.old.workers ≤ 16 }
        requires can { (d : Source) → CanGive self.old.plan_box
            (get_or self.old.inputs.items source d).leaves.items message }
        ensures sound { IsSound self.new.plan_box }
        ensures gave { OnOk result ((d : Source) → GivesEach self.old.plan_box self.new.plan_box
            (get_or self.old.inputs.items source d).leaves.items message out.old.items
            out.new.items) }
        ensures inputs { self.new.inputs ≡ self.old.inputs }
        ensures workers { self.new.workers ≡ self.old.workers }
        ensures failed { self.new.failed ≡ self.old.failed }
    {
        let leaves = self.inputs[source as usize].leaves.as_slice();
        let given = give_each(
            &mut self.plan_box,
            rt,
            self.workers,
            gate,
            leaves,
            message,
            out,
        )?;
        Ok(given)
    }

    /// Works until nothing is on its way. What comes to the top is appended. After out of memory
    /// each call answers it.
    pub fn work_off<R: Threads + Sync, G: Gate>(
        &mut self,
        rt: &R,
        gate: &G,
        out: &mut Vec<Message>,
    ) -> Result<(), Memory>
        requires { IsWhole self.old }
        ensures whole { IsWhole self.new }
        ensures count { source_count self.new ≡ source_count self.old }
        ensures works { OnOk result (WorksOff self.old self.new out.old.items out.new.items) }
        ensures still { OnOk result (IsStill self.new.plan_box) }
        ensures going { OnOk result (self.new.failed ≡ false) }
        ensures memory { OnErr result (self.new.failed ≡ true) }
        ensures stays_failed { OnTrue self.old.failed (IsErr result) }
    {
        if self.failed {
            return Err(Memory);
        }
        self.failed = true;
        self.plan_box.work_off(rt, self.workers, gate, out)?;
        self.failed = false;
        Ok(())
    }

    /// What came to the top is the plan's answer to what its sources gave, as far as its
    /// heartbeat: a law, and nothing to run.
    pub fn answers(&self)
        requires { IsWhole self.now }
        ensures { (schemas : List (List Kind)) (plan : Tree) (by_source : Lists) (got : List Sent)
            → WorksStand self.now schemas plan by_source got
            → AnswersSources schemas plan by_source got }
    {
        self.plan_box.answers();
    }

    /// Where nothing is on its way, the answer has come as far as the sources allow, and after the
    /// end of each source that the plan reads it has ended and no element is kept: a law, and
    /// nothing to run.
    pub fn keeps_up(&self)
        requires whole { IsWhole self.now }
        requires still { IsStill self.now.plan_box }
        ensures prompt { (schemas : List (List Kind)) (plan : Tree) (by_source : Lists)
            (got : List Sent) → WorksStand self.now schemas plan by_source got
            → KeepsUpWithSources schemas plan by_source got }
        ensures keeps_none { (schemas : List (List Kind)) (plan : Tree) (by_source : Lists)
            (got : List Sent) → WorksStand self.now schemas plan by_source got
            → AllSourcesEnded schemas plan by_source → all_held self.now.plan_box ≡ 0 }
    {
        self.plan_box.keeps_up();
    }

    /// The heartbeat of a source.
    pub fn beat_of(&self, source: u32) -> u64
        requires { source < source_count self.now }
        ensures { (schemas : List (List Kind)) (plan : Tree) (by_source : Lists) (got : List Sent)
            → WorksStand self.now schemas plan by_source got → result ≡ beat (by_source source) }
    {
        self.inputs[source as usize].watch.beat_now()
    }

    /// The least heartbeat of the sources, `CLOSED` where there are none.
    pub fn inputs_beat(&self) -> u64
        ensures { (schemas : List (List Kind)) (plan : Tree) (by_source : Lists) (got : List Sent)
            → WorksStand self.now schemas plan by_source got
            → result ≡ least (source_count self.now) by_source }
    {
        let mut least = CLOSED;
        for source in 0..self.inputs.as_slice().len() {
            least = lesser(least, self.inputs[source].watch.beat_now());
        }
        least
    }

    /// Whether the source has ended.
    pub fn has_ended(&self, source: u32) -> bool
        requires { source < source_count self.now }
        ensures { (schemas : List (List Kind)) (plan : Tree) (by_source : Lists) (got : List Sent)
            → WorksStand self.now schemas plan by_source got
            → IsTrue result ↔ HasEnded (by_source source) }
    {
        self.inputs[source as usize].watch.is_ended()
    }

    /// Whether End came to the top.
    pub fn is_ended(&self) -> bool
        requires { IsWhole self.now }
        ensures { (schemas : List (List Kind)) (plan : Tree) (by_source : Lists) (got : List Sent)
            → WorksStand self.now schemas plan by_source got → IsTrue result ↔ HasEnded got }
    {
        self.plan_box.is_ended()
    }

    /// How many elements from its sources the plan's operators keep, clamped to 64 bits.
    pub fn held(&self) -> u64
        ensures { result ≡ min (all_held self.now.plan_box) (2 ^ 64 - 1) }
    {
        self.plan_box.held()
    }
}
