// A plan at work.
ghost use Rattle.std.specs.Prelude.{◌≡◌, ◌≤◌, ◌<◌, ◌+◌, ◌++◌, ◌∷◌, [], ℕ, List, All, length};
ghost use Rattle.std.specs.Prelude.{get_or, min, ◌-◌, ◌^◌, true, false, IfOk, IfErr, IfSome};
ghost use Rattle.std.specs.Prelude.{IfNone, OnOk, ◌↔◌, IsTrue, OnErr, OnSome, IsErr, IsOk};
ghost use Rattle.std.specs.Bool.{OnTrue};
ghost use Rattle.std.specs.List.{sum_by};
ghost use Rattle.pipes_tuple.specs.declared.value.Kind.{Kind};
ghost use Rattle.pipes_link.specs.declared.TheConstants.{MOST_ROOM};
ghost use Rattle.pipes_stream.specs.declared.message.Message.{Message as Sent};
ghost use Rattle.pipes_stream.specs.Progress.{Progress};
ghost use Rattle.pipes_stream.specs.Lists.{after, HasEnded};
ghost use Rattle.pipes_stream.specs.Lawful.{Lists, no_messages, with_message};
ghost use Rattle.pipes_plan.specs.declared.plan.Plan.{Plan as Tree};
ghost use Rattle.pipes_plan.specs.PlanKinds.{IsTyped};
ghost use Rattle.pipes_plan.specs.Refusals.{Checks};
ghost use Rattle.pipes_node.specs.Nodes.{held_in};
ghost use Rattle.pipes_box.specs.Shapes.{shape_of, leaf_count, sources_of, Answers};
ghost use Rattle.pipes_box.specs.Shapes.{FollowsPlan};

use crate::build::{Part, Spot, build_at};
use crate::leaf::Leaf;
use crate::settling::settle_all;
use crate::sums::{first_lowered, has_failed, total_held, total_moved};
use pipes_edge::Gate;
use pipes_link::{Full, Inlet, settle};
use pipes_node::{Node, turn_all};
use pipes_plan::{Plan, Schemas};
use pipes_stream::Message;
use pipes_time::Memory;
use std::alloc::Global;
use std::thread::Threads;

/// A plan at work: a node for each of its nodes, with links between them. What is given at its
/// leaves comes out at the top as the plan's answer.
#[derive(Drop)]
pub struct PlanBox {
    pub(crate) nodes: Vec<Node>,
    pub(crate) top: Inlet<Message>,
    pub(crate) leaves: Vec<Leaf>,
    // whether End was taken from the top
    pub(crate) ended: bool,
    pub(crate) failed: bool,
}

// What a round did: how many messages moved, and the place of the first number of the backlog that
// fell, 64 where none did.
#[derive(Clone, Copy)]
pub(crate) struct Advance {
    pub(crate) moved: u64,
    pub(crate) place: u32,
}

// Whether a list of messages has ended, with one more message.
fn ends(ended: bool, message: &Message) -> bool
    ensures { (p : Progress) → p.ended ≡ ended → result ≡ (after p message.now).ended }
{
    match message {
        Message::Elem(_) => ended,
        Message::Beat(_) => ended,
        Message::End => true,
    }
}

impl PlanBox {
    ghost use Rattle.pipes_box.specs.Boxes.{BoxStands, IsSound, IsStill, Moved, all_held, GivesOne};
    ghost use Rattle.pipes_box.specs.Boxes.{StaysAsBefore, TakesOne, HasPlace};
    ghost use Rattle.pipes_box.specs.Networks.{SettlesPorts};
    ghost use Rattle.pipes_box.specs.Prompt.{AllEnded, IsPrompt};
    ghost use Rattle.pipes_box.specs.Rounds.{AllTurned, TopLooks, TopKnown, TopTaken};
    ghost use Rattle.pipes_box.specs.Backlog.{backlog, Falls, FallsAt};
    ghost use Rattle.pipes_link.specs.Ends.{ready};
    ghost use Rattle.pipes_box.specs.declared.leaf.Leaf.{Leaf as Place};

    /// A plan at work, whose links have room for so many messages each.
    pub fn build(
        alloc: Global,
        plan: &Plan,
        schemas: &Schemas,
        room: u32,
    ) -> Result<PlanBox, Memory>
        requires typed { IsTyped plan.now schemas.now }
        requires checks { Checks schemas.now plan.now }
        requires some_room { 1 ≤ room }
        requires most_room { room ≤ MOST_ROOM }
        ensures sound { IfOk result (λ b. IsSound b) }
        ensures stands { IfOk result (λ b. BoxStands b schemas.now plan.now no_messages []) }
    {
        let spot = Spot {
            alloc,
            room,
            number: 0,
            depth: 0,
        };
        let mut next = 1;
        let mut nodes = Vec::new(alloc);
        let mut leaves = Vec::new(alloc);
        let part = build_at(spot, &mut next, plan, schemas, &mut nodes, &mut leaves)?;
        Ok(PlanBox {
            nodes,
            top: part.inlet,
            leaves,
            ended: false,
            failed: false,
        })
    }

    /// What has come out at the top is the plan's answer to what was given at the leaves, as far
    /// as its heartbeat, after out of memory too: a law, and nothing to run.
    pub fn answers(&self)
        requires { IsSound self.now }
        ensures answer { (schemas : List (List Kind)) (plan : Tree) (given : Lists)
            (got : List Sent) → BoxStands self.now schemas plan given got
            → Answers (shape_of schemas plan) 0 given got }
        ensures algebra { (schemas : List (List Kind)) (plan : Tree) (given : Lists)
            (got : List Sent) → BoxStands self.now schemas plan given got
            → FollowsPlan schemas plan given got }
    {}

    /// A box in which nothing is on its way has answered as far as the leaves' heartbeats allow,
    /// after the end of each leaf it has ended and keeps no element, and a place is free at each
    /// leaf: a law, and nothing to run.
    pub fn keeps_up(&self)
        requires sound { IsSound self.now }
        requires still { IsStill self.now }
        ensures prompt { (schemas : List (List Kind)) (plan : Tree) (given : Lists)
            (got : List Sent) → BoxStands self.now schemas plan given got
            → IsPrompt (shape_of schemas plan) 0 given got }
        ensures places { (schemas : List (List Kind)) (plan : Tree) (given : Lists)
            (got : List Sent) → BoxStands self.now schemas plan given got
            → (leaf : ℕ) → leaf < length self.now.leaves.items → HasPlace self.now leaf }
        ensures keeps_none { (schemas : List (List Kind)) (plan : Tree) (given : Lists)
            (got : List Sent) → BoxStands self.now schemas plan given got
            → AllEnded (shape_of schemas plan) 0 given → all_held self.now ≡ 0 }
    {}

    // Settles the link of each node's port.
    pub(crate) fn settle_links(&mut self)
        requires { IsSound self.old }
        ensures sound { IsSound self.new }
        ensures stands { StaysAsBefore self.old self.new }
        ensures going { self.new.failed ≡ self.old.failed }
        ensures links { SettlesPorts self.old.nodes.items self.new.nodes.items
            (length self.old.nodes.items) 0 }
        ensures top { self.new.top ≡ self.old.top }
    {
        settle_all(self.nodes.as_mut_slice());
    }

    // Gives each node its turn, and notes whether memory was refused.
    fn turn_nodes<R: Threads + Sync, G: Gate>(&mut self, rt: &R, workers: u32, gate: &G)
        requires sound { IsSound self.old }
        requires some { 1 ≤ workers }
        ensures sound { IsSound self.new }
        ensures stands { StaysAsBefore self.old self.new }
        ensures turned { self.new.failed ≡ false
            → AllTurned self.old.nodes.items self.new.nodes.items }
        ensures top { self.new.top ≡ self.old.top }
    {
        turn_all(rt, self.nodes.as_mut_slice(), workers, gate);
        self.failed = has_failed(self.nodes.as_slice());
    }

    // Settles the top link.
    pub(crate) fn settle_top(&mut self)
        requires { IsSound self.old }
        ensures sound { IsSound self.new }
        ensures stands { StaysAsBefore self.old self.new }
        ensures going { self.new.failed ≡ self.old.failed }
        ensures looks { TopLooks self.old self.new }
    {
        let root = self.nodes.as_slice().len() - 1;
        settle(&mut self.nodes[root].outlet, &mut self.top);
    }

    // A round: each link is settled, and each node has one turn.
    pub(crate) fn advance<R: Threads + Sync, G: Gate>(
        &mut self,
        rt: &R,
        workers: u32,
        gate: &G,
    ) -> Result<Advance, Memory>
        requires sound { IsSound self.old }
        requires some { 1 ≤ workers }
        ensures sound { IsSound self.new }
        ensures stands { StaysAsBefore self.old self.new }
        ensures moved { IfOk result
            (λ r. Moved self.old.nodes.items self.new.nodes.items r.moved) }
        ensures falls { IfOk result
            (λ r. 0 < r.moved → FallsAt (backlog self.old) (backlog self.new) r.place) }
        ensures still { IfOk result (λ r. r.moved ≡ 0 → ready self.new.top ≡ 0
            → IsStill self.new) }
        ensures top { OnOk result (TopKnown self.new) }
        ensures idle { IfOk result (λ r. r.moved ≡ 0 → TopTaken self.old → ready self.new.top ≡ 0) }
        ensures memory { OnErr result (self.new.failed ≡ true) }
        ensures stays_failed { OnTrue self.old.failed (IsErr result) }
    {
        if self.failed {
            return Err(Memory);
        }
        self.settle_top();
        self.settle_links();
        self.turn_nodes(rt, workers, gate);
        if self.failed {
            return Err(Memory);
        }
        let moved = total_moved(self.nodes.as_slice());
        let place = first_lowered(self.nodes.as_slice());
        self.settle_top();
        Ok(Advance { moved, place })
    }

    /// A round: each link is settled, and each node has one turn, shared out among at most so many
    /// threads. With one worker no thread is started. What came to the top can be taken then.
    /// Answers how many messages moved, clamped to 64 bits. If any did, the backlog is lower: one
    /// of its numbers fell, and those before it are as they were. After an answer of 0 either
    /// messages wait at the top, or nothing is on its way in the box. After out of memory each
    /// round answers it, and what comes out at the top is still right, as far as it comes.
    pub fn round<R: Threads + Sync, G: Gate>(
        &mut self,
        rt: &R,
        workers: u32,
        gate: &G,
    ) -> Result<u64, Memory>
        requires sound { IsSound self.old }
        requires some { 1 ≤ workers }
        requires most { workers ≤ 16 }
        ensures sound { IsSound self.new }
        ensures stands { StaysAsBefore self.old self.new }
        ensures moved { IfOk result
            (λ moved. Moved self.old.nodes.items self.new.nodes.items moved) }
        ensures falls { IfOk result
            (λ moved. 0 < moved → Falls (backlog self.old) (backlog self.new)) }
        ensures still { IfOk result (λ moved. moved ≡ 0 → ready self.new.top ≡ 0
            → IsStill self.new) }
        ensures memory { OnErr result (self.new.failed ≡ true) }
        ensures stays_failed { OnTrue self.old.failed (IsErr result) }
    {
        let advance = self.advance(rt, workers, gate)?;
        Ok(advance.moved)
    }

    /// Takes the next message from the top, of those that the last round brought there.
    pub fn take(&mut self) -> Option<Message>
        requires { IsSound self.old }
        ensures sound { IsSound self.new }
        ensures took { IfSome result (λ message. TakesOne self.old self.new message) }
        ensures fewer { OnSome result (ready self.old.top ≡ ready self.new.top + 1) }
        ensures none { IfNone result ((self.new ≡ self.old) × (ready self.old.top ≡ 0)) }
        ensures nodes { self.new.nodes ≡ self.old.nodes }
        ensures known { TopKnown self.old → TopKnown self.new }
        ensures going { self.new.failed ≡ self.old.failed }
    {
        let message = self.top.take_known()?;
        self.ended = ends(self.ended, &message);
        Some(message)
    }

    /// Whether End was taken from the top.
    pub fn is_ended(&self) -> bool
        requires { IsSound self.now }
        ensures { (schemas : List (List Kind)) (plan : Tree) (given : Lists) (got : List Sent)
            → BoxStands self.now schemas plan given got → IsTrue result ↔ HasEnded got }
    {
        self.ended
    }

    /// Gives a message at a leaf, unless its link has no free place: then the message comes back.
    /// Leaves are numbered in preorder, from 0.
    pub fn give(&mut self, leaf: u32, message: Message) -> Result<(), Full<Message>>
        requires sound { IsSound self.old }
        requires in_range { leaf < length self.old.leaves.items }
        ensures sound { IsSound self.new }
        ensures gave { OnOk result (GivesOne self.old self.new leaf message) }
        ensures succeeds { HasPlace self.old leaf → IsOk result }
        ensures full { IfErr result (λ full. full.0 ≡ message) }
        ensures no_place { OnErr result (HasPlace self.new leaf → ⊥) }
        ensures refused { OnErr result (StaysAsBefore self.old self.new) }
        ensures going { self.new.failed ≡ self.old.failed }
    {
        let place = self.leaves[leaf as usize].node;
        match self.nodes[place].outlet.put(message) {
            Ok(()) => Ok(()),
            Err(full) => Err(full),
        }
    }

    /// How many elements from its leaves its operators keep, clamped to 64 bits.
    pub fn held(&self) -> u64
        ensures { result ≡ min (all_held self.now) (2 ^ 64 - 1) }
    {
        total_held(self.nodes.as_slice())
    }

    /// The number of leaves.
    pub fn leaf_count(&self) -> u32
        ensures value { result ≡ min (length self.now.leaves.items) (2 ^ 32 - 1) }
        ensures count { (schemas : List (List Kind)) (plan : Tree) (given : Lists)
            (got : List Sent) → BoxStands self.now schemas plan given got
            → result ≡ leaf_count (shape_of schemas plan) }
    {
        self.leaves.len().min(u32::MAX as usize) as u32
    }

    /// The number of the source of a leaf. Leaves are numbered in preorder, from 0.
    pub fn leaf_source(&self, leaf: u32) -> u32
        requires { leaf < length self.now.leaves.items }
        ensures value { (d : Place) → result ≡ (get_or self.now.leaves.items leaf d).source }
        ensures source { (schemas : List (List Kind)) (plan : Tree) (given : Lists)
            (got : List Sent) → BoxStands self.now schemas plan given got
            → (d : ℕ) → result ≡ get_or (sources_of (shape_of schemas plan)) leaf d }
    {
        self.leaves[leaf as usize].source
    }
}
