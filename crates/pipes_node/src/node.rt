// A node of a plan at work.
ghost use Rattle.std.specs.Prelude.{◌≡◌, ◌≤◌, ◌<◌, ◌+◌, ◌-◌, ◌^◌, min, ◌++◌, [], length};
ghost use Rattle.std.specs.Prelude.{IfOk, IsErr, OnOk, OnErr, true, false, cond, eqb};
ghost use Rattle.std.specs.Bool.{OnTrue, OnFalse};
ghost use Rattle.pipes_link.specs.Ends.{sent, spare, ready};

use crate::merging::move_merged;
use crate::operator::PlanOperator;
use crate::port::{Port, total_known};
use pipes_edge::Gate;
use pipes_link::Outlet;
use pipes_stream::{Message, Operator};
use pipes_time::Memory;
use std::collections::VecDeque;

/// A node of a plan at work: its operator, the ports from which it takes, the outlet into which it
/// puts, and what it has sent and the outlet could not take yet. A source has no operator and no
/// port: what is given there goes into its outlet.
#[derive(Drop)]
pub struct Node {
    pub number: u32,
    pub depth: u32,
    pub operator: Option<PlanOperator>,
    pub ports: Vec<Port>,
    pub outlet: Outlet<Message>,
    pub pending: VecDeque<Message>,
    // what the operator has sent in the turn, before it comes after what is pending
    pub fresh: Vec<Message>,
    // how many messages it took, and moved, in its last turn
    pub took: u64,
    pub moved: u64,
    pub failed: bool,
}

impl Node {
    ghost use Rattle.pipes_node.specs.Nodes.{lowered_by, pends_with};
    ghost use Rattle.pipes_node.specs.Nodes.{IsCounted, IsDrained, held_in, EmitsMore, Turned};
    ghost use Rattle.pipes_node.specs.Nodes.{NodeMoves, NodeStands, NodeStood, NodeHolds, NodeWorks};
    ghost use Rattle.pipes_node.specs.Nodes.{NodeOwes, IsLevel, total_ready, task_in, ports_of};

    // Lets the operator take a message that passed at a port; what it sends for it is fresh. A source
    // has no port, and so takes none.
    fn work(&mut self, port: u32, message: Message) -> Result<(), Memory>
        requires { port < ports_of (task_in self.old.operator) }
        ensures works { NodeWorks self.old self.new }
        ensures emits { OnOk result (EmitsMore self.old self.new port message) }
    {
        match &mut self.operator {
            Some(operator) => operator.take(port, message, &mut self.fresh),
            None => Ok(()),
        }
    }

    // Takes the oldest message that is known to wait at a port, and tells whether there was one.
    fn take_one(&mut self, port: u32) -> Result<bool, Memory>
        requires in_range { port < length self.old.ports.items }
        requires counted { IsCounted self.old }
        ensures counted { IsCounted self.new }
        ensures moves { NodeMoves self.old self.new }
        ensures owes { OnOk result (NodeOwes self.old → NodeOwes self.new) }
        ensures stood { OnErr result (NodeOwes self.old → NodeStood self.new) }
        ensures took { IfOk result (λ took. OnTrue took
            (total_ready self.old.ports.items ≡ total_ready self.new.ports.items + 1)) }
        ensures none { IfOk result (λ took. OnFalse took (IsDrained self.new port)) }
        ensures idle { IfOk result (λ took. OnFalse took (self.new.fresh ≡ self.old.fresh)) }
        ensures same { IfOk result (λ took. OnFalse took
            (self.new.ports.items ≡ self.old.ports.items)) }
        ensures pending { self.new.pending ≡ self.old.pending }
        ensures going { self.new.failed ≡ self.old.failed }
        ensures outlet { self.new.outlet ≡ self.old.outlet }
    {
        let (message, passed) = match self.ports[port as usize].take() {
            Some(taken) => taken,
            None => return Ok(false),
        };
        if passed {
            self.work(port, message)?;
        }
        Ok(true)
    }

    // The heartbeat of what the operator has sent: all of it is in the outlet or pending.
    fn level(&self) -> u64
        ensures { NodeStands self.now → IsLevel (task_in self.now.operator) (sent self.now.outlet
            ++ self.now.pending.items) result }
    {
        match &self.operator {
            Some(operator) => operator.beat_now(),
            None => 0,
        }
    }

    // What is fresh comes after what is pending; `level` is the heartbeat of all before it.
    fn merge(&mut self, level: u64) -> Result<(), Memory>
        ensures moves { NodeMoves self.old self.new }
        ensures stands { OnOk result (NodeOwes self.old → IsLevel (task_in self.old.operator)
            (sent self.old.outlet ++ self.old.pending.items) level → NodeStands self.new) }
        ensures stood { NodeOwes self.old → NodeStood self.new }
        ensures idle { self.old.fresh.items ≡ [] → self.new.pending ≡ self.old.pending }
        ensures ports { self.new.ports ≡ self.old.ports }
        ensures operator { self.new.operator ≡ self.old.operator }
        ensures going { self.new.failed ≡ self.old.failed }
        ensures outlet { self.new.outlet ≡ self.old.outlet }
    {
        let mut level = level;
        move_merged(&mut self.fresh, &mut self.pending, &mut level)
    }

    // Takes all that is known to wait at a port, and answers how many messages that were.
    fn take_port(&mut self, port: u32) -> Result<u64, Memory>
        requires in_range { port < length self.old.ports.items }
        requires counted { IsCounted self.old }
        ensures counted { IsCounted self.new }
        ensures moves { NodeMoves self.old self.new }
        ensures stands { OnOk result (NodeStands self.old → NodeStands self.new) }
        ensures stood { OnErr result (NodeStands self.old → NodeStood self.new) }
        ensures number { IfOk result (λ taken. total_ready self.old.ports.items ≡ total_ready
            self.new.ports.items + taken) }
        ensures drained { OnOk result (IsDrained self.new port) }
        ensures idle { IfOk result (λ taken. taken ≡ 0 → self.new.pending ≡ self.old.pending) }
        ensures going { self.new.failed ≡ self.old.failed }
        ensures outlet { self.new.outlet ≡ self.old.outlet }
    {
        let level = self.level();
        self.fresh.clear();
        let mut taken = 0;
        while self.take_one(port)? {
            taken += 1;
        }
        self.merge(level)?;
        Ok(taken)
    }

    // Takes all that is known to wait at the ports, and answers how many messages that were.
    fn take_all(&mut self) -> Result<u64, Memory>
        requires counted { IsCounted self.old }
        ensures counted { IsCounted self.new }
        ensures moves { NodeMoves self.old self.new }
        ensures stands { OnOk result (NodeStands self.old → NodeStands self.new) }
        ensures stood { OnErr result (NodeStands self.old → NodeStood self.new) }
        ensures number { IfOk result (λ taken. total_ready self.old.ports.items ≡ taken) }
        ensures drained { OnOk result (total_ready self.new.ports.items ≡ 0) }
        ensures idle { IfOk result (λ taken. taken ≡ 0 → self.new.pending ≡ self.old.pending) }
        ensures going { self.new.failed ≡ self.old.failed }
        ensures outlet { self.new.outlet ≡ self.old.outlet }
    {
        let mut taken = 0;
        let count = self.ports.len() as u32;
        for port in 0..count {
            taken += self.take_port(port)?;
        }
        Ok(taken)
    }

    // Puts the oldest pending message. The outlet has room for it.
    fn put_next(&mut self)
        requires some { 0 < length self.old.pending.items }
        requires room { 0 < spare self.old.outlet }
        ensures moves { NodeMoves self.old self.new }
        ensures stands { NodeStands self.old → NodeStands self.new }
        ensures put { length self.old.pending.items ≡ length self.new.pending.items + 1 }
        ensures sent { length (sent self.new.outlet) ≡ length (sent self.old.outlet) + 1 }
        ensures places { spare self.old.outlet ≡ spare self.new.outlet + 1 }
        ensures going { self.new.failed ≡ self.old.failed }
        ensures operator { self.new.operator ≡ self.old.operator }
        ensures ports { self.new.ports ≡ self.old.ports }
    {
        let Some(message) = self.pending.pop_front() else {
            unreachable!();
        };
        match self.outlet.put(message) {
            Ok(()) => {}
            Err(_) => unreachable!(),
        }
    }

    // Puts what is pending as far as the outlet has room, by one look, and answers how many messages
    // that were.
    fn put_all(&mut self) -> u64
        ensures moves { NodeMoves self.old self.new }
        ensures stands { NodeStands self.old → NodeStands self.new }
        ensures put { length self.old.pending.items ≡ length self.new.pending.items + result }
        ensures sent { length (sent self.new.outlet) ≡ length (sent self.old.outlet) + result }
        ensures stuck { result ≡ 0 → 0 < spare self.old.outlet → self.old.pending.items ≡ [] }
        ensures places { result ≡ 0 → spare self.old.outlet ≤ spare self.new.outlet }
        ensures going { self.new.failed ≡ self.old.failed }
        ensures operator { self.new.operator ≡ self.old.operator }
        ensures ports { self.new.ports ≡ self.old.ports }
    {
        let room = self.outlet.free();
        let many = room.min(self.pending.len() as u64);
        for _ in 0..many {
            self.put_next();
        }
        many
    }

    /// The node's number in its plan, in preorder and counted from 0.
    pub fn number(&self) -> u32
        ensures { result ≡ self.now.number }
    {
        self.number
    }

    /// The number of elements that its operator keeps, clamped to 64 bits.
    pub fn held(&self) -> u64
        ensures { result ≡ min (held_in self.now.operator) (2 ^ 64 - 1) }
    {
        match &self.operator {
            Some(operator) => operator.held(),
            None => 0,
        }
    }

    // How many messages it knows to wait at its ports.
    fn ready(&self) -> u64
        requires { length self.now.ports.items ≤ 2 }
        ensures value { result ≡ total_ready self.now.ports.items }
        ensures bound { result ≤ 131072 }
    {
        total_known(self.ports.as_slice())
    }

    /// How many messages it knows to wait at its ports, where it is at this depth; else none.
    pub fn ready_at(&self, depth: u32) -> u64
        requires { length self.now.ports.items ≤ 2 }
        ensures value { result ≡ cond (eqb self.now.depth depth)
            (total_ready self.now.ports.items) 0 }
        ensures bound { result ≤ 131072 }
    {
        if self.depth != depth {
            return 0;
        }
        self.ready()
    }

    /// How many messages are pending with it, where it is at this depth; else none.
    pub fn pending_at(&self, depth: u32) -> u64
        ensures { result ≡ cond (eqb self.now.depth depth) (pends_with self.now) 0 }
    {
        if self.depth != depth {
            return 0;
        }
        self.pending.len() as u64
    }

    /// The place of the first number of the backlog that its last turn lowered, 64 where none.
    pub fn place_lowered(&self) -> u32
        requires { self.now.depth ≤ 31 }
        ensures { result ≡ lowered_by self.now }
    {
        if self.moved == 0 {
            return 64;
        }
        let waiting = 2 * (31 - self.depth);
        if self.took == 0 { waiting + 1 } else { waiting }
    }

    /// One turn, which begins at the gate: the node takes all messages that it knows to wait at its
    /// ports, passes over those that fail the test, and puts what its operator sends while its
    /// outlet has room. Answers how many messages moved, clamped to 64 bits. After out of memory
    /// each turn answers it, and nothing is put any more: what was put stays a prefix of what the
    /// node owes for the messages that passed.
    pub fn turn<G: Gate>(&mut self, gate: &G) -> Result<u64, Memory>
        requires counted { IsCounted self.old }
        ensures counted { IsCounted self.new }
        ensures moves { NodeMoves self.old self.new }
        ensures holds { NodeHolds self.old → NodeHolds self.new }
        ensures turned { OnOk result (Turned self.old self.new) }
        ensures kept { OnErr result (self.new.outlet ≡ self.old.outlet) }
        ensures answer { IfOk result (λ moved. moved ≡ self.new.moved) }
        ensures goes_on { OnOk result (self.new.failed ≡ false) }
        ensures memory { OnErr result (self.new.failed ≡ true) }
        ensures stays_failed { OnTrue self.old.failed (IsErr result) }
    {
        gate.pass(self.number);
        if self.failed {
            return Err(Memory);
        }
        match self.take_all() {
            Ok(taken) => {
                let put = self.put_all();
                self.took = taken;
                self.moved = taken.saturating_add(put);
                Ok(self.moved)
            }
            Err(fault) => {
                self.failed = true;
                Err(fault)
            }
        }
    }
}
