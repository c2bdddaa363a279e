// Two streams merged at a split.
ghost use Rattle.std.specs.Prelude.{◌≡◌, ◌≤◌, ◌<◌, ◌+◌, ◌-◌, ◌^◌, ◌++◌, ◌∷◌, [], ◌↔◌, ◌&&◌, OnOk};
ghost use Rattle.std.specs.Prelude.{OnErr, IsErr, IsTrue, MatchOption, min, true, false};
ghost use Rattle.std.specs.Bool.{OnTrue};
ghost use Rattle.pipes_stream.specs.declared.message.Message.{Message as Sent};
ghost use Rattle.pipes_coalesce.specs.Joined.{IsJoint};
ghost use Rattle.pipes_coalesce.specs.Filed.{StartsLater};

use crate::by_tuple::ByTuple;
use crate::queue::Queue;
use pipes_stream::{Elem, Message, Watch};
use pipes_time::{CLOSED, Interval, Memory};
use std::alloc::Global;
use std::mem;

// One more message is sent.
fn append(out: &mut Vec<Message>, message: Message) -> Result<(), Memory>
    ensures { OnOk result (out.new.items ≡ out.old.items ++ message ∷ []) }
{
    match out.push(message) {
        Ok(()) => Ok(()),
        Err(_) => Err(Memory),
    }
}

// One element of two, where the second starts at the end of the first.
fn joined(first: Elem, second: &Elem) -> Elem
    ensures { first.span.end ≡ second.now.span.start → IsJoint first second.now result }
{
    match Interval::new(first.span.start(), second.span.end()) {
        Some(span) => Elem {
            tuple: first.tuple,
            span,
        },
        None => first,
    }
}

// A side of the merge.
#[derive(Clone, Copy, Drop)]
enum Side {
    Old,
    Fresh,
}

/// Two streams merged at a split: an old one, whose elements end at or below it, and a fresh one,
/// whose elements start at or above it. An old element that ends there and a fresh one of the same
/// tuple that starts there become one: of several old ones the one that started first, then the
/// first to come. An old one without a partner waits until the fresh stream has passed the split.
///
/// A message takes constant time, but for a look-up by tuple among those that end or start at the
/// split.
#[derive(Drop)]
pub struct Coalesce {
    /// The split.
    pub split: u64,
    old_watch: Watch,
    fresh_watch: Watch,
    // Old elements that wait for those without a partner, in order.
    olds: Queue,
    // Old elements that wait for a partner, and their start, which is one.
    lone: ByTuple,
    lone_start: u64,
    // Fresh elements that start at the split.
    partners: ByTuple,
    // Fresh elements that start above it, in order.
    later: Queue,
    // What the present call sends.
    sent: Vec<Message>,
    failed: bool,
}

impl Coalesce {
    ghost use Rattle.pipes_coalesce.specs.Stands.{CoalesceStands, now_of, held_of, Stays};
    ghost use Rattle.pipes_coalesce.specs.Stands.{IsBeatOfSent, IsWhetherOver};
    ghost use Rattle.pipes_coalesce.specs.Stands.{Moves, CanPass, IsNext, IsBlocked, AdmitsOld};
    ghost use Rattle.pipes_coalesce.specs.Stands.{AdmitsFresh, SendsDue, TakesOld, TakesFresh};
    ghost use Rattle.pipes_coalesce.specs.Stands.{LacksTuple, AdmitsElem, IsDue, Releases, tell};
    ghost use Rattle.pipes_coalesce.specs.Stands.{HandsOver, IsMerged, SideAdmits, SideTakes};

    /// The merge at this split, which has taken nothing. No memory is taken.
    pub fn two(alloc: Global, split: u64) -> Coalesce
        ensures stands { CoalesceStands result [] [] [] }
        ensures split { result.split ≡ split }
        ensures held { held_of result ≡ 0 }
    {
        Coalesce {
            split,
            old_watch: Watch::new(),
            fresh_watch: Watch::new(),
            olds: Queue::new(alloc),
            lone: ByTuple::new(alloc),
            lone_start: 0,
            partners: ByTuple::new(alloc),
            later: Queue::new(alloc),
            sent: Vec::new(alloc),
            failed: false,
        }
    }

    /// The heartbeat of what was sent: the least of the old stream's, of the starts of the old
    /// elements that wait for a partner, and of the greater of the split and the fresh stream's.
    pub fn beat_now(&self) -> u64
        ensures value { result ≡ now_of self.now }
        ensures sent { IsBeatOfSent self.now result }
    {
        let lone = if self.lone.is_empty() {
            CLOSED
        } else {
            self.lone_start
        };
        let fresh = self.split.max(self.fresh_watch.beat_now());
        self.old_watch.beat_now().min(lone.min(fresh))
    }

    /// The number of elements that are held, clamped to 64 bits. What was sent is the old stream
    /// before the split and the fresh one from it on, as far as it has come.
    pub fn held(&self) -> u64
        ensures value { result ≡ min (held_of self.now) (2 ^ 64 - 1) }
        ensures merged { IsMerged self.now }
    {
        let olds = (self.olds.len() as u64).saturating_add(self.lone.len());
        let fresh = self.partners.len().saturating_add(self.later.len() as u64);
        olds.saturating_add(fresh)
    }

    /// Whether the old stream has ended, the fresh one is above the split or has ended, and nothing
    /// is held.
    pub fn is_over(&self) -> bool
        ensures { IsWhetherOver self.now result }
    {
        let passed = self.split < self.fresh_watch.beat_now() || self.fresh_watch.is_ended();
        self.old_watch.is_ended() && passed && self.held() == 0
    }

    // Takes out the next old element, unless it waits for those without a partner.
    fn next(&mut self) -> Option<Elem>
        ensures { MatchOption result (IsBlocked self.new × (self.new ≡ self.old))
            (λ elem. IsNext self.old self.new elem) }
    {
        match self.olds.first() {
            Some(start) => {
                if self.lone.is_empty() || start == self.lone_start {
                    self.olds.pop()
                } else {
                    None
                }
            }
            None => None,
        }
    }

    // Sends an old element that ends at the split and has no partner, or lets it wait.
    fn pass_alone(&mut self, elem: Elem, out: &mut Vec<Message>) -> Result<(), Memory>
        requires can { CanPass self.old elem }
        requires end { elem.span.end ≡ self.old.split }
        requires alone { LacksTuple elem.tuple self.old.partners }
        ensures moves { OnOk result
            (Moves self.old self.new (elem ∷ self.old.olds) self.new.olds out.old.items
            out.new.items) }
        ensures olds { OnOk result (self.new.olds ≡ self.old.olds) }
    {
        if self.split < self.fresh_watch.beat_now() {
            append(out, Message::Elem(elem))
        } else {
            self.lone_start = elem.span.start();
            self.lone.put(elem)
        }
    }

    // Sends an old element, alone or with its partner, or lets it wait for one.
    fn pass(&mut self, elem: Elem, out: &mut Vec<Message>) -> Result<(), Memory>
        requires { CanPass self.old elem }
        ensures moves { OnOk result
            (Moves self.old self.new (elem ∷ self.old.olds) self.new.olds out.old.items
            out.new.items) }
        ensures olds { OnOk result (self.new.olds ≡ self.old.olds) }
    {
        if elem.span.end() != self.split {
            return append(out, Message::Elem(elem));
        }
        match self.partners.take(&elem.tuple) {
            Some(second) => append(out, Message::Elem(joined(elem, &second))),
            None => self.pass_alone(elem, out),
        }
    }

    // Passes on the old elements, up to one that waits after those without a partner.
    fn advance(&mut self, out: &mut Vec<Message>) -> Result<(), Memory>
        ensures moves { OnOk result
            (Moves self.old self.new self.old.olds self.new.olds out.old.items out.new.items) }
        ensures blocked { OnOk result (IsBlocked self.new) }
    {
        while let Some(elem) = self.next() {
            self.pass(elem, out)?;
        }
        Ok(())
    }

    // Once the fresh stream is above the split, no partner comes any more.
    fn let_go(&mut self, out: &mut Vec<Message>) -> Result<(), Memory>
        ensures moves { OnOk result
            (Moves self.old self.new self.old.olds self.new.olds out.old.items out.new.items) }
        ensures gone { OnOk result
            (self.old.split < self.old.fresh_watch.beat → self.new.lone ≡ []) }
    {
        if self.fresh_watch.beat_now() > self.split {
            self.lone.send_all(out)?;
        }
        Ok(())
    }

    // Takes in a message of the old stream.
    fn admit_old(&mut self, message: Message) -> Result<(), Memory>
        ensures { OnOk result (AdmitsOld self.old self.new message) }
    {
        self.old_watch.step(&message);
        if let Message::Elem(elem) = message {
            return self.olds.push(elem);
        }
        Ok(())
    }

    // Takes in a fresh element.
    fn admit_elem(&mut self, elem: Elem, out: &mut Vec<Message>) -> Result<(), Memory>
        ensures { OnOk result (AdmitsElem self.old self.new elem out.old.items out.new.items) }
    {
        if elem.span.start() != self.split {
            return self.later.push(elem);
        }
        match self.lone.take(&elem.tuple) {
            Some(first) => append(out, Message::Elem(joined(first, &elem))),
            None => self.partners.put(elem),
        }
    }

    // Takes in a message of the fresh stream.
    fn admit_fresh(&mut self, message: Message, out: &mut Vec<Message>) -> Result<(), Memory>
        ensures { OnOk result (AdmitsFresh self.old self.new message out.old.items out.new.items) }
    {
        self.fresh_watch.step(&message);
        if let Message::Elem(elem) = message {
            return self.admit_elem(elem, out);
        }
        Ok(())
    }

    // Sends the fresh elements that start at the split, if these are due.
    fn release_partners(&mut self, now: u64, out: &mut Vec<Message>) -> Result<(), Memory>
        requires now { now ≡ now_of self.old }
        requires blocked { IsBlocked self.old }
        ensures releases { OnOk result
            (Releases self.old self.new now out.old.items out.new.items) }
        ensures gone { OnOk result (self.old.split ≤ now → self.new.partners ≡ []) }
    {
        if self.split <= now {
            self.partners.send_all(out)?;
        }
        Ok(())
    }

    // Takes out the next fresh element above the split, if it is due.
    fn next_due(&mut self, now: u64) -> Option<Elem>
        ensures { MatchOption result ((self.new ≡ self.old) × StartsLater now self.old.later)
            (λ elem. IsDue self.old self.new now elem) }
    {
        self.later.pop_due(now)
    }

    // Sends those that start above it and are due.
    fn release_later(&mut self, now: u64, out: &mut Vec<Message>) -> Result<(), Memory>
        requires now { now ≡ now_of self.old }
        requires blocked { IsBlocked self.old }
        requires partners { self.old.split ≤ now → self.old.partners ≡ [] }
        ensures releases { OnOk result
            (Releases self.old self.new now out.old.items out.new.items) }
        ensures partners { OnOk result (self.new.partners ≡ self.old.partners) }
        ensures gone { OnOk result (StartsLater now self.new.later) }
    {
        while let Some(elem) = self.next_due(now) {
            append(out, Message::Elem(elem))?;
        }
        Ok(())
    }

    // Tells how far it is, where that is further than the heartbeat that was sent.
    fn tell(&self, beat_sent: u64, now: u64, out: &mut Vec<Message>) -> Result<(), Memory>
        ensures { OnOk result
            (out.new.items ≡ out.old.items ++ tell beat_sent now
            (self.now.old_watch.ended && self.now.fresh_watch.ended)) }
    {
        if self.old_watch.is_ended() && self.fresh_watch.is_ended() {
            append(out, Message::End)
        } else if beat_sent < now {
            append(out, Message::Beat(now))
        } else {
            Ok(())
        }
    }

    // Sends what can go, and tells how far that is.
    fn settle(&mut self, beat_sent: u64, out: &mut Vec<Message>) -> Result<(), Memory>
        ensures { OnOk result (SendsDue self.old self.new beat_sent out.old.items out.new.items) }
    {
        self.let_go(out)?;
        self.advance(out)?;
        let now = self.beat_now();
        self.release_partners(now, out)?;
        self.release_later(now, out)?;
        self.tell(beat_sent, now, out)
    }

    // Takes in a message of this side.
    fn admit(&mut self, side: Side, message: Message, out: &mut Vec<Message>) -> Result<(), Memory>
        ensures { OnOk result
            (SideAdmits side self.old self.new message out.old.items out.new.items) }
    {
        match side {
            Side::Old => self.admit_old(message),
            Side::Fresh => self.admit_fresh(message, out),
        }
    }

    fn step(&mut self, side: Side, message: Message, out: &mut Vec<Message>) -> Result<(), Memory>
        ensures takes { OnOk result
            (SideTakes side self.old self.new message out.old.items out.new.items) }
        ensures failed { OnOk result (self.new.failed ≡ self.old.failed) }
        ensures split { OnOk result (self.new.split ≡ self.old.split) }
    {
        let beat_sent = self.beat_now();
        self.admit(side, message, out)?;
        self.settle(beat_sent, out)?;
        Ok(())
    }

    // Hands over what the call sent.
    fn hand_over(&mut self, mut sent: Vec<Message>, out: &mut Vec<Message>) -> Result<(), Memory>
        ensures sent { OnOk result (out.new.items ≡ out.old.items ++ sent.items) }
        ensures same { OnOk result (HandsOver self.old self.new) }
        ensures memory { OnErr result (out.new.items ≡ out.old.items) }
    {
        out.append(&mut sent)?;
        self.sent = sent;
        Ok(())
    }

    // The buffer, which is empty between calls.
    fn buffer(&mut self) -> Vec<Message>
        ensures empty { result.items ≡ [] }
        ensures same { HandsOver self.old self.new }
    {
        let alloc = *self.sent.allocator();
        let mut sent = mem::replace(&mut self.sent, Vec::new(alloc));
        sent.clear();
        sent
    }

    fn try_take(
        &mut self,
        side: Side,
        message: Message,
        out: &mut Vec<Message>,
    ) -> Result<(), Memory>
        ensures takes { OnOk result
            (SideTakes side self.old self.new message out.old.items out.new.items) }
        ensures failed { OnOk result (self.new.failed ≡ self.old.failed) }
        ensures split { OnOk result (self.new.split ≡ self.old.split) }
        ensures memory { OnErr result (out.new.items ≡ out.old.items) }
    {
        let mut sent = self.buffer();
        self.step(side, message, &mut sent)?;
        self.hand_over(sent, out)?;
        Ok(())
    }

    // Takes a message of this side.
    fn take(&mut self, side: Side, message: Message, out: &mut Vec<Message>) -> Result<(), Memory>
        ensures takes { OnOk result
            (SideTakes side self.old self.new message out.old.items out.new.items) }
        ensures split { self.new.split ≡ self.old.split }
        ensures memory { OnErr result (out.new.items ≡ out.old.items) }
        ensures fails { OnErr result (self.new.failed ≡ true) }
        ensures stays_failed { OnTrue self.old.failed (IsErr result) }
        ensures goes_on { OnOk result (self.new.failed ≡ false) }
    {
        if self.failed {
            return Err(Memory);
        }
        let split = self.split;
        match self.try_take(side, message, out) {
            Ok(()) => Ok(()),
            Err(refused) => {
                self.split = split;
                self.failed = true;
                Err(refused)
            }
        }
    }

    /// Takes a message of the old stream, and appends the messages that it sends for it. Out of
    /// memory, nothing is appended, and no later message is taken.
    pub fn old(&mut self, message: Message, out: &mut Vec<Message>) -> Result<(), Memory>
        ensures takes { OnOk result
            (TakesOld self.old self.new message out.old.items out.new.items) }
        ensures split { self.new.split ≡ self.old.split }
        ensures memory { OnErr result (out.new.items ≡ out.old.items) }
        ensures fails { OnErr result (self.new.failed ≡ true) }
        ensures stays_failed { OnTrue self.old.failed (IsErr result) }
        ensures goes_on { OnOk result (self.new.failed ≡ false) }
    {
        self.take(Side::Old, message, out)
    }

    /// Takes a message of the fresh stream, in the same way.
    pub fn fresh(&mut self, message: Message, out: &mut Vec<Message>) -> Result<(), Memory>
        ensures takes { OnOk result
            (TakesFresh self.old self.new message out.old.items out.new.items) }
        ensures split { self.new.split ≡ self.old.split }
        ensures memory { OnErr result (out.new.items ≡ out.old.items) }
        ensures fails { OnErr result (self.new.failed ≡ true) }
        ensures stays_failed { OnTrue self.old.failed (IsErr result) }
        ensures goes_on { OnOk result (self.new.failed ≡ false) }
    {
        self.take(Side::Fresh, message, out)
    }
}
