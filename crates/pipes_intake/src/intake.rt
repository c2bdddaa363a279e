// A source on its way in.
ghost use Rattle.std.specs.Prelude.{◌≡◌, ◌≤◌, ◌<◌, [], List, ℕ, Option, IfOk, OnOk, false};
ghost use Rattle.std.specs.Prelude.{IsTrue, ◌↔◌, ◌∷◌, ◌++◌};
ghost use Rattle.pipes_window.specs.declared.item.Item.{Item as Arrival};
ghost use Rattle.pipes_window.specs.Items.{item_stamp};
ghost use Rattle.pipes_window.specs.Windows.{IsWindow, window_beat};
ghost use Rattle.pipes_stream.specs.declared.message.Message.{Message as Sent};
ghost use Rattle.pipes_query.specs.declared.query.SourceDecl.{SourceDecl as Declared};
ghost use Rattle.pipes_feed.specs.Released.{released};
ghost use Rattle.pipes_arrivals.specs.Arriving.{HasArrived, floor_of};
ghost use Rattle.pipes_arrivals.specs.Taking.{ArrivalsTake, ArrivalsFinish};

use crate::ahead::Ahead;
use pipes_arrivals::Arrivals;
use pipes_edge::Source;
use pipes_feed::{Item, Next, Reason};
use pipes_query::SourceDecl;
use pipes_stream::{Elem, Message};
use pipes_time::{HORIZON, Memory};
use std::alloc::Global;

/// What a turn gives: elements, and then a heartbeat or the end.
#[derive(Debug, Drop)]
pub struct Step {
    /// The elements, in the order of their starts.
    pub elems: Vec<Elem>,
    /// What comes after them.
    pub last: Message,
}

/// What a turn came to.
#[derive(Debug, Drop)]
pub enum Turned {
    /// Messages.
    Gave(Step),
    /// No more arrivals, for another reason than the end of the source.
    Stopped(Reason),
}

/// A source on its way in: a turn takes its next arrival, and gives what that makes known.
#[derive(Drop)]
pub struct Intake {
    alloc: Global,
    ahead: Ahead,
    arrivals: Arrivals,
    ended: bool,
}

// What one more arrival makes known, and the heartbeat then.
fn give(alloc: Global, arrivals: &mut Arrivals, arrival: Item) -> Result<Step, Memory>
    requires order { floor_of arrivals.old ≤ item_stamp arrival }
    requires below { item_stamp arrival < HORIZON }
    requires goes_on { arrivals.old.window.ended ≡ false }
    requires arrived { (taken : List Arrival) × HasArrived taken arrivals.old }
    ensures takes { IfOk result
        (λ step. ArrivalsTake arrivals.old arrivals.new arrival [] step.elems.items) }
    ensures last { IfOk result (λ step. (taken : List Arrival) → HasArrived taken arrivals.new
        → step.last ≡ Message.Beat (window_beat arrivals.new.window.kind
        (released arrivals.new.slack taken) false)) }
{
    let mut elems = Vec::new(alloc);
    arrivals.take(arrival, &mut elems)?;
    let beat = arrivals.beat_now();
    Ok(Step {
        elems,
        last: Message::Beat(beat),
    })
}

// What is left, and the end.
fn close(alloc: Global, arrivals: &mut Arrivals) -> Result<Step, Memory>
    requires { arrivals.old.window.ended ≡ false }
    ensures finishes { IfOk result
        (λ step. ArrivalsFinish arrivals.old arrivals.new [] step.elems.items) }
    ensures last { IfOk result (λ step. step.last ≡ Message.End) }
{
    let mut elems = Vec::new(alloc);
    arrivals.finish(&mut elems)?;
    Ok(Step {
        elems,
        last: Message::End,
    })
}

// Whether all lines were read.
fn is_end(reason: Reason) -> bool
    ensures { IsTrue result ↔ (reason ≡ Reason.AtEnd) }
{
    match reason {
        Reason::AtEnd => true,
        Reason::Row { .. } => false,
        Reason::Limit { .. } => false,
        Reason::Failed => false,
        Reason::Memory => false,
    }
}

impl Intake {
    ghost use Rattle.pipes_intake.specs.Giving.{IntakeStands, StandsForSome, TurnsTo, Finishes};
    ghost use Rattle.pipes_intake.specs.Giving.{next_turn_of, LeavesFewer};

    /// The source that a query declares so. It reads the first arrival.
    pub fn new<S: Source>(alloc: Global, source: &SourceDecl, src: &mut S) -> Result<Intake, Memory>
        requires { IsWindow source.now.window }
        ensures stands { IfOk result (λ intake. IntakeStands source.now (S.left src.old)
            (S.left src.new) (S.faults src.old) (S.faults src.new) intake [] []) }
        ensures later { S.faults src.old ≤ S.faults src.new }
        ensures name { S.name src.new ≡ S.name src.old }
        ensures found_at { S.found_at src.new ≡ S.found_at src.old }
    {
        let ahead = Ahead::new(alloc, source, src)?;
        Ok(Intake {
            alloc,
            ahead,
            arrivals: Arrivals::new(alloc, source.slack, source.window).unwrap(),
            ended: false,
        })
    }

    /// When it has its next turn: an end before any arrival, arrivals by their stamps, and the
    /// greatest `u64` once it has come to the end of its source.
    pub fn next_turn(&self) -> u64
        ensures { result ≡ next_turn_of self.now }
    {
        if self.ended {
            return u64::MAX;
        }
        self.ahead.turn()
    }

    /// Takes the next arrival, and gives what it makes known and then a heartbeat; or what is left,
    /// and then the end. Out of memory, it stands for nothing.
    pub fn turn<S: Source>(&mut self, src: &mut S) -> Result<Turned, Memory>
        requires going { self.old.ended ≡ false }
        requires stands { StandsForSome (S.left src.old) (S.faults src.old) self.old }
        ensures turned { IfOk result (λ turned. (s : Declared) (first : Option (List ℕ))
            (before : ℕ) (taken : List Arrival) (list : List Sent)
            → IntakeStands s first (S.left src.old) before (S.faults src.old) self.old taken list
            → TurnsTo s first (S.left src.new) before (S.faults src.new) self.new taken list
            turned) }
        ensures fewer { IfOk result (λ turned. LeavesFewer self.old self.new turned) }
        ensures later { S.faults src.old ≤ S.faults src.new }
        ensures name { S.name src.new ≡ S.name src.old }
        ensures found_at { S.found_at src.new ≡ S.found_at src.old }
    {
        match self.ahead.take(src) {
            Next::Item(arrival) => {
                let step = give(self.alloc, &mut self.arrivals, arrival)?;
                Ok(Turned::Gave(step))
            }
            Next::Ended(reason) => self.end_so(reason),
        }
    }

    // The arrivals end so.
    fn end_so(&mut self, reason: Reason) -> Result<Turned, Memory>
        requires going { self.old.ended ≡ false }
        requires next { self.old.ahead.next ≡ Next.Ended reason }
        requires stands { (left : Option (List ℕ)) × (now : ℕ) × StandsForSome left now self.old }
        ensures turned { IfOk result (λ turned. (s : Declared) (first left : Option (List ℕ))
            (before now : ℕ) (taken : List Arrival) (list : List Sent)
            → IntakeStands s first left before now self.old taken list
            → TurnsTo s first left before now self.new taken list turned) }
        ensures fewer { IfOk result (λ turned. LeavesFewer self.old self.new turned) }
    {
        if !is_end(reason) {
            return Ok(Turned::Stopped(reason));
        }
        let step = close(self.alloc, &mut self.arrivals)?;
        self.ended = true;
        Ok(Turned::Gave(step))
    }

    /// Ends the source where it is, if it has not come to its end: gives what is left, and then the
    /// end.
    pub fn finish(&mut self) -> Result<Option<Step>, Memory>
        requires { (left : Option (List ℕ)) × (now : ℕ) × StandsForSome left now self.old }
        ensures { IfOk result (λ step. (s : Declared) (first left : Option (List ℕ))
            (before now : ℕ) (taken : List Arrival) (list : List Sent)
            → IntakeStands s first left before now self.old taken list
            → Finishes s taken list step) }
    {
        if self.ended {
            return Ok(None);
        }
        let step = close(self.alloc, &mut self.arrivals)?;
        self.ended = true;
        Ok(Some(step))
    }
}
