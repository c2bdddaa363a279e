// A feeder that reads its source.
ghost use Rattle.std.specs.Prelude.{◌≡◌, ◌≢◌, ◌≤◌, ◌<◌, ◌↔◌, List, [], ℕ, Option, IfOk, IfSome};
ghost use Rattle.std.specs.Prelude.{OnOk, OnErr, IsTrue, None, Some, Err, true, false};
ghost use Rattle.std.specs.Bool.{OnFalse};
ghost use Rattle.std.specs.Option.{option_or};
ghost use Rattle.pipes_window.specs.declared.item.Item.{Item as Arrival};
ghost use Rattle.pipes_window.specs.Items.{item_stamp};
ghost use Rattle.pipes_link.specs.Ends.{spare};
ghost use Rattle.pipes_parcel.specs.declared.parcel.Fed.{Fed};
ghost use Rattle.pipes_arrivals.specs.Arriving.{floor_of};
ghost use Rattle.pipes_query.specs.declared.query.SourceDecl.{SourceDecl as Declared};
ghost use Rattle.pipes_feed.specs.declared.reason.Reason.{Reason as Why};
ghost use Rattle.pipes_feeder.specs.Feeding.{FeederKeeps, FeederTakes, IsFresh};
ghost use Rattle.pipes_feeder.specs.Feeding.{FeederStays, LeavesFewerPending};
ghost use Rattle.pipes_inflow.specs.Inflows.{FinishesFor};
ghost use Rattle.pipes_feeder.specs.declared.feeder.FinishRefusal.TheVariants as finish;
ghost use Rattle.pipes_intake.specs.Ahead.{turn_of};

use pipes_edge::Source;
use pipes_feed::{Item, Next, Reason};
use pipes_feeder::{Feeder, FinishRefusal};
use pipes_intake::Ahead;
use pipes_query::SourceDecl;
use pipes_time::{HORIZON, Memory};
use std::alloc::Global;

/// What a turn came to.
#[derive(Clone, Copy, Debug, Drop, PartialEq, Eq)]
pub enum Turn {
    /// It took an arrival.
    Moved,
    /// Earlier messages still found no room in the link at this look.
    NoRoom,
    /// No arrival is left, for this reason.
    Ended(Reason),
}

/// A feeder that reads its source, one arrival ahead.
#[derive(Drop)]
pub struct Inflow {
    /// The feeder: the engine takes from its link.
    pub feeder: Feeder,
    pub(crate) ahead: Ahead,
    pub(crate) taken: u64,
    pub(crate) ended: Option<Reason>,
}

// Whether all lines were read.
fn is_end(reason: Reason) -> bool
    ensures { IsTrue result ↔ (reason ≡ Reason.AtEnd) }
{
    match reason {
        Reason::AtEnd => true,
        Reason::Row { .. } => false,
        Reason::Limit { .. } => false,
        Reason::Failed => false,
        Reason::Memory => false,
    }
}

// Finishes the feeder at the end of its source, and why it ends.
fn finish_for(feeder: &mut Feeder, reason: Reason) -> Reason
    requires going { feeder.old.finished ≡ false }
    requires goes_on { feeder.old.packer.failed ≡ false
        → feeder.old.packer.arriving.window.ended ≡ false }
    ensures { FinishesFor feeder.old feeder.new reason result }
{
    if !is_end(reason) {
        return reason;
    }
    match feeder.finish() {
        Ok(()) => reason,
        Err(FinishRefusal::Full) => reason,
        Err(FinishRefusal::Memory) => Reason::Memory,
    }
}

impl Inflow {
    ghost use Rattle.pipes_inflow.specs.Inflows.{InflowStands, StandsForSome, TurnsTo, MayTurn};
    ghost use Rattle.pipes_inflow.specs.Inflows.{KeepsLink, LeavesLess, IsAnEnd, stamp_ahead};
    ghost use Rattle.pipes_inflow.specs.Inflows.{Passes, Ends};

    /// A feeder of the source that a query declares so, which took nothing, with its source. It
    /// reads the first arrival.
    pub fn new<S: Source>(
        alloc: Global,
        feeder: Feeder,
        source: &SourceDecl,
        src: &mut S,
    ) -> Result<Inflow, Memory>
        ensures stands { IfOk result (λ inflow. (gone : List Fed)
            → IsFresh source.now gone feeder → InflowStands source.now (S.left src.old)
            (S.left src.new) (S.faults src.old) (S.faults src.new) gone [] inflow) }
        ensures feeder { IfOk result (λ inflow. inflow.feeder ≡ feeder) }
        ensures going { IfOk result (λ inflow. inflow.ended ≡ None) }
        ensures later { S.faults src.old ≤ S.faults src.new }
        ensures name { S.name src.new ≡ S.name src.old }
        ensures found_at { S.found_at src.new ≡ S.found_at src.old }
    {
        let ahead = Ahead::new(alloc, source, src)?;
        Ok(Inflow {
            feeder,
            ahead,
            taken: 0,
            ended: None,
        })
    }

    /// How many arrivals turns took.
    pub fn taken(&self) -> u64
        ensures { result ≡ self.now.taken }
    {
        self.taken
    }

    /// The stamp of the arrival that the next turn takes, unless that turn ends.
    pub fn next_stamp(&self) -> Option<u64>
        requires { (left : Option (List ℕ)) × (now : ℕ) × StandsForSome left now self.now }
        ensures { result ≡ stamp_ahead self.now.ended self.now.ahead.next }
    {
        if self.ended.is_some() {
            return None;
        }
        match self.ahead.turn() {
            0 => None,
            turn => Some(turn - 1),
        }
    }

    /// Takes the next arrival of the source, unless earlier messages still find no room; puts as
    /// many of its messages as find room. Where no arrival is left it ends, and at the end of the
    /// source the feeder finishes. After an end each turn answers the same. An arrival at which
    /// memory was refused counts as taken.
    pub fn turn<S: Source>(&mut self, src: &mut S) -> Turn
        requires stands { StandsForSome (S.left src.old) (S.faults src.old) self.old }
        requires may { MayTurn self.old }
        ensures turns { (s : Declared) (first : Option (List ℕ)) (before : ℕ) (gone : List Fed)
            (taken : List Arrival) → InflowStands s first (S.left src.old) before
            (S.faults src.old) gone taken self.old → TurnsTo s first (S.left src.new) before
            (S.faults src.new) gone self.new taken result }
        ensures due { (why : Why) → self.old.ahead.next ≡ Next.Ended why → IsAnEnd result }
        ensures again { IfSome self.old.ended (λ why. (result ≡ Turn.Ended why)
            × (self.new ≡ self.old) × (src.new ≡ src.old)) }
        ensures less { LeavesLess self.old self.new result }
        ensures link { KeepsLink self.old self.new }
        ensures later { S.faults src.old ≤ S.faults src.new }
        ensures name { S.name src.new ≡ S.name src.old }
        ensures found_at { S.found_at src.new ≡ S.found_at src.old }
    {
        if let Some(reason) = self.ended {
            return Turn::Ended(reason);
        }
        if !self.has_room() {
            return Turn::NoRoom;
        }
        match self.ahead.take(src) {
            Next::Item(arrival) => self.pass(arrival),
            Next::Ended(reason) => self.end(reason),
        }
    }

    // Whether the next turn need not wait for room: puts what is pending, unless it ends.
    fn has_room(&mut self) -> bool
        ensures stays { FeederStays self.old.feeder self.new.feeder }
        ensures keeps { FeederKeeps self.old.feeder self.new.feeder }
        ensures ahead { self.new.ahead ≡ self.old.ahead }
        ensures taken { self.new.taken ≡ self.old.taken }
        ensures ended { self.new.ended ≡ self.old.ended }
        ensures full { OnFalse result (spare self.new.feeder.outlet ≡ 0) }
        ensures fewer { OnFalse result (LeavesFewerPending self.old.feeder self.new.feeder) }
        ensures item { OnFalse result (turn_of self.old.ahead.next ≢ 0) }
    {
        if self.ahead.turn() == 0 {
            return true;
        }
        self.feeder.clear()
    }

    // Takes an arrival that was read.
    fn pass(&mut self, arrival: Item) -> Turn
        requires order { floor_of self.old.feeder.packer.arriving ≤ item_stamp arrival }
        requires below { item_stamp arrival < HORIZON }
        requires goes_on { self.old.feeder.packer.arriving.window.ended ≡ false }
        requires few { self.old.taken ≤ 4000002 }
        ensures passes { Passes self.old self.new arrival result }
    {
        self.taken += 1;
        match self.feeder.take(arrival) {
            Ok(()) => Turn::Moved,
            Err(_) => {
                self.ended = Some(Reason::Memory);
                Turn::Ended(Reason::Memory)
            }
        }
    }

    // Ends: no arrival is left, for this reason.
    fn end(&mut self, reason: Reason) -> Turn
        requires going { self.old.feeder.finished ≡ false }
        requires goes_on { self.old.feeder.packer.failed ≡ false
            → self.old.feeder.packer.arriving.window.ended ≡ false }
        ensures ends { Ends self.old self.new reason result }
    {
        let why = finish_for(&mut self.feeder, reason);
        self.ended = Some(why);
        Turn::Ended(why)
    }

    /// Ends the arrivals where they are, unless they have ended, and puts as many of the messages
    /// that are left as find room. A later call goes on where one answered that the link was full.
    pub fn finish(&mut self) -> Result<(), FinishRefusal>
        requires { (left : Option (List ℕ)) × (now : ℕ) × StandsForSome left now self.old }
        ensures stands { (s : Declared) (first left : Option (List ℕ)) (before now : ℕ)
            (gone : List Fed) (taken : List Arrival)
            → InflowStands s first left before now gone taken self.old
            → InflowStands s first left before now gone taken self.new }
        ensures finished { result ≢ Err finish.Memory → (self.new.feeder.finished ≡ true)
            × (self.new.feeder.packer.failed ≡ false) }
        ensures sent { OnOk result (self.new.feeder.pending.items ≡ []) }
        ensures full { result ≡ Err finish.Full → spare self.new.feeder.outlet ≡ 0 }
        ensures fewer { self.old.feeder.finished ≡ true
            → OnErr result (LeavesFewerPending self.old.feeder self.new.feeder) }
        ensures memory { result ≡ Err finish.Memory → self.new.feeder.packer.failed ≡ true }
        ensures ahead { self.new.ahead ≡ self.old.ahead }
        ensures taken { self.new.taken ≡ self.old.taken }
        ensures link { KeepsLink self.old self.new }
    {
        match self.feeder.finish() {
            Ok(()) => Ok(()),
            Err(FinishRefusal::Full) => Err(FinishRefusal::Full),
            Err(FinishRefusal::Memory) => {
                self.fail();
                Err(FinishRefusal::Memory)
            }
        }
    }

    // Memory was wanting: it ends for that, unless it had ended.
    fn fail(&mut self)
        ensures { self.new ≡ record {
          feeder = self.old.feeder;
          ahead = self.old.ahead;
          taken = self.old.taken;
          ended = option_or self.old.ended (Some Reason.Memory);
        } }
    {
        if self.ended.is_none() {
            self.ended = Some(Reason::Memory);
        }
    }
}
