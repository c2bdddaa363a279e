// The feeder of one source.
ghost use Rattle.std.specs.Prelude.{◌≡◌, ◌≢◌, ◌≤◌, ◌<◌, ◌+◌, [], ◌++◌, false, true, OnOk, OnErr};
ghost use Rattle.std.specs.Prelude.{IfErr, IsErr, ℕ, Err};
ghost use Rattle.std.specs.Arc.{arc_value};
ghost use Rattle.pipes_window.specs.Items.{item_stamp};
ghost use Rattle.pipes_window.specs.Windows.{IsWindow};
ghost use Rattle.pipes_link.specs.Ends.{AreEnds, SameInlet, SameOutlet, room_of, sent, spare};
ghost use Rattle.pipes_link.specs.Ends.{known, taken};
ghost use Rattle.pipes_split.specs.Seats.{IsSeatOf, IsSameSeat};
ghost use Rattle.pipes_split.specs.Views.{seat_view};
ghost use Rattle.pipes_split.specs.Knowledge.{seat_knows, KnowsSame, SplitsShared, EndsBelowSplits};
ghost use Rattle.pipes_arrivals.specs.Arriving.{floor_of};
ghost use Rattle.pipes_feeder.specs.Feeding.{FeederEnds, FeederKeeps, FeederStands, FeederTakes};
ghost use Rattle.pipes_feeder.specs.Feeding.{FeederStays, HandsOver, IsFresh, OfferRefused};
ghost use Rattle.pipes_feeder.specs.Feeding.{LeavesFewerPending};
ghost use Rattle.pipes_feeder.specs.declared.feeder.FinishRefusal.TheVariants as finish;
ghost use Rattle.pipes_feeder.specs.declared.feeder.OfferRefusal.TheVariants as offer;
ghost use Rattle.std.specs.Bool.{OnTrue, OnFalse};

use crate::sending::{put_pending, take_all};
use pipes_link::{Inlet, Outlet, settle};
use pipes_packer::Packer;
use pipes_parcel::Fed;
use pipes_query::SourceDecl;
use pipes_split::{SplitBook, SplitSeat};
use pipes_time::{HORIZON, Memory};
use pipes_window::Item;
use std::alloc::Global;
use std::collections::VecDeque;
use std::sync::Arc;

/// Why an offered arrival was not taken.
#[derive(Debug, Drop, PartialEq, Eq)]
pub enum OfferRefusal {
    /// Earlier messages still found no room in the link at this look. The arrival comes back.
    Full(Item),
    /// The stamp is below the floor.
    Falling {
        /// The stamp.
        stamp: u64,
        /// The floor.
        last: u64,
    },
    /// Out of memory, now or before.
    Memory,
}

/// Why a feeder has not finished.
#[derive(Clone, Copy, Debug, PartialEq, Eq)]
pub enum FinishRefusal {
    /// Messages still found no room in the link at this look.
    Full,
    /// Out of memory, now or before.
    Memory,
}

/// Feeds a source's arrivals into a link: arrival by arrival the elements that it makes known, cut
/// at the splits that they meet, and then the heartbeat of the window. What finds no room in the
/// link is pending, and goes first.
#[derive(Drop)]
pub struct Feeder {
    packer: Packer,
    pending: VecDeque<Fed>,
    outlet: Outlet<Fed>,
    finished: bool,
}

// The stamp of an item.
fn stamp_of(item: &Item) -> u64
    ensures { result ≡ item_stamp item.now }
{
    match item {
        Item::Row(stamp, _) => *stamp,
        Item::Beat(stamp) => *stamp,
    }
}

impl Feeder {
    /// A feeder of a source whose window is within its limits, with a seat of this book that has
    /// raised nothing, into a link through which nothing went.
    pub fn new(
        alloc: Global,
        book: Arc<SplitBook>,
        seat: SplitSeat,
        decl: &SourceDecl,
        outlet: Outlet<Fed>,
    ) -> Feeder
        requires window { IsWindow decl.now.window }
        requires seat { IsSeatOf (arc_value book) seat }
        requires raised { (e : ℕ) → (seat_knows seat).top e ≡ 0 }
        requires link { sent outlet ≡ [] }
        ensures fresh { IsFresh decl.now [] result }
        ensures seat { result.packer.seat ≡ seat }
        ensures outlet { result.outlet ≡ outlet }
    {
        let Some(packer) = Packer::new(alloc, book, seat, decl.slack, decl.window) else {
            unreachable!();
        };
        Feeder {
            packer,
            pending: VecDeque::new(alloc),
            outlet,
            finished: false,
        }
    }

    /// Takes an arrival that isn't below the floor, and puts as many of its messages as find room,
    /// after those that are pending. Once out of memory it takes nothing more.
    pub fn take(&mut self, arrival: Item) -> Result<(), Memory>
        requires order { floor_of self.old.packer.arriving ≤ item_stamp arrival }
        requires below { item_stamp arrival < HORIZON }
        requires goes_on { self.old.packer.arriving.window.ended ≡ false }
        ensures takes { OnOk result (FeederTakes self.old self.new arrival) }
        ensures keeps { OnErr result (FeederKeeps self.old self.new) }
        ensures failed { OnErr result (self.new.packer.failed ≡ true) }
    {
        self.packer.take(arrival, &mut self.pending)?;
        put_pending(&mut self.pending, &mut self.outlet);
        Ok(())
    }

    /// Puts what is pending as far as one look finds places, and whether nothing is pending then.
    pub fn clear(&mut self) -> bool
        ensures keeps { FeederKeeps self.old self.new }
        ensures stays { FeederStays self.old self.new }
        ensures packer { self.new.packer ≡ self.old.packer }
        ensures clear { OnTrue result (self.new.pending.items ≡ []) }
        ensures full { OnFalse result (spare self.new.outlet ≡ 0) }
        ensures fewer { OnFalse result (LeavesFewerPending self.old self.new) }
    {
        put_pending(&mut self.pending, &mut self.outlet);
        self.pending.is_empty()
    }

    // Ends the arrivals: the messages that are left are pending.
    fn end(&mut self) -> Result<(), Memory>
        requires { self.old.packer.failed ≡ false
            → self.old.packer.arriving.window.ended ≡ false }
        ensures ends { OnOk result (FeederEnds self.old self.new) }
        ensures keeps { OnErr result (FeederKeeps self.old self.new) }
        ensures failed { OnErr result (self.new.packer.failed ≡ true) }
        ensures stays_failed { OnTrue self.old.packer.failed (IsErr result) }
    {
        self.packer.finish(&mut self.pending)?;
        self.finished = true;
        Ok(())
    }

    // Puts what is pending, once the arrivals have ended.
    fn finish_sending(&mut self) -> Result<(), FinishRefusal>
        ensures keeps { FeederKeeps self.old self.new }
        ensures packer { self.new.packer ≡ self.old.packer }
        ensures sent { OnOk result (self.new.pending.items ≡ []) }
        ensures full { OnErr result (spare self.new.outlet ≡ 0) }
        ensures refused { OnErr result (result ≡ Err finish.Full) }
        ensures fewer { OnErr result (LeavesFewerPending self.old self.new) }
    {
        if self.clear() {
            return Ok(());
        }
        Err(FinishRefusal::Full)
    }

    /// Takes an arrival, unless earlier messages still find no room, and puts as many of its
    /// messages as find room. A refusal leaves the feeder's messages as they were; once out of
    /// memory it takes nothing more.
    pub fn offer(&mut self, arrival: Item) -> Result<(), OfferRefusal>
        requires below { item_stamp arrival < HORIZON }
        requires goes_on { self.old.packer.failed ≡ false
            → self.old.packer.arriving.window.ended ≡ false }
        ensures takes { OnOk result (FeederTakes self.old self.new arrival) }
        ensures keeps { OnErr result (FeederKeeps self.old self.new) }
        ensures refused { IfErr result (OfferRefused self.old self.new arrival) }
        ensures falling { self.old.packer.failed ≡ false
            → item_stamp arrival < floor_of self.old.packer.arriving
            → result ≡ Err (offer.Falling (item_stamp arrival)
            (floor_of self.old.packer.arriving)) }
    {
        if self.packer.has_failed() {
            return Err(OfferRefusal::Memory);
        }
        let stamp = stamp_of(&arrival);
        let last = self.packer.floor();
        if stamp < last {
            return Err(OfferRefusal::Falling { stamp, last });
        }
        if !self.clear() {
            return Err(OfferRefusal::Full(arrival));
        }
        match self.take(arrival) {
            Ok(()) => Ok(()),
            Err(_) => Err(OfferRefusal::Memory),
        }
    }

    /// Ends the arrivals at the first call, and puts as many of the messages that are left as find
    /// room. A later call goes on where one answered that the link was full.
    pub fn finish(&mut self) -> Result<(), FinishRefusal>
        requires { self.old.finished ≡ false → self.old.packer.failed ≡ false
            → self.old.packer.arriving.window.ended ≡ false }
        ensures ends { self.old.finished ≡ false → result ≢ Err finish.Memory
            → FeederEnds self.old self.new }
        ensures again { self.old.finished ≡ true → FeederKeeps self.old self.new }
        ensures sent { OnOk result (self.new.pending.items ≡ []) }
        ensures full { result ≡ Err finish.Full → spare self.new.outlet ≡ 0 }
        ensures fewer { self.old.finished ≡ true
            → OnErr result (LeavesFewerPending self.old self.new) }
        ensures packer { self.old.finished ≡ true → self.new.packer ≡ self.old.packer }
        ensures stays_failed { self.old.finished ≡ false → self.old.packer.failed ≡ true
            → result ≡ Err finish.Memory }
        ensures memory { result ≡ Err finish.Memory
            → FeederKeeps self.old self.new × (self.new.packer.failed ≡ true) }
    {
        if self.finished {
            return self.finish_sending();
        }
        if self.end().is_err() {
            return Err(FinishRefusal::Memory);
        }
        self.finish_sending()
    }

    /// Tells `to`, the seat that closes, what this feeder's seat knows: see [`SplitBook::agree`].
    pub fn agree(&mut self, to: &mut SplitSeat)
        requires to { IsSeatOf self.old.packer.seat.table_id to.old }
        requires closes { (seat_knows to.old).closes ≡ true }
        ensures from { IsSameSeat self.old.packer.seat self.new.packer.seat }
        ensures to { IsSameSeat to.old to.new }
        ensures same { seat_view self.new.packer.seat ≡ seat_view self.old.packer.seat }
        ensures knows { KnowsSame (seat_knows to.old) (seat_knows to.new) }
        ensures shared { SplitsShared (seat_knows self.old.packer.seat) (seat_knows to.old) }
        ensures below { EndsBelowSplits (seat_knows self.old.packer.seat) (seat_knows to.old) }
        ensures stays { FeederStays self.old self.new }
        ensures outlet { self.new.outlet ≡ self.old.outlet }
        ensures pending { self.new.pending ≡ self.old.pending }
    {
        self.packer.agree(to);
    }

    /// Takes all that was sent and not taken yet out at the other end of the link, and appends it to
    /// `out`. All places of the link are free then. Out of memory, nothing is taken.
    pub fn hand_over(&mut self, inlet: &mut Inlet<Fed>, out: &mut Vec<Fed>) -> Result<(), Memory>
        requires { AreEnds self.old.outlet inlet.old }
        ensures ends { AreEnds self.new.outlet inlet.new }
        ensures outlet { SameOutlet self.old.outlet self.new.outlet }
        ensures inlet { SameInlet inlet.old inlet.new }
        ensures stays { FeederStays self.old self.new }
        ensures packer { self.new.packer ≡ self.old.packer }
        ensures sent { sent self.new.outlet ≡ sent self.old.outlet }
        ensures pending { self.new.pending ≡ self.old.pending }
        ensures hands { HandsOver inlet.old inlet.new out.old.items out.new.items }
        ensures waits { taken inlet.new ++ known inlet.new ≡ sent self.new.outlet }
        ensures all { OnOk result (taken inlet.new ≡ sent self.new.outlet) }
        ensures free { OnOk result (spare self.new.outlet ≡ room_of self.new.outlet) }
        ensures memory { OnErr result (out.new.items ≡ out.old.items) }
    {
        let waiting = settle(&mut self.outlet, inlet);
        out.reserve(waiting as usize)?;
        take_all(inlet, out);
        settle(&mut self.outlet, inlet);
        Ok(())
    }
}
