// The steps of a seat on its book. Each takes no memory and waits for nobody.
ghost use Rattle.std.specs.Prelude.{◌≡◌, ◌↔◌, ◌<◌, ◌≤◌, ◌+◌, true, IsTrue};
ghost use Rattle.pipes_split.specs.declared.views.Kind.TheVariants.{Raise as ARaise};
ghost use Rattle.pipes_split.specs.declared.views.Kind.TheVariants.{Close as AClose, Look as ALook};
ghost use Rattle.pipes_split.specs.declared.views.Kind.TheVariants.{Halt as AHalt};
ghost use Rattle.pipes_split.specs.declared.views.Kind.TheVariants.{Halted as AHalted};
ghost use Rattle.pipes_split.specs.Views.{seat_view, last_found, low};
ghost use Rattle.pipes_split.specs.Seats.{IsSeatOf, IsSameSeat};
ghost use Rattle.pipes_split.specs.Knowledge.{seat_knows, KnowsSame, RaiseTells, LookTells};
ghost use Rattle.pipes_split.specs.Knowledge.{SplitLearnt, HaltAsked, SplitsShared};
ghost use Rattle.pipes_split.specs.Knowledge.{EndsBelowSplits, MadeStep, RaiseFound, LookFound};
ghost use Rattle.pipes_split.specs.Rule.{EndsLieBelow, SplitsAgree, WordsHoldEnds, HaltsWereAsked};

use crate::book::{EPOCHS, HALTS, LAST_EPOCH, Raised, SplitBook, SplitSeat};
use crate::rule::{Close, Halt, Halted, Look, Note, Raise, Read};
use pipes_time::HORIZON;

// A word from here on is closed.
const CLOSED: u64 = 1 << 63;

impl SplitBook {
    /// Registers an end in an epoch, unless the epoch was closed at this step: then the answer is
    /// its split time, and the end lies in no word. The last epoch is never closed.
    #[tactic(auto, using(crate::proofs::Telling::registered, crate::proofs::Telling::learns))]
    pub fn raise(&self, seat: &mut SplitSeat, epoch: u32, end: u64) -> Raised
        requires seat { IsSeatOf self.now seat.old }
        requires epoch { epoch < EPOCHS }
        requires end { end ≤ HORIZON }
        ensures seat { IsSameSeat seat.old seat.new }
        ensures knows { RaiseTells (seat_knows seat.old) epoch end result (seat_knows seat.new) }
        ensures step { MadeStep ARaise epoch (seat_view seat.old) (seat_view seat.new) }
        ensures found { RaiseFound (seat_view seat.new) result }
    {
        let found = self
            .table
            .shared
            .fetch_max::<Raise>(seat, epoch as usize, end);
        if found < CLOSED {
            Raised::Free
        } else {
            Raised::Cut(found - CLOSED + 1)
        }
    }

    /// Closes an epoch, and answers its split time: one more than the greatest end in its word. A
    /// second close answers the same.
    #[tactic(auto, using(crate::proofs::Telling::learns))]
    pub fn close_split(&self, seat: &mut SplitSeat, epoch: u32) -> u64
        requires seat { IsSeatOf self.now seat.old }
        requires closes { (seat_knows seat.old).closes ≡ true }
        requires epoch { epoch < LAST_EPOCH }
        ensures seat { IsSameSeat seat.old seat.new }
        ensures knows { SplitLearnt (seat_knows seat.old) epoch result (seat_knows seat.new) }
        ensures step { MadeStep AClose epoch (seat_view seat.old) (seat_view seat.new) }
        ensures found { result ≡ low (last_found (seat_view seat.new)) + 1 }
    {
        let found = self
            .table
            .shared
            .fetch_or::<Close>(seat, epoch as usize, CLOSED);
        if found < CLOSED {
            found + 1
        } else {
            found - CLOSED + 1
        }
    }

    /// The split time of an epoch, if it was closed at this step.
    #[tactic(auto, using(crate::proofs::Telling::learns, crate::proofs::Telling::same_after))]
    pub fn look(&self, seat: &mut SplitSeat, epoch: u32) -> Option<u64>
        requires seat { IsSeatOf self.now seat.old }
        requires epoch { epoch < EPOCHS }
        ensures seat { IsSameSeat seat.old seat.new }
        ensures knows { LookTells (seat_knows seat.old) epoch result (seat_knows seat.new) }
        ensures step { MadeStep ALook epoch (seat_view seat.old) (seat_view seat.new) }
        ensures found { LookFound (seat_view seat.new) result }
    {
        let found = self.table.shared.load::<Look>(seat, epoch as usize);
        if found < CLOSED {
            None
        } else {
            Some(found - CLOSED + 1)
        }
    }

    /// Sets a halt word.
    #[tactic(auto, using(crate::proofs::Telling::asks))]
    pub fn halt(&self, seat: &mut SplitSeat, number: u32)
        requires seat { IsSeatOf self.now seat.old }
        requires number { number < HALTS }
        ensures seat { IsSameSeat seat.old seat.new }
        ensures knows { HaltAsked (seat_knows seat.old) number (seat_knows seat.new) }
        ensures step { MadeStep AHalt number (seat_view seat.old) (seat_view seat.new) }
    {
        let word = EPOCHS as usize + number as usize;
        self.table.shared.fetch_or::<Halt>(seat, word, 1);
    }

    /// Whether a halt word was set at this step.
    #[tactic(auto, using(crate::proofs::Telling::same_after))]
    pub fn halted(&self, seat: &mut SplitSeat, number: u32) -> bool
        requires seat { IsSeatOf self.now seat.old }
        requires number { number < HALTS }
        ensures seat { IsSameSeat seat.old seat.new }
        ensures knows { KnowsSame (seat_knows seat.old) (seat_knows seat.new) }
        ensures step { MadeStep AHalted number (seat_view seat.old) (seat_view seat.new) }
        ensures found { IsTrue result ↔ (last_found (seat_view seat.new) ≡ 1) }
    {
        let word = EPOCHS as usize + number as usize;
        self.table.shared.load::<Halted>(seat, word) == 1
    }

    /// Tells `to`, the seat that closes, what `from` knows, in two steps of `to`. It turns out that
    /// `to` knew each split that `from` knows, and that each end that `from` registered lies below
    /// the split that `to` knows.
    pub fn agree(&self, from: &mut SplitSeat, to: &mut SplitSeat)
        requires from { IsSeatOf self.now from.old }
        requires to { IsSeatOf self.now to.old }
        requires closes { (seat_knows to.old).closes ≡ true }
        ensures from { IsSameSeat from.old from.new }
        ensures to { IsSameSeat to.old to.new }
        ensures same { seat_view from.new ≡ seat_view from.old }
        ensures knows { KnowsSame (seat_knows to.old) (seat_knows to.new) }
        ensures steps { (seat_view to.new).steps ≡ (seat_view to.old).steps + 2 }
        ensures shared { SplitsShared (seat_knows from.old) (seat_knows to.old) }
        ensures below { EndsBelowSplits (seat_knows from.old) (seat_knows to.old) }
    {
        let shared = &self.table.shared;
        let note = shared.split_seat::<Note>(from);
        shared.join_seat::<Note>(to, note);
        shared.load::<Read>(to, 0);
    }
}

/// The laws across seats, between any two steps of any seats in any order. Each end that was
/// registered in an epoch lies below the split time that any seat knows of it. All seats that know
/// a split time of an epoch know the same. The word of an epoch holds 0 or an end that some seat
/// registered, and it is closed exactly where the seat that closes knows its split time. A halt
/// word is set only where some seat set it.
pub fn seats_agree()
    ensures below { EndsLieBelow }
    ensures same { SplitsAgree }
    ensures words { WordsHoldEnds }
    ensures halts { HaltsWereAsked }
{}
