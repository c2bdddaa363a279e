// Elements, cut at the splits that they meet.
ghost use Rattle.std.specs.Prelude.{◌≡◌, ℕ, ◌≤◌, ◌<◌, List, ◌++◌, true, IfOk, IfSome, OnOk, OnErr};
ghost use Rattle.std.specs.Arc.{arc_value};
ghost use Rattle.pipes_split.specs.Seats.{IsSeatOf, IsSameSeat};
ghost use Rattle.pipes_split.specs.Views.{seat_view};
ghost use Rattle.pipes_split.specs.Knowledge.{seat_knows, KnowsSame, KnowsMore, SplitsShared};
ghost use Rattle.pipes_split.specs.Knowledge.{EndsBelowSplits};
ghost use Rattle.pipes_parcel.specs.declared.parcel.Fed.{Fed as AFed};
ghost use Rattle.pipes_parcel.specs.Pieces.{AllClosed, IsRegistered, MayStart, RaisesEnd};
ghost use Rattle.pipes_parcel.specs.Laws.{PiecesStandFor, PiecesStay};
ghost use Rattle.pipes_parcel.specs.Placed.{Begins, RaisesNone, Leaves, CutWhole};
ghost use Rattle.pipes_parcel.specs.Placed.{PutsBelow, feds_of_part};

use crate::{Fed, Parcel};
use pipes_split::{EPOCHS, LAST_EPOCH, Raised, SplitBook, SplitSeat, cut};
use pipes_stream::Elem;
use pipes_time::{HORIZON, Memory};
use std::collections::VecDeque;
use std::marker::Model;
use std::sync::Arc;

/// Cuts elements at the splits of a book, with a seat of its own. Contracts see the seat.
#[derive(Drop)]
pub struct Cutter {
    book: Arc<SplitBook>,
    seat: SplitSeat,
    // Elements that start at `low` or later begin in this epoch.
    first: u32,
    low: u64,
}

impl Model for Cutter {
    ghost use Rattle.std.specs.Arc.{arc_value};
    ghost use Rattle.atomic_table.specs.declared.shared.Seat.{Seat};
    ghost use Rattle.pipes_split.specs.declared.views.View.{View};
    ghost use Rattle.pipes_split.specs.Seats.{IsSeatOf};
    ghost use Rattle.pipes_split.specs.Knowledge.{seat_knows};
    ghost use Rattle.pipes_parcel.specs.Placed.{Begins};

    ghost Value = { Seat (Unit {0}) View };

    ghost view = { λ c. c.seat };

    ghost invariant = { λ c. IsSeatOf (arc_value c.book) c.seat
        × Begins (seat_knows c.seat) c.first c.low };
}

// What an epoch leaves of an element.
#[derive(Drop)]
enum Rest {
    // Nothing: the epoch is open, and the end is registered there.
    Registered,
    // Nothing: the element lies below the split. The end is registered nowhere yet.
    Below,
    // What lies from the split on.
    Above(Elem),
}

// Registers an end in the first open epoch.
fn register(book: &SplitBook, seat: &mut SplitSeat, first: u32, end: u64)
    requires seat { IsSeatOf book.now seat.old }
    requires early { first ≤ LAST_EPOCH }
    requires closed { AllClosed (seat_knows seat.old) first }
    requires end { end ≤ HORIZON }
    ensures seat { IsSameSeat seat.old seat.new }
    ensures raises { RaisesEnd (seat_knows seat.old) end (seat_knows seat.new) }
    ensures registered { IsRegistered (seat_knows seat.new) end }
{
    for epoch in first..EPOCHS {
        match book.raise(seat, epoch, end) {
            Raised::Free => return,
            Raised::Cut(_) => {}
        }
    }
    unreachable!()
}

// Puts a part in, if there is one.
fn put_part(epoch: u32, part: Option<Elem>, out: &mut VecDeque<Fed>) -> Result<(), Memory>
    ensures some { IfSome part (λ e. e.span.start < e.span.end) }
    ensures put { OnOk result (out.new.items ≡ out.old.items ++ feds_of_part epoch part) }
    ensures kept { OnErr result (out.new.items ≡ out.old.items) }
{
    if let Some(elem) = part {
        let _start = elem.span.start();
        out.push_back(Fed::Part(Parcel { epoch, elem }))?;
    }
    Ok(())
}

// Puts in the part of the element that lies below the split of the epoch.
fn put_below(epoch: u32, split: u64, elem: Elem, out: &mut VecDeque<Fed>) -> Result<Rest, Memory>
    ensures put { IfOk result (λ rest. PutsBelow epoch split elem rest out.old.items
        out.new.items) }
    ensures kept { OnErr result (out.new.items ≡ out.old.items) }
{
    let _start = elem.span.start();
    let (below, above) = cut(elem, split)?;
    put_part(epoch, below, out)?;
    match above {
        None => Ok(Rest::Below),
        Some(above) => {
            let _start = above.span.start();
            Ok(Rest::Above(above))
        }
    }
}

// Puts in the part of the element that belongs to the epoch, whose end is registered there unless
// the epoch is closed.
fn place(
    book: &SplitBook,
    seat: &mut SplitSeat,
    epoch: u32,
    elem: Elem,
    out: &mut VecDeque<Fed>,
) -> Result<Rest, Memory>
    requires seat { IsSeatOf book.now seat.old }
    requires epoch { epoch < EPOCHS }
    ensures seat { IsSameSeat seat.old seat.new }
    ensures raises { RaisesEnd (seat_knows seat.old) elem.span.end (seat_knows seat.new) }
    ensures leaves { IfOk result (λ rest. Leaves (seat_knows seat.new) epoch elem rest
        out.old.items out.new.items) }
    ensures kept { OnErr result (out.new.items ≡ out.old.items) }
{
    match book.raise(seat, epoch, elem.span.end()) {
        Raised::Free => {
            out.push_back(Fed::Part(Parcel { epoch, elem }))?;
            Ok(Rest::Registered)
        }
        Raised::Cut(split) => put_below(epoch, split, elem, out),
    }
}

// The epoch in which an element with this start begins. Elements that start at `low` or later begin
// in the epoch `first`: both move past epochs that are closed and whose splits don't lie above the
// start.
fn first_epoch(
    book: &SplitBook,
    seat: &mut SplitSeat,
    first: &mut u32,
    low: &mut u64,
    start: u64,
) -> u32
    requires seat { IsSeatOf book.now seat.old }
    requires begins { Begins (seat_knows seat.old) first.old low.old }
    ensures seat { IsSameSeat seat.old seat.new }
    ensures raises { RaisesNone (seat_knows seat.old) (seat_knows seat.new) }
    ensures later { Begins (seat_knows seat.new) first.new low.new }
    ensures begins { Begins (seat_knows seat.new) result start }
{
    if start < *low {
        return 0;
    }
    'epochs: while let Some(split) = book.look(seat, *first) {
        if start < split {
            return *first;
        }
        *first += 1;
        *low = split;
    }
    *first
}

// Puts in the parts of the element, from this epoch on.
fn cut_from(
    book: &SplitBook,
    seat: &mut SplitSeat,
    first: u32,
    elem: Elem,
    out: &mut VecDeque<Fed>,
) -> Result<(), Memory>
    requires seat { IsSeatOf book.now seat.old }
    requires first { first ≤ LAST_EPOCH }
    requires closed { AllClosed (seat_knows seat.old) first }
    requires start { MayStart (seat_knows seat.old) first elem.span.start }
    ensures seat { IsSameSeat seat.old seat.new }
    ensures raises { RaisesEnd (seat_knows seat.old) elem.span.end (seat_knows seat.new) }
    ensures whole { OnOk result (CutWhole (seat_knows seat.new) first elem out.old.items
        out.new.items) }
    ensures registered { OnOk result (IsRegistered (seat_knows seat.new) elem.span.end) }
    ensures longer { (more : List AFed) × (out.new.items ≡ out.old.items ++ more) }
{
    let end = elem.span.end();
    let mut rest = elem;
    for epoch in first..EPOCHS {
        match place(book, seat, epoch, rest, out)? {
            Rest::Registered => return Ok(()),
            Rest::Below => {
                register(book, seat, epoch + 1, end);
                return Ok(());
            }
            Rest::Above(above) => rest = above,
        }
    }
    unreachable!()
}

// Puts in all parts of the element, or none.
fn cut_whole(
    book: &SplitBook,
    seat: &mut SplitSeat,
    first: u32,
    elem: Elem,
    out: &mut VecDeque<Fed>,
) -> Result<(), Memory>
    requires seat { IsSeatOf book.now seat.old }
    requires begins { Begins (seat_knows seat.old) first elem.span.start }
    ensures seat { IsSameSeat seat.old seat.new }
    ensures raises { RaisesEnd (seat_knows seat.old) elem.span.end (seat_knows seat.new) }
    ensures whole { OnOk result (CutWhole (seat_knows seat.new) first elem out.old.items
        out.new.items) }
    ensures registered { OnOk result (IsRegistered (seat_knows seat.new) elem.span.end) }
    ensures kept { OnErr result (out.new.items ≡ out.old.items) }
{
    let before = out.len();
    match cut_from(book, seat, first, elem, out) {
        Ok(()) => Ok(()),
        Err(memory) => {
            out.truncate(before);
            Err(memory)
        }
    }
}

impl Cutter {
    /// A cutter with a seat of this book.
    pub fn new(book: Arc<SplitBook>, seat: SplitSeat) -> Cutter
        requires { IsSeatOf (arc_value book) seat }
        ensures { result ≡ seat }
    {
        Cutter {
            book,
            seat,
            first: 0,
            low: 0,
        }
    }

    /// Appends the parts of the element to `out`. Its end is registered epoch after epoch, from the
    /// first that may have a part of it, until one is open: what lies below the split of a closed
    /// one is a part for that epoch, and the rest goes on. The last epoch is never closed. Out of
    /// memory, nothing is appended.
    pub fn cut_up(&mut self, elem: Elem, out: &mut VecDeque<Fed>) -> Result<(), Memory>
        ensures seat { IsSameSeat self.old self.new }
        ensures raises { RaisesEnd (seat_knows self.old) elem.span.end (seat_knows self.new) }
        ensures whole { OnOk result (CutWhole (seat_knows self.new) 0 elem out.old.items
            out.new.items) }
        ensures registered { OnOk result (IsRegistered (seat_knows self.new) elem.span.end) }
        ensures kept { OnErr result (out.new.items ≡ out.old.items) }
    {
        let first = first_epoch(
            &self.book,
            &mut self.seat,
            &mut self.first,
            &mut self.low,
            elem.span.start(),
        );
        cut_whole(&self.book, &mut self.seat, first, elem, out)
    }

    /// Tells `to`, the seat that closes, what this cutter's seat knows. It turns out that `to` knew
    /// each split that this one knows, and that each end registered here lies below the split that
    /// `to` knows.
    pub fn agree(&mut self, to: &mut SplitSeat)
        requires to { IsSeatOf self.old.table_id to.old }
        requires closes { (seat_knows to.old).closes ≡ true }
        ensures from { IsSameSeat self.old self.new }
        ensures to { IsSameSeat to.old to.new }
        ensures same { seat_view self.new ≡ seat_view self.old }
        ensures knows { KnowsSame (seat_knows to.old) (seat_knows to.new) }
        ensures shared { SplitsShared (seat_knows self.old) (seat_knows to.old) }
        ensures below { EndsBelowSplits (seat_knows self.old) (seat_knows to.old) }
    {
        self.book.agree(&mut self.seat, to);
    }
}

/// The pieces of an element stand for it: at each instant they hold what it holds, and each lies
/// where a part of its epoch may. They stay so as the seat knows more.
#[tactic(auto, using(crate::proofs::Standing::stand_for, crate::proofs::Standing::stay))]
pub fn pieces_are_the_element()
    ensures stand { PiecesStandFor }
    ensures stay { PiecesStay }
{}
