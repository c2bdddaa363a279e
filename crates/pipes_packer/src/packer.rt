// The messages of a source's arrivals.
ghost use Rattle.std.specs.Prelude.{◌≡◌, ℕ, ◌≤◌, ◌<◌, ◌↔◌, List, [], ◌++◌, reverse, false, true, IsSome, IsErr};
ghost use Rattle.std.specs.Prelude.{IfSome, OnOk, OnErr};
ghost use Rattle.std.specs.Bool.{OnTrue};
ghost use Rattle.std.specs.Arc.{arc_value};
ghost use Rattle.pipes_window.specs.Items.{item_stamp};
ghost use Rattle.pipes_window.specs.Windows.{IsWindow};
ghost use Rattle.pipes_split.specs.Seats.{IsSeatOf, IsSameSeat};
ghost use Rattle.pipes_split.specs.Views.{seat_view};
ghost use Rattle.pipes_split.specs.Knowledge.{seat_knows, KnowsSame, SplitsShared, EndsBelowSplits};
ghost use Rattle.pipes_parcel.specs.declared.parcel.Fed.{Fed as AFed};
ghost use Rattle.pipes_arrivals.specs.Arriving.{floor_of, new_arriving};
ghost use Rattle.pipes_packer.specs.Packing.{PackedStays};
ghost use Rattle.pipes_packer.specs.Packed.{CutsAll, PackFails, Packs, PacksRest, RaisesEnds};
ghost use Rattle.pipes_packer.specs.Packed.{CutsThen, HasPacked, SamePacker, packing};

use pipes_arrivals::Arrivals;
use pipes_parcel::{Cutter, Fed};
use pipes_split::{SplitBook, SplitSeat};
use pipes_stream::Elem;
use pipes_time::{HORIZON, Memory};
use pipes_window::{Item, WindowKind};
use std::alloc::Global;
use std::collections::VecDeque;
use std::marker::Model;
use std::sync::Arc;

// Cuts the elements, the last one in the list first, and puts their parts in.
fn cut_last_first(
    cutter: &mut Cutter,
    elems: &mut Vec<Elem>,
    out: &mut VecDeque<Fed>,
) -> Result<(), Memory>
    ensures seat { IsSameSeat cutter.old cutter.new }
    ensures raises { RaisesEnds (seat_knows cutter.old) (reverse elems.old.items)
        (seat_knows cutter.new) }
    ensures cuts { OnOk result (CutsAll (seat_knows cutter.old) (seat_knows cutter.new)
        (reverse elems.old.items) out.old.items out.new.items) }
    ensures longer { (more : List AFed) × (out.new.items ≡ out.old.items ++ more) }
{
    'elems: while let Some(elem) = elems.pop() {
        cutter.cut_up(elem, out)?;
    }
    Ok(())
}

// Cuts the elements in their order, and puts their parts in.
fn cut_all(
    cutter: &mut Cutter,
    elems: &mut Vec<Elem>,
    out: &mut VecDeque<Fed>,
) -> Result<(), Memory>
    ensures seat { IsSameSeat cutter.old cutter.new }
    ensures raises { RaisesEnds (seat_knows cutter.old) elems.old.items (seat_knows cutter.new) }
    ensures cuts { OnOk result (CutsAll (seat_knows cutter.old) (seat_knows cutter.new)
        elems.old.items out.old.items out.new.items) }
    ensures longer { (more : List AFed) × (out.new.items ≡ out.old.items ++ more) }
{
    elems.reverse();
    cut_last_first(cutter, elems, out)
}

// Cuts the elements, and puts their parts in and then this message.
fn put_all(
    cutter: &mut Cutter,
    elems: &mut Vec<Elem>,
    last: Fed,
    out: &mut VecDeque<Fed>,
) -> Result<(), Memory>
    ensures seat { IsSameSeat cutter.old cutter.new }
    ensures raises { RaisesEnds (seat_knows cutter.old) elems.old.items (seat_knows cutter.new) }
    ensures cuts { OnOk result (CutsThen (seat_knows cutter.old) (seat_knows cutter.new)
        elems.old.items last out.old.items out.new.items) }
    ensures longer { (more : List AFed) × (out.new.items ≡ out.old.items ++ more) }
{
    cut_all(cutter, elems, out)?;
    out.push_back(last)?;
    Ok(())
}

// The messages of an arrival.
fn pack(
    cutter: &mut Cutter,
    arrivals: &mut Arrivals,
    elems: &mut Vec<Elem>,
    arrival: Item,
    out: &mut VecDeque<Fed>,
) -> Result<(), Memory>
    requires order { floor_of arrivals.old ≤ item_stamp arrival }
    requires below { item_stamp arrival < HORIZON }
    requires goes_on { arrivals.old.window.ended ≡ false }
    ensures same { SamePacker (packing cutter.old arrivals.old false)
        (packing cutter.new arrivals.new false) }
    ensures ended { arrivals.new.window.ended ≡ arrivals.old.window.ended }
    ensures packs { OnOk result (Packs (packing cutter.old arrivals.old false)
        (packing cutter.new arrivals.new false) arrival out.old.items out.new.items) }
    ensures longer { (more : List AFed) × (out.new.items ≡ out.old.items ++ more) }
{
    elems.clear();
    arrivals.take(arrival, elems)?;
    let beat = arrivals.beat_now();
    put_all(cutter, elems, Fed::Beat(beat), out)
}

// The messages that are left at the end. After a failure the arrivals may have ended.
fn pack_rest(
    cutter: &mut Cutter,
    arrivals: &mut Arrivals,
    elems: &mut Vec<Elem>,
    out: &mut VecDeque<Fed>,
) -> Result<(), Memory>
    requires goes_on { arrivals.old.window.ended ≡ false }
    ensures same { SamePacker (packing cutter.old arrivals.old false)
        (packing cutter.new arrivals.new false) }
    ensures packs { OnOk result (PacksRest (packing cutter.old arrivals.old false)
        (packing cutter.new arrivals.new false) out.old.items out.new.items) }
    ensures longer { (more : List AFed) × (out.new.items ≡ out.old.items ++ more) }
{
    elems.clear();
    arrivals.finish(elems)?;
    put_all(cutter, elems, Fed::End, out)
}

/// The arrivals of one source as the messages of its feeder: arrival by arrival the elements that it
/// makes known, each cut at the splits that it meets, and then the heartbeat of the window.
#[derive(Drop)]
pub struct Packer {
    cutter: Cutter,
    arrivals: Arrivals,
    elems: Vec<Elem>,
    failed: bool,
}

impl Model for Packer {
    ghost use Rattle.pipes_packer.specs.Packed.{Packing};

    ghost Value = { Packing };

    ghost view = { λ p. record { seat = p.cutter; arriving = p.arrivals; failed = p.failed } };
}

impl Packer {
    /// A packer with a seat of this book, for a source with this slack and this kind of window,
    /// unless the kind is outside its limits. No arrival has come.
    pub fn new(
        alloc: Global,
        book: Arc<SplitBook>,
        seat: SplitSeat,
        slack: u64,
        kind: WindowKind,
    ) -> Option<Packer>
        requires { IsSeatOf (arc_value book) seat }
        ensures exact { IsSome result ↔ IsWindow kind }
        ensures seat { IfSome result (λ packer. packer.seat ≡ seat) }
        ensures arriving { IfSome result (λ packer. packer.arriving ≡ new_arriving slack kind) }
        ensures unfailed { IfSome result (λ packer. packer.failed ≡ false) }
        ensures none { ((e : ℕ) → (seat_knows seat).top e ≡ 0)
            → IfSome result (λ packer. HasPacked [] [] packer) }
    {
        match Arrivals::new(alloc, slack, kind) {
            Some(arrivals) => Some(Packer {
                cutter: Cutter::new(book, seat),
                arrivals,
                elems: Vec::new(alloc),
                failed: false,
            }),
            None => None,
        }
    }

    /// The floor: the least stamp that a later arrival may have.
    pub fn floor(&self) -> u64
        ensures { result ≡ floor_of self.now.arriving }
    {
        self.arrivals.floor()
    }

    /// Whether memory was once wanting.
    pub fn has_failed(&self) -> bool
        ensures { result ≡ self.now.failed }
    {
        self.failed
    }

    /// Takes an arrival, and appends its messages. Once out of memory, nothing is appended and no
    /// later arrival is taken.
    pub fn take(&mut self, arrival: Item, out: &mut VecDeque<Fed>) -> Result<(), Memory>
        requires order { floor_of self.old.arriving ≤ item_stamp arrival }
        requires below { item_stamp arrival < HORIZON }
        requires goes_on { self.old.arriving.window.ended ≡ false }
        ensures same { SamePacker self.old self.new }
        ensures packs { OnOk result
            (Packs self.old self.new arrival out.old.items out.new.items) }
        ensures memory { OnErr result (PackFails self.old self.new out.old.items out.new.items) }
        ensures failed { OnTrue self.old.failed (IsErr result) }
    {
        if self.failed {
            return Err(Memory);
        }
        let before = out.len();
        let done = pack(
            &mut self.cutter,
            &mut self.arrivals,
            &mut self.elems,
            arrival,
            out,
        );
        if done.is_err() {
            out.truncate(before);
            self.failed = true;
            return Err(Memory);
        }
        Ok(())
    }

    /// Ends the arrivals, and appends the messages that are left and the end. Once out of memory,
    /// nothing is appended and no later call does anything.
    pub fn finish(&mut self, out: &mut VecDeque<Fed>) -> Result<(), Memory>
        requires goes_on { self.old.failed ≡ false → self.old.arriving.window.ended ≡ false }
        ensures same { SamePacker self.old self.new }
        ensures packs { OnOk result (PacksRest self.old self.new out.old.items out.new.items) }
        ensures failed { OnErr result (self.new.failed ≡ true) }
        ensures kept { OnErr result (out.new.items ≡ out.old.items) }
        ensures memory { OnTrue self.old.failed (IsErr result) }
    {
        if self.failed {
            return Err(Memory);
        }
        let before = out.len();
        let done = pack_rest(&mut self.cutter, &mut self.arrivals, &mut self.elems, out);
        if done.is_err() {
            out.truncate(before);
            self.failed = true;
            return Err(Memory);
        }
        Ok(())
    }

    /// Tells `to`, the seat that closes, what this packer's seat knows: see [`Cutter::agree`].
    pub fn agree(&mut self, to: &mut SplitSeat)
        requires to { IsSeatOf self.old.seat.table_id to.old }
        requires closes { (seat_knows to.old).closes ≡ true }
        ensures from { IsSameSeat self.old.seat self.new.seat }
        ensures to { IsSameSeat to.old to.new }
        ensures same { seat_view self.new.seat ≡ seat_view self.old.seat }
        ensures arriving { self.new.arriving ≡ self.old.arriving }
        ensures unfailed { self.new.failed ≡ self.old.failed }
        ensures knows { KnowsSame (seat_knows to.old) (seat_knows to.new) }
        ensures shared { SplitsShared (seat_knows self.old.seat) (seat_knows to.old) }
        ensures below { EndsBelowSplits (seat_knows self.old.seat) (seat_knows to.old) }
    {
        self.cutter.agree(to);
    }
}

/// What is packed stays so as the seat knows more.
#[tactic(auto, using(crate::proofs::Staying::stays))]
pub fn packed_stays()
    ensures { PackedStays }
{}
