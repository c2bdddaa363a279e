// The slot of a key, and its piece.
ghost use Rattle.std.specs.Prelude.{◌≡◌, ◌-◌, OnOk, Some, None, MatchOption, slice_get, ℕ};
ghost use Rattle.std.specs.Bool.{OnTrue};
ghost use Rattle.pipes_timeline.specs.Rules.{Row, RowBags, NoneOfKey};
ghost use Rattle.pipes_timeline.specs.Queues.{open_start};
ghost use Rattle.pipes_timeline.specs.Tables.{Frees, Settles, Begins, Finishes, Cuts, Opens, Voids};

use crate::piece::Piece;
use crate::pieces::Pieces;
use crate::rule::Rule;
use pipes_stream::Elem;
use pipes_time::{Interval, Memory};
use pipes_tuple::Key;

// What the rows of a key come to, and the place of its open piece.
#[derive(Drop)]
pub struct Slot<T> {
    pub(crate) tally: T,
    pub(crate) place: Option<u64>,
}

// The place and the start of the key's open piece.
fn open_at<T>(pieces: &Pieces, slot: &Slot<T>) -> Option<(u64, u64)>
    ensures { MatchOption result
        ((place : ℕ) → slot.now.place ≡ Some place
        → open_start (slice_get pieces.now.queue.items (place - pieces.now.base)) ≡ None)
        (λ p. (slot.now.place ≡ Some p.0)
        × (open_start (slice_get pieces.now.queue.items (p.0 - pieces.now.base)) ≡ Some p.1)) }
{
    match slot.place {
        Some(place) => match pieces.start(place) {
            Some(start) => Some((place, start)),
            None => None,
        },
        None => None,
    }
}

// The piece at the place closes now, if it started before.
fn shut<T: Drop, R: Rule<T>>(
    rule: &R,
    pieces: &mut Pieces,
    key: &Key,
    slot: &mut Slot<T>,
    opened: (u64, u64),
    now: u64,
) -> Result<(), Memory>
    requires place { slot.old.place ≡ Some opened.0 }
    requires start { open_start (slice_get pieces.old.queue.items (opened.0 - pieces.old.base))
        ≡ Some opened.1 }
    ensures { OnOk result
        (Frees (R.rule rule.now) (R.tells rule.now) now key.now slot.old slot.new
        pieces.old pieces.new) }
{
    match Interval::new(opened.1, now) {
        Some(span) => {
            let (tuple, many) = rule.answer(key, &slot.tally)?;
            pieces.put(opened.0, Piece::Closed(Elem { tuple, span }, many));
            slot.place = None;
            Ok(())
        }
        None => Ok(()),
    }
}

// The open piece of the key closes now, if it started before.
pub(crate) fn release<T: Drop, R: Rule<T>>(
    rule: &R,
    pieces: &mut Pieces,
    key: &Key,
    slot: &mut Slot<T>,
    now: u64,
) -> Result<(), Memory>
    ensures { OnOk result
        (Frees (R.rule rule.now) (R.tells rule.now) now key.now slot.old slot.new
        pieces.old pieces.new) }
{
    match open_at(pieces, slot) {
        Some(opened) => shut(rule, pieces, key, slot, opened, now),
        None => Ok(()),
    }
}

// A piece of the key opens now, if none is open.
fn reopen<T>(pieces: &mut Pieces, key: &Key, slot: &mut Slot<T>, now: u64) -> Result<(), Memory>
    ensures { OnOk result (Opens now key.now slot.old slot.new pieces.old pieces.new) }
{
    match slot.place {
        Some(_) => Ok(()),
        None => {
            let place = pieces.push(key.copy()?, now)?;
            slot.place = Some(place);
            Ok(())
        }
    }
}

// The key's piece goes, if one is open: it gave nothing.
fn void<T>(pieces: &mut Pieces, slot: &mut Slot<T>, now: u64)
    ensures { Voids now slot.old slot.new pieces.old pieces.new }
{
    match slot.place {
        Some(place) => {
            pieces.put(place, Piece::Void(now));
            slot.place = None;
        }
        None => {}
    }
}

// A piece of the key is open where its rows give something.
pub(crate) fn settle<T: Drop, R: Rule<T>>(
    rule: &R,
    pieces: &mut Pieces,
    key: &Key,
    slot: &mut Slot<T>,
    now: u64,
) -> Result<(), Memory>
    ensures { OnOk result
        (Settles (R.rule rule.now) (R.tells rule.now) now key.now slot.old slot.new
        pieces.old pieces.new) }
{
    if rule.has_answer(&slot.tally) {
        reopen(pieces, key, slot, now)
    } else {
        void(pieces, slot, now);
        Ok(())
    }
}

// An element of the key comes, which starts now.
pub(crate) fn begin<T: Drop, R: Rule<T>>(
    rule: &R,
    pieces: &mut Pieces,
    key: &Key,
    slot: &mut Slot<T>,
    now: u64,
    port: u32,
    elem: &Elem,
) -> Result<(), Memory>
    ensures { OnOk result
        (Begins (R.rule rule.now) (R.tells rule.now) now key.now slot.old slot.new
        pieces.old pieces.new (port, elem.now)) }
{
    release(rule, pieces, key, slot, now)?;
    rule.add(&mut slot.tally, port, &elem.tuple)?;
    settle(rule, pieces, key, slot, now)
}

// An element of the key ends now.
pub(crate) fn finish<T: Drop, R: Rule<T>>(
    rule: &R,
    pieces: &mut Pieces,
    key: &Key,
    slot: &mut Slot<T>,
    now: u64,
    port: u32,
    elem: &Elem,
) -> Result<(), Memory>
    ensures { OnOk result
        (Finishes (R.rule rule.now) (R.tells rule.now) now key.now slot.old slot.new
        pieces.old pieces.new (port, elem.now)) }
{
    release(rule, pieces, key, slot, now)?;
    rule.remove(&mut slot.tally, port, &elem.tuple)?;
    settle(rule, pieces, key, slot, now)
}

// The key's piece closes now and opens again, if it started before.
pub(crate) fn cut<T: Drop, R: Rule<T>>(
    rule: &R,
    pieces: &mut Pieces,
    key: &Key,
    slot: &mut Slot<T>,
    now: u64,
) -> Result<(), Memory>
    ensures { OnOk result
        (Cuts (R.rule rule.now) (R.tells rule.now) now key.now slot.old slot.new
        pieces.old pieces.new) }
{
    release(rule, pieces, key, slot, now)?;
    settle(rule, pieces, key, slot, now)
}
