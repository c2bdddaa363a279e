// The table of the keys, their pieces, and the elements that live.
ghost use Rattle.std.specs.Prelude.{◌≡◌, ◌≤◌, ◌<◌, ◌++◌, [], ◌∷◌, List, OnOk};
ghost use Rattle.std.specs.Prelude.{IfOk, Some, None, length, map, replicate};
ghost use Rattle.std.specs.List.{All};
ghost use Rattle.std.specs.Bool.{OnTrue};
ghost use Rattle.indexmap.specs.IndexMap.{get};
ghost use Rattle.pipes_tuple.specs.Equal.{tuple_eq};
ghost use Rattle.pipes_stream.specs.declared.message.Message.{Message as Sent};
ghost use Rattle.pipes_stream.specs.declared.message.Message.TheVariants as sent;
ghost use Rattle.pipes_timeline.specs.Rules.{Row, RowBags, NoneOfKey};
ghost use Rattle.pipes_timeline.specs.Queues.{IsShut, FirstIsOpen};
ghost use Rattle.pipes_timeline.specs.Timelines.{EntersAt, LeavesAt, Arrives};
ghost use Rattle.pipes_timeline.specs.Timelines.{Leaves, Trims, Passes, Sends};
ghost use Rattle.pipes_timeline.specs.Timelines.{given, reach};

use crate::ends::Ends;
use crate::piece::Piece;
use crate::pieces::Pieces;
use crate::rule::Rule;
use crate::table::{Slot, begin, cut, finish};
use indexmap::IndexMap;
use pipes_stream::{Elem, Message};
use pipes_time::Memory;
use pipes_tuple::Key;
use std::alloc::Global;

/// The answers of all keys up to an instant, as pieces in the order of their starts, with what is
/// needed to go on: the elements that live, and the tally of each key's rows.
///
/// A row costs two look-ups, one entry among the ends and constant work on the pieces, whatever the
/// number of keys and of rows of a key.
#[derive(Drop)]
pub struct Timeline<T, R> {
    rule: R,
    instant: u64,
    slots: IndexMap<Key, Slot<T>>,
    pieces: Pieces,
    ends: Ends,
}

// Whether the key has no rows, and no open piece.
fn is_idle<T: Drop, R: Rule<T>>(rule: &R, slot: &Slot<T>) -> bool
    ensures { OnTrue result ((slot.now.place ≡ None) × ((k : Row) (bags : RowBags)
        → R.tells rule.now k slot.now.tally bags
        → NoneOfKey (R.rule rule.now).key k bags)) }
{
    match slot.place {
        Some(_) => false,
        None => rule.is_empty(&slot.tally),
    }
}

fn append(out: &mut Vec<Message>, message: Message) -> Result<(), Memory>
    ensures appended { OnOk result (out.new.items ≡ out.old.items ++ message ∷ []) }
    ensures grows { (more : List Sent) × (out.new.items ≡ out.old.items ++ more) }
{
    match out.push(message) {
        Ok(()) => Ok(()),
        Err(_) => Err(Memory),
    }
}

// The element, so many times.
fn send_many(elem: Elem, many: u64, out: &mut Vec<Message>) -> Result<(), Memory>
    ensures sent { OnOk result (out.new.items
        ≡ out.old.items ++ map sent.Elem (replicate many elem)) }
    ensures grows { (more : List Sent) × (out.new.items ≡ out.old.items ++ more) }
{
    if many == 0 {
        return Ok(());
    }
    for _copy in 1..many {
        append(out, Message::Elem(elem.copy()?))?;
    }
    append(out, Message::Elem(elem))
}

// What the piece gives, which is not open.
fn send_piece(piece: Piece, out: &mut Vec<Message>) -> Result<(), Memory>
    requires { IsShut piece }
    ensures sent { OnOk result (out.new.items ≡ out.old.items ++ given piece) }
    ensures grows { (more : List Sent) × (out.new.items ≡ out.old.items ++ more) }
{
    match piece {
        Piece::Closed(elem, many) => send_many(elem, many, out),
        Piece::Open(_, _) => Ok(()),
        Piece::Void(_) => Ok(()),
    }
}

impl<T: Drop, R: Rule<T> + Drop> Timeline<T, R> {
    /// Nothing has come.
    pub fn new(alloc: Global, rule: R) -> Timeline<T, R>
        ensures rule { result.rule ≡ rule }
        ensures instant { result.instant ≡ 0 }
        ensures slots { result.slots.entries ≡ [] }
        ensures pieces { result.pieces.queue.items ≡ [] }
        ensures ends { result.ends ≡ [] }
    {
        Timeline {
            rule,
            instant: 0,
            slots: IndexMap::new(alloc),
            pieces: Pieces::new(alloc),
            ends: Ends::new(alloc),
        }
    }

    // A key that has no slot gets one with its first element.
    fn enter(&mut self, key: Key, port: u32, elem: &Elem) -> Result<(), Memory>
        requires { get tuple_eq self.old.slots key ≡ None }
        ensures enters { OnOk result
            (EntersAt (R.rule self.old.rule) (R.tells self.old.rule) self.old.instant key
            (get tuple_eq self.old.slots) (get tuple_eq self.new.slots) self.old.pieces
            self.new.pieces (port, elem.now)) }
        ensures now { OnOk result (self.new.instant ≡ self.old.instant) }
        ensures ends { OnOk result (self.new.ends ≡ self.old.ends) }
        ensures rule { self.new.rule ≡ self.old.rule }
    {
        let tally = self.rule.none()?;
        let mut slot = Slot { tally, place: None };
        begin(
            &self.rule,
            &mut self.pieces,
            &key,
            &mut slot,
            self.instant,
            port,
            elem,
        )?;
        self.slots.insert(key, slot)?;
        Ok(())
    }

    fn begin_at(&mut self, key: Key, port: u32, elem: &Elem) -> Result<(), Memory>
        ensures enters { OnOk result
            (EntersAt (R.rule self.old.rule) (R.tells self.old.rule) self.old.instant key
            (get tuple_eq self.old.slots) (get tuple_eq self.new.slots) self.old.pieces
            self.new.pieces (port, elem.now)) }
        ensures now { OnOk result (self.new.instant ≡ self.old.instant) }
        ensures ends { OnOk result (self.new.ends ≡ self.old.ends) }
        ensures rule { self.new.rule ≡ self.old.rule }
    {
        match self.slots.get_mut(&key) {
            Some(slot) => begin(
                &self.rule,
                &mut self.pieces,
                &key,
                slot,
                self.instant,
                port,
                elem,
            ),
            None => self.enter(key, port, elem),
        }
    }

    fn finish_at(&mut self, key: &Key, port: u32, elem: &Elem) -> Result<bool, Memory>
        ensures leaves { IfOk result (λ idle.
            LeavesAt (R.rule self.old.rule) (R.tells self.old.rule) self.old.instant key.now
            (get tuple_eq self.old.slots) (get tuple_eq self.new.slots) self.old.pieces
            self.new.pieces (port, elem.now) idle) }
        ensures now { OnOk result (self.new.instant ≡ self.old.instant) }
        ensures ends { OnOk result (self.new.ends ≡ self.old.ends) }
        ensures rule { self.new.rule ≡ self.old.rule }
    {
        match self.slots.get_mut(key) {
            Some(slot) => {
                finish(
                    &self.rule,
                    &mut self.pieces,
                    key,
                    slot,
                    self.instant,
                    port,
                    elem,
                )?;
                Ok(is_idle(&self.rule, slot))
            }
            None => Ok(false),
        }
    }

    /// An element comes at a port, which starts now.
    pub fn arrive(&mut self, port: u32, elem: Elem) -> Result<(), Memory>
        ensures arrives { OnOk result
            (Arrives (R.rule self.old.rule) (R.tells self.old.rule) self.old self.new
            (port, elem)) }
        ensures rule { self.new.rule ≡ self.old.rule }
    {
        let key = self.rule.key(&elem.tuple)?;
        self.begin_at(key, port, &elem)?;
        self.ends.put(port, elem)?;
        Ok(())
    }

    // An element ends now, which was taken out of the ends.
    fn leave(&mut self, port: u32, elem: &Elem) -> Result<(), Memory>
        ensures leaves { OnOk result
            (Leaves (R.rule self.old.rule) (R.tells self.old.rule) self.old self.new
            (port, elem.now)) }
        ensures rule { self.new.rule ≡ self.old.rule }
    {
        let key = self.rule.key(&elem.tuple)?;
        let idle = self.finish_at(&key, port, elem)?;
        if idle {
            self.slots.swap_remove(&key);
            return Ok(());
        }
        Ok(())
    }

    fn renew(&mut self, key: &Key) -> Result<(), Memory>
        ensures trims { OnOk result
            (Trims (R.rule self.old.rule) (R.tells self.old.rule) self.old self.new) }
        ensures rule { self.new.rule ≡ self.old.rule }
    {
        match self.slots.get_mut(key) {
            Some(slot) => cut(&self.rule, &mut self.pieces, key, slot, self.instant),
            None => Ok(()),
        }
    }

    /// Where many pieces wait for one that is open, that one is cut, so that they can be sent.
    pub fn trim(&mut self) -> Result<(), Memory>
        ensures trims { OnOk result
            (Trims (R.rule self.old.rule) (R.tells self.old.rule) self.old self.new) }
        ensures rule { self.new.rule ≡ self.old.rule }
    {
        match self.pieces.crowding(self.slots.len())? {
            Some(key) => self.renew(&key),
            None => Ok(()),
        }
    }

    /// All elements that end at the instant or before it end, and the instant is now.
    pub fn pass(&mut self, to: u64) -> Result<(), Memory>
        ensures passes { OnOk result
            (Passes (R.rule self.old.rule) (R.tells self.old.rule) self.old self.new to) }
        ensures now { OnOk result (self.new.instant ≡ to) }
        ensures over { OnOk result (All (λ s. to < s.1.span.end) self.new.ends) }
        ensures rule { self.new.rule ≡ self.old.rule }
    {
        while let Some(next) = self.ends.pop(to) {
            let (port, elem) = next;
            self.instant = elem.span.end();
            self.leave(port, &elem)?;
            self.trim()?;
        }
        self.instant = to;
        Ok(())
    }

    /// The pieces go out that no open piece started before.
    pub fn send(&mut self, out: &mut Vec<Message>) -> Result<(), Memory>
        ensures sends { OnOk result
            (Sends (R.rule self.old.rule) (R.tells self.old.rule) self.old self.new
            out.old.items out.new.items) }
        ensures waits { OnOk result (FirstIsOpen self.new.pieces.queue.items) }
        ensures rule { self.new.rule ≡ self.old.rule }
        ensures grows { (more : List Sent) × (out.new.items ≡ out.old.items ++ more) }
    {
        while let Some(piece) = self.pieces.shift()? {
            send_piece(piece, out)?;
        }
        Ok(())
    }

    /// How far all is sent: up to the start of the first piece.
    pub fn reach(&self) -> u64
        ensures { result ≡ reach self.now.pieces.queue.items self.now.instant }
    {
        self.pieces.first().unwrap_or(self.instant)
    }

    /// The number of elements that live.
    pub fn live(&self) -> usize
        ensures { result ≡ length self.now.ends }
    {
        self.ends.len()
    }
}
