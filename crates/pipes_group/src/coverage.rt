// How far each tuple is covered by what was sent, and how far it is to be covered.
ghost use Rattle.std.specs.Prelude.{◌≡◌, ◌<◌, [], ◌∷◌, ◌++◌, List, Some, None, length};
ghost use Rattle.std.specs.Prelude.{OnOk, IfOk, MatchOption};
ghost use Rattle.std.specs.List.{All};
ghost use Rattle.indexmap.specs.IndexMap.{get, IsUnique};
ghost use Rattle.pipes_tuple.specs.Equal.{tuple_eq};
ghost use Rattle.pipes_stream.specs.declared.message.Message.{Message as Sent};
ghost use Rattle.pipes_group.specs.Covers.{Sets, Extends, IsStale, Renews, CatchesUp, AdmitsElem};

use crate::dues::Dues;
use indexmap::IndexMap;
use pipes_stream::{Elem, Message};
use pipes_time::{Interval, Memory};
use pipes_tuple::Tuple;
use std::alloc::Global;

// What was sent covers a tuple up to one instant, and is to cover it up to another.
#[derive(Clone, Copy)]
pub(crate) struct Slot {
    pub(crate) cover: u64,
    pub(crate) until: u64,
}

// The tuples that are covered beyond the present, and when the coverage of each ends.
#[derive(Drop)]
pub(crate) struct Coverage {
    table: IndexMap<Tuple, Slot>,
    dues: Dues,
}

// One more message is sent.
pub(crate) fn append(out: &mut Vec<Message>, message: Message) -> Result<(), Memory>
    ensures appended { OnOk result (out.new.items ≡ out.old.items ++ message ∷ []) }
    ensures grows { (more : List Sent) × (out.new.items ≡ out.old.items ++ more) }
{
    match out.push(message) {
        Ok(()) => Ok(()),
        Err(_) => Err(Memory),
    }
}

impl Coverage {
    pub(crate) fn new(alloc: Global) -> Coverage
        ensures table { result.table.entries ≡ [] }
        ensures dues { result.dues ≡ [] }
        ensures unique { IsUnique tuple_eq result.table }
    {
        Coverage {
            table: IndexMap::new(alloc),
            dues: Dues::new(alloc),
        }
    }

    // The number of tuples.
    pub(crate) fn len(&self) -> usize
        ensures value { result ≡ length self.now.table.entries }
    {
        self.table.len()
    }

    // The tuple's slot is this from now on.
    fn set(&mut self, tuple: Tuple, slot: Slot) -> Result<(), Memory>
        ensures sets { OnOk result
            (Sets tuple (Some slot) (get tuple_eq self.old.table) (get tuple_eq self.new.table)) }
        ensures unique { OnOk result (IsUnique tuple_eq self.new.table) }
        ensures dues { OnOk result (self.new.dues ≡ self.old.dues) }
    {
        match self.table.insert(tuple, slot) {
            Ok(_) => Ok(()),
            Err(_) => Err(Memory),
        }
    }

    // Sends the tuple's element in the span, in which it is still to be covered.
    fn extend(&mut self, tuple: Tuple, span: Interval, out: &mut Vec<Message>) -> Result<(), Memory>
        ensures extends { OnOk result
            (Extends self.old self.new tuple span out.old.items out.new.items) }
        ensures grows { (more : List Sent) × (out.new.items ≡ out.old.items ++ more) }
    {
        let end = span.end();
        let key = tuple.copy()?;
        let copy = tuple.copy()?;
        self.set(
            key,
            Slot {
                cover: end,
                until: end,
            },
        )?;
        self.dues.put(end, tuple)?;
        append(out, Message::Elem(Elem { tuple: copy, span }))?;
        Ok(())
    }

    // The tuple's slot, if it has one.
    fn find(&self, tuple: &Tuple) -> Option<Slot>
        ensures { result ≡ get tuple_eq self.now.table tuple.now }
    {
        match self.table.get(tuple) {
            Some(slot) => Some(*slot),
            None => None,
        }
    }

    // The tuple's slot, if its coverage ends at the instant.
    fn due_slot(&self, at: u64, tuple: &Tuple) -> Option<Slot>
        ensures { MatchOption result (IsStale (get tuple_eq self.now.table) at tuple.now)
            (λ s. (get tuple_eq self.now.table tuple.now ≡ Some s) × (s.cover ≡ at)) }
    {
        match self.find(tuple) {
            Some(slot) => { if slot.cover == at { Some(slot) } else { None } }
            None => None,
        }
    }

    // The tuple's coverage has ended: what is still to be sent for it is sent, or its slot goes.
    fn go_on(&mut self, slot: Slot, tuple: Tuple, out: &mut Vec<Message>) -> Result<(), Memory>
        requires { get tuple_eq self.old.table tuple ≡ Some slot }
        ensures renews { OnOk result
            (Renews self.old self.new (slot.cover, tuple) out.old.items out.new.items) }
        ensures grows { (more : List Sent) × (out.new.items ≡ out.old.items ++ more) }
    {
        match Interval::new(slot.cover, slot.until) {
            Some(span) => self.extend(tuple, span, out),
            None => {
                self.table.swap_remove(&tuple);
                Ok(())
            }
        }
    }

    // The tuple's coverage may have ended at its instant.
    fn renew(&mut self, due: (u64, Tuple), out: &mut Vec<Message>) -> Result<(), Memory>
        ensures renews { OnOk result (Renews self.old self.new due out.old.items out.new.items) }
        ensures grows { (more : List Sent) × (out.new.items ≡ out.old.items ++ more) }
    {
        let (at, tuple) = due;
        match self.due_slot(at, &tuple) {
            Some(slot) => self.go_on(slot, tuple, out),
            None => Ok(()),
        }
    }

    // Sends, in order of start, what is to be sent up to an instant.
    pub(crate) fn catch_up(&mut self, to: u64, out: &mut Vec<Message>) -> Result<(), Memory>
        ensures moves { OnOk result
            (CatchesUp self.old self.old.dues self.new to out.old.items out.new.items) }
        ensures cleared { OnOk result (All (λ d. to < d.0) self.new.dues) }
        ensures grows { (more : List Sent) × (out.new.items ≡ out.old.items ++ more) }
    {
        while let Some(due) = self.dues.pop(to) {
            self.renew(due, out)?;
        }
        Ok(())
    }

    // A tuple that has no slot comes: its element is sent whole.
    fn enter(&mut self, elem: Elem) -> Result<Message, Memory>
        requires { get tuple_eq self.old.table elem.tuple ≡ None }
        ensures { IfOk result (λ m. AdmitsElem self.old self.new elem m) }
    {
        let end = elem.span.end();
        let key = elem.tuple.copy()?;
        let due = elem.tuple.copy()?;
        self.set(
            key,
            Slot {
                cover: end,
                until: end,
            },
        )?;
        self.dues.put(end, due)?;
        Ok(Message::Elem(elem))
    }

    // A tuple that has a slot comes: it is to be covered at least as far as this element.
    fn widen(&mut self, elem: Elem, slot: Slot) -> Result<Message, Memory>
        requires { get tuple_eq self.old.table elem.tuple ≡ Some slot }
        ensures { IfOk result (λ m. AdmitsElem self.old self.new elem m) }
    {
        let start = elem.span.start();
        let until = slot.until.max(elem.span.end());
        self.set(
            elem.tuple,
            Slot {
                cover: slot.cover,
                until,
            },
        )?;
        Ok(Message::Beat(start))
    }

    // Takes in an element that starts now, and gives what is sent for it now.
    pub(crate) fn admit(&mut self, elem: Elem) -> Result<Message, Memory>
        ensures { IfOk result (λ m. AdmitsElem self.old self.new elem m) }
    {
        match self.find(&elem.tuple) {
            Some(slot) => self.widen(elem, slot),
            None => self.enter(elem),
        }
    }
}
