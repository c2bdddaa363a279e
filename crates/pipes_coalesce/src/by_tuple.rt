// Elements by their tuple, those of one tuple in the order in which they came.
ghost use Rattle.std.specs.Prelude.{◌≡◌, ◌≤◌, ◌<◌, ◌-◌, ◌^◌, ◌↔◌, [], ◌∷◌, ◌++◌, map, OnOk, OnErr};
ghost use Rattle.std.specs.Prelude.{IfOk, MatchOption, IsTrue, length, None, Some, ⊤};
ghost use Rattle.pipes_stream.specs.declared.message.Message.TheVariants as message;
ghost use Rattle.pipes_coalesce.specs.Bags.{SameMembers};
ghost use Rattle.pipes_coalesce.specs.Filed.{contents, AreFiled, EntryAt, Added, TakesOfTuple};
ghost use Rattle.pipes_coalesce.specs.Filed.{QueueOut};
ghost use Rattle.pipes_coalesce.specs.Filed.{SendsAll};

use crate::queue::Queue;
use indexmap::IndexMap;
use pipes_stream::{Elem, Message};
use pipes_time::Memory;
use pipes_tuple::Tuple;
use std::alloc::Global;
use std::marker::Model;

#[derive(Drop)]
pub struct ByTuple {
    table: IndexMap<Tuple, Queue>,
    count: u64,
    alloc: Global,
}

impl Model for ByTuple {
    ghost use Rattle.std.specs.Prelude.{◌≡◌, List, length};
    ghost use Rattle.pipes_stream.specs.declared.Elem.{Elem};
    ghost use Rattle.pipes_coalesce.specs.Filed.{contents, AreFiled};

    ghost Value = { List Elem };

    ghost view = { λ b. contents b.table.entries };

    ghost invariant = { λ b. AreFiled b.table.entries
        × (b.count ≡ length (contents b.table.entries)) };
}

// A queue of one element.
fn queue_of(alloc: Global, elem: Elem) -> Result<Queue, Memory>
    ensures { IfOk result (λ queue. queue ≡ elem ∷ []) }
{
    let mut queue = Queue::new(alloc);
    queue.push(elem)?;
    Ok(queue)
}

// Puts an element into the queue at this place.
fn push_at(table: &mut IndexMap<Tuple, Queue>, place: usize, elem: Elem) -> Result<(), Memory>
    requires filed { AreFiled table.old.entries }
    requires place { EntryAt table.old.entries place elem.tuple (λ _. ⊤) }
    ensures filed { AreFiled table.new.entries }
    ensures added { OnOk result
        (Added elem (contents table.old.entries) (contents table.new.entries)) }
    ensures memory { OnErr result (contents table.new.entries ≡ contents table.old.entries) }
{
    match table.get_index_mut(place) {
        Some(queue) => match queue.push(elem) {
            Ok(()) => Ok(()),
            Err(refused) => Err(refused),
        },
        None => Err(Memory),
    }
}

fn put_in(table: &mut IndexMap<Tuple, Queue>, alloc: Global, elem: Elem) -> Result<(), Memory>
    requires { AreFiled table.old.entries }
    ensures filed { AreFiled table.new.entries }
    ensures added { OnOk result
        (Added elem (contents table.old.entries) (contents table.new.entries)) }
    ensures memory { OnErr result (contents table.new.entries ≡ contents table.old.entries) }
{
    match table.get_index_of(&elem.tuple) {
        Some(place) => push_at(table, place, elem),
        None => {
            let key = elem.tuple.copy()?;
            let queue = queue_of(alloc, elem)?;
            match table.insert(key, queue) {
                Ok(_) => Ok(()),
                Err(_) => Err(Memory),
            }
        }
    }
}

// Takes the first element of the queue at this place, which has more.
fn take_first(table: &mut IndexMap<Tuple, Queue>, place: usize, tuple: &Tuple) -> Option<Elem>
    requires filed { AreFiled table.old.entries }
    requires place { EntryAt table.old.entries place tuple.now (λ queue. 1 < length queue) }
    ensures filed { AreFiled table.new.entries }
    ensures found { TakesOfTuple tuple.now (contents table.old.entries) (contents table.new.entries)
        result }
{
    match table.get_index_mut(place) {
        Some(queue) => match queue.pop() {
            Some(elem) => Some(elem),
            None => None,
        },
        None => None,
    }
}

// Takes the one element of the queue at this place.
fn take_only(table: &mut IndexMap<Tuple, Queue>, place: usize, tuple: &Tuple) -> Option<Elem>
    requires filed { AreFiled table.old.entries }
    requires place { EntryAt table.old.entries place tuple.now (λ queue. length queue ≡ 1) }
    ensures filed { AreFiled table.new.entries }
    ensures found { TakesOfTuple tuple.now (contents table.old.entries) (contents table.new.entries)
        result }
{
    match table.swap_remove_index(place) {
        Some((_, mut queue)) => queue.pop(),
        None => None,
    }
}

fn take_from(table: &mut IndexMap<Tuple, Queue>, tuple: &Tuple) -> Option<Elem>
    requires { AreFiled table.old.entries }
    ensures filed { AreFiled table.new.entries }
    ensures found { TakesOfTuple tuple.now (contents table.old.entries) (contents table.new.entries)
        result }
{
    match table.get_full(tuple) {
        Some((place, _, queue)) => {
            if queue.len() == 1 {
                take_only(table, place, tuple)
            } else {
                take_first(table, place, tuple)
            }
        }
        None => None,
    }
}

// Puts a queue's elements after what was sent, in order.
fn send_queue(mut queue: Queue, out: &mut Vec<Message>) -> Result<(), Memory>
    ensures { OnOk result (out.new.items ≡ out.old.items ++ map message.Elem queue) }
{
    while let Some(elem) = queue.pop() {
        out.push(Message::Elem(elem))?;
    }
    Ok(())
}

impl ByTuple {
    pub fn new(alloc: Global) -> ByTuple
        ensures { result ≡ [] }
    {
        ByTuple {
            table: IndexMap::new(alloc),
            count: 0,
            alloc,
        }
    }

    pub fn is_empty(&self) -> bool
        ensures { IsTrue result ↔ (self.now ≡ []) }
    {
        self.count == 0
    }

    pub fn len(&self) -> u64
        ensures { result ≡ length self.now }
    {
        self.count
    }

    pub fn put(&mut self, elem: Elem) -> Result<(), Memory>
        ensures { OnOk result (Added elem self.old self.new) }
    {
        if self.count == u64::MAX {
            return Err(Memory);
        }
        put_in(&mut self.table, self.alloc, elem)?;
        self.count += 1;
        Ok(())
    }

    // Takes out the element of this tuple that came first, if there is one.
    pub fn take(&mut self, tuple: &Tuple) -> Option<Elem>
        ensures { TakesOfTuple tuple.now self.old self.new result }
    {
        match take_from(&mut self.table, tuple) {
            Some(elem) => {
                self.count -= 1;
                Some(elem)
            }
            None => None,
        }
    }

    // Takes out the last queue, if there is one.
    fn take_queue(&mut self) -> Option<Queue>
        ensures { MatchOption result ((self.old ≡ []) × (self.new ≡ []))
            (λ queue. QueueOut queue self.old self.new) }
    {
        match self.table.pop() {
            Some((_, queue)) => {
                self.count -= queue.len() as u64;
                Some(queue)
            }
            None => None,
        }
    }

    fn turn_round(&mut self)
        ensures { SameMembers self.new self.old }
    {
        self.table.reverse();
    }

    // Sends all, tuple after tuple in the order in which they came.
    pub fn send_all(&mut self, out: &mut Vec<Message>) -> Result<(), Memory>
        ensures sent { OnOk result (SendsAll self.old out.old.items out.new.items) }
        ensures empty { OnOk result (self.new ≡ []) }
    {
        self.turn_round();
        while let Some(queue) = self.take_queue() {
            send_queue(queue, out)?;
        }
        Ok(())
    }
}
