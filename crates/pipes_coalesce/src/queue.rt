// Elements in the order in which they came.
ghost use Rattle.std.specs.Prelude.{◌≡◌, ◌≤◌, ◌<◌, [], ◌∷◌, ◌++◌, OnOk, OnErr, MatchOption, length};
ghost use Rattle.std.specs.VecDeque.{deque_len};
ghost use Rattle.pipes_coalesce.specs.Filed.{StartsLater, FirstStarts};

use pipes_stream::Elem;
use pipes_time::Memory;
use std::alloc::Global;
use std::collections::VecDeque;
use std::marker::Model;

#[derive(Drop)]
pub struct Queue {
    waiting: VecDeque<Elem>,
}

impl Model for Queue {
    ghost use Rattle.std.specs.Prelude.{List};
    ghost use Rattle.pipes_stream.specs.declared.Elem.{Elem};

    ghost Value = { List Elem };

    ghost view = { λ q. q.waiting.items };
}

impl Queue {
    pub fn new(alloc: Global) -> Queue
        ensures { result ≡ [] }
    {
        Queue {
            waiting: VecDeque::new(alloc),
        }
    }

    pub fn push(&mut self, elem: Elem) -> Result<(), Memory>
        ensures put { OnOk result (self.new ≡ self.old ++ elem ∷ []) }
        ensures memory { OnErr result (self.new ≡ self.old) }
    {
        match self.waiting.push_back(elem) {
            Ok(()) => Ok(()),
            Err(_) => Err(Memory),
        }
    }

    pub fn pop(&mut self) -> Option<Elem>
        ensures { MatchOption result ((self.old ≡ []) × (self.new ≡ []))
            (λ elem. self.old ≡ elem ∷ self.new) }
    {
        self.waiting.pop_front()
    }

    // The start of the first element.
    pub fn first(&self) -> Option<u64>
        ensures { MatchOption result (self.now ≡ []) (λ start. FirstStarts start self.now) }
    {
        match self.waiting.front() {
            Some(elem) => Some(elem.span.start()),
            None => None,
        }
    }

    // Takes out the first element if it starts at the instant or before it.
    pub fn pop_due(&mut self, at: u64) -> Option<Elem>
        ensures { MatchOption result ((self.new ≡ self.old) × StartsLater at self.old)
            (λ elem. (self.old ≡ elem ∷ self.new) × (elem.span.start ≤ at)) }
    {
        match self.first() {
            Some(start) => { if start <= at { self.pop() } else { None } }
            None => None,
        }
    }

    pub fn len(&self) -> usize
        ensures { result ≡ length self.now }
    {
        self.waiting.len()
    }
}
