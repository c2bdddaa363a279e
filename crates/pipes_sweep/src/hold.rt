// Elements that wait for their start.
ghost use Rattle.std.specs.Prelude.{◌≡◌, ◌+◌, ◌≤◌, [], ◌++◌, OnOk, OnErr, MatchOption, length};
ghost use Rattle.std.specs.Prelude.{take, drop, vec_len, vec_capacity};
ghost use Rattle.std.specs.VecDeque.{deque_len};
ghost use Rattle.pipes_sweep.specs.Waiting.{HasFirst, StartsRise, due, later, placed};

use pipes_stream::Elem;
use pipes_time::Memory;
use std::alloc::Global;
use std::collections::VecDeque;
use std::marker::Model;

/// Elements that wait for their start, in the order in which they go: by start, and those of one
/// start in the order of putting.
#[derive(Drop)]
pub struct Hold {
    waiting: VecDeque<Elem>,
}

impl Model for Hold {
    ghost use Rattle.std.specs.Prelude.{List};
    ghost use Rattle.pipes_stream.specs.declared.Elem.{Elem};
    ghost use Rattle.pipes_sweep.specs.Waiting.{StartsRise};

    ghost Value = { List Elem };

    ghost view = { λ h. h.waiting.items };

    ghost invariant = { λ h. StartsRise h.waiting.items };
}

// How many start at the instant or before it: these come first.
fn count_due(waiting: &VecDeque<Elem>, t: u64) -> usize
    requires { StartsRise waiting.now.items }
    ensures bound { result ≤ deque_len waiting.now }
    ensures due { take result waiting.now.items ≡ due t waiting.now.items }
    ensures later { drop result waiting.now.items ≡ later t waiting.now.items }
{
    waiting.partition_point(|elem| elem.span.start() <= t)
}

// Moves out the first, so many and in order, where there is room for them.
#[tactic(auto, using(crate::proofs::Places::moved_more, crate::proofs::Places::rest_more))]
fn move_first(waiting: &mut VecDeque<Elem>, count: usize, out: &mut Vec<Elem>)
    requires there { count ≤ deque_len waiting.old }
    requires room { vec_len out.old + count ≤ vec_capacity out.old }
    ensures moved { out.new.items ≡ out.old.items ++ take count waiting.old.items }
    ensures kept { waiting.new.items ≡ drop count waiting.old.items }
{
    let mut moved = 0;
    while moved < count {
        if let Some(elem) = waiting.pop_front() {
            out.push_reserved(elem);
        }
        moved += 1;
    }
}

impl Hold {
    /// Nothing waits.
    pub fn new(alloc: Global) -> Hold
        ensures { result ≡ [] }
    {
        Hold {
            waiting: VecDeque::new(alloc),
        }
    }

    /// One more element waits, after those that start no later. Without memory nothing changes.
    pub fn put(&mut self, elem: Elem) -> Result<(), Memory>
        ensures put { OnOk result (self.new ≡ placed elem self.old) }
        ensures memory { OnErr result (self.new ≡ self.old) }
    {
        let place = count_due(&self.waiting, elem.span.start());
        match self.waiting.insert(place, elem) {
            Ok(()) => Ok(()),
            Err(_) => Err(Memory),
        }
    }

    /// Moves out the elements that start at `t` or before it, in their order. Without memory
    /// nothing changes.
    #[tactic(auto, using(crate::proofs::Places::rise_due, crate::proofs::Places::rise_later))]
    pub fn release(&mut self, t: u64, out: &mut Vec<Elem>) -> Result<(), Memory>
        ensures order { StartsRise (due t self.old) }
        ensures released { OnOk result (out.new.items ≡ out.old.items ++ due t self.old) }
        ensures kept { OnOk result (self.new ≡ later t self.old) }
        ensures memory { OnErr result ((out.new.items ≡ out.old.items) × (self.new ≡ self.old)) }
    {
        let count = count_due(&self.waiting, t);
        out.reserve(count)?;
        move_first(&mut self.waiting, count, out);
        Ok(())
    }

    /// The least start, if anything waits.
    pub fn first(&self) -> Option<u64>
        ensures { MatchOption result (self.now ≡ []) (λ start. HasFirst start self.now) }
    {
        match self.waiting.front() {
            Some(elem) => Some(elem.span.start()),
            None => None,
        }
    }

    /// The number of elements that wait.
    pub fn len(&self) -> usize
        ensures { result ≡ length self.now }
    {
        self.waiting.len()
    }
}
