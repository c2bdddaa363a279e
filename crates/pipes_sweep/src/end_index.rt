// Elements by their ends.
ghost use Rattle.std.specs.Prelude.{◌≡◌, [], ℕ, true, false, None, Some, cond, MatchOption};
ghost use Rattle.std.specs.Prelude.{OnOk, OnErr};
ghost use Rattle.std.specs.BTreeMap.{get};
ghost use Rattle.std.specs.Ordering.{is_eq};
ghost use Rattle.pipes_sweep.specs.Numbers.{EndsLater, FirstEnds, PopsEnded, end_cmp};

use pipes_time::Memory;
use pipes_tuple::Key;
use std::alloc::Global;
use std::collections::BTreeMap;

// The key of each element, by its end and its number, the first to end first.
#[derive(Drop)]
pub(crate) struct EndIndex {
    ends: BTreeMap<(u64, u64), Key>,
}

impl EndIndex {
    pub(crate) fn new(alloc: Global) -> EndIndex
        ensures { result.ends.entries ≡ [] }
    {
        EndIndex {
            ends: BTreeMap::new(alloc),
        }
    }

    // One more element. Out of memory nothing changes.
    pub(crate) fn put(&mut self, end: u64, number: u64, key: Key) -> Result<(), Memory>
        ensures put { OnOk result ((q : ℕ × ℕ) → get end_cmp self.new.ends q
            ≡ cond (is_eq (end_cmp (end, number) q)) (Some key) (get end_cmp self.old.ends q)) }
        ensures memory { OnErr result ((q : ℕ × ℕ) → get end_cmp self.new.ends q
            ≡ get end_cmp self.old.ends q) }
    {
        match self.ends.insert((end, number), key) {
            Ok(_) => Ok(()),
            Err(_) => Err(Memory),
        }
    }

    // The element goes.
    pub(crate) fn take_back(&mut self, end: u64, number: u64)
        ensures { (q : ℕ × ℕ) → get end_cmp self.new.ends q
            ≡ cond (is_eq (end_cmp (end, number) q)) None (get end_cmp self.old.ends q) }
    {
        self.ends.remove(&(end, number));
    }

    // Whether one ends at the instant or before it.
    fn has_ended(&self, t: u64) -> bool
        ensures later { result ≡ false → EndsLater t self.now.ends }
        ensures first { result ≡ true → FirstEnds t self.now.ends }
    {
        match self.ends.first_key_value() {
            Some((first, _)) => first.0 <= t,
            None => false,
        }
    }

    // Takes out the first of the elements that end at the instant or before it: its number and its
    // key. None where all end later.
    pub(crate) fn pop_ended(&mut self, t: u64) -> Option<(u64, Key)>
        ensures { MatchOption result
            ((self.new.ends.entries ≡ self.old.ends.entries) × EndsLater t self.old.ends)
            (λ x. PopsEnded t self.old.ends self.new.ends x.0 x.1) }
    {
        if !self.has_ended(t) {
            return None;
        }
        match self.ends.pop_first() {
            Some(((_, number), key)) => Some((number, key)),
            None => None,
        }
    }
}
