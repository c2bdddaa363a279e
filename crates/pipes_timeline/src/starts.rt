// Elements by the instants at which they start.
ghost use Rattle.std.specs.Prelude.{◌≡◌, ◌≤◌, ◌<◌, ◌+◌, ◌∷◌, [], OnOk, MatchOption, length, ℕ};
ghost use Rattle.std.specs.List.{All};
ghost use Rattle.pipes_stream.specs.Weights.{weigh};
ghost use Rattle.pipes_timeline.specs.Ends.{AddsArrival};

use pipes_stream::Elem;
use pipes_time::Memory;
use std::alloc::Global;
use std::collections::BTreeMap;
use std::marker::Model;

/// Elements that wait for their start, with the ports at which they came, those that start first
/// before the others, and those of one start in the order in which they came.
#[derive(Drop)]
pub struct Starts {
    elems: BTreeMap<(u64, u64), (u32, Elem)>,
    next: u64,
}

impl Model for Starts {
    ghost use Rattle.std.specs.Prelude.{List, ℕ};
    ghost use Rattle.std.specs.Map.{values_of};
    ghost use Rattle.pipes_stream.specs.declared.Elem.{Elem};
    ghost use Rattle.pipes_timeline.specs.Filed.{IsFiled, elem_start};

    ghost Value = { List (ℕ × Elem) };

    ghost view = { λ e. values_of e.elems.entries };

    ghost invariant = { λ e. IsFiled elem_start e.next e.elems.entries };
}

impl Starts {
    /// Nothing waits.
    pub fn new(alloc: Global) -> Starts
        ensures { result ≡ [] }
    {
        Starts {
            elems: BTreeMap::new(alloc),
            next: 0,
        }
    }

    /// The number of elements.
    pub fn len(&self) -> usize
        ensures { result ≡ length self.now }
    {
        self.elems.len()
    }

    /// One element more.
    pub fn put(&mut self, port: u32, elem: Elem) -> Result<(), Memory>
        ensures { OnOk result (AddsArrival (port, elem) self.old self.new) }
    {
        let next = self.next.checked_add(1).ok_or(Memory)?;
        let start = elem.span.start();
        self.elems.insert((start, self.next), (port, elem))?;
        self.next = next;
        Ok(())
    }

    /// Takes out the element that starts first, if it starts at `to` or before it.
    pub fn pop(&mut self, to: u64) -> Option<(u32, Elem)>
        ensures { MatchOption result
            ((self.new ≡ self.old) × All (λ s. to < s.1.span.start) self.new)
            (λ s. (self.old ≡ s ∷ self.new) × (s.1.span.start ≤ to)
            × All (λ d. s.1.span.start ≤ d.1.span.start) self.new) }
    {
        let (first, _) = self.elems.first_key_value()?;
        if to < first.0 {
            return None;
        }
        let (_, sided) = self.elems.pop_first()?;
        Some(sided)
    }
}
