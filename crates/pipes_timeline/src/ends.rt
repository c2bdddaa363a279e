// Elements by the instants at which they end.
ghost use Rattle.std.specs.Prelude.{◌≡◌, ◌≤◌, ◌<◌, ◌+◌, ◌∷◌, [], OnOk, MatchOption, length, ℕ};
ghost use Rattle.std.specs.List.{All};
ghost use Rattle.pipes_stream.specs.Weights.{weigh};
ghost use Rattle.pipes_timeline.specs.Ends.{AddsArrival};

use pipes_stream::Elem;
use pipes_time::Memory;
use std::alloc::Global;
use std::collections::BTreeMap;
use std::marker::Model;

// Elements with the ports at which they came, those that end first before the others. Each has a
// number, so that elements of one end stay apart.
#[derive(Drop)]
pub struct Ends {
    elems: BTreeMap<(u64, u64), (u32, Elem)>,
    next: u64,
}

impl Model for Ends {
    ghost use Rattle.std.specs.Prelude.{List, ℕ};
    ghost use Rattle.std.specs.Map.{values_of};
    ghost use Rattle.pipes_stream.specs.declared.Elem.{Elem};
    ghost use Rattle.pipes_timeline.specs.Filed.{IsFiled, elem_end};

    ghost Value = { List (ℕ × Elem) };

    ghost view = { λ e. values_of e.elems.entries };

    ghost invariant = { λ e. IsFiled elem_end e.next e.elems.entries };
}

impl Ends {
    pub(crate) fn new(alloc: Global) -> Ends
        ensures { result ≡ [] }
    {
        Ends {
            elems: BTreeMap::new(alloc),
            next: 0,
        }
    }

    // The number of elements.
    pub fn len(&self) -> usize
        ensures { result ≡ length self.now }
    {
        self.elems.len()
    }

    // One element more.
    pub(crate) fn put(&mut self, port: u32, elem: Elem) -> Result<(), Memory>
        ensures { OnOk result (AddsArrival (port, elem) self.old self.new) }
    {
        let next = self.next.checked_add(1).ok_or(Memory)?;
        let end = elem.span.end();
        self.elems.insert((end, self.next), (port, elem))?;
        self.next = next;
        Ok(())
    }

    // Takes out the element that ends first, if it ends at `to` or before it.
    pub(crate) fn pop(&mut self, to: u64) -> Option<(u32, Elem)>
        ensures { MatchOption result
            ((self.new ≡ self.old) × All (λ s. to < s.1.span.end) self.new)
            (λ s. (self.old ≡ s ∷ self.new) × (s.1.span.end ≤ to)
            × All (λ d. s.1.span.end ≤ d.1.span.end) self.new) }
    {
        let (first, _) = self.elems.first_key_value()?;
        if to < first.0 {
            return None;
        }
        let (_, sided) = self.elems.pop_first()?;
        Some(sided)
    }
}
