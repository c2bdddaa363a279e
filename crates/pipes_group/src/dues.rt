// Tuples by an instant at which something is due for them.
ghost use Rattle.std.specs.Prelude.{◌≡◌, ◌≤◌, ◌<◌, [], ◌∷◌, OnOk, OnErr, MatchOption};
ghost use Rattle.std.specs.List.{All};
ghost use Rattle.pipes_group.specs.Dues.{Joins};

use pipes_time::Memory;
use pipes_tuple::Tuple;
use std::alloc::Global;
use std::collections::BTreeSet;
use std::marker::Model;

// Tuples, each with its instant, the least instant first.
#[derive(Drop)]
pub(crate) struct Dues {
    set: BTreeSet<(u64, Tuple)>,
}

impl Model for Dues {
    ghost use Rattle.std.specs.Prelude.{List, ℕ};
    ghost use Rattle.pipes_tuple.specs.declared.value.Value.{Value as Datum};

    ghost Value = { List (ℕ × List Datum) };

    ghost view = { λ d. d.set.keys };
}

impl Dues {
    pub(crate) fn new(alloc: Global) -> Dues
        ensures { result ≡ [] }
    {
        Dues {
            set: BTreeSet::new(alloc),
        }
    }

    // One tuple more, or nothing where it is there with this instant.
    pub(crate) fn put(&mut self, at: u64, tuple: Tuple) -> Result<(), Memory>
        ensures { OnOk result (Joins (at, tuple) self.old self.new) }
    {
        self.set.insert((at, tuple))?;
        Ok(())
    }

    // Takes out the first, if its instant is at `to` or before it.
    pub(crate) fn pop(&mut self, to: u64) -> Option<(u64, Tuple)>
        ensures { MatchOption result ((self.new ≡ self.old) × All (λ d. to < d.0) self.new)
            (λ d. (self.old ≡ d ∷ self.new) × (d.0 ≤ to) × All (λ e. d.0 ≤ e.0) self.new) }
    {
        let first = self.set.first()?;
        if to < first.0 {
            return None;
        }
        self.set.pop_first()
    }
}
