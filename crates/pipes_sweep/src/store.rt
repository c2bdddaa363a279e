// Elements by number.
ghost use Rattle.std.specs.Prelude.{◌≡◌, ◌<◌, ◌+◌, [], ◌∷◌, ◌++◌, IfOk, OnOk, OnErr, is_some};
ghost use Rattle.std.specs.Prelude.{length};
ghost use Rattle.std.specs.List.{All};
ghost use Rattle.std.specs.Map.{remove_entry};
ghost use Rattle.std.specs.Option.{option_copied};
ghost use Rattle.pipes_sweep.specs.Numbers.{IsRising, element, is_number};

use crate::Steps;
use pipes_stream::Elem;
use pipes_time::Memory;
use std::alloc::Global;
use std::collections::BTreeMap;
use std::marker::Model;
use std::sync::ledger::Ledger;

/// Elements by number, in the order of their numbers, which is the order of adding.
#[derive(Drop)]
pub struct Store {
    next: u64,
    elems: BTreeMap<u64, Elem>,
}

impl Model for Store {
    ghost use Rattle.std.specs.Prelude.{◌<◌};
    ghost use Rattle.std.specs.List.{All};
    ghost use Rattle.pipes_sweep.specs.Numbers.{Numbered};

    ghost Value = { Numbered };

    ghost view = { λ s. s.elems.entries };

    ghost invariant = { λ s. All (λ p. p.0 < s.next) s.elems.entries };
}

impl Store {
    /// No elements.
    pub fn new(alloc: Global) -> Store
        ensures { result ≡ [] }
    {
        Store {
            next: 0,
            elems: BTreeMap::new(alloc),
        }
    }

    /// One more element, and its number, which is above those of all elements that are there. Out
    /// of memory, and where 2^64 - 1 numbers were given, nothing changes.
    #[tactic(auto, using(crate::proofs::Numbers::added_last, crate::proofs::Numbers::below_more))]
    pub fn add(&mut self, elem: Elem) -> Result<u64, Memory>
        ensures added { IfOk result (λ number. self.new ≡ self.old ++ (number, elem) ∷ []) }
        ensures above { IfOk result (λ number. All (λ p. p.0 < number) self.old) }
        ensures rising { OnOk result (IsRising self.new) }
        ensures memory { OnErr result (self.new ≡ self.old) }
    {
        let number = self.next;
        let Some(next) = number.checked_add(1) else {
            return Err(Memory);
        };
        match self.elems.insert(number, elem) {
            Ok(_) => {
                self.next = next;
                Ok(number)
            }
            Err(_) => Err(Memory),
        }
    }

    /// Removes the element of this number. False exactly where there is none; then nothing
    /// changes.
    pub fn drop_one(&mut self, number: u64) -> bool
        ensures there { result ≡ is_some (element number self.old) }
        ensures dropped { self.new ≡ remove_entry (is_number number) self.old }
        ensures rising { IsRising self.new }
    {
        self.elems.remove(&number).is_some()
    }

    /// The element of this number, if there is one. It is one step.
    pub fn look<L: Ledger>(&self, number: u64, steps: &mut Steps<L>) -> Option<&Elem>
        ensures value { option_copied result ≡ element number self.now }
        ensures steps { steps.new ≡ steps.old + 1 }
    {
        steps.tick();
        self.elems.get(&number)
    }

    /// The number of elements.
    pub fn len(&self) -> usize
        ensures value { result ≡ length self.now }
        ensures rising { IsRising self.now }
    {
        self.elems.len()
    }
}
