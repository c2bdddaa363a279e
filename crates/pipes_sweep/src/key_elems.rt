// The elements of one key.
ghost use Rattle.std.specs.Prelude.{◌≡◌, ◌+◌, ◌∷◌, [], MatchOption, IsSome, length};
ghost use Rattle.std.specs.List.{All, filter_map};
ghost use Rattle.pipes_sweep.specs.Numbers.{element, numbers_left};

use crate::{Steps, Store};
use pipes_stream::Elem;
use std::collections::btree_set;
use std::marker::Model;
use std::sync::ledger::Ledger;

/// The elements of one key that an area has, in the order of insertion. They are looked at where
/// they are.
#[derive(Drop)]
pub struct KeyElems<'a> {
    store: &'a Store,
    numbers: Option<btree_set::Iter<'a, u64>>,
}

impl<'a> Model for KeyElems<'a> {
    ghost use Rattle.std.specs.Prelude.{List, IsSome};
    ghost use Rattle.std.specs.List.{All, filter_map};
    ghost use Rattle.pipes_stream.specs.declared.Elem.{Elem as Held};
    ghost use Rattle.pipes_sweep.specs.Numbers.{element, numbers_left};

    ghost Value = { List Held };

    ghost view = { λ k. filter_map (λ n. element n k.store.now) (numbers_left k.numbers) };

    ghost invariant = { λ k. All (λ n. IsSome (element n k.store.now)) (numbers_left k.numbers) };
}

// The next number, if there is one.
fn next_number<'a>(numbers: &mut Option<btree_set::Iter<'a, u64>>) -> Option<&'a u64>
    ensures { MatchOption result ((numbers_left numbers.old ≡ []) × (numbers_left numbers.new ≡ []))
        (λ n. numbers_left numbers.old ≡ n.now ∷ numbers_left numbers.new) }
{
    match numbers {
        Some(numbers) => numbers.next(),
        None => None,
    }
}

impl<'a> KeyElems<'a> {
    // The elements of these numbers.
    pub(crate) fn new(store: &'a Store, numbers: Option<btree_set::Iter<'a, u64>>) -> KeyElems<'a>
        requires { All (λ n. IsSome (element n store.now)) (numbers_left numbers) }
        ensures { result ≡ filter_map (λ n. element n store.now) (numbers_left numbers.entry) }
    {
        KeyElems { store, numbers }
    }

    /// The next of them, which is then taken from the rest. It is a step where there is one.
    pub fn next<L: Ledger>(&mut self, steps: &mut Steps<L>) -> Option<&'a Elem>
        ensures next { MatchOption result ((self.old ≡ []) × (self.new ≡ []))
            (λ e. self.old ≡ e.now ∷ self.new) }
        ensures steps { steps.new + length self.new ≡ steps.old + length self.old }
    {
        match next_number(&mut self.numbers) {
            Some(number) => self.store.look(*number, steps),
            None => None,
        }
    }
}
