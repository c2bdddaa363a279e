// Numbers of elements by key.
ghost use Rattle.std.specs.Prelude.{◌≡◌, OnOk, OnErr, cond, [], List, true};
ghost use Rattle.std.specs.Set.{remove_key};
ghost use Rattle.std.specs.BTreeSet.{insert_key};
ghost use Rattle.std.specs.Ordering.{nat_cmp};
ghost use Rattle.pipes_tuple.specs.declared.value.Value.{Value as Datum};
ghost use Rattle.pipes_tuple.specs.Equal.{tuple_eq};
ghost use Rattle.pipes_sweep.specs.Numbers.{is_number, numbers_at, numbers_left};

use indexmap::IndexMap;
use pipes_time::Memory;
use pipes_tuple::Key;
use std::alloc::Global;
use std::collections::{BTreeSet, btree_set};

// The numbers of the elements of each key, in order.
#[derive(Drop)]
pub(crate) struct KeyIndex {
    alloc: Global,
    sets: IndexMap<Key, BTreeSet<u64>>,
}

impl KeyIndex {
    pub(crate) fn new(alloc: Global) -> KeyIndex
        ensures { result.sets.entries ≡ [] }
    {
        KeyIndex {
            alloc,
            sets: IndexMap::new(alloc),
        }
    }

    // The numbers of this key, in order, if it has any.
    pub(crate) fn numbers(&self, key: &Key) -> Option<btree_set::Iter<'_, u64>>
        ensures { numbers_left result ≡ numbers_at self.now.sets.entries key.now }
    {
        match self.sets.get(key) {
            Some(set) => Some(set.iter()),
            None => None,
        }
    }

    // One more number of this key. Out of memory nothing changes.
    pub(crate) fn list(&mut self, key: Key, number: u64) -> Result<(), Memory>
        ensures listed { OnOk result ((k : List Datum) → numbers_at self.new.sets.entries k
            ≡ cond (tuple_eq key k)
            (insert_key nat_cmp (numbers_at self.old.sets.entries key) number)
            (numbers_at self.old.sets.entries k)) }
        ensures memory { OnErr result ((k : List Datum) → numbers_at self.new.sets.entries k
            ≡ numbers_at self.old.sets.entries k) }
    {
        match self.sets.get_mut(&key) {
            Some(set) => match set.insert(number) {
                Ok(_) => Ok(()),
                Err(_) => Err(Memory),
            },
            None => {
                let mut set = BTreeSet::new(self.alloc);
                match set.insert(number) {
                    Ok(_) => self.enter(key, set),
                    Err(_) => Err(Memory),
                }
            }
        }
    }

    // The key has these numbers from now on. Out of memory nothing changes.
    fn enter(&mut self, key: Key, set: BTreeSet<u64>) -> Result<(), Memory>
        ensures entered { OnOk result ((k : List Datum) → numbers_at self.new.sets.entries k
            ≡ cond (tuple_eq key k) set.keys (numbers_at self.old.sets.entries k)) }
        ensures memory { OnErr result ((k : List Datum) → numbers_at self.new.sets.entries k
            ≡ numbers_at self.old.sets.entries k) }
    {
        match self.sets.insert(key, set) {
            Ok(_) => Ok(()),
            Err(_) => Err(Memory),
        }
    }

    // The number goes from those of this key, and the key with its last number.
    pub(crate) fn unlist(&mut self, key: &Key, number: u64)
        ensures { (k : List Datum) → numbers_at self.new.sets.entries k
            ≡ cond (tuple_eq key.now k)
            (remove_key (is_number number) (numbers_at self.old.sets.entries key.now))
            (numbers_at self.old.sets.entries k) }
    {
        if self.take_out(key, number) {
            self.sets.swap_remove(key);
        }
    }

    // The number goes from those of this key. Whether none is left.
    fn take_out(&mut self, key: &Key, number: u64) -> bool
        ensures taken { (k : List Datum) → numbers_at self.new.sets.entries k
            ≡ cond (tuple_eq key.now k)
            (remove_key (is_number number) (numbers_at self.old.sets.entries key.now))
            (numbers_at self.old.sets.entries k) }
        ensures none { result ≡ true → numbers_at self.new.sets.entries key.now ≡ [] }
    {
        match self.sets.get_mut(key) {
            Some(set) => {
                set.remove(&number);
                set.is_empty()
            }
            None => false,
        }
    }
}
