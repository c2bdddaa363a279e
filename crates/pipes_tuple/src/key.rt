// Keys: the values by which tuples are distinguished.
ghost use Rattle.std.specs.Prelude.{◌≡◌, ◌≤◌, ◌↔◌, length, IfOk, IfSome, IsSome, vec_len};
ghost use Rattle.pipes_tuple.specs.Columns.{at_columns};

use crate::value::{copy_all, copy_at};
use crate::{Cols, Value};
use pipes_time::Memory;
use std::alloc::Global;
use std::cmp::Ordering;
use std::hash::{Hash, Hasher};
use std::marker::Model;

/// A list of at most 32 values, ordered value by value, a proper prefix first.
#[derive(Debug, Drop)]
pub struct Key {
    values: Vec<Value>,
}

impl Model for Key {
    ghost use Rattle.std.specs.Prelude.{List, ◌≤◌, vec_len};
    ghost use Rattle.pipes_tuple.specs.declared.value.Value.{Value as Datum};

    ghost Value = { List Datum };

    ghost view = { λ k. k.values.items };

    ghost invariant = { λ k. vec_len k.values ≤ 32 };
}

impl Key {
    /// The key of these values, unless there are more than 32.
    pub fn new(values: Vec<Value>) -> Option<Key>
        ensures exact { IsSome result ↔ (vec_len values ≤ 32) }
        ensures value { IfSome result (λ key. key ≡ values.items) }
    {
        if values.len() <= 32 {
            Some(Key { values })
        } else {
            None
        }
    }

    // The key of the values at the columns that are there.
    pub(crate) fn of_columns(alloc: Global, cols: &Cols, values: &[Value]) -> Result<Key, Memory>
        ensures { IfOk result (λ key. key ≡ at_columns cols.now values.now) }
    {
        let values = copy_at(alloc, cols.as_slice(), values)?;
        Ok(Key { values })
    }

    /// The values, in order.
    pub fn as_slice(&self) -> &[Value]
        ensures value { result.now ≡ self.now }
        ensures bound { length self.now ≤ 32 }
    {
        self.values.as_slice()
    }

    /// A key equal to this one.
    pub fn copy(&self) -> Result<Key, Memory>
        ensures { IfOk result (λ key. key ≡ self.now) }
    {
        let mut values = Vec::with_capacity(*self.values.allocator(), self.values.len())?;
        copy_all(self.values.as_slice(), &mut values)?;
        Ok(Key { values })
    }
}

impl PartialEq for Key {
    ghost use Rattle.pipes_tuple.specs.Equal.{tuple_eq};
    ghost use Rattle.pipes_tuple.specs.OrderLaws.{tuple_eq-partial};

    ghost eq = { tuple_eq };

    ghost laws = { tuple_eq-partial };

    fn eq(&self, other: &Key) -> bool {
        self.as_slice() == other.as_slice()
    }
}

impl Eq for Key {
    ghost use Rattle.pipes_tuple.specs.OrderLaws.{tuple_eq-equivalence};

    ghost laws = { tuple_eq-equivalence };
}

impl PartialOrd for Key {
    ghost use Rattle.std.specs.Prelude.{Some};
    ghost use Rattle.pipes_tuple.specs.Order.{tuple_cmp};
    ghost use Rattle.pipes_tuple.specs.OrderLaws.{tuple_cmp-partial};

    ghost partial_cmp = { λ x y. Some (tuple_cmp x y) };

    ghost laws = { tuple_cmp-partial };

    fn partial_cmp(&self, other: &Key) -> Option<Ordering> {
        Some(self.cmp(other))
    }
}

impl Ord for Key {
    ghost use Rattle.std.specs.Prelude.{refl};
    ghost use Rattle.pipes_tuple.specs.Order.{tuple_cmp};
    ghost use Rattle.pipes_tuple.specs.OrderLaws.{tuple_cmp-total, tuple_cmp-ties};

    ghost cmp = { tuple_cmp };

    ghost total = { tuple_cmp-total };

    ghost matches_partial_cmp = { λ x y. refl };

    ghost matches_eq = { tuple_cmp-ties };

    fn cmp(&self, other: &Key) -> Ordering {
        self.as_slice().cmp(other.as_slice())
    }
}

impl Hash for Key {
    ghost use Rattle.std.specs.Hash as fed;
    ghost use Rattle.std.specs.Hash.{items_Alike};
    ghost use Rattle.pipes_tuple.specs.contracts.value.ValueHash.TheImpl.Laws as hashes;

    ghost hash_input = { fed.slice ⟦<Value as Hash>⟧.hash_input };

    ghost respects_eq = { (items_Alike (record { fed = hashes.respects_eq-law })).fed };

    fn hash<H: Hasher>(&self, state: &mut H) {
        self.as_slice().hash(state);
    }
}
