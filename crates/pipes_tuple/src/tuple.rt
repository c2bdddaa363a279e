// Tuples of values.
ghost use Rattle.std.specs.Prelude.{◌≡◌, ℕ, ◌+◌, ◌≤◌, [], ◌++◌, ◌↔◌, length, IfOk, IfSome, IsSome};
ghost use Rattle.std.specs.Prelude.{IsTrue, slice_get, vec_len};
ghost use Rattle.std.specs.Option.{option_copied};
ghost use Rattle.pipes_tuple.specs.Columns.{at_columns, missing_column, HasColumns};
ghost use Rattle.pipes_tuple.specs.Kinds.{Fits};

use crate::value::{copy_all, copy_at};
use crate::{Cols, Key, Schema, Value};
use pipes_time::Memory;
use std::cmp::Ordering;
use std::hash::{Hash, Hasher};
use std::marker::Model;

/// Why a [`Tuple`] has no projection.
#[derive(Clone, Copy, Debug, PartialEq, Eq)]
pub enum ProjectFault {
    /// This column, the first such one, is not there.
    NoColumn(u32),
    /// There are no columns, and a tuple is never empty.
    Empty,
    /// Out of memory.
    Memory,
}

impl From<Memory> for ProjectFault {
    ghost use Rattle.pipes_tuple.specs.declared.tuple.ProjectFault.TheVariants as fault;

    ghost from_gives = { λ _ why. why ≡ fault.Memory };

    fn from(_: Memory) -> ProjectFault {
        ProjectFault::Memory
    }
}

/// A list of 1 to 32 values, ordered value by value, a proper prefix first.
#[derive(Debug, Drop)]
pub struct Tuple {
    values: Vec<Value>,
}

impl Model for Tuple {
    ghost use Rattle.std.specs.Prelude.{List, ◌≤◌, vec_len};
    ghost use Rattle.pipes_tuple.specs.declared.value.Value.{Value as Datum};

    ghost Value = { List Datum };

    ghost view = { λ t. t.values.items };

    ghost invariant = { λ t. (1 ≤ vec_len t.values) × (vec_len t.values ≤ 32) };
}

impl Tuple {
    /// The tuple of these values, unless there are none or more than 32.
    pub fn new(values: Vec<Value>) -> Option<Tuple>
        ensures exact { IsSome result ↔ ((1 ≤ vec_len values) × (vec_len values ≤ 32)) }
        ensures value { IfSome result (λ tuple. tuple ≡ values.items) }
    {
        if 1 <= values.len() && values.len() <= 32 {
            Some(Tuple { values })
        } else {
            None
        }
    }

    /// The number of values, 1 to 32.
    pub fn len(&self) -> usize
        ensures value { result ≡ length self.now }
        ensures bound { (1 ≤ result) × (result ≤ 32) }
    {
        self.values.len()
    }

    /// The value at this place, counted from 0.
    pub fn get(&self, i: usize) -> Option<&Value>
        ensures { option_copied result ≡ slice_get self.now i }
    {
        self.values.get(i)
    }

    /// The values, in order.
    pub fn as_slice(&self) -> &[Value]
        ensures value { result.now ≡ self.now }
        ensures bound { (1 ≤ length self.now) × (length self.now ≤ 32) }
    {
        self.values.as_slice()
    }

    /// A tuple equal to this one.
    pub fn copy(&self) -> Result<Tuple, Memory>
        ensures { IfOk result (λ tuple. tuple ≡ self.now) }
    {
        let mut values = Vec::with_capacity(*self.values.allocator(), self.values.len())?;
        copy_all(self.values.as_slice(), &mut values)?;
        Ok(Tuple { values })
    }

    /// Whether the values have the schema's kinds, in order.
    pub fn fits(&self, schema: &Schema) -> bool
        ensures { IsTrue result ↔ Fits self.now schema.now }
    {
        let kinds = schema.as_slice();
        if self.values.len() != kinds.len() {
            return false;
        }
        for (i, value) in self.values.as_slice().iter().enumerate() {
            if value.kind() != kinds[i] {
                return false;
            }
        }
        true
    }

    /// The tuple of the values at these columns, in their order.
    pub fn project(&self, cols: &Cols) -> Result<Tuple, ProjectFault>
        ensures value { IfOk result (λ tuple. tuple ≡ at_columns cols.now self.now) }
        ensures empty { (result ≡ Err ProjectFault.Empty) ↔ (cols.now ≡ []) }
        ensures missing { (column : ℕ) → (result ≡ Err (ProjectFault.NoColumn column))
            ↔ (missing_column cols.now self.now ≡ Some column) }
    {
        let columns = cols.as_slice();
        if columns.is_empty() {
            return Err(ProjectFault::Empty);
        }
        if let Some(column) = first_missing(columns, self.values.as_slice()) {
            return Err(ProjectFault::NoColumn(column));
        }
        let values = copy_at(*self.values.allocator(), columns, self.values.as_slice())?;
        Ok(Tuple { values })
    }

    /// The key of the values at these columns, in their order.
    pub fn key(&self, cols: &Cols) -> Result<Key, Memory>
        requires { HasColumns cols.now self.now }
        ensures { IfOk result (λ key. key ≡ at_columns cols.now self.now) }
    {
        Key::of_columns(*self.values.allocator(), cols, self.values.as_slice())
    }

    /// The tuple of this one's values and then the other's.
    pub fn append(&self, other: &Tuple) -> Result<Tuple, Memory>
        requires { length self.now + length other.now ≤ 32 }
        ensures { IfOk result (λ tuple. tuple ≡ self.now ++ other.now) }
    {
        let mut values = Vec::with_capacity(*self.values.allocator(), self.len() + other.len())?;
        copy_all(self.values.as_slice(), &mut values)?;
        copy_all(other.values.as_slice(), &mut values)?;
        Ok(Tuple { values })
    }
}

// The first column that is not there.
fn first_missing(columns: &[u32], values: &[Value]) -> Option<u32>
    ensures { result ≡ missing_column columns.now values.now }
{
    columns
        .iter()
        .copied()
        .find(|column| values.len() <= *column as usize)
}

impl PartialEq for Tuple {
    ghost use Rattle.pipes_tuple.specs.Equal.{tuple_eq};
    ghost use Rattle.pipes_tuple.specs.OrderLaws.{tuple_eq-partial};

    ghost eq = { tuple_eq };

    ghost laws = { tuple_eq-partial };

    fn eq(&self, other: &Tuple) -> bool {
        self.as_slice() == other.as_slice()
    }
}

impl Eq for Tuple {
    ghost use Rattle.pipes_tuple.specs.OrderLaws.{tuple_eq-equivalence};

    ghost laws = { tuple_eq-equivalence };
}

impl PartialOrd for Tuple {
    ghost use Rattle.std.specs.Prelude.{Some};
    ghost use Rattle.pipes_tuple.specs.Order.{tuple_cmp};
    ghost use Rattle.pipes_tuple.specs.OrderLaws.{tuple_cmp-partial};

    ghost partial_cmp = { λ x y. Some (tuple_cmp x y) };

    ghost laws = { tuple_cmp-partial };

    fn partial_cmp(&self, other: &Tuple) -> Option<Ordering> {
        Some(self.cmp(other))
    }
}

impl Ord for Tuple {
    ghost use Rattle.std.specs.Prelude.{refl};
    ghost use Rattle.pipes_tuple.specs.Order.{tuple_cmp};
    ghost use Rattle.pipes_tuple.specs.OrderLaws.{tuple_cmp-total, tuple_cmp-ties};

    ghost cmp = { tuple_cmp };

    ghost total = { tuple_cmp-total };

    ghost matches_partial_cmp = { λ x y. refl };

    ghost matches_eq = { tuple_cmp-ties };

    fn cmp(&self, other: &Tuple) -> Ordering {
        self.as_slice().cmp(other.as_slice())
    }
}

impl Hash for Tuple {
    ghost use Rattle.std.specs.Hash as fed;
    ghost use Rattle.std.specs.Hash.{items_Alike};
    ghost use Rattle.pipes_tuple.specs.contracts.value.ValueHash.TheImpl.Laws as hashes;

    ghost hash_input = { fed.slice ⟦<Value as Hash>⟧.hash_input };

    ghost respects_eq = { (items_Alike (record { fed = hashes.respects_eq-law })).fed };

    fn hash<H: Hasher>(&self, state: &mut H) {
        self.as_slice().hash(state);
    }
}
