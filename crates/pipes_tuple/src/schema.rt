// Schemas: the kinds that a tuple's values have.
ghost use Rattle.std.specs.Prelude.{◌≡◌, ◌≤◌, ◌↔◌, length, IfOk, IfSome, IsSome, vec_len};

use crate::Kind;
use pipes_time::Memory;
use std::cmp::Ordering;
use std::hash::{Hash, Hasher};
use std::marker::Model;

/// A list of 1 to 32 kinds.
#[derive(Debug, Drop)]
pub struct Schema {
    kinds: Vec<Kind>,
}

impl Model for Schema {
    ghost use Rattle.std.specs.Prelude.{List, ◌≤◌, vec_len};
    ghost use Rattle.pipes_tuple.specs.declared.value.Kind.{Kind as Sort};

    ghost Value = { List Sort };

    ghost view = { λ s. s.kinds.items };

    ghost invariant = { λ s. (1 ≤ vec_len s.kinds) × (vec_len s.kinds ≤ 32) };
}

impl Schema {
    /// The schema of these kinds, unless there are none or more than 32.
    pub fn new(kinds: Vec<Kind>) -> Option<Schema>
        ensures exact { IsSome result ↔ ((1 ≤ vec_len kinds) × (vec_len kinds ≤ 32)) }
        ensures value { IfSome result (λ schema. schema ≡ kinds.items) }
    {
        if 1 <= kinds.len() && kinds.len() <= 32 {
            Some(Schema { kinds })
        } else {
            None
        }
    }

    /// The kinds, in order.
    pub fn as_slice(&self) -> &[Kind]
        ensures value { result.now ≡ self.now }
        ensures bound { (1 ≤ length self.now) × (length self.now ≤ 32) }
    {
        self.kinds.as_slice()
    }

    /// A schema equal to this one.
    pub fn copy(&self) -> Result<Schema, Memory>
        ensures { IfOk result (λ schema. schema ≡ self.now) }
    {
        let kinds = Vec::from_slice(*self.kinds.allocator(), self.kinds.as_slice())?;
        Ok(Schema { kinds })
    }
}

impl PartialEq for Schema {
    ghost use Rattle.pipes_tuple.specs.Equal.{schema_eq};
    ghost use Rattle.pipes_tuple.specs.OrderLaws.{schema_eq-partial};

    ghost eq = { schema_eq };

    ghost laws = { schema_eq-partial };

    fn eq(&self, other: &Schema) -> bool {
        self.as_slice() == other.as_slice()
    }
}

impl Eq for Schema {
    ghost use Rattle.pipes_tuple.specs.OrderLaws.{schema_eq-equivalence};

    ghost laws = { schema_eq-equivalence };
}

impl PartialOrd for Schema {
    ghost use Rattle.std.specs.Prelude.{Some};
    ghost use Rattle.pipes_tuple.specs.Order.{schema_cmp};
    ghost use Rattle.pipes_tuple.specs.OrderLaws.{schema_cmp-partial};

    ghost partial_cmp = { λ x y. Some (schema_cmp x y) };

    ghost laws = { schema_cmp-partial };

    fn partial_cmp(&self, other: &Schema) -> Option<Ordering> {
        Some(self.cmp(other))
    }
}

impl Ord for Schema {
    ghost use Rattle.std.specs.Prelude.{refl};
    ghost use Rattle.pipes_tuple.specs.Order.{schema_cmp};
    ghost use Rattle.pipes_tuple.specs.OrderLaws.{schema_cmp-total, schema_cmp-ties};

    ghost cmp = { schema_cmp };

    ghost total = { schema_cmp-total };

    ghost matches_partial_cmp = { λ x y. refl };

    ghost matches_eq = { schema_cmp-ties };

    fn cmp(&self, other: &Schema) -> Ordering {
        self.as_slice().cmp(other.as_slice())
    }
}

impl Hash for Schema {
    ghost use Rattle.std.specs.Hash as fed;
    ghost use Rattle.std.specs.Hash.{items_Alike};
    ghost use Rattle.pipes_tuple.specs.contracts.value.KindHash.TheImpl.Laws as hashes;

    ghost hash_input = { fed.slice ⟦<Kind as Hash>⟧.hash_input };

    ghost respects_eq = { (items_Alike (record { fed = hashes.respects_eq-law })).fed };

    fn hash<H: Hasher>(&self, state: &mut H) {
        self.as_slice().hash(state);
    }
}
