// What the rows of a group come to.
ghost use Rattle.std.specs.Prelude.{◌≡◌, ◌<◌, ◌++◌, [], ℕ, List, map, length, OnOk, IfOk};
ghost use Rattle.std.specs.Bool.{OnTrue};
ghost use Rattle.std.specs.List.{AllByRecursion};
ghost use Rattle.pipes_tuple.specs.declared.value.Value.{Value as Datum};
ghost use Rattle.pipes_tuple.specs.Columns.{at_columns, HasColumns};
ghost use Rattle.pipes_relation.specs.Aggregate.{aggregate};
ghost use Rattle.pipes_group.specs.Parts.{agg_read, PartOf, PartsGain, PartsLose};

use crate::part::{Part, empty_part, gain, lose, read};
use pipes_relation::Aggs;
use pipes_time::Memory;
use pipes_timeline::Rule;
use pipes_tuple::{Cols, Key, Tuple, Value};
use std::alloc::Global;

/// What the rows of a group come to: their number, and for each aggregate what it is read from.
#[derive(Drop)]
pub struct Tally {
    pub(crate) count: u64,
    pub(crate) parts: Vec<Part>,
}

/// The rows that have the same values in some columns are a group, and give one row: these values,
/// and the aggregates of the rows.
#[derive(Drop)]
pub struct Grouping {
    pub(crate) alloc: Global,
    pub(crate) columns: Cols,
    pub(crate) aggs: Aggs,
}

// Whether each column is there.
fn has_columns(columns: &[u32], tuple: &Tuple) -> bool
    ensures { OnTrue result (HasColumns columns.now tuple.now) }
{
    for column in columns {
        if tuple.len() <= *column as usize {
            return false;
        }
    }
    true
}

// A row more in each part.
fn gain_all(parts: &mut [Part], tuple: &Tuple) -> Result<(), Memory>
    ensures { OnOk result (PartsGain tuple.now parts.old parts.new) }
{
    for part in parts.iter_mut() {
        gain(part, tuple)?;
    }
    Ok(())
}

// A row less in each part.
fn lose_all(parts: &mut [Part], tuple: &Tuple) -> Result<(), Memory>
    ensures { OnOk result (PartsLose tuple.now parts.old parts.new) }
{
    for part in parts.iter_mut() {
        lose(part, tuple)?;
    }
    Ok(())
}

impl Grouping {
    // The parts of no rows.
    fn no_parts(&self) -> Result<Vec<Part>, Memory>
        ensures aggs { IfOk result (λ parts. map agg_read parts.items ≡ self.now.aggs) }
        ensures none { IfOk result (λ parts. AllByRecursion (PartOf []) parts.items) }
    {
        let aggs = self.aggs.as_slice();
        let mut parts = Vec::new(self.alloc);
        for agg in aggs {
            parts.push(empty_part(self.alloc, agg))?;
        }
        Ok(parts)
    }

    // The key's values, and the aggregates.
    fn row(&self, key: &Key, tally: &Tally) -> Result<Tuple, Memory>
        ensures { IfOk result (λ tuple. (rows : List (List Datum))
            → AllByRecursion (PartOf rows) tally.now.parts.items → tally.now.count ≡ length rows
            → tuple ≡ key.now ++ map (aggregate rows) (map agg_read tally.now.parts.items)) }
    {
        let key = key.as_slice();
        let parts = tally.parts.as_slice();
        let mut values = Vec::new(self.alloc);
        for value in key {
            values.push(value.copy()?)?;
        }
        for part in parts {
            values.push(read(part, tally.count)?)?;
        }
        Tuple::new(values).ok_or(Memory)
    }
}

impl Rule<Tally> for Grouping {
    ghost use Rattle.pipes_group.specs.Groups.{GroupTells};
    ghost use Rattle.pipes_group.specs.GroupLaw.{group_rule};
    ghost use Rattle.pipes_group.specs.TallyLaw.{group_stays};

    ghost rule = { λ g. group_rule g.columns g.aggs };

    ghost tells = { λ g. GroupTells g.columns g.aggs };

    ghost stays = { λ g. group_stays g.columns g.aggs };

    // A row without the columns, which no typed group takes, is refused.
    fn key(&self, tuple: &Tuple) -> Result<Key, Memory> {
        if has_columns(self.columns.as_slice(), tuple) {
            tuple.key(&self.columns)
        } else {
            Err(Memory)
        }
    }

    fn none(&self) -> Result<Tally, Memory> {
        let parts = self.no_parts()?;
        Ok(Tally { count: 0, parts })
    }

    fn add(&self, tally: &mut Tally, port: u32, tuple: &Tuple) -> Result<(), Memory> {
        if port != 0 {
            return Err(Memory);
        }
        if !has_columns(self.columns.as_slice(), tuple) {
            return Err(Memory);
        }
        tally.count = tally.count.checked_add(1).ok_or(Memory)?;
        gain_all(tally.parts.as_mut_slice(), tuple)
    }

    fn remove(&self, tally: &mut Tally, port: u32, tuple: &Tuple) -> Result<(), Memory> {
        if port != 0 {
            return Err(Memory);
        }
        tally.count = tally.count.saturating_sub(1);
        lose_all(tally.parts.as_mut_slice(), tuple)
    }

    fn is_empty(&self, tally: &Tally) -> bool {
        tally.count == 0
    }

    fn has_answer(&self, tally: &Tally) -> bool {
        tally.count > 0
    }

    // Once, where there are rows.
    fn answer(&self, key: &Key, tally: &Tally) -> Result<(Tuple, u64), Memory> {
        Ok((self.row(key, tally)?, tally.count.min(1)))
    }
}
