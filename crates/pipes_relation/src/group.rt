// Groups.
ghost use Rattle.std.specs.Prelude.{◌≡◌, ◌+◌, ◌++◌, map, IfOk, All, length};
ghost use Rattle.pipes_tuple.specs.Columns.{at_columns, HasColumns};
ghost use Rattle.pipes_relation.specs.Aggregate.{aggregate};
ghost use Rattle.pipes_relation.specs.Relations.{IsWidth, grouped};
ghost use Rattle.pipes_relation.specs.Tables.{IsTable};

use crate::Agg;
use crate::aggregate::aggregate;
use crate::table::Table;
use pipes_time::Memory;
use pipes_tuple::{Cols, Key, Tuple};
use std::alloc::Global;

// The rows by their values in the columns.
fn by_columns(alloc: Global, columns: &Cols, rows: Vec<Tuple>) -> Result<Table, Memory>
    requires { All (λ row. HasColumns columns.now row) rows.items }
    ensures { IfOk result (λ table.
        IsTable (at_columns columns.now) rows.items table.keys.keys table.groups.items) }
{
    let mut table = Table::new(alloc);
    for row in rows {
        let key = row.key(columns)?;
        table.add(alloc, key, row)?;
    }
    Ok(table)
}

// The key's values, and the aggregates of its rows.
fn group_row(alloc: Global, aggs: &[Agg], key: &Key, rows: &[Tuple]) -> Result<Tuple, Memory>
    requires { IsWidth (length key.now + length aggs.now) }
    ensures { IfOk result (λ tuple. tuple ≡ key.now ++ map (aggregate rows.now) aggs.now) }
{
    let mut values = Vec::new(alloc);
    for value in key.as_slice() {
        values.push(value.copy()?)?;
    }
    for agg in aggs {
        values.push(aggregate(rows, agg)?)?;
    }
    Ok(Tuple::new(values).unwrap())
}

/// A row for each tuple of values in the columns, in order of first appearance: those values and
/// the aggregates of the rows that have them. A key is looked up by its hash.
#[tactic(auto, unfolding(crate::specs::Relations::grouped))]
pub fn grouped(
    alloc: Global,
    columns: &Cols,
    aggs: &[Agg],
    rows: Vec<Tuple>,
) -> Result<Vec<Tuple>, Memory>
    requires columns { All (λ row. HasColumns columns.now row) rows.items }
    requires width { IsWidth (length columns.now + length aggs.now) }
    ensures { IfOk result (λ out. out.items ≡ grouped columns.now aggs.now rows.items) }
{
    let table = by_columns(alloc, columns, rows)?;
    let keys = table.keys.as_slice();
    let groups = table.groups.as_slice();
    let mut out = Vec::new(alloc);
    for (i, key) in keys.iter().enumerate() {
        out.push(group_row(alloc, aggs, key, groups[i].as_slice())?)?;
    }
    Ok(out)
}
