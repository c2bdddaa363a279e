// Joins.
ghost use Rattle.std.specs.Prelude.{◌≡◌, ◌+◌, ◌≤◌, ◌++◌, [], IfOk, OnOk, All, length};
ghost use Rattle.std.specs.List.{flat_map};
ghost use Rattle.pipes_relation.specs.Relations.{joined, joined_row};
ghost use Rattle.pipes_relation.specs.Tables.{IsTable, left_columns, right_columns, values_in};

use crate::Pair;
use crate::table::Table;
use pipes_expr::{Expr, Seen};
use pipes_time::Memory;
use pipes_tuple::{Key, Tuple};
use std::alloc::Global;

// The columns of the left side.
fn left_columns(alloc: Global, pairs: &[Pair]) -> Result<Vec<u32>, Memory>
    ensures { IfOk result (λ columns. columns.items ≡ left_columns pairs.now) }
{
    let columns = pairs.iter().map(|pair| pair.left).collect(alloc)?;
    Ok(columns)
}

// The columns of the right side.
fn right_columns(alloc: Global, pairs: &[Pair]) -> Result<Vec<u32>, Memory>
    ensures { IfOk result (λ columns. columns.items ≡ right_columns pairs.now) }
{
    let columns = pairs.iter().map(|pair| pair.right).collect(alloc)?;
    Ok(columns)
}

// The values of the row in the columns, false where there is none.
fn values_in(alloc: Global, columns: &[u32], row: &Tuple) -> Result<Key, Memory>
    requires { length columns.now ≤ 32 }
    ensures { IfOk result (λ key. key ≡ values_in columns.now row.now) }
{
    let mut values = Vec::new(alloc);
    for column in columns {
        values.push(Seen::at(row.as_slice(), *column as usize).copied()?)?;
    }
    Ok(Key::new(values).unwrap())
}

// The rows by their values in the columns.
fn by_values(alloc: Global, columns: &[u32], rows: Vec<Tuple>) -> Result<Table, Memory>
    requires { length columns.now ≤ 32 }
    ensures { IfOk result (λ table.
        IsTable (values_in columns.now) rows.items table.keys.keys table.groups.items) }
{
    let mut table = Table::new(alloc);
    for row in rows {
        let key = values_in(alloc, columns, &row)?;
        table.add(alloc, key, row)?;
    }
    Ok(table)
}

// Appends the concatenations of the left row and each of the rows with which it passes.
fn join_row(
    condition: &Expr,
    left: &Tuple,
    rows: &[Tuple],
    out: &mut Vec<Tuple>,
) -> Result<(), Memory>
    requires { All (λ right. length left.now + length right ≤ 32) rows.now }
    ensures { OnOk result (out.new.items
        ≡ out.old.items ++ flat_map (joined_row [] condition.now left.now) rows.now) }
{
    for right in rows {
        if condition.test_both(left, right) {
            out.push(left.append(right)?)?;
        }
    }
    Ok(())
}

/// For each left row in order and each right row in order, their concatenation where the columns
/// of each pair are equal and the condition is true on it. The right rows with a left row's values
/// are looked up by their hash, and no row is copied but into the answer.
pub fn joined(
    alloc: Global,
    pairs: &[Pair],
    condition: &Expr,
    left: &[Tuple],
    right: Vec<Tuple>,
) -> Result<Vec<Tuple>, Memory>
    requires width { length pairs.now ≤ 32 }
    requires room { All (λ l. All (λ r. length l + length r ≤ 32) right.items) left.now }
    ensures { IfOk result (λ out. out.items ≡ joined pairs.now condition.now left.now right.items) }
{
    let lefts = left_columns(alloc, pairs)?;
    let rights = right_columns(alloc, pairs)?;
    let table = by_values(alloc, rights.as_slice(), right)?;
    let mut out = Vec::new(alloc);
    for row in left {
        let key = values_in(alloc, lefts.as_slice(), row)?;
        join_row(condition, row, table.rows(&key), &mut out)?;
    }
    Ok(out)
}
