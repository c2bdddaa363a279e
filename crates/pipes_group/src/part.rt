// What an aggregate of a group is read from.
ghost use Rattle.std.specs.Prelude.{◌≡◌, ℕ, ◌+ℤ◌, ◌-ℤ◌, List, [], length, pos, OnOk, IfOk};
ghost use Rattle.std.specs.Int.{saturate_signed, int_div_euclid, w64};
ghost use Rattle.pipes_tuple.specs.declared.value.Value.{Value as Datum};
ghost use Rattle.pipes_expr.specs.ExprValue.{column as value_in};
ghost use Rattle.pipes_relation.specs.Aggregate.{number, aggregate, exact_sum};
ghost use Rattle.pipes_group.specs.Parts.{agg_read, column_read, PartOf, PartGains, PartLoses};
ghost use Rattle.pipes_group.specs.Parts.{IntsFit};

use crate::values::{count_in, count_out, greatest, least};
use pipes_expr::Seen;
use pipes_relation::{Agg, clamped, int_at};
use pipes_time::Memory;
use pipes_tuple::{Tuple, Value};
use std::alloc::Global;
use std::collections::BTreeMap;

// What an aggregate of the rows of a group is read from.
#[derive(Drop)]
pub(crate) enum Part {
    // Their number, which is counted beside the parts.
    Rows,
    // The exact sum of a column.
    Sum(u32, i128),
    // The exact sum of a column, of which the average is asked.
    Average(u32, i128),
    // How often each value of a column is there, of which the least is asked.
    Least(u32, BTreeMap<Value, u64>),
    // How often each value of a column is there, of which the greatest is asked.
    Greatest(u32, BTreeMap<Value, u64>),
}

// The value in a column.
fn value_at(tuple: &Tuple, column: u32) -> Result<Value, Memory>
    ensures { IfOk result (λ v. v ≡ value_in tuple.now column) }
{
    Seen::at(tuple.as_slice(), column as usize).copied()
}

// An integer more.
fn add_to(sum: &mut i128, number: i64) -> Result<(), Memory>
    ensures { OnOk result (sum.new ≡ sum.old +ℤ number) }
{
    *sum = sum.checked_add(i128::from(number)).ok_or(Memory)?;
    Ok(())
}

// An integer less.
fn take_from(sum: &mut i128, number: i64) -> Result<(), Memory>
    ensures { OnOk result (sum.new ≡ sum.old -ℤ number) }
{
    *sum = sum.checked_sub(i128::from(number)).ok_or(Memory)?;
    Ok(())
}

// Of no rows.
pub(crate) fn empty_part(alloc: Global, agg: &Agg) -> Part
    ensures agg { agg_read result ≡ agg.now }
    ensures none { PartOf [] result }
{
    match agg {
        Agg::Count => Part::Rows,
        Agg::Sum(column) => Part::Sum(*column, 0),
        Agg::Avg(column) => Part::Average(*column, 0),
        Agg::Min(column) => Part::Least(*column, BTreeMap::new(alloc)),
        Agg::Max(column) => Part::Greatest(*column, BTreeMap::new(alloc)),
    }
}

// The column of which it is, or 0 where it is of none.
fn column_of(part: &Part) -> u32
    ensures { result ≡ column_read part.now }
{
    match part {
        Part::Rows => 0,
        Part::Sum(column, _) => *column,
        Part::Average(column, _) => *column,
        Part::Least(column, _) => *column,
        Part::Greatest(column, _) => *column,
    }
}

// A row more.
pub(crate) fn gain(part: &mut Part, tuple: &Tuple) -> Result<(), Memory>
    ensures { OnOk result (PartGains tuple.now part.old part.new) }
{
    let column = column_of(part);
    match part {
        Part::Rows => Ok(()),
        Part::Sum(_, sum) => add_to(sum, int_at(tuple, column)),
        Part::Average(_, sum) => add_to(sum, int_at(tuple, column)),
        Part::Least(_, values) => count_in(values, value_at(tuple, column)?),
        Part::Greatest(_, values) => count_in(values, value_at(tuple, column)?),
    }
}

// A row less.
pub(crate) fn lose(part: &mut Part, tuple: &Tuple) -> Result<(), Memory>
    ensures { OnOk result (PartLoses tuple.now part.old part.new) }
{
    let column = column_of(part);
    match part {
        Part::Rows => Ok(()),
        Part::Sum(_, sum) => take_from(sum, int_at(tuple, column)),
        Part::Average(_, sum) => take_from(sum, int_at(tuple, column)),
        Part::Least(_, values) => count_out(values, value_at(tuple, column)?),
        Part::Greatest(_, values) => count_out(values, value_at(tuple, column)?),
    }
}

// The sum over the number of rows, rounded down.
fn average(sum: i128, count: u64) -> i64
    ensures { (c : ℕ) (rows : List (List Datum)) → IntsFit c rows → sum ≡ exact_sum c rows
        → count ≡ length rows → result ≡ int_div_euclid (exact_sum c rows) (pos (length rows)) }
{
    if count == 0 {
        return 0;
    }
    clamped(sum.div_euclid(count as i128))
}

// The aggregate of the rows, of which there are `count`.
pub(crate) fn read(part: &Part, count: u64) -> Result<Value, Memory>
    ensures { IfOk result (λ v. (rows : List (List Datum)) → PartOf rows part.now
        → count ≡ length rows → v ≡ aggregate rows (agg_read part.now)) }
{
    match part {
        Part::Rows => Ok(Value::Int(i64::try_from(count).unwrap_or(i64::MAX))),
        Part::Sum(_, sum) => Ok(Value::Int(clamped(*sum))),
        Part::Average(_, sum) => Ok(Value::Int(average(*sum, count))),
        Part::Least(_, values) => least(values),
        Part::Greatest(_, values) => greatest(values),
    }
}
