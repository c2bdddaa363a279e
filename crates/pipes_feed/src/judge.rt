// The item that a record is.
ghost use Rattle.std.specs.Prelude.{◌≡◌, ◌≤◌, ◌++◌, ◌∷◌, [], OnOk, vec_len};
ghost use Rattle.std.specs.Prelude.{drop, length, IfOk};
ghost use Rattle.pipes_tuple.specs.Reading.{reading};
ghost use Rattle.pipes_line.specs.Fields.{fields_in};
ghost use Rattle.pipes_feed.specs.AnswersJudged.{AnswersJudged};
ghost use Rattle.pipes_feed.specs.Judged as judged;
ghost use Rattle.pipes_feed.specs.declared.judge.Fault.TheVariants as faults;

use crate::RowWhy;
use pipes_line::Record;
use pipes_time::{HORIZON, Memory};
use pipes_tuple::{Kind, Schema, Tuple, Value, ValueRefusal, digits_value};
use pipes_window::Item;
use std::alloc::Global;

/// Why a record gives no item.
#[derive(Clone, Copy, Debug, PartialEq, Eq)]
pub(crate) enum Fault {
    /// It is refused.
    Refused(RowWhy),
    /// Out of memory.
    Memory,
}

impl From<RowWhy> for Fault {
    ghost from_gives = { λ why fault. fault ≡ faults.Refused why };

    fn from(why: RowWhy) -> Fault {
        Fault::Refused(why)
    }
}

impl From<Memory> for Fault {
    ghost from_gives = { λ _ fault. fault ≡ faults.Memory };

    fn from(_: Memory) -> Fault {
        Fault::Memory
    }
}

/// The arrival of a record, which was read from this line, where this is the floor.
pub(crate) fn item_of(
    alloc: Global,
    schema: &Schema,
    low: u64,
    line: &[u8],
    fields: &Record,
) -> Result<Item, Fault>
    ensures { AnswersJudged (λ item. item) result (judged.item_of schema.now low
        (fields_in fields.now line.now)) }
{
    let Some(field) = fields.field(line, 0) else {
        return Err(Fault::Refused(RowWhy::Fields));
    };
    let count = columns_of(schema, fields.len() - 1)?;
    let stamp = stamp_of(field)?;
    let stamp = at_floor(low, stamp)?;
    item_with(alloc, schema, stamp, count, line, fields)
}

// How many fields stand beside the stamp.
fn columns_of(schema: &Schema, count: usize) -> Result<usize, RowWhy>
    ensures { result ≡ judged.columns_of schema.now count }
{
    if count == 0 || count == schema.as_slice().len() {
        Ok(count)
    } else {
        Err(RowWhy::Fields)
    }
}

// The stamp that a field writes.
fn stamp_of(field: &[u8]) -> Result<u64, RowWhy>
    ensures { result ≡ judged.stamp_of field.now }
{
    let Some(stamp) = digits_value(field) else {
        return Err(RowWhy::Stamp);
    };
    if stamp < HORIZON {
        Ok(stamp)
    } else {
        Err(RowWhy::Range)
    }
}

// A stamp that is not below the floor.
fn at_floor(low: u64, stamp: u64) -> Result<u64, RowWhy>
    ensures { result ≡ judged.at_floor low stamp }
{
    if stamp < low {
        Err(RowWhy::Falling { stamp, last: low })
    } else {
        Ok(stamp)
    }
}

// A heartbeat where no field stands beside the stamp, and a row where one does.
fn item_with(
    alloc: Global,
    schema: &Schema,
    stamp: u64,
    count: usize,
    line: &[u8],
    fields: &Record,
) -> Result<Item, Fault>
    requires { count ≡ length (drop 1 (fields_in fields.now line.now)) }
    ensures { AnswersJudged (λ item. item) result (judged.item_with schema.now stamp
        (drop 1 (fields_in fields.now line.now))) }
{
    if count == 0 {
        return Ok(Item::Beat(stamp));
    }
    let values = values_of(alloc, schema, line, fields)?;
    Ok(Item::Row(stamp, Tuple::new(values).unwrap()))
}

// The values of the columns.
fn values_of(
    alloc: Global,
    schema: &Schema,
    line: &[u8],
    fields: &Record,
) -> Result<Vec<Value>, Fault>
    ensures count { IfOk result (λ values. (1 ≤ vec_len values) × (vec_len values ≤ 32)) }
    ensures values { AnswersJudged (λ values. values.items) result
        (judged.field_values 0 schema.now (drop 1 (fields_in fields.now line.now))) }
{
    let kinds = schema.as_slice();
    let mut values = with_room(alloc, kinds.len())?;
    'columns: for (column, kind) in kinds.iter().enumerate() {
        let Some(field) = fields.field(line, column + 1) else {
            return Err(Fault::Refused(RowWhy::Fields));
        };
        match value_of(alloc, column as u32, *kind, field) {
            Ok(value) => push(&mut values, value)?,
            Err(fault) => return Err(fault),
        }
    }
    Ok(values)
}

// No values, and room for so many.
fn with_room(alloc: Global, count: usize) -> Result<Vec<Value>, Memory>
    ensures { IfOk result (λ values. values.items ≡ []) }
{
    Ok(Vec::with_capacity(alloc, count)?)
}

fn push(values: &mut Vec<Value>, value: Value) -> Result<(), Memory>
    ensures { OnOk result (values.new.items ≡ values.old.items ++ value ∷ []) }
{
    values.push(value)?;
    Ok(())
}

// The value of a column.
fn value_of(alloc: Global, column: u32, kind: Kind, field: &[u8]) -> Result<Value, Fault>
    ensures { AnswersJudged (λ value. value) result (judged.field_value column
        (reading kind field.now)) }
{
    match Value::read(alloc, kind, field) {
        Ok(value) => Ok(value),
        Err(ValueRefusal::Memory) => Err(Fault::Memory),
        Err(why) => Err(Fault::Refused(RowWhy::Value { column, why })),
    }
}
