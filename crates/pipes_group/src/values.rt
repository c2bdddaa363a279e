// How often each value of a column is there.
ghost use Rattle.std.specs.Prelude.{◌≡◌, ℕ, List, OnOk, IfOk};
ghost use Rattle.std.specs.BTreeMap.{get};
ghost use Rattle.std.specs.Map.{count_at};
ghost use Rattle.pipes_tuple.specs.declared.value.Value.{Value as Datum};
ghost use Rattle.pipes_tuple.specs.Order.{value_cmp};
ghost use Rattle.pipes_relation.specs.Aggregate.{least_value, greatest_value, values_at};
ghost use Rattle.pipes_group.specs.Values.{HasValues, CountsIn, CountsOut};

use pipes_time::Memory;
use pipes_tuple::Value;
use std::collections::BTreeMap;

// How often the value is there.
fn found(values: &BTreeMap<Value, u64>, value: &Value) -> u64
    ensures { result ≡ count_at (get value_cmp values.now) value.now }
{
    match values.get(value) {
        Some(count) => *count,
        None => 0,
    }
}

// One more of the value.
pub(crate) fn count_in(values: &mut BTreeMap<Value, u64>, value: Value) -> Result<(), Memory>
    ensures { OnOk result (CountsIn value values.old values.new) }
{
    let count = found(values, &value).checked_add(1).ok_or(Memory)?;
    values.insert(value, count)?;
    Ok(())
}

// One less of the value; a value that is not there any more has no entry.
pub(crate) fn count_out(values: &mut BTreeMap<Value, u64>, value: Value) -> Result<(), Memory>
    ensures { OnOk result (CountsOut value values.old values.new) }
{
    let count = found(values, &value);
    if count > 1 {
        values.insert(value, count - 1)?;
    } else {
        values.remove(&value);
    }
    Ok(())
}

// The least value that is there, and false where there is none.
pub(crate) fn least(values: &BTreeMap<Value, u64>) -> Result<Value, Memory>
    ensures { IfOk result (λ v. (c : ℕ) (rows : List (List Datum)) → HasValues values.now c rows
        → v ≡ least_value (values_at c rows)) }
{
    match values.first_key_value() {
        Some((value, _)) => value.copy(),
        None => Ok(Value::Flag(false)),
    }
}

// The greatest value that is there, and false where there is none.
pub(crate) fn greatest(values: &BTreeMap<Value, u64>) -> Result<Value, Memory>
    ensures { IfOk result (λ v. (c : ℕ) (rows : List (List Datum)) → HasValues values.now c rows
        → v ≡ greatest_value (values_at c rows)) }
{
    match values.last_key_value() {
        Some((value, _)) => value.copy(),
        None => Ok(Value::Flag(false)),
    }
}
