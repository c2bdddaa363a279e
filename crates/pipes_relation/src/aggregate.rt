// The aggregates of a group's rows.
ghost use Rattle.std.specs.Prelude.{◌≡◌, IfOk, FitsSigned, length, pos};
ghost use Rattle.std.specs.Int.{saturate_signed, int_div_euclid, w64};
ghost use Rattle.pipes_expr.specs.ExprValue.{column as value_at};
ghost use Rattle.pipes_relation.specs.Aggregate.{number, exact_sum, FitsRows};
ghost use Rattle.pipes_relation.specs.Aggregate.{least_value, greatest_value};
ghost use Rattle.pipes_relation.specs.Aggregate.{values_at, smaller, greater, aggregate};
ghost use Rattle.pipes_expr.specs.Seen.{value_seen};

use crate::Agg;
use pipes_expr::Seen;
use pipes_time::Memory;
use pipes_tuple::{Tuple, Value};

/// The integer in the column; 0 where the column has none.
pub fn int_at(row: &Tuple, column: u32) -> i64
    ensures value { result ≡ number (value_at row.now column) }
    ensures fits { FitsSigned w64 (number (value_at row.now column)) }
{
    match Seen::at(row.as_slice(), column as usize) {
        Seen::Int(number) => number,
        _ => 0,
    }
}

// The exact sum of a column. No list of rows is long enough for it to leave 128 bits: fewer than
// 2 ^ 64 integers of 64 bits add up to less than 2 ^ 127.
fn exact_sum(rows: &[Tuple], column: u32) -> i128
    ensures value { result ≡ exact_sum column rows.now }
    ensures fits { FitsRows (length rows.now) result }
{
    let mut sum: i128 = 0;
    for row in rows {
        sum += i128::from(int_at(row, column));
    }
    sum
}

// The smaller of two values.
fn smaller<'a>(a: Seen<'a>, b: Seen<'a>) -> Seen<'a>
    ensures { value_seen result ≡ smaller (value_seen a.entry) (value_seen b.entry) }
{
    if b.order(a).is_lt() { b } else { a }
}

// The greater of two values.
fn greater<'a>(a: Seen<'a>, b: Seen<'a>) -> Seen<'a>
    ensures { value_seen result ≡ greater (value_seen a.entry) (value_seen b.entry) }
{
    if a.order(b).is_lt() { b } else { a }
}

fn least_value(rows: &[Tuple], column: u32) -> Seen<'_>
    ensures { value_seen result ≡ least_value (values_at column rows.now) }
{
    match rows.split_first() {
        Some((first, rest)) => {
            let mut best = Seen::at(first.as_slice(), column as usize);
            for row in rest {
                best = smaller(best, Seen::at(row.as_slice(), column as usize));
            }
            best
        }
        None => Seen::Flag(false),
    }
}

fn greatest_value(rows: &[Tuple], column: u32) -> Seen<'_>
    ensures { value_seen result ≡ greatest_value (values_at column rows.now) }
{
    match rows.split_first() {
        Some((first, rest)) => {
            let mut best = Seen::at(first.as_slice(), column as usize);
            for row in rest {
                best = greater(best, Seen::at(row.as_slice(), column as usize));
            }
            best
        }
        None => Seen::Flag(false),
    }
}

/// An exact sum, clamped to 64 bits.
pub fn clamped(sum: i128) -> i64
    ensures { result ≡ saturate_signed w64 sum }
{
    sum.clamp(i128::from(i64::MIN), i128::from(i64::MAX)) as i64
}

// A number of rows, clamped to 64 bits.
fn count(rows: &[Tuple]) -> i64
    ensures { result ≡ saturate_signed w64 (pos (length rows.now)) }
{
    i64::try_from(rows.len()).unwrap_or(i64::MAX)
}

// The average, rounded down.
fn average(rows: &[Tuple], column: u32) -> i64
    ensures { result ≡ int_div_euclid (exact_sum column rows.now) (pos (length rows.now)) }
{
    if rows.is_empty() {
        return 0;
    }
    exact_sum(rows, column).div_euclid(rows.len() as i128) as i64
}

// An aggregate of the rows.
pub fn aggregate(rows: &[Tuple], agg: &Agg) -> Result<Value, Memory>
    ensures { IfOk result (λ value. value ≡ aggregate rows.now agg.now) }
{
    match agg {
        Agg::Count => Ok(Value::Int(count(rows))),
        Agg::Sum(column) => Ok(Value::Int(clamped(exact_sum(rows, *column)))),
        Agg::Min(column) => least_value(rows, *column).copied(),
        Agg::Max(column) => greatest_value(rows, *column).copied(),
        Agg::Avg(column) => Ok(Value::Int(average(rows, *column))),
    }
}
