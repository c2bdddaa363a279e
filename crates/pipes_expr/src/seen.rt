// Values that are looked at where they are.
ghost use Rattle.std.specs.Prelude.{◌≡◌, ◌++◌, IfOk, slice_get};
ghost use Rattle.pipes_tuple.specs.Order.{value_cmp};
ghost use Rattle.pipes_expr.specs.ExprValue.{column, is_true};
ghost use Rattle.pipes_expr.specs.Seen.{value_seen};

use pipes_time::Memory;
use pipes_tuple::{Text, Value};
use std::cmp::Ordering;

/// A value that is looked at where it is, or that was computed. It takes no memory.
#[derive(Clone, Copy)]
pub enum Seen<'a> {
    /// A whole number.
    Int(i64),
    /// A text.
    Text(&'a Text),
    /// True or false.
    Flag(bool),
}

impl<'a> Seen<'a> {
    /// The value.
    #[inline(always)]
    pub fn of(value: &'a Value) -> Seen<'a>
        ensures { value_seen result ≡ value.now }
    {
        match value {
            Value::Int(number) => Seen::Int(*number),
            Value::Text(text) => Seen::Text(text),
            Value::Flag(flag) => Seen::Flag(*flag),
        }
    }

    /// The value in the column, and false where there is none.
    #[inline(always)]
    pub fn at(row: &'a [Value], i: usize) -> Seen<'a>
        ensures { value_seen result ≡ column row.now i }
    {
        match row.get(i) {
            Some(value) => Seen::of(value),
            None => Seen::Flag(false),
        }
    }

    /// A copy of the value.
    pub fn copied(self) -> Result<Value, Memory>
        ensures { IfOk result (λ value. value ≡ value_seen self.entry) }
    {
        match self {
            Seen::Int(number) => Ok(Value::Int(number)),
            Seen::Text(text) => Ok(Value::Text(text.copy()?)),
            Seen::Flag(flag) => Ok(Value::Flag(flag)),
        }
    }

    /// Whether the value is a flag and true.
    pub fn is_true(self) -> bool
        ensures { result ≡ is_true (value_seen self.entry) }
    {
        match self {
            Seen::Flag(flag) => flag,
            _ => false,
        }
    }

    /// The order of two values.
    pub fn order(self, other: Seen<'_>) -> Ordering
        ensures { result ≡ value_cmp (value_seen self.entry) (value_seen other.entry) }
    {
        match (self, other) {
            (Seen::Int(m), Seen::Int(n)) => m.cmp(&n),
            (Seen::Text(s), Seen::Text(t)) => s.cmp(t),
            (Seen::Flag(p), Seen::Flag(q)) => p.cmp(&q),
            (Seen::Int(_), _) => Ordering::Less,
            (Seen::Flag(_), _) => Ordering::Greater,
            (Seen::Text(_), Seen::Int(_)) => Ordering::Greater,
            (Seen::Text(_), Seen::Flag(_)) => Ordering::Less,
        }
    }
}
