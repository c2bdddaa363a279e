// Values and their kinds.
ghost use Rattle.std.specs.Prelude.{◌≡◌, ◌≢◌, ◌++◌, IfOk, OnOk, OnErr};
ghost use Rattle.pipes_tuple.specs.Columns.{at_columns};
ghost use Rattle.pipes_tuple.specs.Kinds.{kind_named, kind_of, kind_place, kind_word};
ghost use Rattle.pipes_tuple.specs.Limits.{IsValue};
ghost use Rattle.pipes_tuple.specs.Reading.{reading};
ghost use Rattle.pipes_tuple.specs.Texts.{text_of};

use crate::Text;
use crate::appending::{append, append_int, append_quoted};
use pipes_time::Memory;
use std::alloc::Global;
use std::cmp::Ordering;

/// What a value is. Whole numbers are ordered before texts, and texts before flags.
#[derive(Clone, Copy, Debug, Hash)]
pub enum Kind {
    /// A whole number of 64 bits with a sign.
    Int,
    /// UTF-8 text.
    Text,
    /// True or false.
    Flag,
}

/// One value of a tuple. Whole numbers are ordered before texts, and texts before flags.
#[derive(Debug, Hash, Drop)]
pub enum Value {
    /// A whole number, ordered by number.
    Int(i64),
    /// A text, ordered by bytes.
    Text(Text),
    /// True or false, false before true.
    Flag(bool),
}

impl Kind {
    /// The word for the kind: `int`, `text` or `flag`.
    pub fn word(self) -> &'static [u8]
        ensures { result.now ≡ kind_word self }
    {
        match self {
            Kind::Int => b"int",
            Kind::Text => b"text",
            Kind::Flag => b"flag",
        }
    }

    /// The kind for which this is the word.
    pub fn named(word: &[u8]) -> Option<Kind>
        ensures { result ≡ kind_named word.now }
    {
        if word == b"int".as_slice() {
            Some(Kind::Int)
        } else if word == b"text".as_slice() {
            Some(Kind::Text)
        } else if word == b"flag".as_slice() {
            Some(Kind::Flag)
        } else {
            None
        }
    }

    // Its place in the order.
    fn place(self) -> u8
        ensures { result ≡ kind_place self }
    {
        match self {
            Kind::Int => 0,
            Kind::Text => 1,
            Kind::Flag => 2,
        }
    }
}

impl Value {
    /// The value's kind.
    pub fn kind(&self) -> Kind
        ensures { result ≡ kind_of self.now }
    {
        match self {
            Value::Int(_) => Kind::Int,
            Value::Text(_) => Kind::Text,
            Value::Flag(_) => Kind::Flag,
        }
    }

    /// Appends the value's text. Out of memory, `out` is as before.
    pub fn print(&self, out: &mut Vec<u8>) -> Result<(), Memory>
        ensures ok { OnOk result (out.new.items ≡ out.old.items ++ text_of self.now) }
        ensures err { OnErr result (out.new.items ≡ out.old.items) }
        ensures limits { IsValue self.now }

        // The text of a number or of a flag is read back as the value.
        ensures read_back { kind_of self.now ≢ Kind.Text
            → reading (kind_of self.now) (text_of self.now) ≡ Ok self.now }
    {
        match self {
            Value::Int(number) => append_int(*number, out),
            Value::Text(text) => append_quoted(text.as_str().as_bytes(), out),
            Value::Flag(true) => append(b"true", out),
            Value::Flag(false) => append(b"false", out),
        }
    }

    /// A value equal to this one.
    pub fn copy(&self) -> Result<Value, Memory>
        ensures { IfOk result (λ value. value ≡ self.now) }
    {
        match self {
            Value::Int(number) => Ok(Value::Int(*number)),
            Value::Text(text) => Ok(Value::Text(text.copy()?)),
            Value::Flag(flag) => Ok(Value::Flag(*flag)),
        }
    }
}

// Appends copies of the values.
pub(crate) fn copy_all(from: &[Value], to: &mut Vec<Value>) -> Result<(), Memory>
    ensures { OnOk result (to.new.items ≡ to.old.items ++ from.now) }
{
    for value in from {
        to.push(value.copy()?)?;
    }
    Ok(())
}

// Copies of the values at the columns that are there, in the order of the columns.
pub(crate) fn copy_at(
    alloc: Global,
    columns: &[u32],
    values: &[Value],
) -> Result<Vec<Value>, Memory>
    ensures { IfOk result (λ copies. copies.items ≡ at_columns columns.now values.now) }
{
    let mut copies = Vec::with_capacity(alloc, columns.len())?;
    for column in columns {
        if let Some(value) = values.get(*column as usize) {
            copies.push(value.copy()?)?;
        }
    }
    Ok(copies)
}

impl PartialEq for Kind {
    ghost use Rattle.std.specs.Cmp.{partial_equiv_from_equiv};
    ghost use Rattle.pipes_tuple.specs.Equal.{kind_eq};
    ghost use Rattle.pipes_tuple.specs.OrderLaws.{kind_eq-equivalence};

    ghost eq = { kind_eq };

    ghost laws = { partial_equiv_from_equiv kind_eq-equivalence };

    fn eq(&self, other: &Kind) -> bool {
        self.place() == other.place()
    }
}

impl Eq for Kind {
    ghost use Rattle.pipes_tuple.specs.OrderLaws.{kind_eq-equivalence};

    ghost laws = { kind_eq-equivalence };
}

impl PartialOrd for Kind {
    ghost use Rattle.std.specs.Prelude.{Some};
    ghost use Rattle.pipes_tuple.specs.Order.{kind_cmp};
    ghost use Rattle.pipes_tuple.specs.OrderLaws.{kind_cmp-partial};

    ghost partial_cmp = { λ x y. Some (kind_cmp x y) };

    ghost laws = { kind_cmp-partial };

    fn partial_cmp(&self, other: &Kind) -> Option<Ordering> {
        Some(self.cmp(other))
    }
}

impl Ord for Kind {
    ghost use Rattle.std.specs.Prelude.{refl};
    ghost use Rattle.pipes_tuple.specs.Order.{kind_cmp};
    ghost use Rattle.pipes_tuple.specs.OrderLaws.{kind_cmp-total, kind_cmp-ties};

    ghost cmp = { kind_cmp };

    ghost total = { kind_cmp-total };

    ghost matches_partial_cmp = { λ x y. refl };

    ghost matches_eq = { kind_cmp-ties };

    fn cmp(&self, other: &Kind) -> Ordering {
        self.place().cmp(&other.place())
    }
}

impl PartialEq for Value {
    ghost use Rattle.pipes_tuple.specs.Equal.{value_eq};
    ghost use Rattle.pipes_tuple.specs.OrderLaws.{value_eq-partial};

    ghost eq = { value_eq };

    ghost laws = { value_eq-partial };

    fn eq(&self, other: &Value) -> bool {
        match (self, other) {
            (Value::Int(left), Value::Int(right)) => left == right,
            (Value::Text(left), Value::Text(right)) => left == right,
            (Value::Flag(left), Value::Flag(right)) => left == right,
            _ => false,
        }
    }
}

impl Eq for Value {
    ghost use Rattle.pipes_tuple.specs.OrderLaws.{value_eq-equivalence};

    ghost laws = { value_eq-equivalence };
}

impl PartialOrd for Value {
    ghost use Rattle.std.specs.Prelude.{Some};
    ghost use Rattle.pipes_tuple.specs.Order.{value_cmp};
    ghost use Rattle.pipes_tuple.specs.OrderLaws.{value_cmp-partial};

    ghost partial_cmp = { λ x y. Some (value_cmp x y) };

    ghost laws = { value_cmp-partial };

    fn partial_cmp(&self, other: &Value) -> Option<Ordering> {
        Some(self.cmp(other))
    }
}

impl Ord for Value {
    ghost use Rattle.std.specs.Prelude.{refl};
    ghost use Rattle.pipes_tuple.specs.Order.{value_cmp};
    ghost use Rattle.pipes_tuple.specs.OrderLaws.{value_cmp-total, value_cmp-ties};

    ghost cmp = { value_cmp };

    ghost total = { value_cmp-total };

    ghost matches_partial_cmp = { λ x y. refl };

    ghost matches_eq = { value_cmp-ties };

    fn cmp(&self, other: &Value) -> Ordering {
        match (self, other) {
            (Value::Int(left), Value::Int(right)) => left.cmp(right),
            (Value::Text(left), Value::Text(right)) => left.cmp(right),
            (Value::Flag(left), Value::Flag(right)) => left.cmp(right),
            _ => self.kind().cmp(&other.kind()),
        }
    }
}
