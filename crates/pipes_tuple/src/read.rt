// Reading values.
ghost use Rattle.std.specs.Prelude.{◌≡◌, ◌≢◌, true, IsOk, IfOk, IfErr};
ghost use Rattle.pipes_tuple.specs.Reading.{number_reading, int_reading, text_reading};
ghost use Rattle.pipes_tuple.specs.Reading.{flag_reading, reading};

use crate::digits::digits_value;
use crate::{Kind, LONGEST_TEXT, Text, TextFault, Value};
use std::alloc::Global;
use std::str;

/// Why bytes are no value of a kind.
#[derive(Clone, Copy, Debug, PartialEq, Eq)]
pub enum ValueRefusal {
    /// They are not an optional minus sign and one or more digits.
    NotInt,
    /// They write a whole number that 64 bits with a sign do not hold.
    IntRange,
    /// They are not UTF-8.
    NotUtf8,
    /// They are more than a [`Text`] has.
    TooLong,
    /// They are neither `true` nor `false`.
    NotFlag,
    /// Out of memory.
    Memory,
}

impl Value {
    /// The value of this kind that the bytes are. Memory is asked for only where they are a text.
    pub fn read(alloc: Global, kind: Kind, bytes: &[u8]) -> Result<Value, ValueRefusal>
        ensures value { IfOk result (λ value. reading kind bytes.now ≡ Ok value) }
        ensures refusal { IfErr result
            (λ why. why ≢ ValueRefusal.Memory → reading kind bytes.now ≡ Err why) }
        ensures memory { result ≡ Err ValueRefusal.Memory
            → IsOk (reading kind bytes.now) × (kind ≡ Kind.Text) }
    {
        match kind {
            Kind::Int => read_int(bytes),
            Kind::Text => read_text(alloc, bytes),
            Kind::Flag => read_flag(bytes),
        }
    }
}

// The integer that the bytes are: a minus sign or none, and digits.
fn read_int(bytes: &[u8]) -> Result<Value, ValueRefusal>
    ensures { result ≡ int_reading bytes.now }
{
    match bytes.split_first() {
        Some((b'-', digits)) => read_number(true, digits),
        _ => read_number(false, bytes),
    }
}

// The integer that the digits write, after a minus sign or with none.
fn read_number(minus: bool, digits: &[u8]) -> Result<Value, ValueRefusal>
    ensures { result ≡ number_reading minus digits.now }
{
    let Some(size) = digits_value(digits) else {
        return Err(ValueRefusal::NotInt);
    };
    let number = if minus {
        0i64.checked_sub_unsigned(size)
    } else {
        0i64.checked_add_unsigned(size)
    };
    match number {
        Some(number) => Ok(Value::Int(number)),
        None => Err(ValueRefusal::IntRange),
    }
}

// The text that the bytes are.
fn read_text(alloc: Global, bytes: &[u8]) -> Result<Value, ValueRefusal>
    ensures value { IfOk result (λ value. text_reading bytes.now ≡ Ok value) }
    ensures refusal { IfErr result
        (λ why. why ≢ ValueRefusal.Memory → text_reading bytes.now ≡ Err why) }
    ensures memory { result ≡ Err ValueRefusal.Memory → IsOk (text_reading bytes.now) }
{
    if bytes.len() > LONGEST_TEXT {
        return Err(ValueRefusal::TooLong);
    }
    let Ok(text) = str::from_utf8(bytes) else {
        return Err(ValueRefusal::NotUtf8);
    };
    match Text::new(alloc, text) {
        Ok(text) => Ok(Value::Text(text)),
        Err(TextFault::TooLong) => Err(ValueRefusal::TooLong),
        Err(TextFault::Memory) => Err(ValueRefusal::Memory),
    }
}

// The flag that the bytes are.
fn read_flag(bytes: &[u8]) -> Result<Value, ValueRefusal>
    ensures { result ≡ flag_reading bytes.now }
{
    if bytes == b"true".as_slice() {
        Ok(Value::Flag(true))
    } else if bytes == b"false".as_slice() {
        Ok(Value::Flag(false))
    } else {
        Err(ValueRefusal::NotFlag)
    }
}
