// Appending to a text. Out of memory, each of these leaves the text as it was.
ghost use Rattle.std.specs.Prelude.{◌≡◌, ◌++◌, take, vec_len, OnOk, OnErr, FitsSigned};
ghost use Rattle.std.specs.Int.{w64};
ghost use Rattle.std.specs.Fmt.{decimal, signed_decimal};
ghost use Rattle.pipes_tuple.specs.Reading.{int_reading};
ghost use Rattle.pipes_tuple.specs.Texts.{escaped, quoted};

use crate::Value;
use crate::escape::first_escape;
use itoa::Buffer;
use pipes_time::Memory;

/// Appends the bytes.
pub fn append(bytes: &[u8], out: &mut Vec<u8>) -> Result<(), Memory>
    ensures ok { OnOk result (out.new.items ≡ out.old.items ++ bytes.now) }
    ensures err { OnErr result (out.new.items ≡ out.old.items) }
{
    out.extend_from_slice(bytes)?;
    Ok(())
}

/// Appends the number in decimal.
pub fn append_number(number: u64, out: &mut Vec<u8>) -> Result<(), Memory>
    ensures ok { OnOk result (out.new.items ≡ out.old.items ++ decimal number) }
    ensures err { OnErr result (out.new.items ≡ out.old.items) }
{
    append(Buffer::new().format(number).as_bytes(), out)
}

/// Appends the number in decimal, after a minus sign where it is negative.
pub fn append_int(number: i64, out: &mut Vec<u8>) -> Result<(), Memory>
    ensures ok { OnOk result (out.new.items ≡ out.old.items ++ signed_decimal number) }
    ensures err { OnErr result (out.new.items ≡ out.old.items) }
    ensures fits { FitsSigned w64 number }
    ensures read_back { int_reading (signed_decimal number) ≡ Ok (Value.Int number) }
{
    append(Buffer::new().format(number).as_bytes(), out)
}

/// Appends the text between quotes, each byte escaped that does not stand for itself there.
pub fn append_quoted(text: &[u8], out: &mut Vec<u8>) -> Result<(), Memory>
    ensures ok { OnOk result (out.new.items ≡ out.old.items ++ quoted text.now) }
    ensures err { OnErr result (out.new.items ≡ out.old.items) }
{
    let before = out.len();
    let tried = push_quoted(text, out);
    all_or_nothing(tried, before, out)
}

/// The result of an attempt to append several parts. Where it failed, the text is taken back to its
/// length before.
pub fn all_or_nothing(
    tried: Result<(), Memory>,
    before: usize,
    out: &mut Vec<u8>,
) -> Result<(), Memory>
    ensures same { result ≡ tried }
    ensures ok { OnOk result (out.new.items ≡ out.old.items) }
    ensures err { OnErr result (out.new.items ≡ take before out.old.items) }
{
    if tried.is_err() {
        out.truncate(before);
    }
    tried
}

// Appends the text between quotes. Out of memory a part of it may be left.
fn push_quoted(text: &[u8], out: &mut Vec<u8>) -> Result<(), Memory>
    ensures ok { OnOk result (out.new.items ≡ out.old.items ++ quoted text.now) }
    ensures err { OnErr result (take (vec_len out.old) out.new.items ≡ out.old.items) }
{
    out.push(b'"')?;
    push_escaped(text, out)?;
    out.push(b'"')?;
    Ok(())
}

// Appends the text's bytes as they are between quotes. Out of memory a part of them may be left.
fn push_escaped(text: &[u8], out: &mut Vec<u8>) -> Result<(), Memory>
    ensures ok { OnOk result (out.new.items ≡ out.old.items ++ escaped text.now) }
    ensures err { OnErr result (take (vec_len out.old) out.new.items ≡ out.old.items) }
{
    let mut rest = text;
    'parts: while let Some((plain, escape, others)) = first_escape(rest) {
        out.extend_from_slice(plain)?;
        out.extend_from_slice(escape)?;
        rest = others;
    }
    out.extend_from_slice(rest)?;
    Ok(())
}
