// Bytes that do not stand for themselves between quotes.
ghost use Rattle.std.specs.Prelude.{◌≡◌, ◌<◌, ◌+◌, ◌++◌, MatchOption, IfSome, IsTrue, length, take};
ghost use Rattle.std.specs.Prelude.{drop};
ghost use Rattle.std.specs.List.{position_from};
ghost use Rattle.pipes_tuple.specs.Texts.{escaped, escaped_byte, is_escaped};

/// The bytes before the first one that is escaped, that one's escape, and the bytes after it; none
/// where all bytes stand for themselves.
pub fn first_escape(text: &[u8]) -> Option<(&[u8], &'static [u8], &[u8])>
    ensures cases { MatchOption result (escaped text.now ≡ text.now)
        (λ r. escaped text.now ≡ r.0.now ++ r.1.now ++ escaped r.2.now) }
    ensures shorter { IfSome result (λ r. length r.2.now < length text.now) }
{
    match escape_place(text) {
        None => None,
        Some(place) => {
            let (plain, others) = around(text, place);
            Some((plain, escape_of(text[place]), others))
        }
    }
}

fn escape_place(text: &[u8]) -> Option<usize>
    ensures place { result ≡ position_from is_escaped 0 text.now }
    ensures bound { IfSome result (λ i. i < length text.now) }
{
    text.iter().position(|byte| is_escaped(*byte))
}

fn is_escaped(byte: u8) -> bool
    ensures { result ≡ is_escaped byte }
{
    matches!(byte, b'\\' | b'"' | b'\n' | b'\r')
}

fn escape_of(byte: u8) -> &'static [u8]
    requires { IsTrue (is_escaped byte) }
    ensures { result.now ≡ escaped_byte byte }
{
    match byte {
        b'\n' => b"\\n",
        b'\r' => b"\\r",
        b'"' => b"\\\"",
        _ => b"\\\\",
    }
}

// The bytes before a place, and those after it.
fn around(bytes: &[u8], i: usize) -> (&[u8], &[u8])
    requires { i < length bytes.now }
    ensures before { result.0.now ≡ take i bytes.now }
    ensures after { result.1.now ≡ drop (i + 1) bytes.now }
    ensures shorter { length result.1.now < length bytes.now }
{
    let (before, rest) = bytes.split_at(i);
    (before, &rest[1..])
}
