// What may stand between tokens.
ghost use Rattle.std.specs.Prelude.{◌≡◌, ◌≤◌, ◌∷◌, length, drop};
ghost use Rattle.std.specs.List.{prefix_len};
ghost use Rattle.pipes_token.specs.Gaps.{is_separator, is_within_line, IsPastGap};

use crate::bytes::first;

// What stands after separators and comments.
pub(crate) fn past_gap(bytes: &[u8]) -> &[u8]
    ensures past { IsPastGap bytes.now result.now }
    ensures bound { length result.now ≤ length bytes.now }
{
    let mut rest = bytes;
    'gap: loop {
        match first(rest) {
            Some((byte, later)) => {
                if is_separator_byte(byte) {
                    rest = later;
                } else if byte == b'#' {
                    rest = line_end(later);
                } else {
                    return rest;
                }
            }
            None => return rest,
        }
    }
}

// Whether the byte separates tokens.
fn is_separator_byte(byte: u8) -> bool
    ensures { result ≡ is_separator byte }
{
    byte == b' ' || byte == b'\t' || byte == b'\r' || byte == b'\n'
}

// What stands from the next line feed on, or nothing where there is none.
fn line_end(bytes: &[u8]) -> &[u8]
    ensures value { result.now ≡ drop (prefix_len is_within_line bytes.now) bytes.now }
    ensures bound { length result.now ≤ length bytes.now }
{
    bytes.split_at(line_len(bytes)).1
}

// How many bytes stand before the next line feed, or before the end.
fn line_len(bytes: &[u8]) -> usize
    ensures value { result ≡ prefix_len is_within_line bytes.now }
    ensures bound { result ≤ length bytes.now }
{
    bytes.iter().take_while(|byte| **byte != b'\n').count()
}
