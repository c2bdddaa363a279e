// Places of a text, by line and column.
ghost use Rattle.std.specs.Prelude.{◌≡◌, ◌≤◌, ◌+◌, length, take, count_by, ◌==◌};
ghost use Rattle.std.specs.List.{suffix_len};
ghost use Rattle.pipes_token.specs.Gaps.{is_within_line};
ghost use Rattle.pipes_token.specs.Places.{located};

use crate::{Refusal, TextRefusal};

/// The most bytes that a text has.
pub const LONGEST_FILE: usize = 1_048_576;

/// The refusal with its place known by line and column. Each place from the end on is that after
/// the last byte.
pub fn tell(bytes: &[u8], refusal: Refusal) -> TextRefusal
    requires { length bytes.now ≤ LONGEST_FILE }
    ensures { result ≡ located bytes.now refusal }
{
    let prefix = &bytes[..refusal.at.min(bytes.len())];
    TextRefusal {
        line: line_feeds(prefix) as u32 + 1,
        column: last_line_len(prefix) as u32 + 1,
        why: refusal.why,
    }
}

// The line feeds among the bytes.
fn line_feeds(bytes: &[u8]) -> usize
    ensures value { result ≡ count_by (λ b. b == 10) bytes.now }
    ensures bound { result ≤ length bytes.now }
{
    bytes.iter().filter(|byte| **byte == b'\n').count()
}

// The bytes after the last line feed.
fn last_line_len(bytes: &[u8]) -> usize
    ensures value { result ≡ suffix_len is_within_line bytes.now }
    ensures bound { result ≤ length bytes.now }
{
    bytes
        .iter()
        .rev()
        .take_while(|byte| **byte != b'\n')
        .count()
}
