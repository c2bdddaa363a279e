// The tokens of a text.
ghost use Rattle.std.specs.Prelude.{◌≡◌, ◌≤◌, length, List, IfOk};
ghost use Rattle.pipes_token.specs.declared.token.Token.{Token as AToken};
ghost use Rattle.pipes_token.specs.Tokens as spec;

use crate::gap::past_gap;
use crate::read::read;
use crate::{Token, TokenKind};
use pipes_time::Memory;
use std::alloc::Global;

/// The tokens of the bytes, of which the last tells how the text ends or why it is refused. There
/// is only one such list.
pub fn tokens(alloc: Global, bytes: &[u8]) -> Result<Vec<Token>, Memory>
    ensures tokens { IfOk result (λ made. spec.Tokens (length bytes.now) bytes.now made.items) }
    ensures only { (others : List AToken) → spec.Tokens (length bytes.now) bytes.now others
        → IfOk result (λ made. made.items ≡ others) }
{
    let mut made = Vec::new(alloc);
    let mut rest = bytes;
    'tokens: loop {
        match next_token(alloc, bytes.len(), rest) {
            Ok((token, later)) => {
                let last = is_last(&token.kind);
                made.push(token)?;
                if last {
                    return Ok(made);
                }
                rest = later;
            }
            Err(memory) => return Err(memory),
        }
    }
}

// The next token of a text of `total` bytes of which these are left, and what is left after it.
fn next_token(alloc: Global, total: usize, bytes: &[u8]) -> Result<(Token, &[u8]), Memory>
    requires { length bytes.now ≤ total }
    ensures { IfOk result (λ x. spec.Follows total bytes.now x.0 x.1.now) }
{
    let here = past_gap(bytes);
    let (kind, rest) = read(alloc, total, here)?;
    let at = total - here.len();
    Ok((Token { at, kind }, rest))
}

// Whether no token follows.
fn is_last(kind: &TokenKind) -> bool
    ensures { result ≡ spec.is_last kind.now }
{
    matches!(
        kind,
        TokenKind::Long | TokenKind::Cut(_) | TokenKind::Byte | TokenKind::End
    )
}
