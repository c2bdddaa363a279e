// Whole texts.
ghost use Rattle.pipes_reader.specs.Reading.{Reads, GivesFrom, Gives, then_end, whole};
ghost use Rattle.pipes_reader.specs.Texts.{IsReadBy};

use crate::{Cursor, ParseFault, ran_out, refused};
use pipes_token::{LONGEST_FILE, ReadFault, TextRefusal, TextWhy, Token, TokenKind, tell, tokens};
use std::alloc::Global;

/// What reads the values of a kind of text.
pub trait Parser<T> {
    ghost reads: { Self → Reads T };

    /// Reads a value, as far as its tokens go.
    fn parse(&self, alloc: Global, cursor: &mut Cursor<'_>) -> Result<T, ParseFault>
        ensures { GivesFrom (λ value. value) (reads self.now) cursor.old cursor.new result };
}

// The value, where the text ends after it.
fn then_end<T: Drop>(value: T, cursor: &Cursor<'_>) -> Result<T, ParseFault>
    ensures { Gives (λ value. value) result (then_end value cursor.now) }
{
    match cursor.rest() {
        [] => Err(ParseFault::Refused(ran_out())),
        [token, ..] => match token.kind {
            TokenKind::End => Ok(value),
            _ => Err(ParseFault::Refused(refused(token))),
        },
    }
}

// The value of all tokens of a text.
fn parse_whole<T: Drop, P: Parser<T>>(
    alloc: Global,
    parser: &P,
    tokens: &[Token],
) -> Result<T, ParseFault>
    ensures { Gives (λ value. value) result (whole (P.reads parser.now) tokens.now) }
{
    let mut cursor = Cursor::new(tokens);
    let value = parser.parse(alloc, &mut cursor)?;
    then_end(value, &cursor)
}

/// Reads a whole text.
pub fn read_text<T: Drop, P: Parser<T>>(
    alloc: Global,
    parser: &P,
    bytes: &[u8],
) -> Result<T, ReadFault>
    // The value, or the refusal, of the text's tokens; a text that is too long has none.
    ensures { IsReadBy (P.reads parser.now) bytes.now result }
{
    if bytes.len() > LONGEST_FILE {
        return Err(ReadFault::Text(TextRefusal {
            line: 1,
            column: 1,
            why: TextWhy::Long,
        }));
    }
    let tokens = tokens(alloc, bytes)?;
    match parse_whole(alloc, parser, tokens.as_slice()) {
        Ok(value) => Ok(value),
        Err(ParseFault::Refused(refusal)) => Err(ReadFault::Text(tell(bytes, refusal))),
        Err(ParseFault::Memory) => Err(ReadFault::Memory),
    }
}
