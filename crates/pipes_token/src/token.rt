// Tokens.
use crate::{Keyword, Refusal};
use pipes_tuple::Text;

/// The most bytes that a word has.
pub const LONGEST_WORD: usize = 64;

/// A sign.
#[derive(Clone, Copy, Debug, PartialEq, Eq)]
pub enum Sign {
    /// `(`
    Open,
    /// `)`
    Close,
    /// `[`
    OpenList,
    /// `]`
    CloseList,
    /// `,`
    Comma,
    /// `$`
    Dollar,
    /// `.`
    Point,
    /// `=`
    Equal,
    /// `<`
    Less,
    /// `<=`
    AtMost,
    /// `+`
    Plus,
    /// `-`
    Minus,
    /// `*`
    Star,
}

/// What a token is. The last one of a text is `Long`, `Cut`, `Byte` or `End`, and no other is.
#[derive(Debug, Drop, PartialEq, Eq)]
pub enum TokenKind {
    /// A sign.
    Sign(Sign),
    /// A word that is a keyword.
    Keyword(Keyword),
    /// A word that is no keyword.
    Name(Text),
    /// The number that the digits write, or the greatest `u64` where it is greater.
    Number(u64),
    /// The content of a string.
    Text(Text),
    /// A word of more than [`LONGEST_WORD`] bytes, or a string whose content has more bytes than a
    /// [`Text`].
    Long,
    /// A string that is refused within: at a byte that it can't have, or at the end of the text.
    Cut(Refusal),
    /// A byte that begins no token.
    Byte,
    /// The end of the text.
    End,
}

/// What stands at a place of a text.
#[derive(Debug, Drop, PartialEq, Eq)]
pub struct Token {
    /// The place of its first byte, counted in bytes from the start of the text.
    pub at: usize,
    /// What stands there.
    pub kind: TokenKind,
}
