//! The tokens of a text: of a query, of a script, of a derivation.
#![tactic(auto)]

mod bytes;
mod gap;
mod keyword;
mod lex;
mod place;
mod quoted;
mod read;
mod refusal;
mod token;

pub use keyword::{KEYWORDS, Keyword};
pub use lex::tokens;
pub use place::{LONGEST_FILE, tell};
pub use refusal::{ReadFault, Refusal, TextRefusal, TextWhy};
pub use token::{LONGEST_WORD, Sign, Token, TokenKind};
