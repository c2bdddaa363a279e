//! Readers of texts: what holds of a reader of tokens, how readers are put together, and the
//! readers of one token.
#![tactic(auto)]

mod cursor;
mod fault;
mod many;
mod refusals;
mod text;
mod tokens;

pub use cursor::Cursor;
pub use fault::ParseFault;
pub use many::{Entries, many_within};
pub use refusals::{place_of, ran_out, refused, refused_as, too_deep, too_many};
pub use text::{Parser, read_text};
pub use tokens::{is_taken, name_refused, take_number, take_text, unless_taken};
