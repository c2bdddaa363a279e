//! Values, and lists of them: tuples, keys and schemas; and the texts of values.
#![tactic(auto)]

mod appending;
mod bounded_list;
mod cols;
mod digits;
mod escape;
mod key;
mod read;
mod schema;
mod text;
mod tuple;
mod value;

pub use appending::{all_or_nothing, append, append_int, append_number, append_quoted};
pub use bounded_list::BoundedList;
pub use cols::Cols;
pub use digits::digits_value;
pub use escape::first_escape;
pub use key::Key;
pub use read::ValueRefusal;
pub use schema::Schema;
pub use text::{LONGEST_TEXT, Text, TextFault};
pub use tuple::{ProjectFault, Tuple};
pub use value::{Kind, Value};
