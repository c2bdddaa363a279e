//! What a run writes: entries, each with its one line, and the normal text of results.
#![tactic(auto)]

mod change;
mod cursor;
mod entries;
mod entry;
mod fault;
mod form;
mod literal;
mod normal;
mod period;
mod read;
mod sweep;
mod write;

pub use entries::Entries;
pub use entry::{Entry, RefusedWhy};
pub use fault::EntryFault;
pub use form::Form;
pub use normal::Normal;
pub use period::Period;
pub use write::push_fields;
