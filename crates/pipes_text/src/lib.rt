//! Texts of queries and scripts: their grammars, their readers, and how a query is printed.
#![tactic(auto)]

mod mark;
mod print;
mod read;
mod script;
mod source;
mod take;

pub use print::{print_plan, print_query};
pub use read::read_query;
pub use script::read_script;
