//! What a query and a script are: sources with their columns and windows, a plan over them, and the
//! commands by which a run goes.
#![tactic(auto)]

mod query;
mod script;

pub use query::{ColumnNames, Query, SourceDecl, Sources, names_of};
pub use script::{Command, Commands, Mode, Names, Script};
