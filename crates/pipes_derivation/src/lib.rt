//! Texts of derivations: their grammar, their reader, and how a derivation is printed.
#![tactic(auto)]

mod arg;
mod derivation;
mod path;
mod print;
mod read;
mod step;
mod take;

pub use derivation::Derivation;
pub use print::print_derivation;
pub use read::read_derivation;
