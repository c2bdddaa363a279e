//! The entries of a run on their way out, in the stream form and in the normal form.
#![tactic(auto)]

mod typed;
mod writer;

pub use writer::Writer;
