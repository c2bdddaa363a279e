//! Queries that no text was read for: printed, they are read back. It has tests alone.
#![tactic(auto)]

#[cfg(test)]
mod printed;
