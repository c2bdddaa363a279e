//! Worked examples of two streams that are merged at a split. It has tests alone.
#![tactic(auto)]

#[cfg(test)]
mod merges;
