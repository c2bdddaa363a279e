//! Worked examples of splits: the split book and its threads, elements cut at a split. It has tests
//! alone.
#![tactic(auto)]

#[cfg(test)]
mod splits;
