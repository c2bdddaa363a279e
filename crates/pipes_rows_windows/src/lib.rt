//! Worked examples of windows over the items of a source. It has tests alone.
#![tactic(auto)]

#[cfg(test)]
mod windows;
