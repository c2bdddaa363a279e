//! Worked examples of what is printed. It has tests alone.
#![tactic(auto)]

#[cfg(test)]
mod entries;
