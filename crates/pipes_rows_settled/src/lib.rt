//! Worked examples of normal texts that are written line by line. It has tests alone.
#![tactic(auto)]

#[cfg(test)]
mod lines;
