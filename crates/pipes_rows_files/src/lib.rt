//! Worked examples of files, sources and sinks. It has tests alone.
#![tactic(auto)]

#[cfg(test)]
mod files;
