//! Worked examples of derivations: what is printed of one that was read, where and why a text is
//! refused, and what the steps of each rule make of a plan. It has tests alone.
#![tactic(auto)]

#[cfg(test)]
mod sources;
#[cfg(test)]
mod steps;
#[cfg(test)]
mod texts;
