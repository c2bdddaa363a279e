//! Worked examples of values, and of messages with a watch over them. It has tests alone.
#![tactic(auto)]

#[cfg(test)]
mod streams;
#[cfg(test)]
mod values;
