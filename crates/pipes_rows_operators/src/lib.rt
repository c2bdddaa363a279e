//! Worked examples of what operators keep, and of the operators, message by message. It has tests
//! alone.
#![tactic(auto)]

#[cfg(test)]
mod areas;
#[cfg(test)]
mod differences;
#[cfg(test)]
mod distincts;
#[cfg(test)]
mod flat;
#[cfg(test)]
mod groups;
#[cfg(test)]
mod holds;
#[cfg(test)]
mod joins;
