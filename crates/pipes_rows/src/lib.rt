//! Worked examples of the program and of plans. It has tests alone: what a contract says exactly
//! needs none, so these show what no clause says, that ample memory is no reason to give up, and
//! tables against the definitions, worked out by hand.
#![tactic(auto)]

#[cfg(test)]
mod derivations;
#[cfg(test)]
mod late;
#[cfg(test)]
mod plans;
#[cfg(test)]
mod program;
#[cfg(test)]
mod runs;
