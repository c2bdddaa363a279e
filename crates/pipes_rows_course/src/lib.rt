//! Worked runs: outputs that the definitions of a run's course accept, and outputs that they
//! refuse.
//!
//! All stands in `proofs/`; there is no code to run.
#![tactic(auto)]
