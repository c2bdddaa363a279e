//! What the entries of a run tell, and which entry may come next.
//!
//! The definitions stand in `specs/`, and laws of them in `proofs/`; there is no code to run.
#![tactic(auto)]
