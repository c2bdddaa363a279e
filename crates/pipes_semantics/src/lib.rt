//! What queries mean: the answer of a query at an instant, and what written entries have to do with
//! it.
//!
//! The definitions stand in `specs/`, and lemmas about them in `proofs/`; there is no code to run.
#![tactic(auto)]
