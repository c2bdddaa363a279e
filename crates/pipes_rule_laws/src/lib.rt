//! Lemmas: each form of a rewriting rule means the same as what the rule makes of it.
#![tactic(auto)]
