//! Worked examples of the texts of queries and scripts. It has tests alone.
#![tactic(auto)]

#[cfg(test)]
mod queries;
#[cfg(test)]
mod scripts;
#[cfg(test)]
mod text;
