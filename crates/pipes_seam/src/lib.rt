//! Two plans' results joined at a split: what the output takes of both tops.
#![tactic(auto)]

mod seam;

pub use seam::Seam;
