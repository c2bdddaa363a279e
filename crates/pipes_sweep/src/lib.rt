//! What operators keep of the elements that they took.
#![tactic(auto)]

mod area;
mod end_index;
mod hold;
mod key_elems;
mod key_index;
mod sending;
mod steps;
mod store;

pub use area::Area;
pub use hold::Hold;
pub use key_elems::KeyElems;
pub use sending::{append_progress, send_due};
pub use steps::Steps;
pub use store::Store;
