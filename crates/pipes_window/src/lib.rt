//! The items of a source, and windows over them, which give each row its validity.
#![tactic(auto)]

mod item;
mod kind;
mod ring;
mod row;
mod rows_at;
mod whole;
mod window;

pub use item::Item;
pub use kind::WindowKind;
pub use rows_at::RowsAt;
pub use whole::elements;
pub use window::Window;
