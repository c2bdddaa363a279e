// Lists of columns.
use crate::BoundedList;

/// The places of columns, counted from 0: at most 32.
pub type Cols = BoundedList<u32, 32>;
