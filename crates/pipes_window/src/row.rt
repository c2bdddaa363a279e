// Rows.
use pipes_tuple::Tuple;

// A row of a source.
#[derive(Drop)]
pub(crate) struct Row {
    pub stamp: u64,
    pub tuple: Tuple,
}
