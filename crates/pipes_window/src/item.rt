// What a source gives.
use pipes_tuple::Tuple;

/// An item of a source. The stamps of a source's items never fall, and each is below the horizon.
#[derive(Debug, PartialEq, Eq, Drop)]
pub enum Item {
    /// A row: its stamp and its values.
    Row(u64, Tuple),
    /// A heartbeat: no later item has a smaller stamp.
    Beat(u64),
}
