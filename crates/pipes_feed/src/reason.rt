// How the arrivals of a source end.
use pipes_tuple::ValueRefusal;

/// Why a line is refused.
#[derive(Clone, Copy, Debug, PartialEq, Eq)]
pub enum RowWhy {
    /// Line 1 is missing, or is not one record with a field more than the source has columns.
    Header,
    /// The line has several records, or a record of another number of fields than one or a
    /// header's.
    Fields,
    /// The first field is not one or more digits.
    Stamp,
    /// The stamp is not below the horizon.
    Range,
    /// The stamp is below the floor: the greatest stamp of a row before less the slack, or the
    /// greatest of a heartbeat before.
    Falling {
        /// The stamp.
        stamp: u64,
        /// The floor.
        last: u64,
    },
    /// A field is no value of its column's kind.
    Value {
        /// The column, counted from 0.
        column: u32,
        /// Why. Never out of memory.
        why: ValueRefusal,
    },
}

/// How the arrivals of a source end.
#[derive(Clone, Copy, Debug, PartialEq, Eq)]
pub enum Reason {
    /// All lines were read.
    AtEnd,
    /// A line was refused.
    Row {
        /// The line, counted from 1.
        line: u64,
        /// Why.
        why: RowWhy,
    },
    /// A read failed.
    Failed,
    /// A line is past a limit of bytes or of arrivals.
    Limit {
        /// The line, counted from 1.
        line: u64,
    },
    /// Out of memory.
    Memory,
}
