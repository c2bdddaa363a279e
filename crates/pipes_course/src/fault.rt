// Why a run does not end well.
use pipes_feed::RowWhy;

/// Why a run did not come to the end of its sources. Sources go by their numbers in the query,
/// counted from 0.
#[derive(Clone, Copy, Debug, PartialEq, Eq)]
pub enum RunFault {
    /// The file of a source is missing. Nothing was taken or written.
    Missing {
        /// The source's number.
        source: u32,
    },
    /// The search for the file of a source failed. Nothing was taken or written.
    Unfound {
        /// The source's number.
        source: u32,
    },
    /// A line of a source is refused.
    Row {
        /// The source's number.
        source: u32,
        /// The line, counted from 1.
        line: u64,
        /// Why.
        why: RowWhy,
    },
    /// A line of a source is past a limit.
    Limit {
        /// The source's number.
        source: u32,
        /// The line, counted from 1.
        line: u64,
    },
    /// A source was not read on.
    Unread {
        /// The source's number.
        source: u32,
    },
    /// A write failed.
    Write,
    /// Out of memory.
    Memory,
}
