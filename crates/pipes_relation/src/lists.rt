// The pairs of joins and the aggregates of groups.
use pipes_tuple::BoundedList;

/// A column of a join's left side and one of its right side.
#[derive(Clone, Copy, Debug, PartialEq, Eq)]
pub struct Pair {
    /// The place of the left side's column, counted from 0.
    pub left: u32,
    /// The place of the right side's column, counted from 0.
    pub right: u32,
}

/// What a group's rows are summed up to. The numbers are those of columns.
#[derive(Clone, Copy, Debug, PartialEq, Eq)]
pub enum Agg {
    /// The number of rows, clamped to 64 bits.
    Count,
    /// The exact sum of an integer column, clamped once to 64 bits.
    Sum(u32),
    /// The least value of a column, of any kind.
    Min(u32),
    /// The greatest value of a column, of any kind.
    Max(u32),
    /// The exact sum of an integer column over the number of rows, rounded down.
    Avg(u32),
}

/// At most 32 pairs.
pub type Pairs = BoundedList<Pair, 32>;

/// At most 32 aggregates.
pub type Aggs = BoundedList<Agg, 32>;
