// Why an expression or a plan is refused.

/// Why an expression or a node of a plan is refused.
#[derive(Clone, Copy, Debug, PartialEq, Eq)]
pub enum Why {
    /// More than 255 nodes, of the plan or of one of its expressions.
    TooMany,
    /// More than 32 nodes on a path from a root to a leaf, of the plan or of one of its
    /// expressions.
    TooDeep,
    /// There is no source with this number.
    NoSource,
    /// There is no column with this number.
    NoColumn,
    /// A value or a schema isn't of the kind that is needed.
    WrongKind,
    /// A row would have no values, or more than 32.
    Width,
}
