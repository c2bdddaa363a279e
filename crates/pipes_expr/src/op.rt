// The operators between the two sides of an expression.

/// What an expression makes of the values of its two sides.
#[derive(Clone, Copy, Debug, PartialEq, Eq)]
pub enum Op {
    /// The sum of two integers, clamped to 64 bits.
    Add,
    /// Their difference, clamped to 64 bits.
    Sub,
    /// Their product, clamped to 64 bits.
    Mul,
    /// Whether two values of one kind are equal.
    Eq,
    /// Whether the first is below the second.
    Lt,
    /// Whether the first is at most the second.
    Le,
    /// Whether both flags are true.
    And,
    /// Whether one of two flags is true.
    Or,
}
