// The leaves of a plan at work.

/// A leaf of a plan at work: the place of its node, and the number of its source.
#[derive(Clone, Copy, Debug)]
pub struct Leaf {
    pub(crate) node: usize,
    pub(crate) source: u32,
}
