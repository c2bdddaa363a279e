// Where the last migration stands.

/// Where the last migration stands.
#[derive(Clone, Copy, Debug)]
pub(crate) enum Stage {
    /// None is in progress.
    Calm,
    /// One with this split is in progress, and was told to be idle or not.
    Moving { split: u64, idle: bool },
}
