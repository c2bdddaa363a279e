// What a seat knows. Contracts speak of it, and no value of these types is ever made.
use std::collections::LinkedList;

/// The kinds of step.
pub enum Kind {
    /// The book was made.
    Make,
    /// An end was raised.
    Raise,
    /// An epoch was closed.
    Close,
    /// A split word was read.
    Look,
    /// A halt word was set.
    Halt,
    /// A halt word was read.
    Halted,
    /// The seat came from another one.
    Split,
    /// The seat took in what another one knew.
    Join,
}

/// A step: its kind, its epoch or the number of its halt word, and the word that it found.
pub struct Act {
    /// Its kind.
    pub kind: Kind,
    /// Its epoch, or the number of its halt word.
    pub number: u64,
    /// The word that it found.
    pub found: u64,
}

/// What a seat knows. A map is a list of pairs, an epoch and a number in each.
pub struct View {
    /// How many steps it made.
    pub steps: u64,
    /// The last of them.
    pub last: Act,
    /// The ends that it registered, by epoch.
    pub ends: LinkedList<(u64, u64)>,
    /// The split times that it met, by epoch.
    pub splits: LinkedList<(u64, u64)>,
    /// The halt words that it set.
    pub asked: LinkedList<u64>,
    /// Split times that another seat met, between its note and the look that reads it.
    pub noted_splits: LinkedList<(u64, u64)>,
    /// Ends that another seat registered, likewise.
    pub noted_ends: LinkedList<(u64, u64)>,
    /// Whether this is the seat that closes epochs.
    pub closes: bool,
}
