// Scripts as values.
use pipes_tuple::{BoundedList, Text};

/// How a run is driven.
#[derive(Clone, Copy, Debug, PartialEq, Eq)]
pub enum Mode {
    /// The script says how many rows of which source are taken, in one thread.
    Inline,
    /// Each source is read by a thread of its own.
    Threaded,
}

/// A command of a script.
#[derive(Clone, Copy, Debug, PartialEq, Eq)]
pub enum Command {
    /// Take up to so many rows and heartbeats of the source with this number in the query. Only
    /// inline.
    Feed(u32, u64),
    /// Take all that is left of all sources. Only inline.
    Rest,
    /// Wait until the heartbeats of all sources have reached this instant. Only threaded.
    Await(u64),
    /// Replace the plan as the derivation says whose file has this place in the script's list.
    Migrate(u32),
    /// Write all results that are certain.
    Drain,
}

/// At most 65,536 commands.
pub type Commands = BoundedList<Command, 65536>;

/// At most 2,048 names of files.
pub type Names = BoundedList<Text, 2048>;

/// A script.
#[derive(Debug, Drop, PartialEq, Eq)]
pub struct Script {
    /// The commands, in order.
    pub commands: Commands,
    /// The files that the commands name, each once, in the order in which they are first named.
    pub files: Names,
}
