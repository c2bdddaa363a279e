// Lists of entries.
ghost use Rattle.std.specs.Prelude.{◌≡◌};

use pipes_output::Entry;
use std::marker::Model;

/// A list of entries, in the order in which they were made.
#[derive(Debug, Drop)]
pub struct Entries {
    pub(crate) list: Vec<Entry>,
}

impl Model for Entries {
    ghost use Rattle.std.specs.Prelude.{List};
    ghost use Rattle.pipes_output.specs.declared.entry.Entry.{Entry as Item};

    ghost Value = { List Item };

    ghost view = { λ e. e.list.items };
}

impl Entries {
    /// The entries, in order.
    pub fn as_slice(&self) -> &[Entry]
        ensures { result.now ≡ self.now }
    {
        self.list.as_slice()
    }

    /// The entries, in order, each to be handed on.
    pub fn into_vec(self) -> Vec<Entry>
        ensures { result.items ≡ self }
    {
        self.list
    }
}
