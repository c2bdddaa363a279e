// The book, whose words the steps of its seats change.
use crate::rule::BookRule;
use crate::views::View;
use atomic_table::{Seat, Table};
use std::alloc::Global;
use std::marker::Model;

/// The number of epochs, which are counted from 0.
pub const EPOCHS: u32 = 1_025;

/// The last epoch, which is never closed.
pub const LAST_EPOCH: u32 = 1_024;

/// The number of halt words, which are counted from 0.
pub const HALTS: u32 = 16;

/// A seat of a book, with which a thread makes its steps. It has no bytes.
pub type SplitSeat = Seat<(), View>;

/// A book: for each epoch a word with the greatest end that was raised there, until it is closed,
/// and 16 words by which one thread asks another to halt. Threads share it after an `Arc`.
/// Contracts see which book it is.
#[derive(Drop)]
pub struct SplitBook {
    pub(crate) table: Table<(), View, (), BookRule, Global>,
}

impl Model for SplitBook {
    ghost use Rattle.std.specs.Prelude.{◌≡◌};
    ghost use Rattle.atomic_table.specs.Seated.{TableId, table_id_coded};
    ghost use Rattle.pipes_split.specs.Views.{all_words};

    ghost Value = { TableId };

    ghost coded = { table_id_coded };

    ghost view = { λ b. b.table.shared.table_id };

    ghost invariant = { λ b. b.table.shared.table_id.words ≡ all_words };
}

/// What became of an end that was raised.
#[derive(Clone, Copy, Debug, Drop, PartialEq, Eq)]
pub enum Raised {
    /// It is registered in the epoch.
    Free,
    /// The epoch was closed before, with this split time.
    Cut(u64),
}
