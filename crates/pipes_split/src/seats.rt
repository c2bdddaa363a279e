// A new book, with a seat for each thread that shares it.
ghost use Rattle.std.specs.Prelude.{◌≡◌, ◌≤◌, ◌-◌, [], ◌∷◌, map, replicate, IfOk, MatchOption};
ghost use Rattle.std.specs.Arc.{arc_value};
ghost use Rattle.pipes_split.specs.Views.{seat_view, blank, first_view};
ghost use Rattle.pipes_split.specs.Seats.{AreSeatsOf};

use crate::book::{SplitBook, SplitSeat};
use crate::rule::Blank;
use atomic_table::Table;
use pipes_time::Memory;
use std::alloc::Global;
use std::marker::Model;
use std::sync::Arc;

/// Seats of one book, in the order in which `pop` gives them.
#[derive(Drop)]
pub struct Seats {
    seats: Vec<SplitSeat>,
}

impl Model for Seats {
    ghost use Rattle.std.specs.Prelude.{List, reverse};
    ghost use Rattle.atomic_table.specs.declared.shared.Seat.{Seat};
    ghost use Rattle.pipes_split.specs.declared.views.View.{View};

    ghost Value = { List (Seat (Unit {0}) View) };

    ghost view = { λ s. reverse s.seats.items };
}

impl Seats {
    /// The next seat, if one is left.
    pub fn pop(&mut self) -> Option<SplitSeat>
        ensures { MatchOption result ((self.old ≡ []) × (self.new ≡ []))
            (λ seat. self.old ≡ seat ∷ self.new) }
    {
        self.seats.pop()
    }
}

impl SplitBook {
    /// A book in which nothing was raised, closed or halted, and so many seats of it, from 1 to 17.
    /// Their views are empty, but that the first seat is the one that closes epochs.
    pub fn new(alloc: Global, seats: u32) -> Result<(Arc<SplitBook>, Seats), Memory>
        requires { (1 ≤ seats) × (seats ≤ 17) }
        ensures book { IfOk result (λ r. AreSeatsOf (arc_value r.0) r.1) }
        ensures views { IfOk result
            (λ r. map seat_view r.1 ≡ first_view ∷ replicate (seats - 1) blank) }
    {
        let (table, mut first) = Table::of_words(alloc, &[0; 1_041], &())?;
        let book = Arc::new(alloc, SplitBook { table })?;
        let mut list = Vec::new(alloc);
        for _ in 1..seats {
            list.push(book.table.shared.split_seat::<Blank>(&mut first))?;
        }
        list.push(first)?;
        Ok((book, Seats { seats: list }))
    }
}
