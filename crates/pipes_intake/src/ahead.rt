// A reader with one arrival read ahead.
ghost use Rattle.std.specs.Prelude.{◌≡◌, ◌≤◌, ◌<◌, ◌+◌, ◌++◌, ◌∷◌, [], List, ℕ, Option, IfOk};
ghost use Rattle.pipes_tuple.specs.declared.value.Kind.{Kind};
ghost use Rattle.pipes_window.specs.declared.item.Item.{Item as Arrival};
ghost use Rattle.pipes_feed.specs.declared.reason.Reason.{Reason as Why};

use pipes_edge::Source;
use pipes_feed::{Item, ItemReader, Next};
use pipes_query::SourceDecl;
use pipes_time::Memory;
use std::alloc::Global;
use std::mem::replace;

/// A reader of a source's arrivals, the next one, or the end, read ahead.
#[derive(Drop)]
pub struct Ahead {
    reader: ItemReader,
    next: Next,
}

impl Ahead {
    ghost use Rattle.pipes_intake.specs.Ahead.{HasTaken, turns_left, turn_of};

    /// A reader of the source that a query declares so. It reads the first arrival.
    pub fn new<S: Source>(alloc: Global, source: &SourceDecl, src: &mut S) -> Result<Ahead, Memory>
        ensures taken { IfOk result (λ ahead. HasTaken source.now.schema source.now.slack
            (S.left src.old) (S.left src.new) (S.faults src.old) (S.faults src.new) ahead []) }
        ensures later { S.faults src.old ≤ S.faults src.new }
        ensures name { S.name src.new ≡ S.name src.old }
        ensures found_at { S.found_at src.new ≡ S.found_at src.old }
    {
        let mut reader = ItemReader::new(alloc, &source.schema, source.slack)?;
        let next = reader.next(src);
        Ok(Ahead { reader, next })
    }

    /// When the next one has its turn: an end first, an arrival by its stamp.
    pub fn turn(&self) -> u64
        ensures { result ≡ turn_of self.now.next }
    {
        match &self.next {
            Next::Item(Item::Row(stamp, _)) => stamp.saturating_add(1).min(u64::MAX - 1),
            Next::Item(Item::Beat(stamp)) => stamp.saturating_add(1).min(u64::MAX - 1),
            Next::Ended(_) => 0,
        }
    }

    /// Takes the next arrival, and reads the one after it ahead; or tells how they end.
    pub fn take<S: Source>(&mut self, src: &mut S) -> Next
        ensures next { result ≡ self.old.next }
        ensures more { (item : Arrival) → result ≡ Next.Item item → (kinds : List Kind) (slack : ℕ)
            (first : Option (List ℕ)) (before : ℕ) (taken : List Arrival)
            → HasTaken kinds slack first (S.left src.old) before (S.faults src.old) self.old taken
            → HasTaken kinds slack first (S.left src.new) before (S.faults src.new) self.new
            (taken ++ item ∷ []) }
        ensures fewer { (item : Arrival) → result ≡ Next.Item item → (kinds : List Kind) (slack : ℕ)
            (first : Option (List ℕ)) (before : ℕ) (taken : List Arrival)
            → HasTaken kinds slack first (S.left src.old) before (S.faults src.old) self.old taken
            → turns_left self.new < turns_left self.old }
        ensures ended { (why : Why) → result ≡ Next.Ended why → (kinds : List Kind) (slack : ℕ)
            (first : Option (List ℕ)) (before : ℕ) (taken : List Arrival)
            → HasTaken kinds slack first (S.left src.old) before (S.faults src.old) self.old taken
            → (self.new ≡ self.old) × (src.new ≡ src.old) }
        ensures later { S.faults src.old ≤ S.faults src.new }
        ensures name { S.name src.new ≡ S.name src.old }
        ensures found_at { S.found_at src.new ≡ S.found_at src.old }
    {
        let next = self.reader.next(src);
        replace(&mut self.next, next)
    }
}
