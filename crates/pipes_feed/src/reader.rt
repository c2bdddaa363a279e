// The reader of arrivals.
ghost use Rattle.std.specs.Prelude.{◌≡◌, ◌≢◌, ◌≤◌, ◌<◌, ◌∷◌, List, length, IfOk, IfSome, IfNone};
ghost use Rattle.std.specs.Prelude.{Some, None, ⊤};
ghost use Rattle.pipes_edge.specs.Causes.{Rose};
ghost use Rattle.pipes_line.specs.Lines.{Line};
ghost use Rattle.pipes_line.specs.Lines as lines;
ghost use Rattle.pipes_feed.specs.Ahead.{arrivals_ahead, TakesArrival, StepsAhead, ArrivalFollows};
ghost use Rattle.pipes_feed.specs.Ahead.{PassesLine, IsPassed, NoneWaits, MatchNext};
ghost use Rattle.pipes_feed.specs.Reached.{stamp_floor, most_bytes};
ghost use Rattle.pipes_feed.specs.Items as items;
ghost use Rattle.pipes_feed.specs.Items.{arrivals_from};
ghost use Rattle.pipes_feed.specs.State.{fresh_reader};

use crate::line::{Verdict, judge, size_of};
use crate::place::{MOST_BYTES, Place};
use crate::{Reason, RowWhy};
use pipes_edge::Source;
use pipes_line::{LineReader, NextLine, Record};
use pipes_time::Memory;
use pipes_tuple::Schema;
use pipes_window::Item;
use std::alloc::Global;
use std::marker::Model;

/// What a reader answers.
#[derive(Debug, Drop)]
pub enum Next {
    /// An arrival.
    Item(Item),
    /// The end: nothing follows.
    Ended(Reason),
}

/// Reads the arrivals of a source: its rows and heartbeats in file order.
#[derive(Drop)]
pub struct ItemReader {
    alloc: Global,
    schema: Schema,
    slack: u64,
    lines: LineReader,
    fields: Record,
    place: Place,
    ended: Option<Reason>,
}

impl Model for ItemReader {
    ghost use Rattle.pipes_feed.specs.State.{ReaderState};

    ghost Value = { ReaderState };

    ghost view = { λ r. record {
      kinds = r.schema;
      slack = r.slack;
      reached = r.place;
      unread =
          r.lines.unread;
      ended = r.ended;
    } };
}

impl ItemReader {
    /// A reader that has read nothing, of a source with columns of these kinds, whose rows may come
    /// late by up to the slack, a number of instants.
    pub fn new(alloc: Global, schema: &Schema, slack: u64) -> Result<ItemReader, Memory>
        ensures { IfOk result (λ reader. reader ≡ fresh_reader schema.now slack) }
    {
        Ok(ItemReader {
            alloc,
            schema: schema.copy()?,
            slack,
            lines: LineReader::new(alloc)?,
            fields: Record::new(alloc),
            place: Place::new(),
            ended: None,
        })
    }

    /// The next arrival, or how the arrivals end. The source is that of the earlier calls.
    ///
    /// A failed read is reported only where no arrival and no refused line waits whole among the
    /// bytes read before. After the end, out of memory among its reasons, the same end is reported
    /// and nothing is read.
    pub fn next<S: Source>(&mut self, src: &mut S) -> Next
        ensures takes { self.old.ended ≡ None → TakesArrival
            (arrivals_ahead self.old (S.left src.old))
            (arrivals_ahead self.new (S.left src.new)) result }
        ensures follows { MatchNext result (ArrivalFollows self.old.kinds self.old.slack
            self.old.reached self.new.reached) (λ _. ⊤) }
        ensures kinds { self.new.kinds ≡ self.old.kinds }
        ensures slack { self.new.slack ≡ self.old.slack }
        ensures ended { MatchNext result (λ _. (self.old.ended ≡ None) × (self.new.ended ≡ None))
            (λ reason. self.new.ended ≡ Some reason) }
        ensures waiting { self.old.ended ≡ None → result ≡ Next.Ended Reason.Failed
            → NoneWaits self.old }
        ensures same { IfSome self.old.ended (λ reason. (result ≡ Next.Ended reason)
            × (self.new ≡ self.old) × (src.new ≡ src.old)) }
        ensures later { S.faults src.old ≤ S.faults src.new }
        ensures cause { self.old.ended ≡ None → result ≡ Next.Ended Reason.Failed
            → Rose (S.faults src.old) (S.faults src.new) }
        ensures name { S.name src.new ≡ S.name src.old }
        ensures found_at { S.found_at src.new ≡ S.found_at src.old }
    {
        if let Some(reason) = self.ended {
            return Next::Ended(reason);
        }
        'lines: loop {
            let Some(next) = self.step(src) else {
                continue;
            };
            if let Next::Ended(reason) = &next {
                self.ended = Some(*reason);
            }
            return next;
        }
    }

    /// The least stamp that a later arrival may have: the greatest stamp of a row so far less the
    /// slack, or the greatest of a heartbeat.
    pub fn floor(&self) -> u64
        ensures { result ≡ stamp_floor self.now.slack self.now.reached }
    {
        self.place.floor(self.slack)
    }

    // Reads a line; none where it is passed over.
    fn step<S: Source>(&mut self, src: &mut S) -> Option<Next>
        ensures steps { StepsAhead (arrivals_ahead self.old (S.left src.old))
            (arrivals_ahead self.new (S.left src.new)) result }
        ensures follows { IfSome result (λ next. MatchNext next
            (ArrivalFollows self.old.kinds self.old.slack self.old.reached self.new.reached)
            (λ _. ⊤)) }
        ensures passes { IfNone result (PassesLine self.old.reached self.new.reached) }
        ensures kinds { self.new.kinds ≡ self.old.kinds }
        ensures slack { self.new.slack ≡ self.old.slack }
        ensures ended { self.new.ended ≡ self.old.ended }
        ensures waiting { result ≡ Some (Next.Ended Reason.Failed) → NoneWaits self.old }
        ensures passed { result ≡ None → NoneWaits self.new → NoneWaits self.old }
        ensures later { S.faults src.old ≤ S.faults src.new }
        ensures cause { result ≡ Some (Next.Ended Reason.Failed)
            → Rose (S.faults src.old) (S.faults src.new) }
        ensures name { S.name src.new ≡ S.name src.old }
        ensures found_at { S.found_at src.new ≡ S.found_at src.old }
    {
        let most = (MOST_BYTES - self.place.bytes()) as usize;
        match self.lines.next_line(src, most) {
            NextLine::Line(ended) => take_line(
                self.alloc,
                &self.schema,
                self.slack,
                &mut self.place,
                self.lines.line(),
                ended,
                &mut self.fields,
            ),
            NextLine::End => Some(Next::Ended(end_after(&self.place))),
            NextLine::Long => Some(Next::Ended(Reason::Limit {
                line: self.place.lines() + 1,
            })),
            NextLine::Failed => Some(Next::Ended(Reason::Failed)),
            NextLine::Memory => Some(Next::Ended(Reason::Memory)),
        }
    }
}

// How the items end where no line is left.
fn end_after(place: &Place) -> Reason
    ensures { result ≡ items.end_after place.now }
{
    if place.lines() == 0 {
        Reason::Row {
            line: 1,
            why: RowWhy::Header,
        }
    } else {
        Reason::AtEnd
    }
}

// TakesArrival a line; none where it is passed over.
#[tactic(auto, unfolding(crate::specs::Items::arrivals_from))]
fn take_line(
    alloc: Global,
    schema: &Schema,
    slack: u64,
    place: &mut Place,
    text: &[u8],
    ended: bool,
    fields: &mut Record,
) -> Option<Next>
    requires some { 0 < lines.size_of (record { text = text.now; ended = ended }) }
    requires short { length text.now ≤ most_bytes }
    ensures steps { (more : List Line)
        → StepsAhead (Some (arrivals_from schema.now slack place.old
        (record { text = text.now; ended = ended } ∷ more)))
        (Some (arrivals_from schema.now slack place.new more)) result }
    ensures follows { IfSome result
        (λ next. MatchNext next (ArrivalFollows schema.now slack place.old place.new) (λ _. ⊤)) }
    ensures passes { IfNone result (PassesLine place.old place.new) }
    ensures reads { result ≢ Some (Next.Ended Reason.Failed) }
    ensures passed { result ≡ None → IsPassed schema.now slack place.old place.new
        (record { text = text.now; ended = ended }) }
{
    let Ok(verdict) = judge(alloc, schema, slack, place, text, ended, fields) else {
        return Some(Next::Ended(Reason::Memory));
    };
    let size = size_of(text, ended);
    let line = place.lines() + 1;
    match verdict {
        Verdict::Pass => {
            place.pass(size);
            None
        }
        Verdict::Give(item) => {
            place.give(size, &item);
            Some(Next::Item(item))
        }
        Verdict::Refuse(why) => Some(Next::Ended(Reason::Row { line, why })),
        Verdict::Limit => Some(Next::Ended(Reason::Limit { line })),
    }
}
