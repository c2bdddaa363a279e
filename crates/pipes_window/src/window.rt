// Windows: each row's validity, as soon as it is known.
ghost use Rattle.std.specs.Prelude.{◌≡◌, ℕ, ◌≤◌, ◌<◌, List, [], ◌∷◌, ◌++◌, ◌↔◌, false, length};
ghost use Rattle.std.specs.Prelude.{slice_get, IfSome, IsSome, IsErr, OnOk, OnErr};
ghost use Rattle.std.specs.Bool.{OnTrue};
ghost use Rattle.pipes_window.specs.declared.item.Item.{Item};
ghost use Rattle.pipes_window.specs.declared.item.Item.TheVariants as items;
ghost use Rattle.std.specs.List.{flat_map};
ghost use Rattle.std.specs.Option.{option_map_or};
ghost use Rattle.pipes_window.specs.Windows.{IsWindow, each_row, elem_between, elem_of, fixed_span};
ghost use Rattle.pipes_window.specs.Windows.{most_rows, waiting_of, window_beat};
ghost use Rattle.pipes_window.specs.Laws.{IsHeartbeat, SpansAreRows};
ghost use Rattle.pipes_window.specs.State.{WindowFails, WindowFinishes, WindowHasTaken};
ghost use Rattle.pipes_window.specs.State.{WindowTakes, new_state};

use crate::WindowKind;
use crate::ring::slide;
use crate::row::Row;
use pipes_stream::Elem;
use pipes_time::{CLOSED, HORIZON, Interval, Memory, next_slide, slide_span, time_span};
use pipes_tuple::Tuple;
use std::alloc::Global;
use std::collections::VecDeque;
use std::marker::Model;

/// The window of one source. It takes the source's items in their order, and gives each row, as an
/// element, as soon as it is known how long the row is valid.
///
/// A time or sliding window holds no rows, a count window of N at most the last N.
#[derive(Drop)]
pub struct Window {
    kind: WindowKind,
    rows: VecDeque<Row>,
    last: u64,
    ended: bool,
    failed: bool,
}

impl Model for Window {
    ghost use Rattle.pipes_window.specs.State.{State};
    ghost use Rattle.std.specs.Prelude.{◌≤◌, ◌<◌, length};
    ghost use Rattle.pipes_time.specs.Interval.{horizon};
    ghost use Rattle.pipes_window.specs.Windows.{IsWindow, most_rows};

    ghost Value = { State };

    ghost view = { λ w.
        record {
          kind = w.kind;
          rows = w.rows.items;
          last = w.last;
          ended = w.ended;
          failed = w.failed;
        } };

    ghost invariant = { λ w. IsWindow w.kind × (length w.rows.items ≤ most_rows w.kind)
        × (w.last < horizon) };
}

// Appends the tuple with its validity, if it has any.
fn send(tuple: Tuple, span: Option<Interval>, out: &mut Vec<Elem>) -> Result<(), Memory>
    ensures sent { OnOk result (out.new.items ≡ out.old.items ++ elem_of tuple span) }
    ensures kept { OnErr result (out.new.items ≡ out.old.items) }
{
    if let Some(span) = span {
        out.push(Elem { tuple, span })?;
    }
    Ok(())
}

// The row joins those that wait, and the one whose end it fixes is appended.
fn pass(
    kind: WindowKind,
    rows: &mut VecDeque<Row>,
    row: Row,
    out: &mut Vec<Elem>,
) -> Result<(), Memory>
    requires limits { IsWindow kind }
    requires few { length rows.old.items ≤ most_rows kind }
    requires below { row.stamp < HORIZON }
    ensures rows { OnOk result (rows.new.items ≡ waiting_of kind (rows.old.items ++ row ∷ [])) }
    ensures sent { OnOk result
        (out.new.items ≡ out.old.items ++ each_row fixed_span kind (rows.old.items ++ row ∷ [])) }
    ensures kept { OnErr result (out.new.items ≡ out.old.items) }
    ensures few { length rows.new.items ≤ most_rows kind }
{
    match kind {
        WindowKind::Time(size) => send(row.tuple, time_span(row.stamp, size), out),
        WindowKind::Slide(size, slide) => send(row.tuple, slide_span(row.stamp, size, slide), out),
        WindowKind::Count(most) => {
            let stamp = row.stamp;
            match slide(rows, most as usize, row)? {
                Some(oldest) => send(oldest.tuple, Interval::new(oldest.stamp, stamp), out),
                None => Ok(()),
            }
        }
    }
}

// Appends the rows that wait, each up to the horizon.
fn flush(rows: &mut VecDeque<Row>, out: &mut Vec<Elem>) -> Result<(), Memory>
    ensures sent { OnOk result
        (out.new.items ≡ out.old.items ++ flat_map
        (λ row. elem_between row.tuple row.stamp HORIZON) rows.old.items) }
    ensures rows { OnOk result (rows.new.items ≡ []) }
    ensures kept { OnErr result (out.new.items ≡ out.old.items) }
    ensures few { length rows.new.items ≤ length rows.old.items }
{
    let before = out.len();
    'rows: while let Some(row) = rows.pop_front() {
        if send(row.tuple, Interval::new(row.stamp, HORIZON), out).is_err() {
            out.truncate(before);
            return Err(Memory);
        }
    }
    Ok(())
}

impl Window {
    /// A window that has taken nothing, unless its kind is outside the limits: 1 to [`HORIZON`]
    /// instants, 1 to 1,000,000 rows.
    pub fn new(alloc: Global, kind: WindowKind) -> Option<Window>
        ensures exact { IsSome result ↔ IsWindow kind }
        ensures value { IfSome result (λ window. window ≡ new_state kind) }
        ensures taken { IfSome result (λ window. WindowHasTaken [] window) }
    {
        if !kind.is_within_limits() {
            return None;
        }
        Some(Window {
            kind,
            rows: VecDeque::new(alloc),
            last: 0,
            ended: false,
            failed: false,
        })
    }

    /// Takes a row, and appends the element whose end it fixes, if there is one. A window that was
    /// once out of memory answers so from then on.
    pub fn take(&mut self, stamp: u64, tuple: Tuple, out: &mut Vec<Elem>) -> Result<(), Memory>
        requires order { self.old.last ≤ stamp }
        requires below { stamp < HORIZON }
        requires goes_on { self.old.ended ≡ false }
        ensures takes { OnOk result
            (WindowTakes self.old self.new (items.Row stamp tuple) out.old.items out.new.items) }
        ensures memory { OnErr result (WindowFails self.old self.new out.old.items out.new.items) }
        ensures failed { OnTrue self.old.failed (IsErr result) }
    {
        if self.failed {
            return Err(Memory);
        }
        if pass(self.kind, &mut self.rows, Row { stamp, tuple }, out).is_err() {
            self.failed = true;
            return Err(Memory);
        }
        self.last = stamp;
        Ok(())
    }

    /// Takes a heartbeat.
    pub fn beat(&mut self, stamp: u64)
        requires order { self.old.last ≤ stamp }
        requires below { stamp < HORIZON }
        requires goes_on { self.old.ended ≡ false }
        ensures { WindowTakes self.old self.new (items.Beat stamp) [] [] }
    {
        self.last = stamp;
    }

    /// Ends the source, and appends the elements that are left: those of the rows whose ends no row
    /// has fixed, up to [`HORIZON`].
    pub fn finish(&mut self, out: &mut Vec<Elem>) -> Result<(), Memory>
        requires { self.old.ended ≡ false }
        ensures finishes { OnOk result
            (WindowFinishes self.old self.new out.old.items out.new.items) }
        ensures memory { OnErr result (WindowFails self.old self.new out.old.items out.new.items) }
        ensures failed { OnTrue self.old.failed (IsErr result) }

        // So all that was appended since the start is, at each instant, the rows that are valid
        // then.
        ensures rows { (items : List Item) → WindowHasTaken items self.old
            → SpansAreRows self.old.kind items }
    {
        if self.failed {
            return Err(Memory);
        }
        if flush(&mut self.rows, out).is_err() {
            self.failed = true;
            return Err(Memory);
        }
        self.ended = true;
        Ok(())
    }

    /// The greatest stamp taken, 0 at first.
    pub fn last(&self) -> u64
        ensures { result ≡ self.now.last }
    {
        self.last
    }

    // The stamp of the oldest row whose end is not fixed, or else the greatest stamp.
    fn oldest_stamp(&self) -> u64
        ensures { result ≡ option_map_or (λ row. row.stamp)
            (slice_get self.now.rows 0) self.now.last }
    {
        match self.rows.front() {
            Some(row) => row.stamp,
            None => self.last,
        }
    }

    /// The heartbeat: an element that is yet to be appended starts at it or above. It is [`CLOSED`]
    /// once the window has ended.
    pub fn beat_now(&self) -> u64
        ensures value { (items : List Item) → WindowHasTaken items self.now
            → result ≡ window_beat self.now.kind items self.now.ended }
        ensures later { (items : List Item) → WindowHasTaken items self.now
            → IsHeartbeat self.now.kind items }
    {
        if self.ended {
            return CLOSED;
        }
        match self.kind {
            WindowKind::Time(_) => self.last,
            WindowKind::Slide(_, slide) => next_slide(self.last, slide).min(HORIZON),
            WindowKind::Count(_) => self.oldest_stamp(),
        }
    }
}
