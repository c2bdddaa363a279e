// The arrivals of one source, as elements.
ghost use Rattle.std.specs.Prelude.{◌≡◌, ◌≤◌, ◌<◌, ◌-◌, max, List, [], false, true, IfSome, IsSome, IsErr};
ghost use Rattle.std.specs.Prelude.{OnOk, OnErr, ◌↔◌, ◌++◌};
ghost use Rattle.std.specs.Bool.{OnTrue};
ghost use Rattle.pipes_stream.specs.declared.Elem.{Elem as AnElem};
ghost use Rattle.pipes_window.specs.declared.item.Item.{Item as AnItem};
ghost use Rattle.pipes_window.specs.Items.{item_stamp, RisesFrom};
ghost use Rattle.pipes_window.specs.Windows.{IsWindow, window_beat};
ghost use Rattle.pipes_feed.specs.Reached.{newest_after, beat_after};
ghost use Rattle.pipes_feed.specs.Released.{released};
ghost use Rattle.pipes_arrivals.specs.Arriving.{HasArrived, HasFinished, floor_of, new_arriving};
ghost use Rattle.pipes_arrivals.specs.Laws.{OfArrivals, AreRowsInOrder, IsArrivalBeat};
ghost use Rattle.pipes_arrivals.specs.Taking.{ArrivalsFail, ArrivalsFinish, ArrivalsTake};

use crate::passing::{pass_arrival, pass_rest};
use pipes_feed::Reorder;
use pipes_stream::Elem;
use pipes_time::{CLOSED, HORIZON, Memory};
use pipes_window::{Item, Window, WindowKind};
use std::alloc::Global;
use std::marker::Model;

/// The arrivals of one source on their way to elements. Rows may come late by up to the slack, a
/// number of instants: those that a later one may still come before wait, and each becomes an
/// element as soon as it is known how long it is valid.
#[derive(Drop)]
pub struct Arrivals {
    slack: u64,
    newest: u64,
    beat: u64,
    waiting: Reorder,
    window: Window,
    failed: bool,
}

impl Model for Arrivals {
    ghost use Rattle.pipes_arrivals.specs.Arriving.{Arriving};
    ghost use Rattle.pipes_arrivals.specs.Taking.{GoesOn};

    ghost Value = { Arriving };

    ghost view = { λ a. record {
      slack = a.slack;
      held = record { newest = a.newest; beat = a.beat; rows = a.waiting };
      window = a.window;
      failed = a.failed;
    } };

    ghost invariant = { λ a. GoesOn a.slack
        (record { newest = a.newest; beat = a.beat; rows = a.waiting }) a.window a.failed };
}

// The floor at these greatest stamps of a row and of a heartbeat.
fn floor_at(slack: u64, newest: u64, beat: u64) -> u64
    ensures { result ≡ max (newest - slack) beat }
{
    newest.saturating_sub(slack).max(beat)
}

// The greatest stamps of a row and of a heartbeat once this arrival has come.
fn stamps_with(newest: u64, beat: u64, arrival: &Item) -> (u64, u64)
    ensures newest { result.0 ≡ newest_after newest arrival.now }
    ensures beat { result.1 ≡ beat_after beat arrival.now }
{
    match arrival {
        Item::Row(stamp, _) => (newest.max(*stamp), beat),
        Item::Beat(stamp) => (newest, beat.max(*stamp)),
    }
}

impl Arrivals {
    /// No arrival has come, unless the window's kind is outside its limits.
    pub fn new(alloc: Global, slack: u64, kind: WindowKind) -> Option<Arrivals>
        ensures exact { IsSome result ↔ IsWindow kind }
        ensures value { IfSome result (λ arrivals. arrivals ≡ new_arriving slack kind) }
        ensures none { IfSome result (λ arrivals. HasArrived [] arrivals) }
    {
        match Window::new(alloc, kind) {
            Some(window) => Some(Arrivals {
                slack,
                newest: 0,
                beat: 0,
                waiting: Reorder::new(alloc),
                window,
                failed: false,
            }),
            None => None,
        }
    }

    /// The floor: the least stamp that a later arrival may have, which is the greatest stamp of a
    /// row so far less the slack, or the greatest of a heartbeat.
    pub fn floor(&self) -> u64
        ensures { result ≡ floor_of self.now }
    {
        floor_at(self.slack, self.newest, self.beat)
    }

    /// The heartbeat of the window: no later element starts below it. It is [`CLOSED`] once the
    /// arrivals have ended.
    pub fn beat_now(&self) -> u64
        ensures value { (arrivals : List AnItem) → HasArrived arrivals self.now
            → result ≡ window_beat self.now.window.kind (released self.now.slack arrivals) false }
        ensures ended { (arrivals : List AnItem) → HasFinished arrivals self.now → result ≡ CLOSED }
    {
        self.window.beat_now()
    }

    /// Takes an arrival, and appends the elements that it makes known. Once out of memory, nothing
    /// is appended and no later arrival is taken.
    pub fn take(&mut self, arrival: Item, out: &mut Vec<Elem>) -> Result<(), Memory>
        requires order { floor_of self.old ≤ item_stamp arrival }
        requires below { item_stamp arrival < HORIZON }
        requires goes_on { self.old.window.ended ≡ false }
        ensures takes { OnOk result
            (ArrivalsTake self.old self.new arrival out.old.items out.new.items) }
        ensures memory { OnErr result (ArrivalsFail self.old self.new out.old.items out.new.items) }
        ensures failed { OnTrue self.old.failed (IsErr result) }
    {
        if self.failed {
            return Err(Memory);
        }
        let before = out.len();
        let (newest, beat) = stamps_with(self.newest, self.beat, &arrival);
        let floor = floor_at(self.slack, newest, beat);
        let done = pass_arrival(
            self.slack,
            floor,
            &mut self.waiting,
            &mut self.window,
            arrival,
            out,
        );
        if done.is_err() {
            out.truncate(before);
            self.failed = true;
            return Err(Memory);
        }
        self.newest = newest;
        self.beat = beat;
        Ok(())
    }

    /// Ends the arrivals, and appends the elements that are left. Once out of memory, nothing is
    /// appended and no later call does anything.
    pub fn finish(&mut self, out: &mut Vec<Elem>) -> Result<(), Memory>
        requires { self.old.window.ended ≡ false }
        ensures finishes { OnOk result
            (ArrivalsFinish self.old self.new out.old.items out.new.items) }
        ensures memory { OnErr result (ArrivalsFail self.old self.new out.old.items out.new.items) }
        ensures failed { OnTrue self.old.failed (IsErr result) }
    {
        if self.failed {
            return Err(Memory);
        }
        let before = out.len();
        if pass_rest(&mut self.waiting, &mut self.window, out).is_err() {
            out.truncate(before);
            self.failed = true;
            return Err(Memory);
        }
        if self.window.finish(out).is_err() {
            out.truncate(before);
            self.failed = true;
            return Err(Memory);
        }
        Ok(())
    }
}

/// Elements of arrivals that never lie below the floor. At each instant those of a source that has
/// ended hold the rows valid then, of the arrivals in the order of their stamps. While it goes on,
/// no later element starts below the heartbeat.
#[tactic(auto, using(crate::proofs::Rows::rows_in_order, crate::proofs::Rows::heartbeat))]
pub fn arrivals_are_elements()
    ensures rows { OfArrivals AreRowsInOrder }
    ensures heartbeat { OfArrivals IsArrivalBeat }
{}
