// How far a source has been read.
ghost use Rattle.std.specs.Prelude.{◌≡◌, ◌≤◌, ◌<◌, ◌+◌};
ghost use Rattle.pipes_feed.specs.Items.{stamp_in};
ghost use Rattle.pipes_feed.specs.Reached.{source_start, stamp_floor, after_line, after_item};
ghost use Rattle.pipes_feed.specs.Reached.{most_bytes};
ghost use Rattle.pipes_feed.specs.Reached.{most_items};
ghost use Rattle.pipes_time.specs.Interval.{horizon};

use pipes_window::Item;
use std::marker::Model;

/// The most bytes of a source, line feeds included.
pub(crate) const MOST_BYTES: u64 = 1_073_741_824;

/// The most arrivals of a source.
pub(crate) const MOST_ITEMS: u64 = 4_000_000;

/// How many lines, bytes and arrivals have come, and the greatest stamps of rows and heartbeats.
#[derive(Debug, Drop)]
pub(crate) struct Place {
    lines: u64,
    bytes: u64,
    items: u64,
    newest: u64,
    beat: u64,
}

impl Model for Place {
    ghost use Rattle.std.specs.Prelude.{◌≤◌, ◌<◌};
    ghost use Rattle.pipes_feed.specs.Reached.{Reached};

    ghost Value = { Reached };

    ghost view = { λ p. record {
      lines = p.lines;
      bytes = p.bytes;
      items = p.items;
      newest =
          p.newest;
      beat = p.beat;
    } };

    ghost invariant = { λ p. (p.lines ≤ p.bytes) × (p.bytes ≤ 1073741824) × (p.items ≤ 4000000)
        × (p.newest < 1000000000000000) × (p.beat < 1000000000000000) };
}

impl Place {
    /// At the start of a source.
    pub(crate) fn new() -> Place
        ensures { result ≡ source_start }
    {
        Place {
            lines: 0,
            bytes: 0,
            items: 0,
            newest: 0,
            beat: 0,
        }
    }

    /// How many lines have come.
    pub(crate) fn lines(&self) -> u64
        ensures value { result ≡ self.now.lines }
        ensures bound { result ≤ most_bytes }
        ensures few { self.now.items ≤ most_items }
    {
        self.lines
    }

    /// How many bytes have come.
    pub(crate) fn bytes(&self) -> u64
        ensures value { result ≡ self.now.bytes }
        ensures bound { result ≤ most_bytes }
    {
        self.bytes
    }

    /// How many arrivals have come.
    pub(crate) fn items(&self) -> u64
        ensures value { result ≡ self.now.items }
        ensures bound { result ≤ most_items }
    {
        self.items
    }

    /// The least stamp that an arrival may have, where rows may come late by up to the slack.
    pub(crate) fn floor(&self, slack: u64) -> u64
        ensures value { result ≡ stamp_floor slack self.now }
        ensures bound { result < horizon }
    {
        self.newest.saturating_sub(slack).max(self.beat)
    }

    /// Passes a line that is no arrival.
    pub(crate) fn pass(&mut self, size: u64)
        requires some { 0 < size }
        requires short { self.old.bytes + size ≤ most_bytes }
        ensures { self.new ≡ after_line self.old size }
    {
        self.lines += 1;
        self.bytes += size;
    }

    /// Passes a line that is this arrival.
    pub(crate) fn give(&mut self, size: u64, item: &Item)
        requires some { 0 < size }
        requires short { self.old.bytes + size ≤ most_bytes }
        requires few { self.old.items < most_items }
        requires in_range { stamp_in item.now < horizon }
        ensures { self.new ≡ after_item self.old size item.now }
    {
        self.lines += 1;
        self.bytes += size;
        self.items += 1;
        match item {
            Item::Row(stamp, _) => self.newest = self.newest.max(*stamp),
            Item::Beat(stamp) => self.beat = self.beat.max(*stamp),
        }
    }
}
