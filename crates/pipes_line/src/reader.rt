// The lines of a source.
ghost use Rattle.std.specs.Prelude.{◌≡◌, ◌≢◌, ◌⊎◌, ◌≤◌, ◌<◌, ◌+◌, ◌^◌, ◌++◌, [], ℕ, List, Option};
ghost use Rattle.std.specs.Prelude.{Some, Err, true, take, drop, length, OnOk, IfOk, IfErr, IfSome};
ghost use Rattle.std.specs.Prelude.{IfNone};
ghost use Rattle.std.specs.Io.KnownBytes.{prepend_known, Consumes, IsAtEnd};
ghost use Rattle.pipes_edge.specs.Causes.{Rose};
ghost use Rattle.pipes_line.specs.Bytes.{FeedAt, FindsFeed, has_no_feed};
ghost use Rattle.pipes_line.specs.Reading.{bytes_ahead, ReadsLine, LineGoesOn, TakesWaiting};
ghost use Rattle.pipes_line.specs.State.{nothing_read, line_in};

use crate::buffer::Buffer;
use pipes_edge::Source;
use pipes_time::Memory;
use std::alloc::Global;
use std::marker::Model;

/// What stands at the start of a source.
#[derive(Clone, Copy, Debug, PartialEq, Eq)]
pub enum NextLine {
    /// A line, and whether a line feed ends it.
    Line(bool),
    /// The end.
    End,
    /// A line of more bytes than were allowed.
    Long,
    /// A read failed.
    Failed,
    /// Out of memory.
    Memory,
}

/// Reads the lines of a source.
#[derive(Debug, Drop)]
pub struct LineReader {
    buffer: Buffer,
    // A line that reached past the buffer's end. Any other line stands in the buffer.
    long: Vec<u8>,
}

impl Model for LineReader {
    ghost use Rattle.pipes_line.specs.State.{LineState, line_in};

    ghost Value = { LineState };

    ghost view = { λ r. record {
      line = line_in r.buffer.taken r.long.items;
      unread =
          r.buffer.unread;
    } };
}

impl LineReader {
    /// A reader that has read nothing. It takes all of its memory but that of a line that is longer
    /// than its buffer.
    pub fn new(alloc: Global) -> Result<LineReader, Memory>
        ensures { IfOk result (λ reader. reader ≡ nothing_read) }
    {
        Ok(LineReader {
            buffer: Buffer::new(alloc)?,
            long: Vec::new(alloc),
        })
    }

    /// The line that was read last, without its line feed.
    pub fn line(&self) -> &[u8]
        ensures { result.now ≡ self.now.line }
    {
        if self.long.is_empty() {
            self.buffer.taken()
        } else {
            self.long.as_slice()
        }
    }

    /// Reads the next line, unless it has more bytes than `most`, its line feed not counted.
    ///
    /// The whole lines among the bytes that were read before come first: a failed read is reported
    /// only where none of them waits.
    pub fn next_line<S: Source>(&mut self, src: &mut S, most: usize) -> NextLine
        requires { most < 2 ^ 62 }
        ensures reads { ReadsLine most (bytes_ahead self.old (S.left src.old))
            (bytes_ahead self.new (S.left src.new)) self.new.line result }
        ensures waiting { TakesWaiting [] self.old.unread self.new result }
        ensures later { S.faults src.old ≤ S.faults src.new }
        ensures cause { result ≡ NextLine.Failed → Rose (S.faults src.old) (S.faults src.new) }
        ensures name { S.name src.new ≡ S.name src.old }
        ensures found_at { S.found_at src.new ≡ S.found_at src.old }
    {
        self.start();
        'reads: loop {
            if let Some(answer) = self.go_on(src, most) {
                return answer;
            }
        }
    }

    // Begins a line.
    fn start(&mut self)
        ensures { self.new ≡ record self.old { line = [] } }
    {
        self.buffer.forget();
        self.long.clear();
    }

    // Goes on with a line, unless it ends: to its line feed, or with another read.
    fn go_on<S: Source>(&mut self, src: &mut S, most: usize) -> Option<NextLine>
        requires within { has_no_feed self.old.line ≡ true }
        requires short { length self.old.line ≤ most }
        ensures answer { IfSome result
            (ReadsLine most (prepend_known self.old.line (bytes_ahead self.old (S.left src.old)))
            (bytes_ahead self.new (S.left src.new)) self.new.line) }
        ensures going { IfNone result (LineGoesOn most self.old self.new (S.left src.old)
            (S.left src.new)) }
        ensures waiting { IfSome result (TakesWaiting self.old.line self.old.unread self.new) }
        ensures later { S.faults src.old ≤ S.faults src.new }
        ensures cause { result ≡ Some NextLine.Failed → Rose (S.faults src.old) (S.faults src.new) }
        ensures name { S.name src.new ≡ S.name src.old }
        ensures found_at { S.found_at src.new ≡ S.found_at src.old }
    {
        if let Some(len) = feed_at(self.buffer.unread()) {
            return Some(self.end_line(len, most));
        }
        let len = self.buffer.unread().len();
        if self.extend_line(len).is_err() {
            return Some(NextLine::Memory);
        }
        if self.line().len() > most {
            return Some(NextLine::Long);
        }
        match self.refill(src) {
            Err(fault) => Some(fault),
            Ok(0) if self.line().is_empty() => Some(NextLine::End),
            Ok(0) => Some(NextLine::Line(false)),
            Ok(_) => None,
        }
    }

    // Ends a line before a line feed that stands so many bytes on.
    fn end_line(&mut self, len: usize, most: usize) -> NextLine
        requires feed { FeedAt self.old.unread len }
        requires within { has_no_feed self.old.line ≡ true }
        ensures answer { (left : Option (List ℕ)) → ReadsLine most
            (prepend_known self.old.line (bytes_ahead self.old left)) (bytes_ahead self.new left)
            self.new.line result }
        ensures cause { result ≢ NextLine.Failed }
        ensures waiting { TakesWaiting self.old.line self.old.unread self.new result }
    {
        if self.extend_line(len).is_err() {
            return NextLine::Memory;
        }
        if self.line().len() > most {
            return NextLine::Long;
        }
        self.buffer.skip();
        NextLine::Line(true)
    }

    // Moves so many bytes to the line.
    fn extend_line(&mut self, count: usize) -> Result<(), Memory>
        requires { count ≤ length self.old.unread }
        ensures { OnOk result (self.new ≡ record {
          line = self.old.line
              ++ take count self.old.unread;
          unread = drop count self.old.unread;
        }) }
    {
        if self.line().is_empty() {
            self.buffer.take(count);
            return Ok(());
        }
        keep(self.buffer.taken(), &mut self.long)?;
        self.long.extend_from_slice(&self.buffer.unread()[..count])?;
        self.buffer.take(count);
        Ok(())
    }

    // Reads, and keeps the line. 0 is the end.
    fn refill<S: Source>(&mut self, src: &mut S) -> Result<usize, NextLine>
        ensures line { IfOk result (λ count. self.new.line ≡ self.old.line) }
        ensures count { IfOk result (λ count. count ≡ length self.new.unread) }
        ensures bytes { IfOk result (λ count. Consumes (S.left src.old) (S.left src.new)
            self.new.unread) }
        ensures end { IfOk result (λ count. count ≡ 0 → IsAtEnd (S.left src.new)) }
        ensures fault { IfErr result (λ fault. (fault ≡ NextLine.Failed)
            ⊎ (fault ≡ NextLine.Memory)) }
        ensures later { S.faults src.old ≤ S.faults src.new }
        ensures cause { result ≡ Err NextLine.Failed → Rose (S.faults src.old) (S.faults src.new) }
        ensures name { S.name src.new ≡ S.name src.old }
        ensures found_at { S.found_at src.new ≡ S.found_at src.old }
    {
        if keep(self.buffer.taken(), &mut self.long).is_err() {
            return Err(NextLine::Memory);
        }
        match self.buffer.fill(src) {
            Ok(count) => Ok(count),
            Err(_) => Err(NextLine::Failed),
        }
    }
}

// Has the line in `long`.
fn keep(taken: &[u8], long: &mut Vec<u8>) -> Result<(), Memory>
    ensures { OnOk result (long.new.items ≡ line_in taken.now long.old.items) }
{
    if long.is_empty() {
        long.extend_from_slice(taken)?;
    }
    Ok(())
}

// The place of the first line feed.
fn feed_at(bytes: &[u8]) -> Option<usize>
    ensures { FindsFeed bytes.now result }
{
    for (i, byte) in bytes.iter().enumerate() {
        if *byte == b'\n' {
            return Some(i);
        }
    }
    None
}
