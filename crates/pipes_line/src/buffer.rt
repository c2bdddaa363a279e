// The bytes of one read.
ghost use Rattle.std.specs.Prelude.{◌≡◌, ◌≤◌, ◌<◌, [], take, drop, length, IfOk};
ghost use Rattle.std.specs.Io.KnownBytes.{Consumes, IsAtEnd};
ghost use Rattle.pipes_edge.specs.Causes.{HasCause};
ghost use Rattle.pipes_line.specs.State.{no_bytes};

use pipes_edge::{Failed, Source};
use pipes_time::Memory;
use std::alloc::Global;
use std::marker::Model;

/// How many bytes a read asks for.
const BUFFER: usize = 65_536;

/// The bytes of one read: those that were taken last, and those that were not taken yet.
#[derive(Debug, Drop)]
pub(crate) struct Buffer {
    bytes: Vec<u8>,
    from: usize,
    to: usize,
    at: usize,
    filled: usize,
}

impl Model for Buffer {
    ghost use Rattle.std.specs.Prelude.{◌≡◌, ◌≤◌, ◌-◌, take, drop, vec_len};
    ghost use Rattle.pipes_line.specs.State.{Bytes};

    ghost Value = { Bytes };

    ghost view = { λ b. record {
      taken = take (b.to - b.from) (drop b.from b.bytes.items);
      unread =
          take (b.filled - b.at) (drop b.at b.bytes.items);
    } };

    ghost invariant = { λ b. (vec_len b.bytes ≡ 65536) × (b.from ≤ b.to) × (b.to ≤ 65536)
        × (b.at ≤ b.filled) × (b.filled ≤ 65536) };
}

impl Buffer {
    /// No bytes.
    pub(crate) fn new(alloc: Global) -> Result<Buffer, Memory>
        ensures { IfOk result (λ buffer. buffer ≡ no_bytes) }
    {
        Ok(Buffer {
            bytes: vec![in alloc; 0u8; BUFFER]?,
            from: 0,
            to: 0,
            at: 0,
            filled: 0,
        })
    }

    /// The bytes that were taken last.
    pub(crate) fn taken(&self) -> &[u8]
        ensures { result.now ≡ self.now.taken }
    {
        &self.bytes[self.from..self.to]
    }

    /// The bytes that were not taken yet.
    pub(crate) fn unread(&self) -> &[u8]
        ensures value { result.now ≡ self.now.unread }
        ensures bound { length self.now.unread ≤ 65536 }
    {
        &self.bytes[self.at..self.filled]
    }

    /// Takes so many bytes.
    pub(crate) fn take(&mut self, count: usize)
        requires { count ≤ length self.old.unread }
        ensures { self.new ≡ record {
          taken = take count self.old.unread;
          unread =
              drop count self.old.unread;
        } }
    {
        self.from = self.at;
        self.at += count;
        self.to = self.at;
    }

    /// Lets one byte go, and those that were taken as they are.
    pub(crate) fn skip(&mut self)
        requires { 0 < length self.old.unread }
        ensures { self.new ≡ record self.old { unread = drop 1 self.old.unread } }
    {
        self.at += 1;
    }

    /// Lets those that were taken go.
    pub(crate) fn forget(&mut self)
        ensures { self.new ≡ record self.old { taken = [] } }
    {
        self.to = self.from;
    }

    /// Lets all bytes go and reads others. 0 is the end of the source.
    pub(crate) fn fill<S: Source>(&mut self, src: &mut S) -> Result<usize, Failed>
        ensures count { IfOk result (λ count. count ≡ length self.new.unread) }
        ensures taken { self.new.taken ≡ [] }
        ensures bytes { IfOk result (λ count. Consumes (S.left src.old) (S.left src.new)
            self.new.unread) }
        ensures end { IfOk result (λ count. count ≡ 0 → IsAtEnd (S.left src.new)) }
        ensures cause { HasCause (S.faults src.old) (S.faults src.new) result }
        ensures name { S.name src.new ≡ S.name src.old }
        ensures found_at { S.found_at src.new ≡ S.found_at src.old }
    {
        self.from = 0;
        self.to = 0;
        self.at = 0;
        self.filled = 0;
        let count = src.read(self.bytes.as_mut_slice())?;
        self.filled = count;
        Ok(count)
    }
}
