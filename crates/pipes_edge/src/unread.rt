// Bytes in memory, read from the prefix.
ghost use Rattle.std.specs.Prelude.{◌≡◌, ◌<◌, ◌++◌, min, length, take, drop, []};

use std::marker::Model;

/// The bytes that no read has given yet.
#[derive(Debug, Drop)]
pub(crate) struct Unread {
    bytes: Vec<u8>,
    place: usize,
}

impl Model for Unread {
    ghost use Rattle.std.specs.Prelude.{List, ℕ, ◌≤◌, drop, vec_len};

    ghost Value = { List ℕ };

    ghost view = { λ u. drop u.place u.bytes.items };

    ghost invariant = { λ u. u.place ≤ vec_len u.bytes };
}

impl Unread {
    pub(crate) fn new(bytes: Vec<u8>) -> Self
        ensures { result ≡ bytes.items }
    {
        Unread { bytes, place: 0 }
    }

    // Moves as many bytes as are left and fit into the start of the buffer.
    pub(crate) fn read(&mut self, buf: &mut [u8]) -> usize
        ensures count { result ≡ min (length self.old) (length buf.old) }
        ensures bytes { self.old ≡ take result buf.new ++ self.new }
        ensures left { self.new ≡ drop result self.old }
        ensures end { result ≡ 0 → 0 < length buf.new → self.new ≡ [] }
        ensures rest { drop result buf.new ≡ drop result buf.old }
    {
        let left = &self.bytes[self.place..];
        let count = left.len().min(buf.len());
        buf[..count].copy_from_slice(&left[..count]);
        self.place += count;
        count
    }
}
