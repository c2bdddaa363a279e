// Fields that are copied one after another.
ghost use Rattle.std.specs.Prelude.{◌≡◌, ◌++◌, ◌∷◌, [], OnOk, length, option_map, slice_get};
ghost use Rattle.pipes_line.specs.Copied.{no_fields};

use crate::part::{Part, bytes_in};
use pipes_time::Memory;
use std::alloc::Global;
use std::marker::Model;

/// Fields whose bytes stand in a text of their own, and the bytes of one more that is still open.
#[derive(Debug, Drop)]
pub(crate) struct Copied {
    parts: Vec<Part>,
    bytes: Vec<u8>,
    from: usize,
}

impl Model for Copied {
    ghost use Rattle.std.specs.Prelude.{◌≤◌, All, map, drop, vec_len};
    ghost use Rattle.pipes_line.specs.Bytes.{bytes_in};
    ghost use Rattle.pipes_line.specs.Copied.{Fields};

    ghost Value = { Fields };

    ghost view = { λ c. record {
      closed = map (bytes_in c.bytes.items) c.parts.items;
      last =
          drop c.from c.bytes.items;
    } };

    ghost invariant = { λ c. (c.from ≤ vec_len c.bytes) × All (λ part. part.to ≤ vec_len c.bytes)
        c.parts.items };
}

impl Copied {
    /// No field. No memory is taken.
    pub(crate) fn new(alloc: Global) -> Copied
        ensures { result ≡ no_fields }
    {
        Copied {
            parts: Vec::new(alloc),
            bytes: Vec::new(alloc),
            from: 0,
        }
    }

    /// Lets all fields go.
    pub(crate) fn clear(&mut self)
        ensures { self.new ≡ no_fields }
    {
        self.parts.clear();
        self.bytes.clear();
        self.from = 0;
    }

    /// Appends a byte to the open field.
    pub(crate) fn push(&mut self, byte: u8) -> Result<(), Memory>
        ensures { OnOk result (self.new ≡ record self.old { last = self.old.last ++ byte ∷ [] }) }
    {
        self.bytes.push(byte)?;
        Ok(())
    }

    /// Appends bytes to the open field.
    pub(crate) fn append(&mut self, bytes: &[u8]) -> Result<(), Memory>
        ensures { OnOk result (self.new ≡ record self.old { last = self.old.last ++ bytes.now }) }
    {
        self.bytes.extend_from_slice(bytes)?;
        Ok(())
    }

    /// Closes the open field, and opens another.
    pub(crate) fn close(&mut self) -> Result<(), Memory>
        ensures { OnOk result (self.new ≡ record {
          closed = self.old.closed ++ self.old.last ∷ [];
          last = [];
        }) }
    {
        let to = self.bytes.len();
        self.parts.push(Part {
            from: self.from,
            to,
        })?;
        self.from = to;
        Ok(())
    }

    /// How many fields are closed.
    pub(crate) fn len(&self) -> usize
        ensures { result ≡ length self.now.closed }
    {
        self.parts.len()
    }

    /// A closed field.
    pub(crate) fn get(&self, i: usize) -> Option<&[u8]>
        ensures { option_map (λ field. field.now) result ≡ slice_get self.now.closed i }
    {
        let part = *self.parts.get(i)?;
        Some(bytes_in(self.bytes.as_slice(), part))
    }
}
