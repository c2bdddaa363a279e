// A sink in memory.
ghost use Rattle.std.specs.Prelude.{◌≡◌, ◌≤◌, ◌++◌, [], ◌∷◌, Some, min, length, take, Contains};
ghost use Rattle.std.specs.Prelude.{IsErr, IfOk, OnOk, OnErr};
ghost use Rattle.std.specs.Io.KnownBytes.{WriteAppends};
ghost use Rattle.pipes_edge.specs.Causes.{HasCause, TakesSome, raised};

use crate::{Failed, Sink};
use pipes_time::Memory;
use std::alloc::Global;
use std::marker::Model;

/// A sink in memory, which takes at most some bytes in one write. It tells its bytes.
///
/// A number is that of a write to this sink, from 1 on; past the greatest `u64` the number stays
/// there.
#[derive(Debug, Drop)]
pub struct MemSink {
    bytes: Vec<u8>,
    most: u64,
    calls: u64,
    failing: Vec<u64>,
    faults: u64,
}

impl Model for MemSink {
    ghost use Rattle.std.specs.Prelude.{◌≤◌};
    ghost use Rattle.pipes_edge.specs.Memory.{Collecting};

    ghost Value = { Collecting };

    ghost view = { λ s. record {
      bytes = s.bytes.items;
      most = s.most;
      calls = s.calls;
      failing =
          s.failing.items;
      faults = s.faults;
    } };

    ghost invariant = { λ s. 1 ≤ s.most };
}

impl MemSink {
    pub fn new(alloc: Global, most: u64) -> Self
        requires { 1 ≤ most }
        ensures { result ≡ record { bytes = []; most = most; calls = 0; failing = []; faults = 0 } }
    {
        MemSink {
            bytes: Vec::new(alloc),
            most,
            calls: 0,
            failing: Vec::new(alloc),
            faults: 0,
        }
    }

    /// Lets the write with this number fail too. 0 is the number of none.
    pub fn fail_at(&mut self, call: u64) -> Result<(), Memory>
        ensures ok { OnOk result (self.new ≡ record self.old {
          failing = self.old.failing
              ++ call ∷ [];
        }) }
        ensures err { OnErr result (self.new ≡ self.old) }
    {
        self.failing.push(call)?;
        Ok(())
    }

    /// The bytes that were written.
    pub fn bytes(&self) -> &[u8]
        ensures { result.now ≡ self.now.bytes }
    {
        self.bytes.as_slice()
    }
}

impl Sink for MemSink {
    ghost written = { λ s. Some s.bytes };

    ghost faults = { λ s. s.faults };

    /// Takes as many bytes of the piece as one write may, unless the number of this write is
    /// listed. Where no memory is left it fails too.
    fn write(&mut self, bytes: &[u8]) -> Result<usize, Failed>
        ensures bound { TakesSome result bytes.now }
        ensures bytes { WriteAppends (Some self.old.bytes) (Some self.new.bytes) result bytes.now }
        ensures cause { HasCause self.old.faults self.new.faults result }

        ensures fails { Contains self.old.failing (raised self.old.calls) → IsErr result }
        ensures count { IfOk result (λ n. n ≡ min (length bytes.now) self.old.most) }
        ensures ok { IfOk result (λ n. self.new ≡ record self.old {
          bytes = self.old.bytes
              ++ take n bytes.now;
          calls = raised self.old.calls;
        }) }
        ensures err { OnErr result (self.new ≡ record self.old {
          calls = raised self.old.calls;
          faults = raised self.old.faults;
        }) }
    {
        self.calls = self.calls.saturating_add(1);
        let count = bytes.len().min(self.most as usize);
        if self.failing.contains(&self.calls)
            || self.bytes.extend_from_slice(&bytes[..count]).is_err()
        {
            self.faults = self.faults.saturating_add(1);
            return Err(Failed);
        }
        Ok(count)
    }
}
