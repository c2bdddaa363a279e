// A source over a file in memory.
ghost use Rattle.std.specs.Prelude.{◌≡◌, ◌↔◌, ℕ, List, Some, min, length, drop, Contains, IsErr};
ghost use Rattle.std.specs.Prelude.{IfOk, OnErr, MatchResult};
ghost use Rattle.std.specs.Io.{ReadsAtMost};
ghost use Rattle.std.specs.Io.KnownBytes.{ReadConsumes};
ghost use Rattle.pipes_edge.specs.Causes.{HasCause, raised};

use crate::unread::Unread;
use crate::{Failed, Source};
use std::marker::Model;

/// A source over a file in memory, found by [`MemFiles`](crate::MemFiles). It tells its bytes.
///
/// The reads that fail are those that were listed when the source was found. A number is that of a
/// read of this source, from 1 on; past the greatest `u64` the number stays there.
#[derive(Debug, Drop)]
pub struct MemSource {
    name: String,
    unread: Unread,
    calls: u64,
    failing: Vec<u64>,
    faults: u64,
}

impl Model for MemSource {
    ghost use Rattle.std.specs.Prelude.{string_bytes};
    ghost use Rattle.pipes_edge.specs.Memory.{Reading};

    ghost Value = { Reading };

    ghost view = { λ s. record {
      name = string_bytes s.name;
      left = s.unread;
      calls = s.calls;
      failing = s.failing.items;
      faults = s.faults;
    } };
}

impl MemSource {
    ghost use Rattle.std.specs.Prelude.{◌≡◌, ◌<◌, ◌↔◌, IsTrue, string_bytes};

    pub(crate) fn new(name: String, unread: Unread, failing: Vec<u64>) -> Self
        ensures { result ≡ record {
          name = string_bytes name;
          left = unread;
          calls = 0;
          failing =
              failing.items;
          faults = 0;
        } }
    {
        MemSource {
            name,
            unread,
            calls: 0,
            failing,
            faults: 0,
        }
    }

    pub(crate) fn name(&self) -> &str
        ensures { result.now ≡ self.now.name }
    {
        self.name.as_str()
    }

    pub(crate) fn has_faults(&self) -> bool
        ensures { IsTrue result ↔ (0 < self.now.faults) }
    {
        self.faults > 0
    }
}

impl Source for MemSource {
    ghost left = { λ s. Some s.left };

    ghost faults = { λ s. s.faults };

    ghost name = { λ s. s.name };

    ghost found_at = { λ s. 0 };

    /// Gives as many bytes as are left and fit, unless the number of this read is listed.
    fn read(&mut self, buf: &mut [u8]) -> Result<usize, Failed>
        ensures bound { ReadsAtMost result buf.new }
        ensures bytes { ReadConsumes (Some self.old.left) (Some self.new.left) result buf.new }
        ensures cause { HasCause self.old.faults self.new.faults result }
        ensures name { self.new.name ≡ self.old.name }

        ensures fails { IsErr result ↔ Contains self.old.failing (raised self.old.calls) }
        ensures count { IfOk result (λ n. n ≡ min (length self.old.left) (length buf.old)) }
        ensures buffer { MatchResult result (λ n. drop n buf.new ≡ drop n buf.old)
            (λ _. buf.new ≡ buf.old) }
        ensures ok { IfOk result (λ n. self.new ≡ record self.old {
          left = drop n self.old.left;
          calls = raised self.old.calls;
        }) }
        ensures err { OnErr result (self.new ≡ record self.old {
          calls = raised self.old.calls;
          faults = raised self.old.faults;
        }) }
    {
        self.calls = self.calls.saturating_add(1);
        if self.failing.contains(&self.calls) {
            self.faults = self.faults.saturating_add(1);
            return Err(Failed);
        }
        Ok(self.unread.read(buf))
    }
}
