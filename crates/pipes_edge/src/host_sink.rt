// Standard output and standard error, which tell nothing of what was written.
ghost use Rattle.std.specs.Prelude.{◌≡◌, None, OnOk, OnErr};
ghost use Rattle.pipes_edge.specs.Causes.{HasCause, TakesSome, raised};

use crate::{Failed, Sink};
use std::io::{Stderr, Stdout, Write};
use std::marker::Model;

#[derive(Drop)]
enum Stream {
    Output(Stdout),
    Error(Stderr),
}

/// Standard output or standard error, seen as its count of faults. That what it takes comes out
/// there isn't proved.
#[derive(Drop)]
pub struct HostSink {
    stream: Stream,
    faults: u64,
}

impl Model for HostSink {
    ghost use Rattle.std.specs.Prelude.{ℕ};

    ghost Value = { ℕ };

    ghost view = { λ s. s.faults };
}

impl HostSink {
    /// A sink over standard output.
    pub fn out(stream: Stdout) -> Self
        ensures { result ≡ 0 }
    {
        HostSink {
            stream: Stream::Output(stream),
            faults: 0,
        }
    }

    /// A sink over standard error.
    pub fn err(stream: Stderr) -> Self
        ensures { result ≡ 0 }
    {
        HostSink {
            stream: Stream::Error(stream),
            faults: 0,
        }
    }
}

impl Sink for HostSink {
    ghost written = { λ s. None };

    ghost faults = { λ s. s };

    /// A write that takes nothing of a piece that isn't empty is a fault, and so is one that was
    /// interrupted.
    fn write(&mut self, bytes: &[u8]) -> Result<usize, Failed>
        ensures bound { TakesSome result bytes.now }
        ensures cause { HasCause self.old self.new result }
        ensures ok { OnOk result (self.new ≡ self.old) }
        ensures err { OnErr result (self.new ≡ raised self.old) }
    {
        let written = match &mut self.stream {
            Stream::Output(out) => out.write(bytes),
            Stream::Error(err) => err.write(bytes),
        };
        match written {
            Ok(count) if count > 0 || bytes.is_empty() => Ok(count),
            _ => {
                self.faults = self.faults.saturating_add(1);
                Err(Failed)
            }
        }
    }
}
