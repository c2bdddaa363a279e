// Files of the system, which tell nothing of their content.
ghost use Rattle.std.specs.Prelude.{◌≡◌, ◌↔◌, None, OnOk, OnErr};
ghost use Rattle.std.specs.Io.{ReadsAtMost};
ghost use Rattle.pipes_edge.specs.Causes.{HasCause, raised};

use crate::by_name::{CountMap, keep, raise};
use crate::{Failed, Files, FindFault, Source};
use std::collections::BTreeMap;
use std::fs::File;
use std::io::{ErrorKind, Read};
use std::marker::Model;
use std::{fs, rt};

/// Files of the system, by their paths.
///
/// What the system does after it isn't proved: that a search finds the file with that path, and
/// finds none only where there is none.
#[derive(Drop)]
pub struct HostFiles<R: rt::Files<File = File> + AllocGlobal + Drop> {
    rt: R,
    counts: CountMap,
    failed_searches: u64,
}

/// A file of the system that was found. That its reads give the file's bytes, in order, isn't
/// proved.
#[derive(Drop)]
pub struct HostSource {
    file: File,
    name: String,
    faults: u64,
}

impl Model for HostSource {
    ghost use Rattle.std.specs.Prelude.{string_bytes};
    ghost use Rattle.pipes_edge.specs.HostSource.{HostReading};

    ghost Value = { HostReading };

    ghost view = { λ s. record { name = string_bytes s.name; faults = s.faults } };
}

impl<R: rt::Files<File = File> + AllocGlobal + Drop> HostFiles<R> {
    ghost use Rattle.std.specs.Prelude.{◌≡◌};
    ghost use Rattle.pipes_edge.specs.HostFiles.{tally_of, no_tally};

    pub fn new(rt: R) -> Self
        ensures { tally_of result ≡ no_tally }
    {
        let counts = BTreeMap::new(rt.alloc());
        HostFiles {
            rt,
            counts,
            failed_searches: 0,
        }
    }
}

impl Source for HostSource {
    ghost left = { λ s. None };

    ghost faults = { λ s. s.faults };

    ghost name = { λ s. s.name };

    ghost found_at = { λ s. 0 };

    /// A read that was interrupted is a fault like any other.
    fn read(&mut self, buf: &mut [u8]) -> Result<usize, Failed>
        ensures bound { ReadsAtMost result buf.new }
        ensures cause { HasCause self.old.faults self.new.faults result }
        ensures ok { OnOk result (self.new ≡ self.old) }
        ensures err { OnErr result (self.new ≡ record self.old
            { faults = raised self.old.faults }) }
    {
        match self.file.read(buf) {
            Ok(count) => Ok(count),
            Err(_) => {
                self.faults = self.faults.saturating_add(1);
                Err(Failed)
            }
        }
    }
}

// What a search answers where opening the file failed in this way.
fn fault_of(kind: ErrorKind) -> FindFault
    ensures missing { (result ≡ FindFault.Missing) ↔ (kind ≡ ErrorKind.NotFound) }
    ensures memory { (result ≡ FindFault.Memory) ↔ (kind ≡ ErrorKind.OutOfMemory) }
{
    match kind {
        ErrorKind::NotFound => FindFault::Missing,
        ErrorKind::OutOfMemory => FindFault::Memory,
        _ => FindFault::Failed,
    }
}

impl<R: rt::Files<File = File> + AllocGlobal + Drop> Files for HostFiles<R> {
    ghost use Rattle.std.specs.Prelude.{◌≡◌, ℕ, List, None, IsSome, ◌<◌, IfOk, OnOk, IsErrOf};
    ghost use Rattle.pipes_edge.specs.Causes.{Rose, raised};
    ghost use Rattle.pipes_edge.specs.ByName.{count_at, kept_at, raised_at};
    ghost use Rattle.pipes_edge.specs.HostFiles.{tally_of};
    ghost use Rattle.pipes_edge.specs.Outside.{CountsSearch, FailsByName, NoneFalls, IsFoundAs};

    type Src = HostSource;

    ghost known = { λ f. None };

    ghost faults = { λ f. count_at (tally_of f).counts };

    ghost failed_searches = { λ f. (tally_of f).failed_searches };

    ghost keeps = { λ f n. IsSome ((tally_of f).counts n) };

    /// A path that the system doesn't find is missing, one for which it has no memory is out of
    /// memory, and every other error is a failed search.
    fn find_src(&mut self, name: &str) -> Result<HostSource, FindFault>
        ensures found { IfOk result (IsFoundAs (λ src. src.name) (λ src. 0) (λ src. src.faults)
            (λ n. IsSome ((tally_of self.new).counts n)) name.now) }
        ensures keeps { (n : List ℕ) → IsSome ((tally_of self.old).counts n)
            → IsSome ((tally_of self.new).counts n) }
        ensures later { NoneFalls (count_at (tally_of self.old).counts)
            (count_at (tally_of self.new).counts) }
        ensures cause { FailsByName result (count_at (tally_of self.old).counts name.now)
            (count_at (tally_of self.new).counts name.now) }
        ensures searches { CountsSearch result (tally_of self.old).failed_searches
            (tally_of self.new).failed_searches }

        ensures ok { OnOk result (tally_of self.new ≡ record (tally_of self.old)
            { counts = kept_at (tally_of self.old).counts name.now }) }
        ensures missing { IsErrOf result FindFault.Missing → tally_of self.new ≡ record
            (tally_of self.old) { counts = kept_at (tally_of self.old).counts name.now } }
        ensures failed { IsErrOf result FindFault.Failed → tally_of self.new ≡ record {
          counts = raised_at (kept_at (tally_of self.old).counts name.now) name.now;
          failed_searches = raised (tally_of self.old).failed_searches;
        } }
        ensures memory { IsErrOf result FindFault.Memory → (n : List ℕ)
            → count_at (tally_of self.new).counts n ≡ count_at (tally_of self.old).counts n }
    {
        let own = String::from_str(self.rt.alloc(), name)?;
        keep(self.rt.alloc(), &mut self.counts, name)?;
        match fs::open(&self.rt, name) {
            Ok(file) => Ok(HostSource {
                file,
                name: own,
                faults: 0,
            }),
            Err(error) => {
                let fault = fault_of(error.kind());
                if fault == FindFault::Failed {
                    raise(&mut self.counts, name);
                    self.failed_searches = self.failed_searches.saturating_add(1);
                }
                Err(fault)
            }
        }
    }

    fn retire(&mut self, src: HostSource)
        requires { IsSome ((tally_of self.old).counts src.name) }
        ensures keeps { (n : List ℕ) → IsSome ((tally_of self.old).counts n)
            → IsSome ((tally_of self.new).counts n) }
        ensures later { NoneFalls (count_at (tally_of self.old).counts)
            (count_at (tally_of self.new).counts) }
        ensures rose { Rose 0 src.faults → Rose (count_at (tally_of self.old).counts src.name)
            (count_at (tally_of self.new).counts src.name) }

        ensures faulty { 0 < src.faults → tally_of self.new ≡ record (tally_of self.old)
            { counts = raised_at (tally_of self.old).counts src.name } }
        ensures faultless { src.faults ≡ 0 → tally_of self.new ≡ tally_of self.old }
    {
        if src.faults > 0 {
            raise(&mut self.counts, src.name.as_str());
        }
    }
}
