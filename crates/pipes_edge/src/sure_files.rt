// Files in memory whose reads never fail.
ghost use Rattle.std.specs.Prelude.{◌≡◌, Some, min, length, drop, IfOk, IsOk};
ghost use Rattle.std.specs.Io.{ReadsAtMost};
ghost use Rattle.std.specs.Io.KnownBytes.{ReadConsumes};

use crate::by_name::{FileMap, open, put};
use crate::unread::Unread;
use crate::{Failed, Files, FindFault, Source};
use pipes_time::Memory;
use std::alloc::Global;
use std::collections::BTreeMap;
use std::marker::Model;

/// Files in memory, which tell their names and bytes. Each count of faults stays 0, so no call
/// answers that it failed.
#[derive(Debug, Drop)]
pub struct SureFiles {
    alloc: Global,
    files: FileMap,
}

/// A source over such a file. It tells its bytes.
#[derive(Debug, Drop)]
pub struct SureSource {
    name: String,
    unread: Unread,
}

impl Model for SureSource {
    ghost use Rattle.std.specs.Prelude.{string_bytes};
    ghost use Rattle.pipes_edge.specs.Memory.{SureReading};

    ghost Value = { SureReading };

    ghost view = { λ s. record { name = string_bytes s.name; left = s.unread } };
}

impl SureFiles {
    ghost use Rattle.std.specs.Prelude.{◌≡◌, Some, OnOk, OnErr};
    ghost use Rattle.pipes_edge.specs.ByName.{set_at};
    ghost use Rattle.pipes_edge.specs.Outside.{no_files};
    ghost use Rattle.pipes_edge.specs.SureFiles.{sure_names};

    pub fn new(alloc: Global) -> Self
        ensures { sure_names result ≡ no_files }
    {
        SureFiles {
            alloc,
            files: BTreeMap::new(alloc),
        }
    }

    /// Puts a file with these bytes under the name, in the place of one that was there. Sources
    /// that were found before keep the old bytes.
    pub fn add(&mut self, name: &str, bytes: &[u8]) -> Result<(), Memory>
        ensures ok { OnOk result (sure_names self.new ≡ set_at (sure_names self.old) name.now
            (Some bytes.now)) }
        ensures err { OnErr result (sure_names self.new ≡ sure_names self.old) }
    {
        put(self.alloc, &mut self.files, name, bytes)
    }
}

impl Source for SureSource {
    ghost left = { λ s. Some s.left };

    ghost faults = { λ s. 0 };

    ghost name = { λ s. s.name };

    ghost found_at = { λ s. 0 };

    /// Gives as many bytes as are left and fit.
    fn read(&mut self, buf: &mut [u8]) -> Result<usize, Failed>
        ensures bound { ReadsAtMost result buf.new }
        ensures bytes { ReadConsumes (Some self.old.left) (Some self.new.left) result buf.new }
        ensures never_fails { IsOk result }
        ensures count { IfOk result (λ n. n ≡ min (length self.old.left) (length buf.old)) }
        ensures buffer { IfOk result (λ n. drop n buf.new ≡ drop n buf.old) }
        ensures left { IfOk result (λ n. self.new ≡ record self.old
            { left = drop n self.old.left }) }
    {
        Ok(self.unread.read(buf))
    }
}

impl Files for SureFiles {
    ghost use Rattle.std.specs.Prelude.{◌≡◌, Some, IfOk, IsErrOf, ⊤};
    ghost use Rattle.pipes_edge.specs.Outside.{Finds};
    ghost use Rattle.pipes_edge.specs.SureFiles.{sure_names};

    type Src = SureSource;

    ghost known = { λ f. Some (sure_names f) };

    ghost faults = { λ f n. 0 };

    ghost failed_searches = { λ f. 0 };

    ghost keeps = { λ f n. ⊤ };

    /// A source over a copy of the file.
    fn find_src(&mut self, name: &str) -> Result<SureSource, FindFault>
        ensures files { sure_names self.new ≡ sure_names self.old }
        ensures answer { Finds (λ src. Some src.left) (Some (sure_names self.old)) name.now result }
        ensures name { IfOk result (λ src. src.name ≡ name.now) }
        ensures never_fails { IsErrOf result FindFault.Failed → ⊥ }
    {
        let unread = open(self.alloc, &self.files, name)?;
        let name = String::from_str(self.alloc, name)?;
        Ok(SureSource { name, unread })
    }

    fn retire(&mut self, _src: SureSource)
        ensures files { sure_names self.new ≡ sure_names self.old }
    {}
}
