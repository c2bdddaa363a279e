// Files in memory.
ghost use Rattle.std.specs.Prelude.{◌≡◌, ◌++◌, [], ◌∷◌, ℕ, List, Some, IsSome, IfOk, OnOk, OnErr};
ghost use Rattle.std.specs.Prelude.{IsErrOf, ◌<◌};
ghost use Rattle.pipes_edge.specs.Causes.{Rose};
ghost use Rattle.pipes_edge.specs.ByName.{set_at, count_at, kept_at, raised_at};
ghost use Rattle.pipes_edge.specs.MemFiles.{shelf_of, empty_shelf, faults_of, IsKept, calls_in};
ghost use Rattle.pipes_edge.specs.Outside.{Finds, CountsSearch, FailsByName, NoneFalls, IsFoundAs};

use crate::by_name::{CountMap, FileMap, keep, open, put, raise};
use crate::mem_source::MemSource;
use crate::{Files, FindFault};
use pipes_time::Memory;
use std::alloc::{AllocError, Global};
use std::collections::BTreeMap;

// A read that fails, of each source that is found under the name.
#[derive(Debug, Drop)]
pub(crate) struct FailingRead {
    pub(crate) name: String,
    pub(crate) call: u64,
}

/// Files in memory, which tell their names and bytes.
#[derive(Debug, Drop)]
pub struct MemFiles {
    alloc: Global,
    files: FileMap,
    failing: Vec<FailingRead>,
    counts: CountMap,
}

impl MemFiles {
    pub fn new(alloc: Global) -> Self
        ensures { shelf_of result ≡ empty_shelf }
    {
        MemFiles {
            alloc,
            files: BTreeMap::new(alloc),
            failing: Vec::new(alloc),
            counts: BTreeMap::new(alloc),
        }
    }

    /// Puts a file with these bytes under the name, in the place of one that was there. Sources
    /// that were found before keep the old bytes.
    pub fn add(&mut self, name: &str, bytes: &[u8]) -> Result<(), Memory>
        ensures ok { OnOk result (shelf_of self.new ≡ record (shelf_of self.old)
            { files = set_at (shelf_of self.old).files name.now (Some bytes.now) }) }
        ensures err { OnErr result (shelf_of self.new ≡ shelf_of self.old) }
        ensures keeps { (n : List ℕ) → IsKept self.old n → IsKept self.new n }
    {
        put(self.alloc, &mut self.files, name, bytes)
    }

    /// Lets the read with this number fail too, in each source that is found under the name from
    /// now on, whether or not a file has the name yet. Each source counts its own reads, from 1 on;
    /// 0 is the number of none.
    pub fn fail_at(&mut self, name: &str, call: u64) -> Result<(), Memory>
        ensures ok { OnOk result (shelf_of self.new ≡ record (shelf_of self.old) {
          failing = set_at (shelf_of self.old).failing name.now
              ((shelf_of self.old).failing name.now ++ call ∷ []);
        }) }
        ensures err { OnErr result (shelf_of self.new ≡ shelf_of self.old) }
        ensures keeps { (n : List ℕ) → IsKept self.old n → IsKept self.new n }
    {
        let name = String::from_str(self.alloc, name)?;
        self.failing.push(FailingRead { name, call })?;
        Ok(())
    }
}

// The calls listed under the name.
fn calls(alloc: Global, reads: &[FailingRead], name: &str) -> Result<Vec<u64>, AllocError>
    ensures { IfOk result (λ calls. calls.items ≡ calls_in reads.now name.now) }
{
    reads
        .iter()
        .filter(|read| read.name.as_str() == name)
        .map(|read| read.call)
        .collect(alloc)
}

impl Files for MemFiles {
    type Src = MemSource;

    ghost known = { λ f. Some (shelf_of f).files };

    ghost faults = { faults_of };

    ghost failed_searches = { λ f. 0 };

    ghost keeps = { IsKept };

    /// A source over a copy of the file.
    fn find_src(&mut self, name: &str) -> Result<MemSource, FindFault>
        ensures known { (shelf_of self.new).files ≡ (shelf_of self.old).files }
        ensures answer { Finds (λ src. Some src.left) (Some (shelf_of self.old).files) name.now
            result }
        ensures found { IfOk result (IsFoundAs (λ src. src.name) (λ src. 0) (λ src. src.faults)
            (IsKept self.new) name.now) }
        ensures keeps { (n : List ℕ) → IsKept self.old n → IsKept self.new n }
        ensures later { NoneFalls (faults_of self.old) (faults_of self.new) }
        ensures never_fails { IsErrOf result FindFault.Failed → ⊥ }

        ensures fresh { IfOk result (λ src. (src.calls ≡ 0) ×
            (src.failing ≡ (shelf_of self.old).failing name.now)) }
        ensures ok { OnOk result (shelf_of self.new ≡ record (shelf_of self.old)
            { counts = kept_at (shelf_of self.old).counts name.now }) }
        ensures err { OnErr result (shelf_of self.new ≡ shelf_of self.old) }
    {
        let unread = open(self.alloc, &self.files, name)?;
        let failing = calls(self.alloc, self.failing.as_slice(), name)?;
        let own = String::from_str(self.alloc, name)?;
        keep(self.alloc, &mut self.counts, name)?;
        Ok(MemSource::new(own, unread, failing))
    }

    fn retire(&mut self, src: MemSource)
        requires { IsKept self.old src.name }
        ensures known { (shelf_of self.new).files ≡ (shelf_of self.old).files }
        ensures keeps { (n : List ℕ) → IsKept self.old n → IsKept self.new n }
        ensures later { NoneFalls (faults_of self.old) (faults_of self.new) }
        ensures rose { Rose 0 src.faults → Rose (faults_of self.old src.name)
            (faults_of self.new src.name) }

        ensures faulty { 0 < src.faults → shelf_of self.new ≡ record (shelf_of self.old)
            { counts = raised_at (shelf_of self.old).counts src.name } }
        ensures faultless { src.faults ≡ 0 → shelf_of self.new ≡ shelf_of self.old }
    {
        if src.has_faults() {
            raise(&mut self.counts, src.name());
        }
    }
}
