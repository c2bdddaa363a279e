// Maps by the names of files: to their bytes, and to counts of faults.
ghost use Rattle.std.specs.Prelude.{◌≡◌, ℕ, List, Some, OnOk, OnErr, IsSome, IsErrOf};
ghost use Rattle.pipes_edge.specs.Causes.{Rose};
ghost use Rattle.pipes_edge.specs.ByName.{files_in, counts_in, set_at, count_at, kept_at};
ghost use Rattle.pipes_edge.specs.ByName.{raised_at};
ghost use Rattle.pipes_edge.specs.Outside.{Finds, NoneFalls};

use crate::FindFault;
use crate::unread::Unread;
use pipes_time::Memory;
use std::alloc::Global;
use std::collections::BTreeMap;

pub(crate) type FileMap = BTreeMap<String, Vec<u8>>;

pub(crate) type CountMap = BTreeMap<String, u64>;

// Puts these bytes under the name, in the place of what stood there.
pub(crate) fn put(
    alloc: Global,
    files: &mut FileMap,
    name: &str,
    bytes: &[u8],
) -> Result<(), Memory>
    ensures ok { OnOk result (files_in files.new ≡ set_at (files_in files.old) name.now
        (Some bytes.now)) }
    ensures err { OnErr result (files_in files.new ≡ files_in files.old) }
{
    let own = String::from_str(alloc, name)?;
    let bytes = Vec::from_slice(alloc, bytes)?;
    files.insert(own, bytes)?;
    Ok(())
}

// A copy of the bytes under the name, to be read from the first on.
pub(crate) fn open(alloc: Global, files: &FileMap, name: &str) -> Result<Unread, FindFault>
    ensures answer { Finds (λ unread. Some unread) (Some (files_in files.now)) name.now result }
    ensures never { IsErrOf result FindFault.Failed → ⊥ }
{
    let bytes = files.get(name).ok_or(FindFault::Missing)?;
    Ok(Unread::new(Vec::from_slice(alloc, bytes.as_slice())?))
}

// Keeps a count under the name, from 0 on where none was kept.
pub(crate) fn keep(alloc: Global, counts: &mut CountMap, name: &str) -> Result<(), Memory>
    ensures ok { OnOk result (counts_in counts.new ≡ kept_at (counts_in counts.old) name.now) }
    ensures err { OnErr result (counts_in counts.new ≡ counts_in counts.old) }
    ensures kept { OnOk result (IsSome (counts_in counts.new name.now)) }
    ensures each { (n : List ℕ) → IsSome (counts_in counts.old n)
        → IsSome (counts_in counts.new n) }
    ensures same { (n : List ℕ) → count_at (counts_in counts.new) n ≡ count_at
        (counts_in counts.old) n }
{
    if !counts.contains_key(name) {
        let own = String::from_str(alloc, name)?;
        counts.insert(own, 0)?;
    }
    Ok(())
}

// Raises the count under the name, where one is kept.
pub(crate) fn raise(counts: &mut CountMap, name: &str)
    ensures raised { counts_in counts.new ≡ raised_at (counts_in counts.old) name.now }
    ensures each { (n : List ℕ) → IsSome (counts_in counts.old n)
        → IsSome (counts_in counts.new n) }
    ensures later { NoneFalls (count_at (counts_in counts.old)) (count_at (counts_in counts.new)) }
    ensures rose { IsSome (counts_in counts.old name.now) → Rose
        (count_at (counts_in counts.old) name.now) (count_at (counts_in counts.new) name.now) }
{
    if let Some(count) = counts.get_mut(name) {
        *count = count.saturating_add(1);
    }
}
