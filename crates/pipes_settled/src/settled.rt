// The normal text of elements that come in order of start, given line by line.
ghost use Rattle.std.specs.Prelude.{◌≡◌, ◌≤◌, ◌<◌, [], ℕ, List, Some, None, true, false, take};
ghost use Rattle.std.specs.Prelude.{vec_len, OnOk, OnErr, IfSome, IfNone, IsErr};
ghost use Rattle.std.specs.Bool.{OnTrue};
ghost use Rattle.std.specs.BTreeMap.{get, btree_map_len};
ghost use Rattle.pipes_tuple.specs.declared.value.Value.{Value as Datum};
ghost use Rattle.pipes_stream.specs.declared.Elem.{Elem as Item};
ghost use Rattle.pipes_output.specs.Periods.{Period};
ghost use Rattle.pipes_settled.specs.declared.settled.Change.{Change as Seen};
ghost use Rattle.pipes_settled.specs.Certainty.{CertainLaws};
ghost use Rattle.pipes_settled.specs.Standing.{Adds, Advances, at_cmp, begins_of, CallLaws};
ghost use Rattle.pipes_settled.specs.Standing.{ends_of, Finishes, Stands};
ghost use Rattle.pipes_settled.specs.Moves.{IsAdded, IsNext, IsSettledTo};

use crate::pieces::Pieces;
use pipes_stream::Elem;
use pipes_time::{CLOSED, Memory};
use pipes_tuple::{Tuple, all_or_nothing};
use std::alloc::Global;
use std::collections::BTreeMap;

// How many elements of a tuple begin at an instant, and how many end.
#[derive(Clone, Copy, Debug, PartialEq, Eq)]
pub(crate) struct Change {
    pub(crate) begins: u64,
    pub(crate) ends: u64,
}

pub(crate) type Changes = BTreeMap<(u64, Tuple), Change>;

/// Elements in order of start, of which the normal text is given as soon as it is certain. Out of
/// memory a call fails, and every call after it fails too: what was given till then stays certain.
#[derive(Drop)]
pub struct Settled {
    // What the elements do at instants that are not settled yet.
    changes: Changes,
    pieces: Pieces,
    // Whether a call has failed, and so the tables may lack a part of what was to be done.
    failed: bool,
}

impl Settled {
    /// No elements. It takes no memory.
    pub fn new(alloc: Global) -> Settled
        ensures stands { Stands [] 0 [] result }

        // What is certain stays so.
        ensures certain { CertainLaws }

        // What several calls do.
        ensures calls { CallLaws }
    {
        Settled {
            changes: BTreeMap::new(alloc),
            pieces: Pieces::new(alloc),
            failed: false,
        }
    }

    /// One element more, which starts at the last instant advanced to, or later.
    pub fn add(&mut self, elem: Elem) -> Result<(), Memory>
        ensures adds { OnOk result (Adds elem self.old self.new) }
        ensures memory { OnErr result (self.new.failed ≡ true) }
        ensures stays_failed { OnTrue self.old.failed (IsErr result) }
    {
        if self.failed {
            return Err(Memory);
        }
        self.failed = true;
        let Elem { tuple, span } = elem;
        let other = tuple.copy()?;
        begin(&mut self.changes, span.start(), other)?;
        end(&mut self.changes, span.end(), tuple)?;
        self.failed = false;
        Ok(())
    }

    /// No later element starts below the instant `h`, which is no less than the last one. Appends
    /// the lines that are certain now.
    pub fn advance(&mut self, h: u64, out: &mut Vec<u8>) -> Result<(), Memory>
        ensures advances { OnOk result
            (Advances h out.old.items out.new.items self.old self.new) }
        ensures err { OnErr result (out.new.items ≡ out.old.items) }
        ensures memory { OnErr result (self.new.failed ≡ true) }
        ensures stays_failed { OnTrue self.old.failed (IsErr result) }
    {
        if self.failed {
            return Err(Memory);
        }
        let before = out.len();
        let tried = self.push_certain(h, out);
        all_or_nothing(tried, before, out)
    }

    /// No element comes any more. Appends the lines that are left.
    pub fn finish(&mut self, out: &mut Vec<u8>) -> Result<(), Memory>
        ensures finishes { OnOk result (Finishes out.old.items out.new.items self.old self.new) }
        ensures err { OnErr result (out.new.items ≡ out.old.items) }
        ensures memory { OnErr result (self.new.failed ≡ true) }
        ensures stays_failed { OnTrue self.old.failed (IsErr result) }
    {
        self.advance(CLOSED, out)?;
        Ok(())
    }

    // Appends the lines that are certain.
    fn push_certain(&mut self, h: u64, out: &mut Vec<u8>) -> Result<(), Memory>
        ensures advances { OnOk result
            (Advances h out.old.items out.new.items self.old self.new) }
        ensures err { OnErr result (take (vec_len out.old) out.new.items ≡ out.old.items) }
        ensures memory { OnErr result (self.new.failed ≡ true) }
    {
        self.failed = true;
        self.settle(h)?;
        self.pieces.give(out)?;
        self.failed = false;
        Ok(())
    }

    // Settles what is before the instant.
    fn settle(&mut self, h: u64) -> Result<(), Memory>
        ensures settles { OnOk result
            ((elems : List Item) (from : ℕ) (given : List Period)
            → IsSettledTo elems from given self.old → from ≤ h
            → IsSettledTo elems h given self.new) }
        ensures flag { self.new.failed ≡ self.old.failed }
    {
        'changes: while let Some((at, tuple, change)) = pop_before(&mut self.changes, h) {
            self.pieces.turn(at, tuple, change)?;
        }
        Ok(())
    }
}

// One element more of the tuple begins at the instant.
fn begin(changes: &mut Changes, at: u64, tuple: Tuple) -> Result<(), Memory>
    ensures { OnOk result
        (IsAdded 1 0 (at, tuple) (get at_cmp changes.old) (get at_cmp changes.new)) }
{
    let key = (at, tuple);
    let old = change_at(changes, &key);
    let Some(begins) = old.begins.checked_add(1) else {
        return Err(Memory);
    };
    changes.insert(
        key,
        Change {
            begins,
            ends: old.ends,
        },
    )?;
    Ok(())
}

// One element more of the tuple ends at the instant.
fn end(changes: &mut Changes, at: u64, tuple: Tuple) -> Result<(), Memory>
    ensures { OnOk result
        (IsAdded 0 1 (at, tuple) (get at_cmp changes.old) (get at_cmp changes.new)) }
{
    let key = (at, tuple);
    let old = change_at(changes, &key);
    let Some(ends) = old.ends.checked_add(1) else {
        return Err(Memory);
    };
    changes.insert(
        key,
        Change {
            begins: old.begins,
            ends,
        },
    )?;
    Ok(())
}

// What the elements of a tuple do at an instant.
fn change_at(changes: &Changes, key: &(u64, Tuple)) -> Change
    ensures begins { result.begins ≡ begins_of (get at_cmp changes.now key.now) }
    ensures ends { result.ends ≡ ends_of (get at_cmp changes.now key.now) }
{
    match changes.get(key) {
        Some(change) => *change,
        None => Change { begins: 0, ends: 0 },
    }
}

// Takes out the first change, by instant and then by tuple, if its instant is before h.
fn pop_before(changes: &mut Changes, h: u64) -> Option<(u64, Tuple, Change)>
    ensures before { IfSome result (λ r. r.0 < h) }
    ensures first { IfSome result
        (λ r. IsNext r.0 r.1 r.2 (get at_cmp changes.old) (get at_cmp changes.new)) }
    ensures less { IfSome result (λ r. btree_map_len changes.new < btree_map_len changes.old) }
    ensures same { IfNone result (changes.new.entries ≡ changes.old.entries) }
    ensures none { IfNone result
        ((t : ℕ) (v : List Datum) (c : Seen) → get at_cmp changes.new (t, v) ≡ Some c → h ≤ t) }
{
    let (first, _) = changes.first_key_value()?;
    if h <= first.0 {
        return None;
    }
    let ((at, tuple), change) = changes.pop_first()?;
    Some((at, tuple, change))
}
