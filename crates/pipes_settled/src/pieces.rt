// Pieces: intervals in which a tuple has one number of copies, open or closed.
ghost use Rattle.std.specs.Prelude.{◌≡◌, ◌<◌, ℕ, true, false, List, Some, None, take, vec_len};
ghost use Rattle.std.specs.Prelude.{OnOk, OnErr, IfSome, IfNone};
ghost use Rattle.std.specs.BTreeMap.{get, btree_map_len};
ghost use Rattle.std.specs.HashMap as hash;
ghost use Rattle.pipes_tuple.specs.declared.value.Value.{Value as Datum};
ghost use Rattle.pipes_tuple.specs.Equal.{tuple_eq};
ghost use Rattle.pipes_settled.specs.Standing.{at_cmp, piece_cmp, Waits};
ghost use Rattle.pipes_settled.specs.Moves.{copies_of, BeginsPiece, EndsPiece, GivesFrom, is_past};
ghost use Rattle.pipes_settled.specs.Moves.{IsLimit, LeavesFirst, TurnsAt};

use crate::settled::Change;
use pipes_output::Period;
use pipes_time::Memory;
use pipes_tuple::Tuple;
use std::alloc::Global;
use std::collections::{BTreeMap, HashMap};

// Since when a tuple has had so many copies, at least one.
#[derive(Clone, Copy, Debug, PartialEq, Eq)]
pub(crate) struct Level {
    pub(crate) since: u64,
    pub(crate) copies: u64,
}

#[derive(Drop)]
pub(crate) struct Pieces {
    levels: HashMap<Tuple, Level>,
    // The open pieces, which are the levels, by start.
    opens: BTreeMap<(u64, Tuple), u64>,
    // What has ended and is not given yet, by start, then by end, then by tuple.
    closed: BTreeMap<(u64, u64, Tuple), u64>,
}

impl Pieces {
    // None.
    pub(crate) fn new(alloc: Global) -> Pieces
        ensures levels { (v : List Datum) → hash.get tuple_eq result.levels v ≡ None }
        ensures opens { (s : ℕ) (v : List Datum) → get at_cmp result.opens (s, v) ≡ None }
        ensures closed { (s e : ℕ) (v : List Datum) → get piece_cmp result.closed (s, e, v) ≡ None }
    {
        Pieces {
            levels: HashMap::new(alloc),
            opens: BTreeMap::new(alloc),
            closed: BTreeMap::new(alloc),
        }
    }

    // At the instant so many elements of the tuple begin, and so many end.
    pub(crate) fn turn(&mut self, at: u64, tuple: Tuple, change: Change) -> Result<(), Memory>
        ensures { OnOk result (TurnsAt self.old self.new at tuple change.begins change.ends) }
    {
        let level = level_of(&self.levels, &tuple);
        let copies = copies_of(level);
        let Some(most) = copies.checked_add(change.begins) else {
            return Err(Memory);
        };
        let Some(now) = most.checked_sub(change.ends) else {
            return Err(Memory);
        };
        if now == copies {
            return Ok(());
        }
        self.end_piece(level, at, &tuple)?;
        self.begin_piece(now, at, tuple)?;
        Ok(())
    }

    // The tuple's piece ends at the instant, if it has one.
    fn end_piece(&mut self, level: Option<Level>, at: u64, tuple: &Tuple) -> Result<(), Memory>
        ensures levels { OnOk result (self.new.levels ≡ self.old.levels) }
        ensures ends { OnOk result
            (EndsPiece level at tuple.now (get at_cmp self.old.opens) (get at_cmp self.new.opens)
            (get piece_cmp self.old.closed) (get piece_cmp self.new.closed)) }
    {
        match level {
            None => Ok(()),
            Some(level) => {
                let key = (level.since, tuple.copy()?);
                self.opens.remove(&key);
                let (since, tuple) = key;
                self.closed.insert((since, at, tuple), level.copies)?;
                Ok(())
            }
        }
    }

    // A piece of so many copies begins at the instant, if there are any.
    fn begin_piece(&mut self, now: u64, at: u64, tuple: Tuple) -> Result<(), Memory>
        ensures closed { OnOk result (self.new.closed ≡ self.old.closed) }
        ensures begins { OnOk result
            (BeginsPiece now at tuple (hash.get tuple_eq self.old.levels)
            (hash.get tuple_eq self.new.levels) (get at_cmp self.old.opens)
            (get at_cmp self.new.opens)) }
    {
        if now == 0 {
            self.levels.remove(&tuple);
            return Ok(());
        }
        self.opens.insert((at, tuple.copy()?), now)?;
        self.levels.insert(
            tuple,
            Level {
                since: at,
                copies: now,
            },
        )?;
        Ok(())
    }

    // Appends the lines of the closed pieces that no other line can precede any more.
    pub(crate) fn give(&mut self, out: &mut Vec<u8>) -> Result<(), Memory>
        ensures gives { OnOk result (GivesFrom self.old self.new out.old.items out.new.items) }
        ensures waits { OnOk result
            (Waits (get at_cmp self.new.opens) (get piece_cmp self.new.closed)) }
        ensures err { OnErr result (take (vec_len out.old) out.new.items ≡ out.old.items) }
    {
        let limit = self.limit();
        'closed: while let Some((start, end, tuple, copies)) = self.pop_up_to(limit) {
            Period::new(start, end, copies, &tuple).print(out)?;
        }
        Ok(())
    }

    // The least start of an open piece.
    fn limit(&self) -> Option<u64>
        ensures { IsLimit result (get at_cmp self.now.opens) }
    {
        match self.opens.first_key_value() {
            Some((key, _)) => Some(key.0),
            None => None,
        }
    }

    // Takes out the first closed piece, if it is not past the limit.
    fn pop_up_to(&mut self, limit: Option<u64>) -> Option<(u64, u64, Tuple, u64)>
        ensures levels { self.new.levels ≡ self.old.levels }
        ensures opens { self.new.opens ≡ self.old.opens }
        ensures limit { IfSome result (λ r. is_past limit r.0 ≡ false) }
        ensures first { IfSome result
            (λ r. LeavesFirst r.0 r.1 r.3 r.2 (get piece_cmp self.old.closed)
            (get piece_cmp self.new.closed)) }
        ensures less { IfSome result
            (λ r. btree_map_len self.new.closed < btree_map_len self.old.closed) }
        ensures none { IfNone result
            ((s e c : ℕ) (v : List Datum) → get piece_cmp self.new.closed (s, e, v) ≡ Some c
            → is_past limit s ≡ true) }
        ensures same { IfNone result (self.new.closed.entries ≡ self.old.closed.entries) }
    {
        let (first, _) = self.closed.first_key_value()?;
        if is_past(limit, first.0) {
            return None;
        }
        let ((start, end, tuple), copies) = self.closed.pop_first()?;
        Some((start, end, tuple, copies))
    }
}

// The level of the tuple, if it has one.
fn level_of(levels: &HashMap<Tuple, Level>, tuple: &Tuple) -> Option<Level>
    ensures { result ≡ hash.get tuple_eq levels.now tuple.now }
{
    levels.get(tuple).copied()
}

// Whether the start is past the limit, where there is one.
fn is_past(limit: Option<u64>, start: u64) -> bool
    ensures { result ≡ is_past limit start }
{
    match limit {
        Some(limit) => limit < start,
        None => false,
    }
}

// How many copies there are at the level.
fn copies_of(level: Option<Level>) -> u64
    ensures { result ≡ copies_of level }
{
    match level {
        Some(level) => level.copies,
        None => 0,
    }
}
