// Elements that are kept until they end.
ghost use Rattle.std.specs.Prelude.{◌≡◌, List, [], ◌∷◌, ◌++◌, IfOk, OnOk, OnErr, MatchOption};
ghost use Rattle.std.specs.Prelude.{length, ◌+◌, ◌<◌, ◌≤◌, true, false};
ghost use Rattle.pipes_stream.specs.declared.Elem.{Elem as Held};
ghost use Rattle.pipes_tuple.specs.Columns.{at_columns, HasColumns};
ghost use Rattle.pipes_sweep.specs.Areas.{AreaHolds, ended_count, is_overlap, overlapping, until};
ghost use Rattle.pipes_sweep.specs.Areas.{elems_with_key};

use crate::end_index::EndIndex;
use crate::key_index::KeyIndex;
use crate::{KeyElems, Steps, Store};
use pipes_stream::Elem;
use pipes_time::{Interval, Memory};
use pipes_tuple::{Cols, Key, Tuple};
use std::alloc::Global;
use std::marker::{Brand, Model};
use std::sync::ledger::{Blank, Ledger};

/// A sweep area (Krämer and Seeger, TODS 2009): the elements of one input that can still meet
/// elements of the other, by their values in some columns. They are found by key, and purged by
/// end, without a look at others.
#[derive(Drop)]
pub struct Area {
    cols: Cols,
    store: Store,
    by_key: KeyIndex,
    by_end: EndIndex,
}

impl Model for Area {
    ghost use Rattle.std.specs.Map.{values_of};
    ghost use Rattle.pipes_sweep.specs.Areas.{KeptByKey};
    ghost use Rattle.pipes_sweep.specs.Numbers.{IsIndexed};

    ghost Value = { KeptByKey };

    ghost view = { λ a. record { columns = a.cols; elems = values_of a.store } };

    ghost invariant = { λ a. IsIndexed a.cols a.store a.by_key.sets.entries a.by_end.ends };
}

impl Area {
    /// An area with no elements, by the values in these columns.
    pub fn new(alloc: Global, cols: Cols) -> Area
        ensures columns { result.columns ≡ cols }
        ensures nothing { AreaHolds result [] }
    {
        Area {
            cols,
            store: Store::new(alloc),
            by_key: KeyIndex::new(alloc),
            by_end: EndIndex::new(alloc),
        }
    }

    /// The tuple's values in the area's columns, unless one of them is not there.
    pub fn key_of(&self, tuple: &Tuple) -> Result<Option<Key>, Memory>
        ensures { IfOk result (λ found. MatchOption found
            (HasColumns self.now.columns tuple.now → ⊥)
            (λ key. (key ≡ at_columns self.now.columns tuple.now)
            × HasColumns self.now.columns tuple.now)) }
    {
        let width = tuple.len();
        if !self
            .cols
            .as_slice()
            .iter()
            .all(|column| (*column as usize) < width)
        {
            return Ok(None);
        }
        Ok(Some(tuple.key(&self.cols)?))
    }

    /// One more element, after the others of its key. Out of memory nothing changes.
    pub fn insert(&mut self, elem: Elem) -> Result<(), Memory>
        requires { HasColumns self.old.columns elem.tuple }
        ensures columns { self.new.columns ≡ self.old.columns }
        ensures inserted { OnOk result ((list : List Held) → AreaHolds self.old list
            → AreaHolds self.new (list ++ elem ∷ [])) }
        ensures memory { OnErr result (self.new ≡ self.old) }
    {
        let key = elem.tuple.key(&self.cols)?;
        self.insert_keyed(key, elem)
    }

    /// One more element, whose key is known, after the others of this key. Out of memory nothing
    /// changes.
    pub fn insert_keyed(&mut self, key: Key, elem: Elem) -> Result<(), Memory>
        requires { key ≡ at_columns self.old.columns elem.tuple }
        ensures columns { self.new.columns ≡ self.old.columns }
        ensures inserted { OnOk result ((list : List Held) → AreaHolds self.old list
            → AreaHolds self.new (list ++ elem ∷ [])) }
        ensures memory { OnErr result (self.new ≡ self.old) }
    {
        let end = elem.span.end();
        let copy = key.copy()?;
        let number = self.store.add(elem)?;
        match self.by_end.put(end, number, copy) {
            Err(fault) => {
                self.store.drop_one(number);
                Err(fault)
            }
            Ok(()) => match self.by_key.list(key, number) {
                Err(fault) => {
                    self.by_end.take_back(end, number);
                    self.store.drop_one(number);
                    Err(fault)
                }
                Ok(()) => Ok(()),
            },
        }
    }

    /// The elements with these values in the area's columns, in the order of insertion.
    pub fn of_key<'a>(&'a self, key: &Key) -> KeyElems<'a>
        ensures { result ≡ elems_with_key self.now.columns key.now self.now.elems }
    {
        KeyElems::new(&self.store, self.by_key.numbers(key))
    }

    /// Appends copies of the elements with these values in the area's columns that are valid at
    /// some instant of the interval, in the order of insertion. Out of memory nothing is appended.
    pub fn probe(&self, key: &Key, span: &Interval, found: &mut Vec<Elem>) -> Result<(), Memory>
        ensures found { OnOk result ((list : List Held) → AreaHolds self.now list
            → found.new.items ≡ found.old.items
            ++ overlapping span.now (elems_with_key self.now.columns key.now list)) }
        ensures memory { OnErr result (found.new.items ≡ found.old.items) }
    {
        self.probe_with::<Brand>(key, span, found, Blank::new(1))
    }

    // The same, with a ledger whose steps nobody reads.
    fn probe_with<L: Ledger>(
        &self,
        key: &Key,
        span: &Interval,
        found: &mut Vec<Elem>,
        blank: Blank,
    ) -> Result<(), Memory>
        requires name { blank.name ≡ L.name }
        requires parts { blank.parts ≡ L.parts }
        requires some { 0 < blank.parts }
        ensures found { OnOk result ((list : List Held) → AreaHolds self.now list
            → found.new.items ≡ found.old.items
            ++ overlapping span.now (elems_with_key self.now.columns key.now list)) }
        ensures memory { OnErr result (found.new.items ≡ found.old.items) }
    {
        let mut steps: Steps<L> = Steps::new(blank);
        self.probe_in_steps(key, span, found, &mut steps)
    }

    /// As [`Area::probe`], in at most as many steps as the area has elements of this key: no other
    /// is looked at.
    pub fn probe_in_steps<L: Ledger>(
        &self,
        key: &Key,
        span: &Interval,
        found: &mut Vec<Elem>,
        steps: &mut Steps<L>,
    ) -> Result<(), Memory>
        ensures found { OnOk result ((list : List Held) → AreaHolds self.now list
            → found.new.items ≡ found.old.items
            ++ overlapping span.now (elems_with_key self.now.columns key.now list)) }
        ensures memory { OnErr result (found.new.items ≡ found.old.items) }
        ensures steps { (list : List Held) → AreaHolds self.now list
            → steps.new ≤ steps.old + length (elems_with_key self.now.columns key.now list) }
    {
        let before = found.len();
        let mut elems = self.of_key(key);
        match append_overlapping(&mut elems, span, found, steps) {
            Ok(()) => Ok(()),
            Err(fault) => {
                found.truncate(before);
                Err(fault)
            }
        }
    }

    /// Removes the elements that end at `t` or before it, and answers how many. It takes no memory.
    pub fn purge(&mut self, t: u64) -> u64
        ensures columns { self.new.columns ≡ self.old.columns }
        ensures purged { (list : List Held) → AreaHolds self.old list
            → AreaHolds self.new (until t list) }
        ensures count { (list : List Held) → AreaHolds self.old list → result ≡ ended_count t list }
    {
        let before = self.len();
        while self.purge_one(t) {}
        (before - self.len()) as u64
    }

    // Removes an element that ends at `t` or before it, the first of these to end, if there is one.
    fn purge_one(&mut self, t: u64) -> bool
        ensures columns { self.new.columns ≡ self.old.columns }
        ensures purged { until t self.new.elems ≡ until t self.old.elems }
        ensures gone { result ≡ true → length self.new.elems + 1 ≡ length self.old.elems }
        ensures over { result ≡ false → until t self.new.elems ≡ self.new.elems }
        ensures same { result ≡ false → self.new.elems ≡ self.old.elems }
    {
        match self.by_end.pop_ended(t) {
            Some((number, key)) => {
                self.store.drop_one(number);
                self.by_key.unlist(&key, number);
                true
            }
            None => false,
        }
    }

    /// The number of elements.
    pub fn len(&self) -> usize
        ensures { result ≡ length self.now.elems }
    {
        self.store.len()
    }
}

// Whether the intervals have an instant in common.
fn overlaps(a: &Interval, b: &Interval) -> bool
    ensures { result ≡ is_overlap a.now b.now }
{
    a.start().max(b.start()) < a.end().min(b.end())
}

// Appends copies of the elements that are valid at some instant of the interval. Out of memory some
// may have been appended.
fn append_overlapping<L: Ledger>(
    elems: &mut KeyElems<'_>,
    span: &Interval,
    found: &mut Vec<Elem>,
    steps: &mut Steps<L>,
) -> Result<(), Memory>
    ensures found { OnOk result
        (found.new.items ≡ found.old.items ++ overlapping span.now elems.old) }
    ensures grows { (more : List Held) × (found.new.items ≡ found.old.items ++ more) }
    ensures steps { steps.new ≤ steps.old + length elems.old }
{
    while let Some(elem) = elems.next(steps) {
        if overlaps(span, &elem.span) {
            found.push(elem.copy()?)?;
        }
    }
    Ok(())
}
