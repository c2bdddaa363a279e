// The rows that are valid at one instant.
ghost use Rattle.std.specs.Prelude.{◌≡◌, ◌+◌, [], ◌∷◌, ◌++◌, ◌&&◌, nat_le, nat_lt, OnOk, OnErr};
ghost use Rattle.pipes_window.specs.declared.item.Item.TheVariants as items;
ghost use Rattle.pipes_window.specs.Valid as valid;
ghost use Rattle.pipes_window.specs.Valid.{Gathers, HasValid, HoldsFew, newest};

use crate::WindowKind;
use crate::ring::slide;
use pipes_time::{Memory, last_slide};
use pipes_tuple::Tuple;
use std::alloc::Global;
use std::collections::VecDeque;
use std::marker::Model;

/// Gathers the rows of one source that are valid at one instant. It takes the source's rows in
/// their order, and holds no row that is not, by the rows taken so far, valid then.
#[derive(Drop)]
pub struct RowsAt {
    kind: WindowKind,
    time: u64,
    rows: VecDeque<Tuple>,
}

impl Model for RowsAt {
    ghost use Rattle.pipes_window.specs.Valid.{Gathered, HoldsFew};

    ghost Value = { Gathered };

    ghost view = { λ g. record { kind = g.kind; time = g.time; rows = g.rows.items } };

    ghost invariant = { λ g. HoldsFew g.kind g.rows.items };
}

// Whether a row with this stamp is one of the last `size` instants up to this one.
fn is_recent(stamp: u64, size: u64, time: u64) -> bool
    ensures { result ≡ (nat_le stamp time && nat_lt time (stamp + size)) }
{
    stamp <= time && time - stamp < size
}

// Whether a row with this stamp has come by the instant and, but for a count window, is still valid
// then.
fn reaches(kind: WindowKind, stamp: u64, time: u64) -> bool
    ensures { result ≡ valid.reaches kind stamp time }
{
    match kind {
        WindowKind::Time(size) => is_recent(stamp, size, time),
        WindowKind::Slide(size, slide) => is_recent(stamp, size, last_slide(time, slide)),
        WindowKind::Count(_) => stamp <= time,
    }
}

// The newest row joins, and in a count window the oldest leaves where there are then too many.
fn keep(kind: WindowKind, rows: &mut VecDeque<Tuple>, tuple: Tuple) -> Result<(), Memory>
    requires { HoldsFew kind rows.old.items }
    ensures rows { OnOk result (rows.new.items ≡ newest kind (rows.old.items ++ tuple ∷ [])) }
    ensures kept { OnErr result (rows.new.items ≡ rows.old.items) }
    ensures few { HoldsFew kind rows.new.items }
{
    match kind {
        WindowKind::Time(_) | WindowKind::Slide(_, _) => rows.push_back(tuple)?,
        WindowKind::Count(most) => {
            slide(rows, most as usize, tuple)?;
        }
    }
    Ok(())
}

impl RowsAt {
    /// For a window of this kind and this instant, before any row.
    pub fn new(alloc: Global, kind: WindowKind, time: u64) -> RowsAt
        ensures value { result ≡ record { kind = kind; time = time; rows = [] } }
        ensures valid { HasValid [] result }
    {
        RowsAt {
            kind,
            time,
            rows: VecDeque::new(alloc),
        }
    }

    /// Takes the next row. Out of memory, nothing changes.
    pub fn take(&mut self, stamp: u64, tuple: Tuple) -> Result<(), Memory>
        ensures takes { OnOk result (Gathers self.old self.new (items.Row stamp tuple)) }
        ensures memory { OnErr result (self.new ≡ self.old) }
    {
        if reaches(self.kind, stamp, self.time) {
            keep(self.kind, &mut self.rows, tuple)?;
        }
        Ok(())
    }

    /// The rows that are valid, in the order of the source.
    pub fn into_rows(self) -> Vec<Tuple>
        ensures { result.items ≡ self.rows }
    {
        self.rows.into_vec()
    }
}
