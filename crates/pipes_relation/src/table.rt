// Rows by their keys.
ghost use Rattle.std.specs.Prelude.{◌≡◌, ◌<◌, List, [], OnOk, length};
ghost use Rattle.pipes_expr.specs.ExprValue.{Row};
ghost use Rattle.pipes_relation.specs.Relations.{bag_lists};
ghost use Rattle.pipes_relation.specs.Tables.{AddsRow, IsTable, put_at, with_value};

use indexmap::IndexSet;
use pipes_time::Memory;
use pipes_tuple::{Key, Tuple};
use std::alloc::Global;

// The keys of rows in order of first appearance, and beside each its rows in order.
#[derive(Drop)]
pub(crate) struct Table {
    pub(crate) keys: IndexSet<Key>,
    pub(crate) groups: Vec<Vec<Tuple>>,
}

// Puts the row after those at the place.
fn put(groups: &mut Vec<Vec<Tuple>>, i: usize, row: Tuple) -> Result<(), Memory>
    requires { i < length groups.old.items }
    ensures { OnOk result (bag_lists groups.new.items ≡ put_at (bag_lists groups.old.items) i row) }
{
    groups[i].push(row)?;
    Ok(())
}

impl Table {
    // The table of no rows.
    pub(crate) fn new(alloc: Global) -> Table
        ensures { (key_of : Row → Row) → IsTable key_of [] result.keys.keys result.groups.items }
    {
        Table {
            keys: IndexSet::new(alloc),
            groups: Vec::new(alloc),
        }
    }

    // Adds a row, which has this key.
    pub(crate) fn add(&mut self, alloc: Global, key: Key, row: Tuple) -> Result<(), Memory>
        requires { length self.old.groups.items ≡ length self.old.keys.keys }
        ensures { OnOk result (AddsRow key row self.old.keys.keys self.old.groups.items
            self.new.keys.keys self.new.groups.items) }
    {
        let (i, added) = self.keys.insert_full(key)?;
        if added {
            self.groups.push(Vec::new(alloc))?;
        }
        put(&mut self.groups, i, row)?;
        Ok(())
    }

    // The rows with this key, in order.
    pub(crate) fn rows(&self, key: &Key) -> &[Tuple]
        requires { length self.now.groups.items ≡ length self.now.keys.keys }
        ensures { (key_of : Row → Row) (rows : List Row)
            → IsTable key_of rows self.now.keys.keys self.now.groups.items
            → result.now ≡ with_value key_of rows key.now }
    {
        match self.keys.get_index_of(key) {
            Some(i) => self.groups[i].as_slice(),
            None => &[],
        }
    }
}
