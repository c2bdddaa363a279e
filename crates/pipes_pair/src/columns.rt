// The columns by which the sides of a join have keys.
ghost use Rattle.std.specs.Prelude.{◌≡◌, IfOk};
ghost use Rattle.pipes_relation.specs.Tables.{left_columns, right_columns};

use pipes_plan::Pairs;
use pipes_time::Memory;
use pipes_tuple::Cols;
use std::alloc::Global;

// The left side's columns.
pub(crate) fn left_columns(alloc: Global, pairs: &Pairs) -> Result<Cols, Memory>
    ensures { IfOk result (λ cols. cols ≡ left_columns pairs.now) }
{
    let list: Vec<u32> = pairs
        .as_slice()
        .iter()
        .map(|pair| pair.left)
        .collect(alloc)?;
    Ok(Cols::new(list).unwrap())
}

// The right side's columns.
pub(crate) fn right_columns(alloc: Global, pairs: &Pairs) -> Result<Cols, Memory>
    ensures { IfOk result (λ cols. cols ≡ right_columns pairs.now) }
{
    let list: Vec<u32> = pairs
        .as_slice()
        .iter()
        .map(|pair| pair.right)
        .collect(alloc)?;
    Ok(Cols::new(list).unwrap())
}
