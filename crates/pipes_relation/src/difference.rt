// Rows less others, by how often each of those appears.
ghost use Rattle.std.specs.Prelude.{◌≡◌, [], IfOk};
ghost use Rattle.pipes_relation.specs.Relations.{minus};
ghost use Rattle.pipes_relation.specs.Counted.{number_in, HasCounts};

use indexmap::IndexMap;
use pipes_time::Memory;
use pipes_tuple::Tuple;
use std::alloc::Global;

// How often the row is counted.
fn number_in(counts: &IndexMap<Tuple, usize>, row: &Tuple) -> usize
    ensures { result ≡ number_in counts.now row.now }
{
    counts.get(row).copied().unwrap_or(0)
}

// How often each of the rows appears.
fn counted(alloc: Global, rows: Vec<Tuple>) -> Result<IndexMap<Tuple, usize>, Memory>
    ensures { IfOk result (λ counts. HasCounts counts rows.items []) }
{
    let mut counts = IndexMap::new(alloc);
    for row in rows {
        let many = number_in(&counts, &row);
        counts.insert(row, many + 1)?;
    }
    Ok(counts)
}

/// The left rows, less the first equal one for each right row. A row is looked up by its hash.
pub fn minus(alloc: Global, left: Vec<Tuple>, right: Vec<Tuple>) -> Result<Vec<Tuple>, Memory>
    ensures { IfOk result (λ out. out.items ≡ minus left.items right.items) }
{
    let mut counts = counted(alloc, right)?;
    let mut out = Vec::new(alloc);
    for row in left {
        let many = number_in(&counts, &row);
        if 0 < many {
            counts.insert(row, many - 1)?;
        } else {
            out.push(row)?;
        }
    }
    Ok(out)
}
