// The answer of a plan, all at once.
ghost use Rattle.std.specs.Prelude.{◌≡◌, [], IfOk, slice_get, unwrap_or};
ghost use Rattle.pipes_relation.specs.Relations.{bag_lists};
ghost use Rattle.pipes_plan.specs.Algebra.{alg};
ghost use Rattle.pipes_plan.specs.PlanKinds.{IsTyped, BagsFit};

use crate::{Plan, Schemas};
use pipes_relation::{copy_rows, distinct, filtered, grouped, joined, mapped, minus, united};
use pipes_time::Memory;
use pipes_tuple::Tuple;
use std::alloc::Global;

// The rows of a source.
fn source(alloc: Global, i: u32, bags: &[Vec<Tuple>]) -> Result<Vec<Tuple>, Memory>
    ensures { IfOk result (λ out. out.items ≡ unwrap_or (slice_get (bag_lists bags.now) i) []) }
{
    match bags.get(i as usize) {
        Some(bag) => copy_rows(alloc, bag.as_slice()),
        None => Ok(Vec::new(alloc)),
    }
}

/// The answer of a plan on a bag for each source, which fits the source's schema. Its rows come in
/// the order that the sources' rows give them.
pub fn answer(
    alloc: Global,
    plan: &Plan,
    schemas: &Schemas,
    bags: &[Vec<Tuple>],
) -> Result<Vec<Tuple>, Memory>
    requires typed { IsTyped plan.now schemas.now }
    requires fit { BagsFit (bag_lists bags.now) schemas.now }
    ensures { IfOk result (λ rows. rows.items ≡ alg plan.now (bag_lists bags.now)) }
{
    match plan {
        Plan::Source(i) => source(alloc, *i, bags),
        Plan::Filter(condition, a) => {
            filtered(alloc, condition, answer(alloc, a.get(), schemas, bags)?)
        }
        Plan::Map(exprs, a) => {
            let rows = answer(alloc, a.get(), schemas, bags)?;
            mapped(alloc, exprs.as_slice(), rows.as_slice())
        }
        Plan::Union(a, b) => {
            let left = answer(alloc, a.get(), schemas, bags)?;
            united(left, answer(alloc, b.get(), schemas, bags)?)
        }
        Plan::Join(pairs, condition, a, b) => {
            let left = answer(alloc, a.get(), schemas, bags)?;
            let right = answer(alloc, b.get(), schemas, bags)?;
            joined(alloc, pairs.as_slice(), condition, left.as_slice(), right)
        }
        Plan::Distinct(a) => distinct(alloc, answer(alloc, a.get(), schemas, bags)?),
        Plan::Group(columns, aggs, a) => {
            let rows = answer(alloc, a.get(), schemas, bags)?;
            grouped(alloc, columns, aggs.as_slice(), rows)
        }
        Plan::Minus(a, b) => {
            let left = answer(alloc, a.get(), schemas, bags)?;
            let right = answer(alloc, b.get(), schemas, bags)?;
            minus(alloc, left, right)
        }
    }
}
