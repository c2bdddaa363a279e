//! The rules that move joins: what each makes of a plan, forward and back.
#![tactic(auto)]

ghost use Rattle.std.specs.Prelude.{◌≡◌, ◌<◌, ◌≤◌, ◌++◌, IfOk, OnOk, length, Err};
ghost use Rattle.pipes_rewrite.specs.JoinForms.{
  beyond_pairs,
  columns_from,
  distinct_join_from,
  distinct_join_to,
  far_pairs,
  inner_pairs,
  join_assoc_from,
  join_assoc_to,
  join_commute_from,
  join_commute_to,
  join_union_from,
  join_union_right_from,
  join_union_right_to,
  join_union_to,
  lowered_pairs,
  near_pairs,
  outer_pairs,
  raised_pairs,
  restored,
  swapped,
};
ghost use Rattle.pipes_rewrite.specs.Changes.{truth};
ghost use Rattle.pipes_rewrite.specs.Equalities.{same_exprs};
ghost use Rattle.pipes_rewrite.specs.Making.{Makes, MakesPlan};

use pipes_plan::{Expr, Exprs, Pair, Pairs, Plan, distinct, join, union};
use pipes_rewrite::{
    Lengthened, RewriteFault, Rewritten, conjoin, distinct_of, join_by, join_of, map_by, raised,
    true_literal, turned, union_of, width,
};
use pipes_time::Memory;
use pipes_tuple::Schema;
use std::alloc::Global;

// The join on a list of pairs, unless there are too many.
#[tactic(auto, using(crate::proofs::PairLists::long_pairs))]
fn join_listed(
    alloc: Global,
    pairs: Vec<Pair>,
    c: Expr,
    a: Plan,
    b: Plan,
) -> Result<Plan, RewriteFault>
    ensures { MakesPlan result (Plan.Join pairs.items c a b) }
{
    let Some(pairs) = Pairs::new(pairs) else {
        return Err(RewriteFault::TooLong);
    };
    Ok(join_by(alloc, pairs, c, a, b)?)
}

// The pairs with their sides exchanged.
fn swapped_list(alloc: Global, pairs: &[Pair]) -> Result<Vec<Pair>, Memory>
    ensures { IfOk result (λ list. list.items ≡ swapped pairs.now) }
{
    let list: Vec<Pair> = pairs
        .iter()
        .map(|p| Pair {
            left: p.right,
            right: p.left,
        })
        .collect(alloc)?;
    Ok(list)
}

// The same, as joins have them.
#[tactic(auto, using(crate::proofs::PairLists::length_swapped))]
fn swapped_pairs(alloc: Global, pairs: &Pairs) -> Result<Pairs, Memory>
    ensures { IfOk result (λ list. list ≡ swapped pairs.now) }
{
    let list = swapped_list(alloc, pairs.as_slice())?;
    Ok(Pairs::new(list).unwrap())
}

// Appends so many columns, from this one on.
#[tactic(auto, using(crate::proofs::PairLists::one_column_more))]
fn push_columns(start: u32, count: u32, list: &mut Vec<Expr>) -> Result<(), Memory>
    requires { (start ≤ 32) × (count ≤ 32) }
    ensures { OnOk result (list.new.items ≡ list.old.items ++ columns_from start count) }
{
    for i in 0..count {
        list.push(Expr::Col(start + i))?;
    }
    Ok(())
}

// The columns of a left and a right side of these widths, the right side's being first.
fn restored_columns(alloc: Global, left: u32, right: u32) -> Result<Vec<Expr>, Memory>
    requires { (left ≤ 32) × (right ≤ 32) }
    ensures { IfOk result (λ list. list.items ≡ restored left right) }
{
    let mut list = Vec::new(alloc);
    push_columns(right, left, &mut list)?;
    push_columns(0, right, &mut list)?;
    Ok(list)
}

// The pairs that tie B and C, once A has the width given.
fn inner_list(alloc: Global, a: u32, k: &[Pair]) -> Result<Vec<Pair>, Memory>
    ensures { IfOk result (λ list. list.items ≡ inner_pairs a k.now) }
{
    let list: Vec<Pair> = k
        .iter()
        .filter(|p| a <= p.left)
        .map(|p| Pair {
            left: p.left.saturating_sub(a),
            right: p.right,
        })
        .collect(alloc)?;
    Ok(list)
}

// The ones before and then the others.
fn both_lists(mut list: Vec<Pair>, more: Vec<Pair>) -> Result<Vec<Pair>, Memory>
    ensures { IfOk result (λ both. both.items ≡ list.items ++ more.items) }
{
    list.extend_from_slice(more.as_slice())?;
    Ok(list)
}

// The pairs of A and C, whose columns follow the b columns of B.
fn beyond_list(alloc: Global, a: u32, b: u32, k: &[Pair]) -> Result<Vec<Pair>, Memory>
    ensures { IfOk result (λ list. list.items ≡ beyond_pairs a b k.now) }
{
    let list: Vec<Pair> = k
        .iter()
        .filter(|p| p.left < a)
        .map(|p| Pair {
            left: p.left,
            right: b.saturating_add(p.right),
        })
        .collect(alloc)?;
    Ok(list)
}

// The pairs of A and B, and then those of A and C.
fn outer_list(
    alloc: Global,
    a: u32,
    b: u32,
    inner: &[Pair],
    k: &[Pair],
) -> Result<Vec<Pair>, Memory>
    ensures { IfOk result (λ list. list.items ≡ outer_pairs a b inner.now k.now) }
{
    let list = Vec::from_slice(alloc, inner)?;
    let more = beyond_list(alloc, a, b, k)?;
    both_lists(list, more)
}

// The pairs with a column of B, whose width is given.
fn near_list(alloc: Global, b: u32, k: &[Pair]) -> Result<Vec<Pair>, Memory>
    ensures { IfOk result (λ list. list.items ≡ near_pairs b k.now) }
{
    let list: Vec<Pair> = k.iter().copied().filter(|p| p.right < b).collect(alloc)?;
    Ok(list)
}

// The pairs of B and C, whose left columns follow the a columns of A.
fn raised_list(alloc: Global, a: u32, inner: &[Pair]) -> Result<Vec<Pair>, Memory>
    ensures { IfOk result (λ list. list.items ≡ raised_pairs a inner.now) }
{
    let list: Vec<Pair> = inner
        .iter()
        .map(|p| Pair {
            left: p.left.saturating_add(a),
            right: p.right,
        })
        .collect(alloc)?;
    Ok(list)
}

// The pairs of A and C, once B has the width given.
fn lowered_list(alloc: Global, b: u32, k: &[Pair]) -> Result<Vec<Pair>, Memory>
    ensures { IfOk result (λ list. list.items ≡ lowered_pairs b k.now) }
{
    let list: Vec<Pair> = k
        .iter()
        .filter(|p| b <= p.right)
        .map(|p| Pair {
            left: p.left,
            right: p.right.saturating_sub(b),
        })
        .collect(alloc)?;
    Ok(list)
}

// The pairs of B and C, and then those of A and C.
fn far_list(alloc: Global, a: u32, b: u32, inner: &[Pair], k: &[Pair]) -> Result<Vec<Pair>, Memory>
    ensures { IfOk result (λ list. list.items ≡ far_pairs a b inner.now k.now) }
{
    let list = raised_list(alloc, a, inner)?;
    let more = lowered_list(alloc, b, k)?;
    both_lists(list, more)
}

// The join of the sides, which have these widths, the other way round, with the columns in their
// old order.
#[tactic(auto, using(crate::proofs::PairLists::long_columns, crate::proofs::PairLists::long_map))]
fn commuted(
    alloc: Global,
    widths: (u32, u32),
    k: &Pairs,
    d: &Expr,
    b: &Plan,
    a: &Plan,
) -> Result<Plan, RewriteFault>
    ensures { MakesPlan result
        (Plan.Map (restored widths.0 widths.1) (Plan.Join (swapped k.now) d.now b.now a.now)) }
{
    let (left, right) = widths;
    if left > 32 || right > 32 {
        return Err(RewriteFault::TooLong);
    }
    let Some(es) = Exprs::new(restored_columns(alloc, left, right)?) else {
        return Err(RewriteFault::TooLong);
    };
    let k = swapped_pairs(alloc, k)?;
    let inner = join_of(alloc, &k, d, b, a)?;
    Ok(map_by(alloc, es, inner)?)
}

/// `join(k, c, A, B)` becomes `map(es, join(k', c', B, A))`, the pairs and the condition having
/// their columns at the new places, and es giving back the old ones.
#[tactic(auto, using(crate::proofs::PairLists::form_too_long))]
pub fn join_commute(alloc: Global, schemas: &[Schema], plan: &Plan) -> Lengthened
    ensures { Makes result (join_commute_to schemas.now plan.now) }
{
    let Plan::Join(k, c, a, b) = plan else {
        return Ok(None);
    };
    let Some(d) = turned(alloc, schemas, a, b, c)? else {
        return Ok(None);
    };
    let left = width(schemas, a.get());
    let right = width(schemas, b.get());
    match commuted(alloc, (left, right), k, &d, b.get(), a.get()) {
        Ok(new) => Ok(Some(new)),
        Err(RewriteFault::TooLong) => Err(RewriteFault::TooLong),
        Err(RewriteFault::Memory) => Err(RewriteFault::Memory),
    }
}

// Whether the expressions are the columns of a left and a right side, the right side's being first.
#[tactic(auto, using(crate::proofs::PairLists::not_restored))]
fn are_restored(alloc: Global, es: &Exprs, left: u32, right: u32) -> Result<bool, Memory>
    ensures { IfOk result (λ same. same ≡ same_exprs es.now (restored left right)) }
{
    let exprs = es.as_slice();
    if left > 32 || right > 32 {
        return Ok(false);
    }
    let columns = restored_columns(alloc, left, right)?;
    Ok(exprs == columns.as_slice())
}

/// `map(es, join(k, c, B, A))` becomes `join(k', c', A, B)`, where es gives the columns of A and
/// then those of B; the pairs and the condition have their columns at the new places.
pub fn join_commute_back(alloc: Global, schemas: &[Schema], plan: &Plan) -> Rewritten
    ensures { IfOk result (λ new. new ≡ join_commute_from schemas.now plan.now) }
{
    let Plan::Map(es, x) = plan else {
        return Ok(None);
    };
    let Plan::Join(k, c, b, a) = x.get() else {
        return Ok(None);
    };
    let left = width(schemas, a.get());
    let right = width(schemas, b.get());
    if !are_restored(alloc, es, left, right)? {
        return Ok(None);
    }
    let Some(d) = turned(alloc, schemas, b, a, c)? else {
        return Ok(None);
    };
    let k = swapped_pairs(alloc, k)?;
    Ok(Some(join_of(alloc, &k, &d, a.get(), b.get())?))
}

// The join of B and C with their pairs.
fn inner_join(
    alloc: Global,
    left: u32,
    k1: &Pairs,
    b: &Plan,
    c: &Plan,
) -> Result<Plan, RewriteFault>
    ensures { MakesPlan result (Plan.Join (inner_pairs left k1.now) truth b.now c.now) }
{
    let pairs = inner_list(alloc, left, k1.as_slice())?;
    let b = b.copy(alloc)?;
    let c = c.copy(alloc)?;
    join_listed(alloc, pairs, true_literal(), b, c)
}

// The join of A and the inner one with the other pairs.
fn outer_join(
    alloc: Global,
    widths: (u32, u32),
    k2: &Pairs,
    k1: &Pairs,
    both: Expr,
    a: &Plan,
    inner: Plan,
) -> Result<Plan, RewriteFault>
    ensures { MakesPlan result
        (Plan.Join (outer_pairs widths.0 widths.1 k2.now k1.now) both a.now inner) }
{
    let pairs = outer_list(alloc, widths.0, widths.1, k2.as_slice(), k1.as_slice())?;
    let a = a.copy(alloc)?;
    join_listed(alloc, pairs, both, a, inner)
}

// Both joins.
#[tactic(auto, using(crate::proofs::PairLists::long_right))]
fn joined_right(
    alloc: Global,
    widths: (u32, u32),
    k2: &Pairs,
    k1: &Pairs,
    both: Expr,
    a: &Plan,
    b: &Plan,
    c: &Plan,
) -> Result<Plan, RewriteFault>
    ensures { MakesPlan result
        (Plan.Join (outer_pairs widths.0 widths.1 k2.now k1.now) both a.now
        (Plan.Join (inner_pairs widths.0 k1.now) truth b.now c.now)) }
{
    match inner_join(alloc, widths.0, k1, b, c) {
        Ok(inner) => outer_join(alloc, widths, k2, k1, both, a, inner),
        Err(RewriteFault::TooLong) => Err(RewriteFault::TooLong),
        Err(RewriteFault::Memory) => Err(RewriteFault::Memory),
    }
}

/// `join(k1, c1, join(k2, c2, A, B), C)` becomes `join(k, c, A, join(n, true, B, C))`: c is true
/// where c1 and c2 are, n has the pairs of B and C, and k the others.
#[tactic(auto, using(crate::proofs::PairLists::form_too_long))]
pub fn join_assoc(alloc: Global, schemas: &[Schema], plan: &Plan) -> Lengthened
    ensures { Makes result (join_assoc_to schemas.now plan.now) }
{
    let Plan::Join(k1, c1, x, c) = plan else {
        return Ok(None);
    };
    let Plan::Join(k2, c2, a, b) = x.get() else {
        return Ok(None);
    };
    let widths = (width(schemas, a.get()), width(schemas, b.get()));
    let both = conjoin(alloc, c2, c1)?;
    match joined_right(alloc, widths, k2, k1, both, a.get(), b.get(), c.get()) {
        Ok(new) => Ok(Some(new)),
        Err(RewriteFault::TooLong) => Err(RewriteFault::TooLong),
        Err(RewriteFault::Memory) => Err(RewriteFault::Memory),
    }
}

// The join of A and B with the pairs that have a column of B, whose width is given.
fn near_join(alloc: Global, right: u32, k: &Pairs, a: &Plan, b: &Plan) -> Result<Plan, RewriteFault>
    ensures { MakesPlan result (Plan.Join (near_pairs right k.now) truth a.now b.now) }
{
    let pairs = near_list(alloc, right, k.as_slice())?;
    let a = a.copy(alloc)?;
    let b = b.copy(alloc)?;
    join_listed(alloc, pairs, true_literal(), a, b)
}

// The join of the inner one and C with the other pairs.
fn far_join(
    alloc: Global,
    widths: (u32, u32),
    n: &Pairs,
    k: &Pairs,
    both: Expr,
    inner: Plan,
    z: &Plan,
) -> Result<Plan, RewriteFault>
    ensures { MakesPlan result
        (Plan.Join (far_pairs widths.0 widths.1 n.now k.now) both inner z.now) }
{
    let pairs = far_list(alloc, widths.0, widths.1, n.as_slice(), k.as_slice())?;
    let z = z.copy(alloc)?;
    join_listed(alloc, pairs, both, inner, z)
}

// Both joins.
#[tactic(auto, using(crate::proofs::PairLists::long_left))]
fn joined_left(
    alloc: Global,
    widths: (u32, u32),
    n: &Pairs,
    k: &Pairs,
    both: Expr,
    a: &Plan,
    b: &Plan,
    z: &Plan,
) -> Result<Plan, RewriteFault>
    ensures { MakesPlan result
        (Plan.Join (far_pairs widths.0 widths.1 n.now k.now) both
        (Plan.Join (near_pairs widths.1 k.now) truth a.now b.now) z.now) }
{
    match near_join(alloc, widths.1, k, a, b) {
        Ok(inner) => far_join(alloc, widths, n, k, both, inner, z),
        Err(RewriteFault::TooLong) => Err(RewriteFault::TooLong),
        Err(RewriteFault::Memory) => Err(RewriteFault::Memory),
    }
}

/// `join(k, c, A, join(n, d, B, C))` becomes `join(k1, c', join(k2, true, A, B), C)`: c' is true
/// where c and d are, k2 has the pairs of A and B, and k1 the others.
#[tactic(auto, using(crate::proofs::PairLists::form_too_long))]
pub fn join_assoc_back(alloc: Global, schemas: &[Schema], plan: &Plan) -> Lengthened
    ensures { Makes result (join_assoc_from schemas.now plan.now) }
{
    let Plan::Join(k, c, a, y) = plan else {
        return Ok(None);
    };
    let Plan::Join(n, d, b, z) = y.get() else {
        return Ok(None);
    };
    let Some(e) = raised(alloc, schemas, a, d)? else {
        return Ok(None);
    };
    let both = conjoin(alloc, c, &e)?;
    let widths = (width(schemas, a.get()), width(schemas, b.get()));
    match joined_left(alloc, widths, n, k, both, a.get(), b.get(), z.get()) {
        Ok(new) => Ok(Some(new)),
        Err(RewriteFault::TooLong) => Err(RewriteFault::TooLong),
        Err(RewriteFault::Memory) => Err(RewriteFault::Memory),
    }
}

/// `join(k, c, union(A, B), C)` becomes `union(join(k, c, A, C), join(k, c, B, C))`.
pub fn join_union(alloc: Global, plan: &Plan) -> Rewritten
    ensures { IfOk result (λ new. new ≡ join_union_to plan.now) }
{
    let Plan::Join(k, c, x, z) = plan else {
        return Ok(None);
    };
    let Plan::Union(a, b) = x.get() else {
        return Ok(None);
    };
    let left = join_of(alloc, k, c, a.get(), z.get())?;
    let right = join_of(alloc, k, c, b.get(), z.get())?;
    Ok(Some(union(alloc, left, right)?))
}

/// `union(join(k, c, A, C), join(k, c, B, C))` becomes `join(k, c, union(A, B), C)`.
pub fn join_union_back(alloc: Global, plan: &Plan) -> Rewritten
    ensures { IfOk result (λ new. new ≡ join_union_from plan.now) }
{
    let Plan::Union(x, y) = plan else {
        return Ok(None);
    };
    let Plan::Join(k, c, a, z) = x.get() else {
        return Ok(None);
    };
    let Plan::Join(l, d, b, w) = y.get() else {
        return Ok(None);
    };
    if *k != *l || *c != *d || *z.get() != *w.get() {
        return Ok(None);
    }
    let both = union_of(alloc, a.get(), b.get())?;
    let z = z.get().copy(alloc)?;
    Ok(Some(join(alloc, k, c, both, z)?))
}

/// `join(k, c, A, union(B, C))` becomes `union(join(k, c, A, B), join(k, c, A, C))`.
pub fn join_union_right(alloc: Global, plan: &Plan) -> Rewritten
    ensures { IfOk result (λ new. new ≡ join_union_right_to plan.now) }
{
    let Plan::Join(k, c, a, y) = plan else {
        return Ok(None);
    };
    let Plan::Union(b, z) = y.get() else {
        return Ok(None);
    };
    let left = join_of(alloc, k, c, a.get(), b.get())?;
    let right = join_of(alloc, k, c, a.get(), z.get())?;
    Ok(Some(union(alloc, left, right)?))
}

/// `union(join(k, c, A, B), join(k, c, A, C))` becomes `join(k, c, A, union(B, C))`.
pub fn join_union_right_back(alloc: Global, plan: &Plan) -> Rewritten
    ensures { IfOk result (λ new. new ≡ join_union_right_from plan.now) }
{
    let Plan::Union(x, y) = plan else {
        return Ok(None);
    };
    let Plan::Join(k, c, a, b) = x.get() else {
        return Ok(None);
    };
    let Plan::Join(l, d, w, z) = y.get() else {
        return Ok(None);
    };
    if *k != *l || *c != *d || *a.get() != *w.get() {
        return Ok(None);
    }
    let a = a.get().copy(alloc)?;
    let both = union_of(alloc, b.get(), z.get())?;
    Ok(Some(join(alloc, k, c, a, both)?))
}

/// `distinct(join(k, c, A, B))` becomes `join(k, c, distinct(A), distinct(B))`.
pub fn distinct_join(alloc: Global, plan: &Plan) -> Rewritten
    ensures { IfOk result (λ new. new ≡ distinct_join_to plan.now) }
{
    let Plan::Distinct(x) = plan else {
        return Ok(None);
    };
    let Plan::Join(k, c, a, b) = x.get() else {
        return Ok(None);
    };
    let left = distinct_of(alloc, a.get())?;
    let right = distinct_of(alloc, b.get())?;
    Ok(Some(join(alloc, k, c, left, right)?))
}

/// `join(k, c, distinct(A), distinct(B))` becomes `distinct(join(k, c, A, B))`.
pub fn distinct_join_back(alloc: Global, plan: &Plan) -> Rewritten
    ensures { IfOk result (λ new. new ≡ distinct_join_from plan.now) }
{
    let Plan::Join(k, c, x, y) = plan else {
        return Ok(None);
    };
    let Plan::Distinct(a) = x.get() else {
        return Ok(None);
    };
    let Plan::Distinct(b) = y.get() else {
        return Ok(None);
    };
    let inner = join_of(alloc, k, c, a.get(), b.get())?;
    Ok(Some(distinct(alloc, inner)?))
}
