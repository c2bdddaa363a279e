//! The rules of unions, differences, distinct rows, maps and groups: what each makes of a plan,
//! forward and back.
#![tactic(auto)]

ghost use Rattle.std.specs.Prelude.{◌≡◌, ◌∷◌, [], IfOk};
ghost use Rattle.pipes_rewrite.specs.BagForms.{
  all_extremes,
  distinct_group_from,
  distinct_group_to,
  distinct_map_from,
  distinct_map_to,
  distinct_twice_from,
  distinct_twice_to,
  distinct_union_from,
  distinct_union_to,
  group_distinct_from,
  group_distinct_to,
  is_extreme,
  map_merge_from,
  map_merge_to,
  map_union_from,
  map_union_to,
  minus_assoc_from,
  minus_assoc_to,
  union_assoc_from,
  union_assoc_to,
  union_commute_to,
};

use pipes_plan::{Agg, Exprs, Plan, distinct, group, map, minus, union};
use pipes_rewrite::{
    Change, Rewritten, change_exprs, distinct_of, group_of, map_by, map_of, minus_of, union_of,
};
use std::alloc::Global;

/// `union(A, B)` becomes `union(B, A)`.
pub fn union_commute(alloc: Global, plan: &Plan) -> Rewritten
    ensures { IfOk result (λ new. new ≡ union_commute_to plan.now) }
{
    let Plan::Union(a, b) = plan else {
        return Ok(None);
    };
    Ok(Some(union_of(alloc, b.get(), a.get())?))
}

/// `union(union(A, B), C)` becomes `union(A, union(B, C))`.
pub fn union_assoc(alloc: Global, plan: &Plan) -> Rewritten
    ensures { IfOk result (λ new. new ≡ union_assoc_to plan.now) }
{
    let Plan::Union(x, c) = plan else {
        return Ok(None);
    };
    let Plan::Union(a, b) = x.get() else {
        return Ok(None);
    };
    let a = a.get().copy(alloc)?;
    let inner = union_of(alloc, b.get(), c.get())?;
    Ok(Some(union(alloc, a, inner)?))
}

/// `union(A, union(B, C))` becomes `union(union(A, B), C)`.
pub fn union_assoc_back(alloc: Global, plan: &Plan) -> Rewritten
    ensures { IfOk result (λ new. new ≡ union_assoc_from plan.now) }
{
    let Plan::Union(a, y) = plan else {
        return Ok(None);
    };
    let Plan::Union(b, c) = y.get() else {
        return Ok(None);
    };
    let inner = union_of(alloc, a.get(), b.get())?;
    let c = c.get().copy(alloc)?;
    Ok(Some(union(alloc, inner, c)?))
}

/// `minus(minus(A, B), C)` becomes `minus(A, union(B, C))`.
pub fn minus_assoc(alloc: Global, plan: &Plan) -> Rewritten
    ensures { IfOk result (λ new. new ≡ minus_assoc_to plan.now) }
{
    let Plan::Minus(x, c) = plan else {
        return Ok(None);
    };
    let Plan::Minus(a, b) = x.get() else {
        return Ok(None);
    };
    let a = a.get().copy(alloc)?;
    let inner = union_of(alloc, b.get(), c.get())?;
    Ok(Some(minus(alloc, a, inner)?))
}

/// `minus(A, union(B, C))` becomes `minus(minus(A, B), C)`.
pub fn minus_assoc_back(alloc: Global, plan: &Plan) -> Rewritten
    ensures { IfOk result (λ new. new ≡ minus_assoc_from plan.now) }
{
    let Plan::Minus(a, y) = plan else {
        return Ok(None);
    };
    let Plan::Union(b, c) = y.get() else {
        return Ok(None);
    };
    let inner = minus_of(alloc, a.get(), b.get())?;
    let c = c.get().copy(alloc)?;
    Ok(Some(minus(alloc, inner, c)?))
}

/// `distinct(distinct(A))` becomes `distinct(A)`.
pub fn distinct_twice(alloc: Global, plan: &Plan) -> Rewritten
    ensures { IfOk result (λ new. new ≡ distinct_twice_to plan.now) }
{
    let Plan::Distinct(x) = plan else {
        return Ok(None);
    };
    let Plan::Distinct(a) = x.get() else {
        return Ok(None);
    };
    Ok(Some(distinct_of(alloc, a.get())?))
}

/// `distinct(A)` becomes `distinct(distinct(A))`.
pub fn distinct_twice_back(alloc: Global, plan: &Plan) -> Rewritten
    ensures { IfOk result (λ new. new ≡ distinct_twice_from plan.now) }
{
    let Plan::Distinct(a) = plan else {
        return Ok(None);
    };
    let inner = distinct_of(alloc, a.get())?;
    Ok(Some(distinct(alloc, inner)?))
}

/// `distinct(union(A, B))` becomes `distinct(union(distinct(A), distinct(B)))`.
pub fn distinct_union(alloc: Global, plan: &Plan) -> Rewritten
    ensures { IfOk result (λ new. new ≡ distinct_union_to plan.now) }
{
    let Plan::Distinct(x) = plan else {
        return Ok(None);
    };
    let Plan::Union(a, b) = x.get() else {
        return Ok(None);
    };
    let left = distinct_of(alloc, a.get())?;
    let right = distinct_of(alloc, b.get())?;
    let both = union(alloc, left, right)?;
    Ok(Some(distinct(alloc, both)?))
}

/// `distinct(union(distinct(A), distinct(B)))` becomes `distinct(union(A, B))`.
pub fn distinct_union_back(alloc: Global, plan: &Plan) -> Rewritten
    ensures { IfOk result (λ new. new ≡ distinct_union_from plan.now) }
{
    let Plan::Distinct(z) = plan else {
        return Ok(None);
    };
    let Plan::Union(x, y) = z.get() else {
        return Ok(None);
    };
    let Plan::Distinct(a) = x.get() else {
        return Ok(None);
    };
    let Plan::Distinct(b) = y.get() else {
        return Ok(None);
    };
    let whole = union_of(alloc, a.get(), b.get())?;
    Ok(Some(distinct(alloc, whole)?))
}

/// `distinct(group(K, g, A))` becomes `group(K, g, A)`.
pub fn distinct_group(alloc: Global, plan: &Plan) -> Rewritten
    ensures { IfOk result (λ new. new ≡ distinct_group_to plan.now) }
{
    let Plan::Distinct(x) = plan else {
        return Ok(None);
    };
    let Plan::Group(k, g, a) = x.get() else {
        return Ok(None);
    };
    Ok(Some(group_of(alloc, k, g, a.get())?))
}

/// `group(K, g, A)` becomes `distinct(group(K, g, A))`.
pub fn distinct_group_back(alloc: Global, plan: &Plan) -> Rewritten
    ensures { IfOk result (λ new. new ≡ distinct_group_from plan.now) }
{
    let Plan::Group(k, g, a) = plan else {
        return Ok(None);
    };
    let inner = group_of(alloc, k, g, a.get())?;
    Ok(Some(distinct(alloc, inner)?))
}

/// `distinct(map(es, distinct(A)))` becomes `distinct(map(es, A))`.
pub fn distinct_map(alloc: Global, plan: &Plan) -> Rewritten
    ensures { IfOk result (λ new. new ≡ distinct_map_to plan.now) }
{
    let Plan::Distinct(x) = plan else {
        return Ok(None);
    };
    let Plan::Map(es, y) = x.get() else {
        return Ok(None);
    };
    let Plan::Distinct(a) = y.get() else {
        return Ok(None);
    };
    let inner = map_of(alloc, es, a.get())?;
    Ok(Some(distinct(alloc, inner)?))
}

/// `distinct(map(es, A))` becomes `distinct(map(es, distinct(A)))`.
pub fn distinct_map_back(alloc: Global, plan: &Plan) -> Rewritten
    ensures { IfOk result (λ new. new ≡ distinct_map_from plan.now) }
{
    let Plan::Distinct(x) = plan else {
        return Ok(None);
    };
    let Plan::Map(es, a) = x.get() else {
        return Ok(None);
    };
    let inner = distinct_of(alloc, a.get())?;
    let mapped = map(alloc, es, inner)?;
    Ok(Some(distinct(alloc, mapped)?))
}

/// `map(es, map(fs, A))` becomes `map(gs, A)`, gs being es with the expressions of fs in place of
/// their columns.
pub fn map_merge(alloc: Global, plan: &Plan) -> Rewritten
    ensures { IfOk result (λ new. new ≡ map_merge_to plan.now) }
{
    let Plan::Map(es, x) = plan else {
        return Ok(None);
    };
    let Plan::Map(fs, a) = x.get() else {
        return Ok(None);
    };
    let Some(gs) = change_exprs(alloc, Change::Replaced(fs.as_slice()), es)? else {
        return Ok(None);
    };
    let a = a.get().copy(alloc)?;
    Ok(Some(map_by(alloc, gs, a)?))
}

/// `map(gs, A)` becomes `map(es, map(fs, A))`, where gs is es with the expressions of fs in place
/// of their columns.
pub fn map_merge_back(alloc: Global, es: &Exprs, fs: &Exprs, plan: &Plan) -> Rewritten
    ensures { IfOk result (λ new. new ≡ map_merge_from es.now fs.now plan.now) }
{
    let Plan::Map(gs, a) = plan else {
        return Ok(None);
    };
    let Some(changed) = change_exprs(alloc, Change::Replaced(fs.as_slice()), es)? else {
        return Ok(None);
    };
    if changed != *gs {
        return Ok(None);
    }
    let inner = map_of(alloc, fs, a.get())?;
    Ok(Some(map(alloc, es, inner)?))
}

/// `map(es, union(A, B))` becomes `union(map(es, A), map(es, B))`.
pub fn map_union(alloc: Global, plan: &Plan) -> Rewritten
    ensures { IfOk result (λ new. new ≡ map_union_to plan.now) }
{
    let Plan::Map(es, x) = plan else {
        return Ok(None);
    };
    let Plan::Union(a, b) = x.get() else {
        return Ok(None);
    };
    let left = map_of(alloc, es, a.get())?;
    let right = map_of(alloc, es, b.get())?;
    Ok(Some(union(alloc, left, right)?))
}

/// `union(map(es, A), map(es, B))` becomes `map(es, union(A, B))`.
pub fn map_union_back(alloc: Global, plan: &Plan) -> Rewritten
    ensures { IfOk result (λ new. new ≡ map_union_from plan.now) }
{
    let Plan::Union(x, y) = plan else {
        return Ok(None);
    };
    let Plan::Map(es, a) = x.get() else {
        return Ok(None);
    };
    let Plan::Map(fs, b) = y.get() else {
        return Ok(None);
    };
    if *es != *fs {
        return Ok(None);
    }
    let both = union_of(alloc, a.get(), b.get())?;
    Ok(Some(map(alloc, es, both)?))
}

// Whether the aggregate is a least or greatest value.
fn is_extreme_agg(agg: &Agg) -> bool
    ensures { result ≡ is_extreme agg.now }
{
    match agg {
        Agg::Count => false,
        Agg::Sum(_) => false,
        Agg::Min(_) => true,
        Agg::Max(_) => true,
        Agg::Avg(_) => false,
    }
}

// Whether each aggregate is a least or greatest value.
fn are_extremes(aggs: &[Agg]) -> bool
    ensures { result ≡ all_extremes aggs.now }
{
    match aggs.split_first() {
        Some((agg, rest)) => is_extreme_agg(agg) && are_extremes(rest),
        None => true,
    }
}

/// `group(K, g, distinct(A))` becomes `group(K, g, A)`, where every aggregate of g is a least or
/// greatest value.
pub fn group_distinct(alloc: Global, plan: &Plan) -> Rewritten
    ensures { IfOk result (λ new. new ≡ group_distinct_to plan.now) }
{
    let Plan::Group(k, g, x) = plan else {
        return Ok(None);
    };
    let Plan::Distinct(a) = x.get() else {
        return Ok(None);
    };
    if !are_extremes(g.as_slice()) {
        return Ok(None);
    }
    Ok(Some(group_of(alloc, k, g, a.get())?))
}

/// `group(K, g, A)` becomes `group(K, g, distinct(A))`, where every aggregate of g is a least or
/// greatest value.
pub fn group_distinct_back(alloc: Global, plan: &Plan) -> Rewritten
    ensures { IfOk result (λ new. new ≡ group_distinct_from plan.now) }
{
    let Plan::Group(k, g, a) = plan else {
        return Ok(None);
    };
    if !are_extremes(g.as_slice()) {
        return Ok(None);
    }
    let inner = distinct_of(alloc, a.get())?;
    Ok(Some(group(alloc, k, g, inner)?))
}
