//! The rules that move filters: what each makes of a plan, forward and back.
#![tactic(auto)]

ghost use Rattle.std.specs.Prelude.{◌≡◌, IfOk};
ghost use Rattle.pipes_rewrite.specs.FilterForms.{
  filter_cond_from,
  filter_cond_to,
  filter_distinct_from,
  filter_distinct_to,
  filter_group_from,
  filter_group_to,
  filter_left_from,
  filter_left_to,
  filter_map_from,
  filter_map_to,
  filter_merge_from,
  filter_merge_to,
  filter_minus_from,
  filter_minus_to,
  filter_right_from,
  filter_right_to,
  filter_swap_to,
  filter_true_from,
  filter_true_to,
  filter_union_from,
  filter_union_to,
};

use pipes_plan::{Expr, Op, Plan, distinct, filter, group, join, map, minus, union};
use pipes_rewrite::{
    Rewritten, binary, conjoin, distinct_of, filter_by, filter_of, is_true_literal, join_of,
    lowered, map_of, minus_of, raised, true_literal, union_of, with_columns, with_exprs, within,
};
use pipes_tuple::Schema;
use std::alloc::Global;

/// `filter(p, filter(q, A))` becomes `filter((p and q), A)`.
pub fn filter_merge(alloc: Global, plan: &Plan) -> Rewritten
    ensures { IfOk result (λ new. new ≡ filter_merge_to plan.now) }
{
    let Plan::Filter(p, a) = plan else {
        return Ok(None);
    };
    let Plan::Filter(q, b) = a.get() else {
        return Ok(None);
    };
    let p = p.copy(alloc)?;
    let q = q.copy(alloc)?;
    let both = binary(alloc, Op::And, p, q)?;
    let b = b.get().copy(alloc)?;
    Ok(Some(filter_by(alloc, both, b)?))
}

/// `filter((p and q), A)` becomes `filter(p, filter(q, A))`.
pub fn filter_merge_back(alloc: Global, plan: &Plan) -> Rewritten
    ensures { IfOk result (λ new. new ≡ filter_merge_from plan.now) }
{
    let Plan::Filter(r, a) = plan else {
        return Ok(None);
    };
    let Expr::Binary(Op::And, p, q) = r else {
        return Ok(None);
    };
    let inner = filter_of(alloc, q.get(), a.get())?;
    Ok(Some(filter(alloc, p.get(), inner)?))
}

/// `filter(p, filter(q, A))` becomes `filter(q, filter(p, A))`.
pub fn filter_swap(alloc: Global, plan: &Plan) -> Rewritten
    ensures { IfOk result (λ new. new ≡ filter_swap_to plan.now) }
{
    let Plan::Filter(p, a) = plan else {
        return Ok(None);
    };
    let Plan::Filter(q, b) = a.get() else {
        return Ok(None);
    };
    let inner = filter_of(alloc, p, b.get())?;
    Ok(Some(filter(alloc, q, inner)?))
}

/// `filter(p, union(A, B))` becomes `union(filter(p, A), filter(p, B))`.
pub fn filter_union(alloc: Global, plan: &Plan) -> Rewritten
    ensures { IfOk result (λ new. new ≡ filter_union_to plan.now) }
{
    let Plan::Filter(p, x) = plan else {
        return Ok(None);
    };
    let Plan::Union(a, b) = x.get() else {
        return Ok(None);
    };
    let left = filter_of(alloc, p, a.get())?;
    let right = filter_of(alloc, p, b.get())?;
    Ok(Some(union(alloc, left, right)?))
}

/// `union(filter(p, A), filter(p, B))` becomes `filter(p, union(A, B))`.
pub fn filter_union_back(alloc: Global, plan: &Plan) -> Rewritten
    ensures { IfOk result (λ new. new ≡ filter_union_from plan.now) }
{
    let Plan::Union(x, y) = plan else {
        return Ok(None);
    };
    let Plan::Filter(p, a) = x.get() else {
        return Ok(None);
    };
    let Plan::Filter(q, b) = y.get() else {
        return Ok(None);
    };
    if *p != *q {
        return Ok(None);
    }
    let both = union_of(alloc, a.get(), b.get())?;
    Ok(Some(filter(alloc, p, both)?))
}

/// `filter(p, distinct(A))` becomes `distinct(filter(p, A))`.
pub fn filter_distinct(alloc: Global, plan: &Plan) -> Rewritten
    ensures { IfOk result (λ new. new ≡ filter_distinct_to plan.now) }
{
    let Plan::Filter(p, x) = plan else {
        return Ok(None);
    };
    let Plan::Distinct(a) = x.get() else {
        return Ok(None);
    };
    let inner = filter_of(alloc, p, a.get())?;
    Ok(Some(distinct(alloc, inner)?))
}

/// `distinct(filter(p, A))` becomes `filter(p, distinct(A))`.
pub fn filter_distinct_back(alloc: Global, plan: &Plan) -> Rewritten
    ensures { IfOk result (λ new. new ≡ filter_distinct_from plan.now) }
{
    let Plan::Distinct(x) = plan else {
        return Ok(None);
    };
    let Plan::Filter(p, a) = x.get() else {
        return Ok(None);
    };
    let inner = distinct_of(alloc, a.get())?;
    Ok(Some(filter(alloc, p, inner)?))
}

/// `filter(p, minus(A, B))` becomes `minus(filter(p, A), filter(p, B))`.
pub fn filter_minus(alloc: Global, plan: &Plan) -> Rewritten
    ensures { IfOk result (λ new. new ≡ filter_minus_to plan.now) }
{
    let Plan::Filter(p, x) = plan else {
        return Ok(None);
    };
    let Plan::Minus(a, b) = x.get() else {
        return Ok(None);
    };
    let left = filter_of(alloc, p, a.get())?;
    let right = filter_of(alloc, p, b.get())?;
    Ok(Some(minus(alloc, left, right)?))
}

/// `minus(filter(p, A), filter(p, B))` becomes `filter(p, minus(A, B))`.
pub fn filter_minus_back(alloc: Global, plan: &Plan) -> Rewritten
    ensures { IfOk result (λ new. new ≡ filter_minus_from plan.now) }
{
    let Plan::Minus(x, y) = plan else {
        return Ok(None);
    };
    let Plan::Filter(p, a) = x.get() else {
        return Ok(None);
    };
    let Plan::Filter(q, b) = y.get() else {
        return Ok(None);
    };
    if *p != *q {
        return Ok(None);
    }
    let both = minus_of(alloc, a.get(), b.get())?;
    Ok(Some(filter(alloc, p, both)?))
}

/// `filter(p, map(es, A))` becomes `map(es, filter(p', A))`, p' being p with the expressions in
/// place of its columns.
pub fn filter_map(alloc: Global, plan: &Plan) -> Rewritten
    ensures { IfOk result (λ new. new ≡ filter_map_to plan.now) }
{
    let Plan::Filter(p, x) = plan else {
        return Ok(None);
    };
    let Plan::Map(es, a) = x.get() else {
        return Ok(None);
    };
    let Some(q) = with_exprs(alloc, es, p)? else {
        return Ok(None);
    };
    let a = a.get().copy(alloc)?;
    let inner = filter_by(alloc, q, a)?;
    Ok(Some(map(alloc, es, inner)?))
}

/// `map(es, filter(p', A))` becomes `filter(p, map(es, A))`, p' being p with the expressions in
/// place of its columns.
pub fn filter_map_back(alloc: Global, p: &Expr, plan: &Plan) -> Rewritten
    ensures { IfOk result (λ new. new ≡ filter_map_from p.now plan.now) }
{
    let Plan::Map(es, x) = plan else {
        return Ok(None);
    };
    let Plan::Filter(q, a) = x.get() else {
        return Ok(None);
    };
    let Some(changed) = with_exprs(alloc, es, p)? else {
        return Ok(None);
    };
    if changed != *q {
        return Ok(None);
    }
    let inner = map_of(alloc, es, a.get())?;
    Ok(Some(filter(alloc, p, inner)?))
}

/// `filter(p, join(k, c, A, B))` becomes `join(k, c, filter(p, A), B)`, where every column of p is
/// one of A.
pub fn filter_left(alloc: Global, schemas: &[Schema], plan: &Plan) -> Rewritten
    ensures { IfOk result (λ new. new ≡ filter_left_to schemas.now plan.now) }
{
    let Plan::Filter(p, x) = plan else {
        return Ok(None);
    };
    let Plan::Join(k, c, a, b) = x.get() else {
        return Ok(None);
    };
    let Some(q) = within(alloc, schemas, a, p)? else {
        return Ok(None);
    };
    let a = a.get().copy(alloc)?;
    let left = filter_by(alloc, q, a)?;
    let right = b.get().copy(alloc)?;
    Ok(Some(join(alloc, k, c, left, right)?))
}

/// `join(k, c, filter(p, A), B)` becomes `filter(p, join(k, c, A, B))`.
pub fn filter_left_back(alloc: Global, schemas: &[Schema], plan: &Plan) -> Rewritten
    ensures { IfOk result (λ new. new ≡ filter_left_from schemas.now plan.now) }
{
    let Plan::Join(k, c, x, b) = plan else {
        return Ok(None);
    };
    let Plan::Filter(q, a) = x.get() else {
        return Ok(None);
    };
    let Some(p) = within(alloc, schemas, a, q)? else {
        return Ok(None);
    };
    let inner = join_of(alloc, k, c, a.get(), b.get())?;
    Ok(Some(filter_by(alloc, p, inner)?))
}

/// `filter(p, join(k, c, A, B))` becomes `join(k, c, A, filter(p', B))`, where every column of p is
/// one of B; p' has the columns of p at their places in B.
pub fn filter_right(alloc: Global, schemas: &[Schema], plan: &Plan) -> Rewritten
    ensures { IfOk result (λ new. new ≡ filter_right_to schemas.now plan.now) }
{
    let Plan::Filter(p, x) = plan else {
        return Ok(None);
    };
    let Plan::Join(k, c, a, b) = x.get() else {
        return Ok(None);
    };
    let Some(q) = lowered(alloc, schemas, a, p)? else {
        return Ok(None);
    };
    let left = a.get().copy(alloc)?;
    let b = b.get().copy(alloc)?;
    let right = filter_by(alloc, q, b)?;
    Ok(Some(join(alloc, k, c, left, right)?))
}

/// `join(k, c, A, filter(p, B))` becomes `filter(p', join(k, c, A, B))`, p' having the columns of p
/// after those of A.
pub fn filter_right_back(alloc: Global, schemas: &[Schema], plan: &Plan) -> Rewritten
    ensures { IfOk result (λ new. new ≡ filter_right_from schemas.now plan.now) }
{
    let Plan::Join(k, c, a, y) = plan else {
        return Ok(None);
    };
    let Plan::Filter(q, b) = y.get() else {
        return Ok(None);
    };
    let Some(p) = raised(alloc, schemas, a, q)? else {
        return Ok(None);
    };
    let inner = join_of(alloc, k, c, a.get(), b.get())?;
    Ok(Some(filter_by(alloc, p, inner)?))
}

/// `filter(p, join(k, c, A, B))` becomes `join(k, c', A, B)`, c' being true where c and p are.
pub fn filter_cond(alloc: Global, plan: &Plan) -> Rewritten
    ensures { IfOk result (λ new. new ≡ filter_cond_to plan.now) }
{
    let Plan::Filter(p, x) = plan else {
        return Ok(None);
    };
    let Plan::Join(k, c, a, b) = x.get() else {
        return Ok(None);
    };
    let both = conjoin(alloc, c, p)?;
    Ok(Some(join_of(alloc, k, &both, a.get(), b.get())?))
}

/// `join(k, (c and p), A, B)` becomes `filter(p, join(k, c, A, B))`; with another condition c than
/// `true` the join becomes `filter(c, join(k, true, A, B))`.
pub fn filter_cond_back(alloc: Global, plan: &Plan) -> Rewritten
    ensures { IfOk result (λ new. new ≡ filter_cond_from plan.now) }
{
    let Plan::Join(k, c, a, b) = plan else {
        return Ok(None);
    };
    if let Expr::Binary(Op::And, c, p) = c {
        let inner = join_of(alloc, k, c.get(), a.get(), b.get())?;
        return Ok(Some(filter(alloc, p.get(), inner)?));
    }
    if is_true_literal(c) {
        return Ok(None);
    }
    let inner = join_of(alloc, k, &true_literal(), a.get(), b.get())?;
    Ok(Some(filter(alloc, c, inner)?))
}

/// `filter(p, group(K, g, A))` becomes `group(K, g, filter(p', A))`, where every column of p is one
/// of the key's; p' has the columns of the list K in their place.
pub fn filter_group(alloc: Global, plan: &Plan) -> Rewritten
    ensures { IfOk result (λ new. new ≡ filter_group_to plan.now) }
{
    let Plan::Filter(p, x) = plan else {
        return Ok(None);
    };
    let Plan::Group(k, g, a) = x.get() else {
        return Ok(None);
    };
    let Some(q) = with_columns(alloc, k, p)? else {
        return Ok(None);
    };
    let a = a.get().copy(alloc)?;
    let inner = filter_by(alloc, q, a)?;
    Ok(Some(group(alloc, k, g, inner)?))
}

/// `group(K, g, filter(p', A))` becomes `filter(p, group(K, g, A))`, p' being p with the columns of
/// the list K in place of its own.
pub fn filter_group_back(alloc: Global, p: &Expr, plan: &Plan) -> Rewritten
    ensures { IfOk result (λ new. new ≡ filter_group_from p.now plan.now) }
{
    let Plan::Group(k, g, x) = plan else {
        return Ok(None);
    };
    let Plan::Filter(q, a) = x.get() else {
        return Ok(None);
    };
    let Some(changed) = with_columns(alloc, k, p)? else {
        return Ok(None);
    };
    if changed != *q {
        return Ok(None);
    }
    let a = a.get().copy(alloc)?;
    let inner = group(alloc, k, g, a)?;
    Ok(Some(filter(alloc, p, inner)?))
}

/// `filter(true, A)` becomes `A`.
pub fn filter_true(alloc: Global, plan: &Plan) -> Rewritten
    ensures { IfOk result (λ new. new ≡ filter_true_to plan.now) }
{
    let Plan::Filter(p, a) = plan else {
        return Ok(None);
    };
    if !is_true_literal(p) {
        return Ok(None);
    }
    Ok(Some(a.get().copy(alloc)?))
}

/// `A` becomes `filter(true, A)`.
pub fn filter_true_back(alloc: Global, plan: &Plan) -> Rewritten
    ensures { IfOk result (λ new. new ≡ filter_true_from plan.now) }
{
    Ok(Some(filter_of(alloc, &true_literal(), plan)?))
}
