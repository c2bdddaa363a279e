// Plan nodes over plans that are looked at, which are copied, and over new parts, which are moved.
ghost use Rattle.std.specs.Prelude.{◌≡◌, IfOk};

use pipes_plan::{
    Aggs, Expr, Exprs, Pairs, Plan, distinct, filter, group, join, map, minus, union,
};
use pipes_time::Memory;
use pipes_tuple::Cols;
use sqlite_items::Boxed;
use std::alloc::Global;

/// The filter with a condition that is moved into it.
pub fn filter_by(alloc: Global, condition: Expr, a: Plan) -> Result<Plan, Memory>
    ensures { IfOk result (λ plan. plan ≡ Plan.Filter condition a) }
{
    let a = Boxed::new(alloc, a)?;
    Ok(Plan::Filter(condition, a))
}

/// The filter with this condition over this plan, both copied.
pub fn filter_of(alloc: Global, condition: &Expr, a: &Plan) -> Result<Plan, Memory>
    ensures { IfOk result (λ plan. plan ≡ Plan.Filter condition.now a.now) }
{
    let a = a.copy(alloc)?;
    filter(alloc, condition, a)
}

/// The map to expressions that are moved into it.
pub fn map_by(alloc: Global, exprs: Exprs, a: Plan) -> Result<Plan, Memory>
    ensures { IfOk result (λ plan. plan ≡ Plan.Map exprs a) }
{
    let a = Boxed::new(alloc, a)?;
    Ok(Plan::Map(exprs, a))
}

/// The map to these expressions over this plan, both copied.
pub fn map_of(alloc: Global, exprs: &Exprs, a: &Plan) -> Result<Plan, Memory>
    ensures { IfOk result (λ plan. plan ≡ Plan.Map exprs.now a.now) }
{
    let a = a.copy(alloc)?;
    map(alloc, exprs, a)
}

/// The union of these plans, both copied.
pub fn union_of(alloc: Global, a: &Plan, b: &Plan) -> Result<Plan, Memory>
    ensures { IfOk result (λ plan. plan ≡ Plan.Union a.now b.now) }
{
    let a = a.copy(alloc)?;
    let b = b.copy(alloc)?;
    union(alloc, a, b)
}

/// The join on pairs and a condition that are moved into it.
pub fn join_by(alloc: Global, pairs: Pairs, c: Expr, a: Plan, b: Plan) -> Result<Plan, Memory>
    ensures { IfOk result (λ plan. plan ≡ Plan.Join pairs c a b) }
{
    let a = Boxed::new(alloc, a)?;
    let b = Boxed::new(alloc, b)?;
    Ok(Plan::Join(pairs, c, a, b))
}

/// The join of these plans on these pairs and this condition, all copied.
pub fn join_of(alloc: Global, pairs: &Pairs, c: &Expr, a: &Plan, b: &Plan) -> Result<Plan, Memory>
    ensures { IfOk result (λ plan. plan ≡ Plan.Join pairs.now c.now a.now b.now) }
{
    let a = a.copy(alloc)?;
    let b = b.copy(alloc)?;
    join(alloc, pairs, c, a, b)
}

/// This plan, copied, with each row once.
pub fn distinct_of(alloc: Global, a: &Plan) -> Result<Plan, Memory>
    ensures { IfOk result (λ plan. plan ≡ Plan.Distinct a.now) }
{
    let a = a.copy(alloc)?;
    distinct(alloc, a)
}

/// The groups of this plan by these columns, all copied.
pub fn group_of(alloc: Global, columns: &Cols, aggs: &Aggs, a: &Plan) -> Result<Plan, Memory>
    ensures { IfOk result (λ plan. plan ≡ Plan.Group columns.now aggs.now a.now) }
{
    let a = a.copy(alloc)?;
    group(alloc, columns, aggs, a)
}

/// The difference of these plans, both copied.
pub fn minus_of(alloc: Global, a: &Plan, b: &Plan) -> Result<Plan, Memory>
    ensures { IfOk result (λ plan. plan ≡ Plan.Minus a.now b.now) }
{
    let a = a.copy(alloc)?;
    let b = b.copy(alloc)?;
    minus(alloc, a, b)
}
