// Operators that look at one element at a time, message by message.
ghost use Rattle.std.specs.Prelude.{◌≡◌, ◌∷◌, [], IfOk};
ghost use Rattle.std.specs.Bool.{OnTrue};
ghost use Rattle.pipes_plan.specs.declared.plan.Plan.TheVariants as plan;
ghost use Rattle.pipes_plan.specs.PlanKinds.{IsTyped};

use pipes_flat::{Filter, Map, Union};
use pipes_plan::{Expr, Exprs, Op, Plan, Schemas, copy_exprs};
use pipes_rows_kit::{Said, at_port, row, schema, steps_done};
use pipes_time::CLOSED;
use pipes_tuple::{Kind, Schema, Value};
use sqlite_items::Boxed;
use std::alloc::Global;
use std::test::Fail;

// `(1 op $0)`.
fn one_and_first(alloc: Global, op: Op) -> Result<Expr, Fail> {
    let one = Boxed::new(alloc, Expr::Literal(Value::Int(1)))?;
    let first = Boxed::new(alloc, Expr::Col(0))?;
    Ok(Expr::Binary(op, one, first))
}

fn schemas_of(alloc: Global, input: &Schema) -> Result<Schemas, Fail>
    ensures { IfOk result (λ schemas. schemas ≡ input.now ∷ []) }
{
    Ok(Schemas::new(Vec::from_array(alloc, [input.copy()?])?).ok_or("too many")?)
}

// Whether the plan's check accepts a filter by the condition.
fn is_condition(alloc: Global, condition: &Expr, input: &Schema) -> Result<bool, Fail>
    ensures { IfOk result (λ accepted. OnTrue accepted
        (IsTyped (plan.Filter condition.now (plan.Source 0)) (input.now ∷ []))) }
{
    let schemas = schemas_of(alloc, input)?;
    let rows = Boxed::new(alloc, Plan::Source(0))?;
    let filter = Plan::Filter(condition.copy(alloc)?, rows);
    match filter.check(alloc, &schemas) {
        Ok(_) => Ok(true),
        Err(_) => Ok(false),
    }
}

// A filter of rows of one number by `(1 < $0)`.
fn filter(alloc: Global) -> Result<Filter, Fail> {
    let condition = one_and_first(alloc, Op::Lt)?;
    let input = schema(alloc, &[Kind::Int])?;
    if !is_condition(alloc, &condition, &input)? {
        return Ok(Err("not typed")?);
    }
    Ok(Filter::new(condition, input)?)
}

// Whether the plan's check accepts a map to the expressions.
fn are_exprs(alloc: Global, exprs: &Exprs, input: &Schema) -> Result<bool, Fail>
    ensures { IfOk result (λ accepted. OnTrue accepted
        (IsTyped (plan.Map exprs.now (plan.Source 0)) (input.now ∷ []))) }
{
    let schemas = schemas_of(alloc, input)?;
    let rows = Boxed::new(alloc, Plan::Source(0))?;
    let map = Plan::Map(copy_exprs(alloc, exprs)?, rows);
    match map.check(alloc, &schemas) {
        Ok(_) => Ok(true),
        Err(_) => Ok(false),
    }
}

// A map of rows of one number to `(1 + $0)`.
fn map(alloc: Global) -> Result<Map, Fail> {
    let sum = one_and_first(alloc, Op::Add)?;
    let exprs = Exprs::new(Vec::from_array(alloc, [sum])?).ok_or("too many")?;
    let input = schema(alloc, &[Kind::Int])?;
    if !are_exprs(alloc, &exprs, &input)? {
        return Ok(Err("not typed")?);
    }
    Ok(Map::new(alloc, exprs, input)?)
}

// Whether the plan's check accepts a union of two sides of this schema.
fn is_union(alloc: Global, side: &Schema) -> Result<bool, Fail>
    ensures { IfOk result (λ accepted. OnTrue accepted
        (IsTyped (plan.Union (plan.Source 0) (plan.Source 1)) (side.now ∷ side.now ∷ []))) }
{
    let schemas = Vec::from_array(alloc, [side.copy()?, side.copy()?])?;
    let schemas = Schemas::new(schemas).ok_or("too many")?;
    let left = Boxed::new(alloc, Plan::Source(0))?;
    let right = Boxed::new(alloc, Plan::Source(1))?;
    match Plan::Union(left, right).check(alloc, &schemas) {
        Ok(_) => Ok(true),
        Err(_) => Ok(false),
    }
}

// A union of two sides of one number.
fn union(alloc: Global) -> Result<Union, Fail> {
    let side = schema(alloc, &[Kind::Int])?;
    if !is_union(alloc, &side)? {
        return Ok(Err("not typed")?);
    }
    Ok(Union::new(alloc, side)?)
}

#[test]
fn a_filter_sends_heartbeats_for_what_fails(rt: HostRuntime) -> Result<(), Fail> {
    let alloc = rt.alloc();
    let passes = [row(&[2], 3, 9)];
    let steps = [
        at_port(0, passes[0], &passes, 3, 0),
        at_port(0, row(&[1], 4, 9), &[Said::Beat(4)], 4, 0),
        at_port(0, Said::End, &[Said::End], CLOSED, 0),
    ];
    assert_eq!(rt; steps_done(alloc, &mut filter(alloc)?, &steps)?, 3);
    Ok(())
}

#[test]
fn a_map_keeps_intervals(rt: HostRuntime) -> Result<(), Fail> {
    let alloc = rt.alloc();
    let changed = [row(&[3], 3, 9)];
    let steps = [
        at_port(0, row(&[2], 3, 9), &changed, 3, 0),
        at_port(0, Said::Beat(7), &[Said::Beat(7)], 7, 0),
    ];
    assert_eq!(rt; steps_done(alloc, &mut map(alloc)?, &steps)?, 2);
    Ok(())
}

#[test]
fn a_union_waits_for_the_other_port(rt: HostRuntime) -> Result<(), Fail> {
    let alloc = rt.alloc();
    let other = [row(&[2], 2, 4), Said::Beat(2)];
    let waited = [row(&[1], 3, 9), Said::Beat(3)];
    let steps = [
        at_port(0, waited[0], &[], 0, 1),
        at_port(1, other[0], &other, 2, 1),
        at_port(1, Said::End, &waited, 3, 0),
        at_port(0, Said::End, &[Said::End], CLOSED, 0),
    ];
    assert_eq!(rt; steps_done(alloc, &mut union(alloc)?, &steps)?, 4);
    Ok(())
}
