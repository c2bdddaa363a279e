// Steps at a node of a plan.
ghost use Rattle.std.specs.Prelude.{◌≡◌, IfOk};
ghost use Rattle.pipes_plan.specs.PlanKinds.{IsTyped};
ghost use Rattle.pipes_plan.specs.declared.plan.Plan.TheVariants.{
  Distinct,
  Filter,
  Group,
  Join,
  Map,
  Minus,
  Union,
};
ghost use Rattle.pipes_rewrite.specs.SameMeaning.{SameMeaning};
ghost use Rattle.pipes_plan.specs.declared.plan.Plan.{out-Plan};
ghost use Rattle.pipes_rewrite.specs.Making.{Makes};
ghost use Rattle.pipes_rules.specs.Rewriting.{rule_forward};
ghost use Rattle.pipes_rules.specs.Stepping.{
  IsApplied,
  Rewrites,
  at_only,
  at_side,
  or_refuse,
  wrapped,
  rewritten_at,
  step_form,
  stepped,
  with_child,
  without_arg,
};
ghost use Rattle.pipes_rules.specs.declared.step.StepRefusal.TheVariants.{NoMatch as Unmatched};

use crate::rewriting::{rewrite_back, rewrite_forward};
use crate::{Arg, Step, StepRefusal};
use pipes_plan::{
    Aggs, CheckFault, Expr, Exprs, Pairs, Plan, Schemas, distinct, filter, group, join, map, minus,
    union,
};
use pipes_rewrite::RewriteFault;
use pipes_tuple::{Cols, Schema};
use std::alloc::Global;

type Stepped = Result<Plan, StepRefusal>;

// What the rule makes of the node, forward.
fn forward_step(
    alloc: Global,
    schemas: &[Schema],
    step: &Step,
    node: &Plan,
) -> Result<Option<Plan>, RewriteFault>
    ensures { Makes result
        (without_arg step.now.arg (rule_forward schemas.now step.now.rule node.now)) }
{
    match &step.arg {
        Arg::Nothing => rewrite_forward(alloc, schemas, step.rule, node),
        Arg::OneExpr(_) => Ok(None),
        Arg::TwoLists(_, _) => Ok(None),
    }
}

// What the step makes of the node at the end of its path.
#[tactic(auto, using(crate::proofs::Walking::at_the_node))]
fn at_node(alloc: Global, schemas: &[Schema], step: &Step, node: &Plan) -> Stepped
    ensures { Rewrites result (or_refuse Unmatched (step_form schemas.now step.now node.now)) }
{
    let made = if step.back {
        rewrite_back(alloc, schemas, step.rule, &step.arg, node)
    } else {
        forward_step(alloc, schemas, step, node)
    };
    match made {
        Ok(Some(plan)) => Ok(plan),
        Ok(None) => Err(StepRefusal::NoMatch),
        Err(RewriteFault::TooLong) => Err(StepRefusal::NotAPlan),
        Err(RewriteFault::Memory) => Err(StepRefusal::Memory),
    }
}

#[cycle(rewrite_at)]
#[tactic(auto, using(crate::proofs::Walking::refused_below))]
fn in_filter(
    alloc: Global,
    schemas: &[Schema],
    step: &Step,
    i: u32,
    rest: &[u32],
    p: &Expr,
    a: &Plan,
) -> Stepped
    ensures { Rewrites result (at_only i (wrapped (λ x. Filter p.now x)
        (rewritten_at (step_form schemas.now step.now) rest.now a.now))) }
{
    if i != 0 {
        return Err(StepRefusal::NoSuchPlace);
    }
    let a = rewrite_at(alloc, schemas, step, rest, a)?;
    Ok(filter(alloc, p, a)?)
}

#[cycle(rewrite_at)]
#[tactic(auto, using(crate::proofs::Walking::refused_below))]
fn in_map(
    alloc: Global,
    schemas: &[Schema],
    step: &Step,
    i: u32,
    rest: &[u32],
    es: &Exprs,
    a: &Plan,
) -> Stepped
    ensures { Rewrites result (at_only i (wrapped (λ x. Map es.now x)
        (rewritten_at (step_form schemas.now step.now) rest.now a.now))) }
{
    if i != 0 {
        return Err(StepRefusal::NoSuchPlace);
    }
    let a = rewrite_at(alloc, schemas, step, rest, a)?;
    Ok(map(alloc, es, a)?)
}

#[cycle(rewrite_at)]
#[tactic(auto, using(crate::proofs::Walking::refused_below))]
fn in_distinct(
    alloc: Global,
    schemas: &[Schema],
    step: &Step,
    i: u32,
    rest: &[u32],
    a: &Plan,
) -> Stepped
    ensures { Rewrites result (at_only i (wrapped (λ x. Distinct x)
        (rewritten_at (step_form schemas.now step.now) rest.now a.now))) }
{
    if i != 0 {
        return Err(StepRefusal::NoSuchPlace);
    }
    let a = rewrite_at(alloc, schemas, step, rest, a)?;
    Ok(distinct(alloc, a)?)
}

#[cycle(rewrite_at)]
#[tactic(auto, using(crate::proofs::Walking::refused_below))]
fn in_group(
    alloc: Global,
    schemas: &[Schema],
    step: &Step,
    i: u32,
    rest: &[u32],
    k: &Cols,
    g: &Aggs,
    a: &Plan,
) -> Stepped
    ensures { Rewrites result (at_only i (wrapped (λ x. Group k.now g.now x)
        (rewritten_at (step_form schemas.now step.now) rest.now a.now))) }
{
    if i != 0 {
        return Err(StepRefusal::NoSuchPlace);
    }
    let a = rewrite_at(alloc, schemas, step, rest, a)?;
    Ok(group(alloc, k, g, a)?)
}

#[cycle(rewrite_at)]
#[tactic(auto, using(crate::proofs::Walking::refused_below))]
fn in_union(
    alloc: Global,
    schemas: &[Schema],
    step: &Step,
    i: u32,
    rest: &[u32],
    a: &Plan,
    b: &Plan,
) -> Stepped
    ensures { Rewrites result (at_side i
        (wrapped (λ x. Union x b.now)
        (rewritten_at (step_form schemas.now step.now) rest.now a.now))
        (wrapped (λ x. Union a.now x)
        (rewritten_at (step_form schemas.now step.now) rest.now b.now))) }
{
    if i == 0 {
        let a = rewrite_at(alloc, schemas, step, rest, a)?;
        let b = b.copy(alloc)?;
        return Ok(union(alloc, a, b)?);
    }
    if i != 1 {
        return Err(StepRefusal::NoSuchPlace);
    }
    let b = rewrite_at(alloc, schemas, step, rest, b)?;
    let a = a.copy(alloc)?;
    Ok(union(alloc, a, b)?)
}

#[cycle(rewrite_at)]
#[tactic(auto, using(crate::proofs::Walking::refused_below))]
fn in_join(
    alloc: Global,
    schemas: &[Schema],
    step: &Step,
    i: u32,
    rest: &[u32],
    k: &Pairs,
    c: &Expr,
    a: &Plan,
    b: &Plan,
) -> Stepped
    ensures { Rewrites result (at_side i
        (wrapped (λ x. Join k.now c.now x b.now)
        (rewritten_at (step_form schemas.now step.now) rest.now a.now))
        (wrapped (λ x. Join k.now c.now a.now x)
        (rewritten_at (step_form schemas.now step.now) rest.now b.now))) }
{
    if i == 0 {
        let a = rewrite_at(alloc, schemas, step, rest, a)?;
        let b = b.copy(alloc)?;
        return Ok(join(alloc, k, c, a, b)?);
    }
    if i != 1 {
        return Err(StepRefusal::NoSuchPlace);
    }
    let b = rewrite_at(alloc, schemas, step, rest, b)?;
    let a = a.copy(alloc)?;
    Ok(join(alloc, k, c, a, b)?)
}

#[cycle(rewrite_at)]
#[tactic(auto, using(crate::proofs::Walking::refused_below))]
fn in_minus(
    alloc: Global,
    schemas: &[Schema],
    step: &Step,
    i: u32,
    rest: &[u32],
    a: &Plan,
    b: &Plan,
) -> Stepped
    ensures { Rewrites result (at_side i
        (wrapped (λ x. Minus x b.now)
        (rewritten_at (step_form schemas.now step.now) rest.now a.now))
        (wrapped (λ x. Minus a.now x)
        (rewritten_at (step_form schemas.now step.now) rest.now b.now))) }
{
    if i == 0 {
        let a = rewrite_at(alloc, schemas, step, rest, a)?;
        let b = b.copy(alloc)?;
        return Ok(minus(alloc, a, b)?);
    }
    if i != 1 {
        return Err(StepRefusal::NoSuchPlace);
    }
    let b = rewrite_at(alloc, schemas, step, rest, b)?;
    let a = a.copy(alloc)?;
    Ok(minus(alloc, a, b)?)
}

// The plan with the node at the end of the path rewritten by the step.
#[cycle(rewrite_at)]
fn rewrite_at(alloc: Global, schemas: &[Schema], step: &Step, path: &[u32], plan: &Plan) -> Stepped
    ensures { Rewrites result
        (rewritten_at (step_form schemas.now step.now) path.now plan.now) }
{
    match path.split_first() {
        None => at_node(alloc, schemas, step, plan),
        Some((i, rest)) => at_child(alloc, schemas, step, *i, rest, plan),
    }
}

#[cycle(rewrite_at)]
fn at_child(
    alloc: Global,
    schemas: &[Schema],
    step: &Step,
    i: u32,
    rest: &[u32],
    plan: &Plan,
) -> Stepped
    ensures { Rewrites result
        (with_child i (rewritten_at (step_form schemas.now step.now) rest.now)
        (out-Plan plan.now)) }
{
    match plan {
        Plan::Source(_) => Err(StepRefusal::NoSuchPlace),
        Plan::Filter(p, a) => in_filter(alloc, schemas, step, i, rest, p, a.get()),
        Plan::Map(es, a) => in_map(alloc, schemas, step, i, rest, es, a.get()),
        Plan::Union(a, b) => in_union(alloc, schemas, step, i, rest, a.get(), b.get()),
        Plan::Join(k, c, a, b) => in_join(alloc, schemas, step, i, rest, k, c, a.get(), b.get()),
        Plan::Distinct(a) => in_distinct(alloc, schemas, step, i, rest, a.get()),
        Plan::Group(k, g, a) => in_group(alloc, schemas, step, i, rest, k, g, a.get()),
        Plan::Minus(a, b) => in_minus(alloc, schemas, step, i, rest, a.get(), b.get()),
    }
}

// The plan with the step made, which needn't check.
fn rewrite(alloc: Global, schemas: &Schemas, plan: &Plan, step: &Step) -> Stepped
    ensures { Rewrites result (stepped schemas.now step.now plan.now) }
{
    let list = schemas.as_slice();
    let path = step.path.as_slice();
    rewrite_at(alloc, list, step, path, plan)
}

/// The plan with the step made, over these schemas of its sources.
///
/// It is refused with NoSuchPlace exactly where the path names no node; then with NoMatch exactly
/// where the node there, its condition or the argument isn't what the rule takes in the step's
/// direction; and then with NotAPlan exactly where the plan with the node rewritten doesn't check.
#[tactic(auto, using(crate::proofs::Applying::applied))]
pub fn apply(
    alloc: Global,
    schemas: &Schemas,
    plan: &Plan,
    step: &Step,
) -> Result<Plan, StepRefusal>
    requires typed { IsTyped plan.now schemas.now }
    ensures applied { IsApplied result schemas.now step.now plan.now }
    ensures typed { IfOk result (λ new. IsTyped new schemas.now) }
    ensures sound { IfOk result (λ new. SameMeaning schemas.now plan.now new) }
{
    let new = rewrite(alloc, schemas, plan, step)?;
    match new.check(alloc, schemas) {
        Ok(_) => Ok(new),
        Err(CheckFault::Refused(_)) => Err(StepRefusal::NotAPlan),
        Err(CheckFault::Memory) => Err(StepRefusal::Memory),
    }
}
