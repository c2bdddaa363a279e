// A plan's nodes and links are made.
ghost use Rattle.std.specs.Prelude.{◌≡◌, ◌≤◌, ◌<◌, ◌+◌, ◌++◌, [], ◌∷◌, true, length, IfOk};
ghost use Rattle.std.specs.Prelude.{OnOk, Some, None};
ghost use Rattle.pipes_link.specs.declared.TheConstants.{MOST_ROOM};
ghost use Rattle.pipes_plan.specs.PlanKinds.{IsTyped, plan_kinds};
ghost use Rattle.pipes_plan.specs.Sizes.{plan_nodes, plan_depth};
ghost use Rattle.pipes_node.specs.Operators.{task_of};
ghost use Rattle.pipes_node.specs.Nodes.{ports_of, task_in};
ghost use Rattle.pipes_box.specs.Parts.{Adds, AddsOver, AddsTask, CanBuild, IsPortOf};
ghost use Rattle.pipes_box.specs.Parts.{PartBuilt};
ghost use Rattle.pipes_flat.specs.Tasks.{filter_task, map_task, union_task};
ghost use Rattle.pipes_pair.specs.Tasks.{join_task};
ghost use Rattle.pipes_group.specs.Tasks.{distinct_task, group_task};
ghost use Rattle.pipes_minus.specs.Tasks.{minus_task};
ghost use Rattle.pipes_plan.specs.declared.plan.Plan.TheVariants as plans;

use crate::leaf::Leaf;
use pipes_flat::{Filter, Map, Union};
use pipes_group::{Distinct, Group};
use pipes_link::{Inlet, link};
use pipes_minus::Minus;
use pipes_node::{Node, PlanOperator, Port};
use pipes_pair::Join;
use pipes_plan::{Aggs, Expr, Exprs, Pairs, Plan, Schemas, copy_exprs};
use pipes_stream::{Message, Watch};
use pipes_time::Memory;
use pipes_tuple::{Cols, Schema};
use std::alloc::Global;
use std::collections::VecDeque;

// A part of a plan that is built: where its root's messages come out, and the schema of their
// tuples.
#[derive(Drop)]
pub(crate) struct Part {
    pub(crate) inlet: Inlet<Message>,
    pub(crate) schema: Schema,
    // the place of its root
    pub(crate) root: usize,
}

// Where a node is in its plan, and how much room its outlet's link has.
#[derive(Clone, Copy, Drop)]
pub(crate) struct Spot {
    pub(crate) alloc: Global,
    pub(crate) room: u32,
    pub(crate) number: u32,
    pub(crate) depth: u32,
    ghost some_room: { 1 ≤ room },
    ghost most_room: { room ≤ MOST_ROOM },
}

impl Spot {
    // The next node in preorder, which is a child of this one.
    fn child(self, next: &mut u32) -> Spot
        requires numbers { next.old < 1000 }
        requires shallow { self.depth ≤ 31 }
        ensures number { result.number ≡ next.old }
        ensures depth { result.depth ≡ self.depth + 1 }
        ensures next { next.new ≡ next.old + 1 }
    {
        let number = *next;
        *next = number + 1;
        Spot {
            alloc: self.alloc,
            room: self.room,
            number,
            depth: self.depth + 1,
        }
    }
}

impl Part {
    // The port of a node over this part.
    fn into_port(self) -> Port
        ensures { IsPortOf self result }
    {
        Port {
            inlet: self.inlet,
            watch: Watch::new(),
            schema: self.schema,
            child: self.root,
        }
    }
}

// Adds a node with a link of its own, and gives the end of the link that takes.
fn add_node(
    spot: Spot,
    nodes: &mut Vec<Node>,
    operator: Option<PlanOperator>,
    ports: Vec<Port>,
) -> Result<Inlet<Message>, Memory>
    ensures { IfOk result (λ inlet. Adds spot.number spot.depth nodes.old.items nodes.new.items
        operator ports.items inlet) }
{
    let (outlet, inlet) = link(spot.alloc, spot.room)?;
    nodes.push(Node {
        number: spot.number,
        depth: spot.depth,
        operator,
        ports,
        outlet,
        pending: VecDeque::new(spot.alloc),
        fresh: Vec::new(spot.alloc),
        took: 0,
        moved: 0,
        failed: false,
    })?;
    Ok(inlet)
}

// A source.
fn add_source(
    spot: Spot,
    nodes: &mut Vec<Node>,
    leaves: &mut Vec<Leaf>,
    source: u32,
    schema: Schema,
) -> Result<Part, Memory>
    ensures nodes { IfOk result (λ part. Adds spot.number spot.depth nodes.old.items
        nodes.new.items None [] part.inlet) }
    ensures root { IfOk result (λ part. part.root ≡ length nodes.old.items) }
    ensures schema { IfOk result (λ part. part.schema ≡ schema) }
    ensures leaves { IfOk result (λ part. leaves.new.items ≡ leaves.old.items
        ++ record { node = length nodes.old.items; source = source } ∷ []) }
{
    let root = nodes.len();
    leaves.push(Leaf { node: root, source })?;
    let inlet = add_node(spot, nodes, None, Vec::new(spot.alloc))?;
    Ok(Part {
        inlet,
        schema,
        root,
    })
}

// A node over one part.
fn add_one(
    spot: Spot,
    nodes: &mut Vec<Node>,
    operator: PlanOperator,
    part: Part,
    schema: Schema,
) -> Result<Part, Memory>
    ensures nodes { IfOk result (λ whole. AddsOver spot.number spot.depth nodes.old.items
        nodes.new.items operator (part ∷ []) whole.inlet) }
    ensures root { IfOk result (λ whole. whole.root ≡ length nodes.old.items) }
    ensures schema { IfOk result (λ whole. whole.schema ≡ schema) }
{
    let root = nodes.len();
    let ports = Vec::from_array(spot.alloc, [part.into_port()])?;
    let inlet = add_node(spot, nodes, Some(operator), ports)?;
    Ok(Part {
        inlet,
        schema,
        root,
    })
}

// A node over two parts.
fn add_two(
    spot: Spot,
    nodes: &mut Vec<Node>,
    operator: PlanOperator,
    left: Part,
    right: Part,
    schema: Schema,
) -> Result<Part, Memory>
    ensures nodes { IfOk result (λ whole. AddsOver spot.number spot.depth nodes.old.items
        nodes.new.items operator (left ∷ right ∷ []) whole.inlet) }
    ensures root { IfOk result (λ whole. whole.root ≡ length nodes.old.items) }
    ensures schema { IfOk result (λ whole. whole.schema ≡ schema) }
{
    let root = nodes.len();
    let ports = Vec::from_array(spot.alloc, [left.into_port(), right.into_port()])?;
    let inlet = add_node(spot, nodes, Some(operator), ports)?;
    Ok(Part {
        inlet,
        schema,
        root,
    })
}

// A filter over a part, which sends tuples of the schema.
fn filter_over(
    spot: Spot,
    condition: &Expr,
    part: Part,
    schema: Schema,
    nodes: &mut Vec<Node>,
) -> Result<Part, Memory>
    requires { IsTyped (plans.Filter condition.now (plans.Source 0)) (part.schema ∷ []) }
    ensures adds { IfOk result (λ whole. AddsTask spot.number spot.depth nodes.old.items
        nodes.new.items (filter_task condition.now part.schema) (part ∷ []) whole) }
    ensures schema { IfOk result (λ whole. whole.schema ≡ schema) }
{
    let condition = condition.copy(spot.alloc)?;
    let filter = Filter::new(condition, part.schema.copy()?)?;
    add_one(spot, nodes, PlanOperator::Filter(filter), part, schema)
}

// A map over a part, which sends tuples of the schema.
fn map_over(
    spot: Spot,
    exprs: &Exprs,
    part: Part,
    schema: Schema,
    nodes: &mut Vec<Node>,
) -> Result<Part, Memory>
    requires { IsTyped (plans.Map exprs.now (plans.Source 0)) (part.schema ∷ []) }
    ensures adds { IfOk result (λ whole. AddsTask spot.number spot.depth nodes.old.items
        nodes.new.items (map_task exprs.now part.schema) (part ∷ []) whole) }
    ensures schema { IfOk result (λ whole. whole.schema ≡ schema) }
{
    let exprs = copy_exprs(spot.alloc, exprs)?;
    let map = Map::new(spot.alloc, exprs, part.schema.copy()?)?;
    add_one(spot, nodes, PlanOperator::Map(map), part, schema)
}

// A union of two parts, which sends tuples of the schema.
fn union_over(
    spot: Spot,
    left: Part,
    right: Part,
    schema: Schema,
    nodes: &mut Vec<Node>,
) -> Result<Part, Memory>
    requires { IsTyped (plans.Union (plans.Source 0) (plans.Source 1))
        (left.schema ∷ right.schema ∷ []) }
    ensures adds { IfOk result (λ whole. AddsTask spot.number spot.depth nodes.old.items
        nodes.new.items (union_task left.schema) (left ∷ right ∷ []) whole) }
    ensures schema { IfOk result (λ whole. whole.schema ≡ schema) }
{
    let union = Union::new(spot.alloc, left.schema.copy()?)?;
    add_two(spot, nodes, PlanOperator::Union(union), left, right, schema)
}

// A join of two parts, which sends tuples of the schema.
fn join_over(
    spot: Spot,
    pairs: &Pairs,
    condition: &Expr,
    left: Part,
    right: Part,
    schema: Schema,
    nodes: &mut Vec<Node>,
) -> Result<Part, Memory>
    requires { IsTyped (plans.Join pairs.now condition.now (plans.Source 0) (plans.Source 1))
        (left.schema ∷ right.schema ∷ []) }
    ensures adds { IfOk result (λ whole. AddsTask spot.number spot.depth nodes.old.items
        nodes.new.items (join_task pairs.now condition.now left.schema right.schema)
        (left ∷ right ∷ []) whole) }
    ensures schema { IfOk result (λ whole. whole.schema ≡ schema) }
{
    let pairs = pairs.copy()?;
    let condition = condition.copy(spot.alloc)?;
    let left_schema = left.schema.copy()?;
    let right_schema = right.schema.copy()?;
    let join = Join::new(spot.alloc, pairs, condition, left_schema, right_schema)?;
    let whole = add_two(spot, nodes, PlanOperator::Join(join), left, right, schema)?;
    Ok(whole)
}

// Each tuple of a part once.
fn distinct_over(
    spot: Spot,
    part: Part,
    schema: Schema,
    nodes: &mut Vec<Node>,
) -> Result<Part, Memory>
    ensures adds { IfOk result (λ whole. AddsTask spot.number spot.depth nodes.old.items
        nodes.new.items (distinct_task part.schema) (part ∷ []) whole) }
    ensures schema { IfOk result (λ whole. whole.schema ≡ schema) }
{
    let distinct = Distinct::new(spot.alloc, part.schema.copy()?)?;
    add_one(spot, nodes, PlanOperator::Distinct(distinct), part, schema)
}

// The groups of a part, which sends tuples of the schema.
fn group_over(
    spot: Spot,
    columns: &Cols,
    aggs: &Aggs,
    part: Part,
    schema: Schema,
    nodes: &mut Vec<Node>,
) -> Result<Part, Memory>
    requires { IsTyped (plans.Group columns.now aggs.now (plans.Source 0)) (part.schema ∷ []) }
    ensures adds { IfOk result (λ whole. AddsTask spot.number spot.depth nodes.old.items
        nodes.new.items (group_task columns.now aggs.now part.schema) (part ∷ []) whole) }
    ensures schema { IfOk result (λ whole. whole.schema ≡ schema) }
{
    let columns = columns.copy()?;
    let aggs = aggs.copy()?;
    let below = part.schema.copy()?;
    let group = Group::new(spot.alloc, columns, aggs, below)?;
    let whole = add_one(spot, nodes, PlanOperator::Group(group), part, schema)?;
    Ok(whole)
}

// The difference of two parts, which sends tuples of the schema.
fn minus_over(
    spot: Spot,
    left: Part,
    right: Part,
    schema: Schema,
    nodes: &mut Vec<Node>,
) -> Result<Part, Memory>
    ensures adds { IfOk result (λ whole. AddsTask spot.number spot.depth nodes.old.items
        nodes.new.items (minus_task left.schema) (left ∷ right ∷ []) whole) }
    ensures schema { IfOk result (λ whole. whole.schema ≡ schema) }
{
    let minus = Minus::new(spot.alloc, left.schema.copy()?)?;
    add_two(spot, nodes, PlanOperator::Minus(minus), left, right, schema)
}

// A source, with the schema of its number.
fn source_at(
    spot: Spot,
    plan: &Plan,
    source: u32,
    schemas: &Schemas,
    nodes: &mut Vec<Node>,
    leaves: &mut Vec<Leaf>,
) -> Result<Part, Memory>
    requires typed { IsTyped plan.now schemas.now }
    requires source { plan.now ≡ plans.Source source }
    requires shallow { spot.depth ≤ 31 }
    ensures { IfOk result (λ part. PartBuilt schemas.now plan.now spot.number spot.depth
        nodes.old.items nodes.new.items leaves.old.items leaves.new.items part) }
{
    let schema = schemas.as_slice()[source as usize].copy()?;
    let part = add_source(spot, nodes, leaves, source, schema)?;
    Ok(part)
}

// The schema of a typed plan.
fn schema_of(alloc: Global, plan: &Plan, schemas: &Schemas) -> Result<Schema, Memory>
    ensures { IfOk result (λ schema. plan_kinds plan.now schemas.now ≡ Some schema) }
{
    match plan.check(alloc, schemas) {
        Ok(schema) => Ok(schema),
        Err(_) => Err(Memory),
    }
}

// Makes the nodes of a filter, and their links.
#[cycle(build_at)]
fn build_filter(
    spot: Spot,
    next: &mut u32,
    plan: &Plan,
    condition: &Expr,
    a: &Plan,
    schemas: &Schemas,
    nodes: &mut Vec<Node>,
    leaves: &mut Vec<Leaf>,
) -> Result<Part, Memory>
    requires is { plan.now ≡ plans.Filter condition.now a.now }
    requires can { CanBuild schemas.now plan.now spot.number spot.depth next.old }
    ensures built { IfOk result (λ part. PartBuilt schemas.now plan.now spot.number spot.depth
        nodes.old.items nodes.new.items leaves.old.items leaves.new.items part) }
    ensures next { OnOk result (next.new ≡ spot.number + plan_nodes plan.now) }
{
    let below = spot.child(next);
    let part = build_at(below, next, a, schemas, nodes, leaves)?;
    let schema = schema_of(spot.alloc, plan, schemas)?;
    let whole = filter_over(spot, condition, part, schema, nodes)?;
    Ok(whole)
}

// Makes the nodes of a map, and their links.
#[cycle(build_at)]
fn build_map(
    spot: Spot,
    next: &mut u32,
    plan: &Plan,
    exprs: &Exprs,
    a: &Plan,
    schemas: &Schemas,
    nodes: &mut Vec<Node>,
    leaves: &mut Vec<Leaf>,
) -> Result<Part, Memory>
    requires is { plan.now ≡ plans.Map exprs.now a.now }
    requires can { CanBuild schemas.now plan.now spot.number spot.depth next.old }
    ensures built { IfOk result (λ part. PartBuilt schemas.now plan.now spot.number spot.depth
        nodes.old.items nodes.new.items leaves.old.items leaves.new.items part) }
    ensures next { OnOk result (next.new ≡ spot.number + plan_nodes plan.now) }
{
    let below = spot.child(next);
    let part = build_at(below, next, a, schemas, nodes, leaves)?;
    let schema = schema_of(spot.alloc, plan, schemas)?;
    let whole = map_over(spot, exprs, part, schema, nodes)?;
    Ok(whole)
}

// Makes the nodes of a union, and their links.
#[cycle(build_at)]
fn build_union(
    spot: Spot,
    next: &mut u32,
    plan: &Plan,
    a: &Plan,
    b: &Plan,
    schemas: &Schemas,
    nodes: &mut Vec<Node>,
    leaves: &mut Vec<Leaf>,
) -> Result<Part, Memory>
    requires is { plan.now ≡ plans.Union a.now b.now }
    requires can { CanBuild schemas.now plan.now spot.number spot.depth next.old }
    ensures built { IfOk result (λ part. PartBuilt schemas.now plan.now spot.number spot.depth
        nodes.old.items nodes.new.items leaves.old.items leaves.new.items part) }
    ensures next { OnOk result (next.new ≡ spot.number + plan_nodes plan.now) }
{
    let first = spot.child(next);
    let left = build_at(first, next, a, schemas, nodes, leaves)?;
    let second = spot.child(next);
    let right = build_at(second, next, b, schemas, nodes, leaves)?;
    let schema = schema_of(spot.alloc, plan, schemas)?;
    let whole = union_over(spot, left, right, schema, nodes)?;
    Ok(whole)
}

// Makes the nodes of a join, and their links.
#[cycle(build_at)]
fn build_join(
    spot: Spot,
    next: &mut u32,
    plan: &Plan,
    pairs: &Pairs,
    condition: &Expr,
    a: &Plan,
    b: &Plan,
    schemas: &Schemas,
    nodes: &mut Vec<Node>,
    leaves: &mut Vec<Leaf>,
) -> Result<Part, Memory>
    requires is { plan.now ≡ plans.Join pairs.now condition.now a.now b.now }
    requires can { CanBuild schemas.now plan.now spot.number spot.depth next.old }
    ensures built { IfOk result (λ part. PartBuilt schemas.now plan.now spot.number spot.depth
        nodes.old.items nodes.new.items leaves.old.items leaves.new.items part) }
    ensures next { OnOk result (next.new ≡ spot.number + plan_nodes plan.now) }
{
    let first = spot.child(next);
    let left = build_at(first, next, a, schemas, nodes, leaves)?;
    let second = spot.child(next);
    let right = build_at(second, next, b, schemas, nodes, leaves)?;
    let schema = schema_of(spot.alloc, plan, schemas)?;
    let whole = join_over(spot, pairs, condition, left, right, schema, nodes)?;
    Ok(whole)
}

// Makes the nodes of a distinct, and their links.
#[cycle(build_at)]
fn build_distinct(
    spot: Spot,
    next: &mut u32,
    plan: &Plan,
    a: &Plan,
    schemas: &Schemas,
    nodes: &mut Vec<Node>,
    leaves: &mut Vec<Leaf>,
) -> Result<Part, Memory>
    requires is { plan.now ≡ plans.Distinct a.now }
    requires can { CanBuild schemas.now plan.now spot.number spot.depth next.old }
    ensures built { IfOk result (λ part. PartBuilt schemas.now plan.now spot.number spot.depth
        nodes.old.items nodes.new.items leaves.old.items leaves.new.items part) }
    ensures next { OnOk result (next.new ≡ spot.number + plan_nodes plan.now) }
{
    let below = spot.child(next);
    let part = build_at(below, next, a, schemas, nodes, leaves)?;
    let schema = schema_of(spot.alloc, plan, schemas)?;
    let whole = distinct_over(spot, part, schema, nodes)?;
    Ok(whole)
}

// Makes the nodes of a group, and their links.
#[cycle(build_at)]
fn build_group(
    spot: Spot,
    next: &mut u32,
    plan: &Plan,
    columns: &Cols,
    aggs: &Aggs,
    a: &Plan,
    schemas: &Schemas,
    nodes: &mut Vec<Node>,
    leaves: &mut Vec<Leaf>,
) -> Result<Part, Memory>
    requires is { plan.now ≡ plans.Group columns.now aggs.now a.now }
    requires can { CanBuild schemas.now plan.now spot.number spot.depth next.old }
    ensures built { IfOk result (λ part. PartBuilt schemas.now plan.now spot.number spot.depth
        nodes.old.items nodes.new.items leaves.old.items leaves.new.items part) }
    ensures next { OnOk result (next.new ≡ spot.number + plan_nodes plan.now) }
{
    let below = spot.child(next);
    let part = build_at(below, next, a, schemas, nodes, leaves)?;
    let schema = schema_of(spot.alloc, plan, schemas)?;
    let whole = group_over(spot, columns, aggs, part, schema, nodes)?;
    Ok(whole)
}

// Makes the nodes of a difference, and their links.
#[cycle(build_at)]
fn build_minus(
    spot: Spot,
    next: &mut u32,
    plan: &Plan,
    a: &Plan,
    b: &Plan,
    schemas: &Schemas,
    nodes: &mut Vec<Node>,
    leaves: &mut Vec<Leaf>,
) -> Result<Part, Memory>
    requires is { plan.now ≡ plans.Minus a.now b.now }
    requires can { CanBuild schemas.now plan.now spot.number spot.depth next.old }
    ensures built { IfOk result (λ part. PartBuilt schemas.now plan.now spot.number spot.depth
        nodes.old.items nodes.new.items leaves.old.items leaves.new.items part) }
    ensures next { OnOk result (next.new ≡ spot.number + plan_nodes plan.now) }
{
    let first = spot.child(next);
    let left = build_at(first, next, a, schemas, nodes, leaves)?;
    let second = spot.child(next);
    let right = build_at(second, next, b, schemas, nodes, leaves)?;
    let schema = schema_of(spot.alloc, plan, schemas)?;
    let whole = minus_over(spot, left, right, schema, nodes)?;
    Ok(whole)
}

// Makes the nodes of a plan, children before their parents, and their links. The root has its spot,
// and `next` is the number after it.
#[cycle(build_at)]
pub(crate) fn build_at(
    spot: Spot,
    next: &mut u32,
    plan: &Plan,
    schemas: &Schemas,
    nodes: &mut Vec<Node>,
    leaves: &mut Vec<Leaf>,
) -> Result<Part, Memory>
    requires { CanBuild schemas.now plan.now spot.number spot.depth next.old }
    ensures built { IfOk result (λ part. PartBuilt schemas.now plan.now spot.number spot.depth
        nodes.old.items nodes.new.items leaves.old.items leaves.new.items part) }
    ensures next { OnOk result (next.new ≡ spot.number + plan_nodes plan.now) }
{
    match plan {
        Plan::Source(source) => source_at(spot, plan, *source, schemas, nodes, leaves),
        Plan::Filter(condition, a) => {
            build_filter(spot, next, plan, condition, a.get(), schemas, nodes, leaves)
        }
        Plan::Map(exprs, a) => {
            build_map(spot, next, plan, exprs, a.get(), schemas, nodes, leaves)
        }
        Plan::Union(a, b) => {
            build_union(spot, next, plan, a.get(), b.get(), schemas, nodes, leaves)
        }
        Plan::Join(pairs, condition, a, b) => {
            build_join(
                spot,
                next,
                plan,
                pairs,
                condition,
                a.get(),
                b.get(),
                schemas,
                nodes,
                leaves,
            )
        }
        Plan::Distinct(a) => build_distinct(spot, next, plan, a.get(), schemas, nodes, leaves),
        Plan::Group(columns, aggs, a) => {
            build_group(
                spot,
                next,
                plan,
                columns,
                aggs,
                a.get(),
                schemas,
                nodes,
                leaves,
            )
        }
        Plan::Minus(a, b) => {
            build_minus(spot, next, plan, a.get(), b.get(), schemas, nodes, leaves)
        }
    }
}
