// The sources of a plan at work.
ghost use Rattle.std.specs.Prelude.{◌≡◌, ◌++◌, ◌∷◌, [], ℕ, List, IfOk, OnOk, ◌↔◌, IsTrue};
ghost use Rattle.std.specs.Prelude.{cond, eqb};
ghost use Rattle.pipes_tuple.specs.declared.value.Kind.{Kind};
ghost use Rattle.pipes_stream.specs.declared.message.Message.{Message as Sent};
ghost use Rattle.pipes_stream.specs.Lists.{after};
ghost use Rattle.pipes_stream.specs.Lawful.{Lists, MessageFits};
ghost use Rattle.pipes_plan.specs.declared.plan.Plan.{Plan as Tree};
ghost use Rattle.pipes_node.specs.Passing.{MayPass};
ghost use Rattle.pipes_box.specs.Shapes.{shape_of, sources_of};
ghost use Rattle.pipes_box.specs.Boxes.{BoxStands};
ghost use Rattle.pipes_works.specs.Sources.{leaves_from};
ghost use Rattle.pipes_works.specs.Passed.{AreInputs};

use pipes_box::PlanBox;
use pipes_plan::Schemas;
use pipes_stream::{Message, Watch};
use pipes_time::Memory;
use pipes_tuple::Schema;
use std::alloc::Global;

/// A source of a plan at work.
#[derive(Drop)]
pub struct Input {
    // the numbers of the leaves that read it
    pub(crate) leaves: Vec<u32>,
    pub(crate) watch: Watch,
    pub(crate) schema: Schema,
}

// Whether the message's tuple, if it has one, is of the schema.
fn message_fits(message: &Message, schema: &Schema) -> bool
    ensures { IsTrue result ↔ MessageFits message.now schema.now }
{
    match message {
        Message::Elem(elem) => elem.tuple.fits(schema),
        Message::Beat(_) => true,
        Message::End => true,
    }
}

impl Input {
    // Whether the message may come next.
    pub(crate) fn may_come(&self, message: &Message) -> bool
        ensures { IsTrue result ↔ MayPass self.now.schema self.now.watch message.now }
    {
        if !message_fits(message, &self.schema) {
            return false;
        }
        let mut watch = self.watch;
        watch.step(message)
    }

    // The message came, which may come next.
    pub(crate) fn note(&mut self, message: &Message)
        requires { MayPass self.old.schema self.old.watch message.now }
        ensures { self.new ≡ record {
          leaves = self.old.leaves;
          watch = after self.old.watch message.now;
          schema = self.old.schema;
        } }
    {
        self.watch.step(message);
    }
}

// Notes a leaf, if it is one of the source.
fn note_leaf(leaves: &mut Vec<u32>, leaf: u32, at: u32, source: u32) -> Result<(), Memory>
    ensures { OnOk result
        (leaves.new.items ≡ leaves.old.items ++ cond (eqb at source) (leaf ∷ []) []) }
{
    if at == source {
        leaves.push(leaf)?;
        return Ok(());
    }
    Ok(())
}

// The leaves that read a source.
fn leaves_of(alloc: Global, plan_box: &PlanBox, source: u32) -> Result<Vec<u32>, Memory>
    ensures { IfOk result (λ leaves. (schemas : List (List Kind)) (plan : Tree) (given : Lists)
        (got : List Sent) → BoxStands plan_box.now schemas plan given got
        → leaves.items ≡ leaves_from source 0 (sources_of (shape_of schemas plan))) }
{
    let mut leaves = Vec::new(alloc);
    for leaf in 0..plan_box.leaf_count() {
        note_leaf(&mut leaves, leaf, plan_box.leaf_source(leaf), source)?;
    }
    Ok(leaves)
}

// The sources of these schemas.
pub(crate) fn inputs_of(
    alloc: Global,
    plan_box: &PlanBox,
    schemas: &Schemas,
) -> Result<Vec<Input>, Memory>
    ensures { IfOk result (λ inputs. AreInputs plan_box.now schemas.now inputs.items) }
{
    let mut inputs = Vec::new(alloc);
    for source in 0..schemas.as_slice().len() {
        let leaves = leaves_of(alloc, plan_box, source as u32)?;
        let schema = schemas.as_slice()[source].copy()?;
        inputs.push(Input {
            leaves,
            watch: Watch::new(),
            schema,
        })?;
    }
    Ok(inputs)
}
