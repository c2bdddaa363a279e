// An operator that sends the elements of two ports in the order of their starts.
ghost use Rattle.std.specs.Prelude.{◌≡◌, ◌<◌, [], ◌∷◌, ◌++◌, ◌&&◌, List, IfOk, OnOk, IsOk, min};
ghost use Rattle.pipes_stream.specs.declared.message.Message.{Message as Sent};
ghost use Rattle.pipes_stream.specs.Lawful.{no_messages, Takes};
ghost use Rattle.pipes_plan.specs.PlanKinds.{IsTyped};
ghost use Rattle.pipes_flat.specs.Tasks.{union_task};
ghost use Rattle.pipes_flat.specs.Unions.{Sends, UnionStands, with_elem};

use pipes_stream::{Message, Operator, Watch};
use pipes_sweep::{Hold, send_due};
use pipes_time::Memory;
use pipes_tuple::Schema;
use std::alloc::Global;

/// Sends the elements of both ports, in the order of their starts: an element waits until both
/// heartbeats have reached its start.
#[derive(Drop)]
pub struct Union {
    alloc: Global,
    schema: Schema,
    left: Watch,
    right: Watch,
    hold: Hold,
    failed: bool,
}

// Keeps the message's element, if it has one.
fn keep(hold: &mut Hold, message: Message) -> Result<(), Memory>
    ensures { OnOk result (hold.new ≡ with_elem message hold.old) }
{
    match message {
        Message::Elem(elem) => hold.put(elem),
        Message::Beat(_) => Ok(()),
        Message::End => Ok(()),
    }
}

impl Union {
    ghost use Rattle.pipes_plan.specs.declared.plan.Plan.TheVariants as plan;

    /// A union of two ports with tuples of this schema.
    pub fn new(alloc: Global, schema: Schema) -> Result<Union, Memory>
        requires { IsTyped (plan.Union (plan.Source 0) (plan.Source 1)) (schema ∷ schema ∷ []) }
        ensures made { IsOk result }
        ensures task { IfOk result (λ u. ⟦<Union as Operator>⟧.task u ≡ union_task schema) }
        ensures stands { IfOk result (λ u. ⟦<Union as Operator>⟧.stands u no_messages []) }
    {
        let left = Watch::new();
        let right = Watch::new();
        let hold = Hold::new(alloc);
        Ok(Union {
            alloc,
            schema,
            left,
            right,
            hold,
            failed: false,
        })
    }

    // The lower heartbeat.
    fn least(&self) -> u64
        ensures { result ≡ min self.now.left.beat self.now.right.beat }
    {
        self.left.beat_now().min(self.right.beat_now())
    }

    // Whether both ports have ended.
    fn has_ended(&self) -> bool
        ensures { result ≡ (self.now.left.ended && self.now.right.ended) }
    {
        if !self.left.is_ended() {
            return false;
        }
        self.right.is_ended()
    }

    // Sends what is due and how far that is; the heartbeat before was `known`.
    fn send(&mut self, known: u64, out: &mut Vec<Message>) -> Result<(), Memory>
        ensures sends { OnOk result (Sends self.old self.new known out.old.items out.new.items) }
        ensures same { self.new.schema ≡ self.old.schema }
        ensures grows { (more : List Sent) × (out.new.items ≡ out.old.items ++ more) }
    {
        let now = self.least();
        let ended = self.has_ended();
        send_due(self.alloc, &mut self.hold, known, now, ended, out)?;
        Ok(())
    }

    fn take_left(&mut self, message: Message, out: &mut Vec<Message>) -> Result<(), Memory>
        ensures takes { OnOk result (Takes (union_task self.old.schema) (UnionStands self.old)
            (UnionStands self.new) 0 message out.old.items out.new.items) }
        ensures goes_on { OnOk result (self.new.failed ≡ self.old.failed) }
        ensures same { self.new.schema ≡ self.old.schema }
        ensures grows { (more : List Sent) × (out.new.items ≡ out.old.items ++ more) }
    {
        let known = self.least();
        self.left.step(&message);
        keep(&mut self.hold, message)?;
        self.send(known, out)?;
        Ok(())
    }

    fn take_right(&mut self, message: Message, out: &mut Vec<Message>) -> Result<(), Memory>
        ensures takes { OnOk result (Takes (union_task self.old.schema) (UnionStands self.old)
            (UnionStands self.new) 1 message out.old.items out.new.items) }
        ensures goes_on { OnOk result (self.new.failed ≡ self.old.failed) }
        ensures same { self.new.schema ≡ self.old.schema }
        ensures grows { (more : List Sent) × (out.new.items ≡ out.old.items ++ more) }
    {
        let known = self.least();
        self.right.step(&message);
        keep(&mut self.hold, message)?;
        self.send(known, out)?;
        Ok(())
    }

    fn take_at(&mut self, port: u32, message: Message, out: &mut Vec<Message>) -> Result<(), Memory>
        requires { port < 2 }
        ensures takes { OnOk result (Takes (union_task self.old.schema) (UnionStands self.old)
            (UnionStands self.new) port message out.old.items out.new.items) }
        ensures goes_on { OnOk result (self.new.failed ≡ self.old.failed) }
        ensures same { self.new.schema ≡ self.old.schema }
        ensures grows { (more : List Sent) × (out.new.items ≡ out.old.items ++ more) }
    {
        if port == 0 {
            self.take_left(message, out)
        } else {
            self.take_right(message, out)
        }
    }
}

impl Operator for Union {
    ghost use Rattle.std.specs.Prelude.{length};
    ghost use Rattle.pipes_flat.specs.Tasks.{union_task};
    ghost use Rattle.pipes_flat.specs.Unions.{UnionStands};
    ghost use Rattle.pipes_flat.specs.UnionLaw.{union_lawful};

    ghost task = { λ u. union_task u.schema };

    ghost stands = { UnionStands };

    ghost failed = { λ u. u.failed };

    ghost held_count = { λ u. length u.hold };

    ghost lawful = { union_lawful };

    fn ports(&self) -> u32 {
        2
    }

    fn take(&mut self, port: u32, message: Message, out: &mut Vec<Message>) -> Result<(), Memory> {
        if self.failed {
            return Err(Memory);
        }
        let before = out.len();
        match self.take_at(port, message, out) {
            Ok(()) => Ok(()),
            Err(fault) => {
                out.truncate(before);
                self.failed = true;
                Err(fault)
            }
        }
    }

    fn beat_now(&self) -> u64 {
        self.least()
    }

    fn held(&self) -> u64 {
        self.hold.len() as u64
    }
}
