// An operator that sends each row once.
ghost use Rattle.std.specs.Prelude.{◌≡◌, [], ◌∷◌, ◌++◌, List, OnOk, IfOk, IsOk};
ghost use Rattle.pipes_stream.specs.declared.message.Message.{Message as Sent};
ghost use Rattle.pipes_stream.specs.Lawful.{no_messages, Takes};
ghost use Rattle.pipes_group.specs.Tasks.{distinct_task};
ghost use Rattle.pipes_group.specs.Distincts.{DistinctStands, Lasts};

use crate::coverage::{Coverage, append};
use pipes_stream::{Message, Operator, Watch};
use pipes_time::Memory;
use pipes_tuple::Schema;
use std::alloc::Global;

/// Sends each tuple once for the instants at which it is valid, however many elements have it
/// then. An element whose tuple is not covered by what was sent goes on whole; of one that comes
/// while its tuple is covered, the part beyond is sent once that instant has come.
///
/// Elements of one tuple that follow without a gap stay several: the parts that are sent are as
/// few as can be known when each starts.
#[derive(Drop)]
pub struct Distinct {
    schema: Schema,
    coverage: Coverage,
    watch: Watch,
    failed: bool,
}

// What is sent last for a message: an element that is new goes on.
fn last(coverage: &mut Coverage, message: Message) -> Result<Message, Memory>
    ensures { IfOk result (λ m. Lasts coverage.old coverage.new message m) }
{
    match message {
        Message::Elem(elem) => coverage.admit(elem),
        Message::Beat(at) => Ok(Message::Beat(at)),
        Message::End => Ok(Message::End),
    }
}

impl Distinct {
    /// The operator over tuples of this schema. No memory is taken.
    pub fn new(alloc: Global, schema: Schema) -> Result<Distinct, Memory>
        ensures made { IsOk result }
        ensures task { IfOk result (λ d. ⟦<Distinct as Operator>⟧.task d ≡ distinct_task schema) }
        ensures stands { IfOk result (λ d. ⟦<Distinct as Operator>⟧.stands d no_messages []) }
    {
        let coverage = Coverage::new(alloc);
        let watch = Watch::new();
        Ok(Distinct {
            schema,
            coverage,
            watch,
            failed: false,
        })
    }

    fn step(&mut self, message: Message, out: &mut Vec<Message>) -> Result<(), Memory>
        ensures takes { OnOk result
            (Takes (distinct_task self.old.schema) (DistinctStands self.old)
            (DistinctStands self.new) 0 message out.old.items out.new.items) }
        ensures goes_on { OnOk result (self.new.failed ≡ self.old.failed) }
        ensures same { self.new.schema ≡ self.old.schema }
        ensures grows { (more : List Sent) × (out.new.items ≡ out.old.items ++ more) }
    {
        self.watch.step(&message);
        let now = self.watch.beat_now();
        self.coverage.catch_up(now, out)?;
        let last = last(&mut self.coverage, message)?;
        append(out, last)?;
        Ok(())
    }
}

impl Operator for Distinct {
    ghost use Rattle.std.specs.Prelude.{length};
    ghost use Rattle.pipes_group.specs.Tasks.{distinct_task};
    ghost use Rattle.pipes_group.specs.Distincts.{DistinctStands};
    ghost use Rattle.pipes_group.specs.DistinctLaw.{distinct_lawful};

    ghost task = { λ d. distinct_task d.schema };

    ghost stands = { DistinctStands };

    ghost failed = { λ d. d.failed };

    ghost held_count = { λ d. length d.coverage.table.entries };

    ghost lawful = { distinct_lawful };

    fn ports(&self) -> u32 {
        1
    }

    fn take(&mut self, _port: u32, message: Message, out: &mut Vec<Message>) -> Result<(), Memory> {
        if self.failed {
            return Err(Memory);
        }
        let before = out.len();
        match self.step(message, out) {
            Ok(()) => Ok(()),
            Err(fault) => {
                out.truncate(before);
                self.failed = true;
                Err(fault)
            }
        }
    }

    fn beat_now(&self) -> u64 {
        self.watch.beat_now()
    }

    fn held(&self) -> u64 {
        self.coverage.len() as u64
    }
}
