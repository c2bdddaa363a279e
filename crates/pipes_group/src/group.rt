// An operator that sends a row for each group.
ghost use Rattle.std.specs.Prelude.{◌≡◌, ◌∷◌, ◌++◌, [], List, OnOk, IfOk, IsOk};
ghost use Rattle.pipes_stream.specs.declared.message.Message.{Message as Sent};
ghost use Rattle.pipes_stream.specs.Lawful.{no_messages, Takes, Lists, least, all_elements};
ghost use Rattle.pipes_stream.specs.Lawful.{open_count};
ghost use Rattle.pipes_plan.specs.declared.plan.Plan.TheVariants as plan;
ghost use Rattle.pipes_plan.specs.PlanKinds.{IsTyped};
ghost use Rattle.pipes_group.specs.Tasks.{group_task};
ghost use Rattle.pipes_group.specs.Grouped.{GroupStands, TakesUp};

use crate::tally::{Grouping, Tally};
use pipes_relation::Aggs;
use pipes_stream::{Message, Operator, Watch};
use pipes_sweep::append_progress;
use pipes_time::Memory;
use pipes_timeline::Timeline;
use pipes_tuple::{Cols, Schema};
use std::alloc::Global;

/// Sends, for each group of rows that have the same values in some columns, these values and the
/// aggregates of the rows, for the instants at which they are so. The pieces of all groups go out
/// in the order of their starts; a piece goes out once it has ended.
#[derive(Drop)]
pub struct Group {
    schema: Schema,
    watch: Watch,
    line: Timeline<Tally, Grouping>,
    failed: bool,
}

// The element comes: its start is now.
fn take_up(line: &mut Timeline<Tally, Grouping>, message: Message) -> Result<(), Memory>
    ensures takes_up { OnOk result
        (TakesUp line.old.rule.columns line.old.rule.aggs line.old line.new message) }
    ensures rule { line.new.rule ≡ line.old.rule }
{
    match message {
        Message::Elem(elem) => {
            line.arrive(0, elem)?;
            line.trim()
        }
        Message::Beat(_) => Ok(()),
        Message::End => Ok(()),
    }
}

impl Group {
    /// The operator over tuples of this schema. No memory is taken.
    pub fn new(alloc: Global, columns: Cols, aggs: Aggs, schema: Schema) -> Result<Group, Memory>
        requires { IsTyped (plan.Group columns aggs (plan.Source 0)) (schema ∷ []) }
        ensures made { IsOk result }
        ensures task { IfOk result
            (λ g. ⟦<Group as Operator>⟧.task g ≡ group_task columns aggs schema) }
        ensures stands { IfOk result (λ g. ⟦<Group as Operator>⟧.stands g no_messages []) }
    {
        let grouping = Grouping {
            alloc,
            columns,
            aggs,
        };
        let line = Timeline::new(alloc, grouping);
        let watch = Watch::new();
        Ok(Group {
            schema,
            watch,
            line,
            failed: false,
        })
    }

    /// It holds the elements that it took and that end after the heartbeat of its port: a law, and
    /// nothing to run.
    pub fn holds_what_lives(&self)
        ensures { (taken : Lists) (sent : List Sent) → ⟦<Group as Operator>⟧.stands self.now taken
            sent → ⟦<Group as Operator>⟧.held_count self.now
            ≡ open_count (least 1 taken) (all_elements 1 taken) }
    {}

    fn step(&mut self, message: Message, out: &mut Vec<Message>) -> Result<(), Memory>
        ensures takes { OnOk result
            (Takes (group_task self.old.line.rule.columns self.old.line.rule.aggs self.old.schema)
            (GroupStands self.old) (GroupStands self.new) 0 message out.old.items out.new.items) }
        ensures goes_on { OnOk result (self.new.failed ≡ self.old.failed) }
        ensures same { self.new.schema ≡ self.old.schema }
        ensures rule { self.new.line.rule ≡ self.old.line.rule }
        ensures grows { (more : List Sent) × (out.new.items ≡ out.old.items ++ more) }
    {
        let before = self.line.reach();
        self.watch.step(&message);
        let now = self.watch.beat_now();
        self.line.pass(now)?;
        take_up(&mut self.line, message)?;
        self.line.send(out)?;
        let reach = self.line.reach();
        let ended = self.watch.is_ended();
        append_progress(before, reach, ended, out)?;
        Ok(())
    }
}

impl Operator for Group {
    ghost use Rattle.std.specs.Prelude.{length};
    ghost use Rattle.pipes_group.specs.Tasks.{group_task};
    ghost use Rattle.pipes_group.specs.Grouped.{GroupStands};
    ghost use Rattle.pipes_group.specs.GroupedLaw.{group_lawful};

    ghost task = { λ g. group_task g.line.rule.columns g.line.rule.aggs g.schema };

    ghost stands = { GroupStands };

    ghost failed = { λ g. g.failed };

    ghost held_count = { λ g. length g.line.ends };

    ghost lawful = { group_lawful };

    fn ports(&self) -> u32 {
        1
    }

    fn take(&mut self, _port: u32, message: Message, out: &mut Vec<Message>) -> Result<(), Memory> {
        if self.failed {
            return Err(Memory);
        }
        let before = out.len();
        match self.step(message, out) {
            Ok(()) => Ok(()),
            Err(fault) => {
                out.truncate(before);
                self.failed = true;
                Err(fault)
            }
        }
    }

    fn beat_now(&self) -> u64 {
        self.line.reach()
    }

    fn held(&self) -> u64 {
        self.line.live() as u64
    }
}
