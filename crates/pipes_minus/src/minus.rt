// An operator that sends the difference of its ports.
ghost use Rattle.std.specs.Prelude.{◌≡◌, ◌<◌, [], ◌++◌, ◌&&◌, min, List, OnOk, IfOk, IsOk};
ghost use Rattle.pipes_stream.specs.declared.message.Message.{Message as Sent};
ghost use Rattle.pipes_stream.specs.Lawful.{no_messages, Takes, Lists, least, all_elements};
ghost use Rattle.pipes_stream.specs.Lawful.{open_count};
ghost use Rattle.pipes_minus.specs.Tasks.{minus_task};
ghost use Rattle.pipes_minus.specs.Feeds.{TakesIn, FeedsAll, WatchSees, Waits};
ghost use Rattle.pipes_minus.specs.Minuses.{MinusStands};

use crate::counts::{Counts, Difference};
use pipes_stream::{Elem, Message, Operator, Watch};
use pipes_sweep::append_progress;
use pipes_time::Memory;
use pipes_timeline::{Starts, Timeline};
use pipes_tuple::Schema;
use std::alloc::Global;

/// Sends each tuple, at each instant, as often as it is valid at the left port, less as often as it
/// is valid at the right port, and not at all where that is not above 0.
///
/// An element waits until both heartbeats have come to its start.
#[derive(Drop)]
pub struct Minus {
    schema: Schema,
    left: Watch,
    right: Watch,
    waits: Starts,
    line: Timeline<Counts, Difference>,
    failed: bool,
}

// The element comes: its start is now.
fn take_in(line: &mut Timeline<Counts, Difference>, next: (u32, Elem)) -> Result<(), Memory>
    ensures { OnOk result (TakesIn line.old line.new next) }
{
    let (port, elem) = next;
    let start = elem.span.start();
    let _end = elem.span.end();
    line.pass(start)?;
    line.arrive(port, elem)?;
    line.trim()
}

// All that waits and starts at `h` or before it comes, in order, and the instant is now.
fn feed(line: &mut Timeline<Counts, Difference>, waits: &mut Starts, h: u64) -> Result<(), Memory>
    ensures { OnOk result (FeedsAll line.old line.new waits.old waits.new h) }
{
    while let Some(next) = waits.pop(h) {
        take_in(line, next)?;
    }
    line.pass(h)?;
    Ok(())
}

// Whether both lists have ended.
fn both_ended(left: &Watch, right: &Watch) -> bool
    ensures { result ≡ (left.now.ended && right.now.ended) }
{
    left.is_ended() && right.is_ended()
}

impl Minus {
    /// The operator over tuples of this schema. No memory is taken.
    pub fn new(alloc: Global, schema: Schema) -> Result<Minus, Memory>
        ensures made { IsOk result }
        ensures task { IfOk result (λ m. ⟦<Minus as Operator>⟧.task m ≡ minus_task schema) }
        ensures stands { IfOk result (λ m. ⟦<Minus as Operator>⟧.stands m no_messages []) }
    {
        let line = Timeline::new(alloc, Difference { alloc });
        let waits = Starts::new(alloc);
        let left = Watch::new();
        let right = Watch::new();
        Ok(Minus {
            schema,
            left,
            right,
            waits,
            line,
            failed: false,
        })
    }

    /// It holds the elements that it took and that end after the least heartbeat: a law, and
    /// nothing to run.
    pub fn holds_what_lives(&self)
        ensures { (taken : Lists) (sent : List Sent) → ⟦<Minus as Operator>⟧.stands self.now taken
            sent → ⟦<Minus as Operator>⟧.held_count self.now
            ≡ open_count (least 2 taken) (all_elements 2 taken) }
    {}

    fn watch(&mut self, port: u32, message: &Message)
        ensures sees { WatchSees port message.now self.old.left self.old.right self.new.left
            self.new.right }
        ensures waits { self.new.waits ≡ self.old.waits }
        ensures line { self.new.line ≡ self.old.line }
        ensures failed { self.new.failed ≡ self.old.failed }
        ensures schema { self.new.schema ≡ self.old.schema }
    {
        if port == 0 {
            self.left.step(message);
        } else {
            self.right.step(message);
        }
    }

    fn wait(&mut self, port: u32, message: Message) -> Result<(), Memory>
        ensures waits { OnOk result (Waits port message self.old.waits self.new.waits) }
        ensures left { self.new.left ≡ self.old.left }
        ensures right { self.new.right ≡ self.old.right }
        ensures line { self.new.line ≡ self.old.line }
        ensures failed { self.new.failed ≡ self.old.failed }
        ensures schema { self.new.schema ≡ self.old.schema }
    {
        match message {
            Message::Elem(elem) => self.waits.put(port, elem),
            Message::Beat(_) => Ok(()),
            Message::End => Ok(()),
        }
    }

    // The least heartbeat.
    fn least(&self) -> u64
        ensures { result ≡ min self.now.left.beat self.now.right.beat }
    {
        self.left.beat_now().min(self.right.beat_now())
    }

    fn step(&mut self, port: u32, message: Message, out: &mut Vec<Message>) -> Result<(), Memory>
        requires { port < 2 }
        ensures takes { OnOk result
            (Takes (minus_task self.old.schema) (MinusStands self.old)
            (MinusStands self.new) port message out.old.items out.new.items) }
        ensures goes_on { OnOk result (self.new.failed ≡ self.old.failed) }
        ensures same { self.new.schema ≡ self.old.schema }
        ensures grows { (more : List Sent) × (out.new.items ≡ out.old.items ++ more) }
    {
        let before = self.line.reach();
        self.watch(port, &message);
        self.wait(port, message)?;
        let h = self.least();
        feed(&mut self.line, &mut self.waits, h)?;
        self.line.send(out)?;
        let reach = self.line.reach();
        let ended = both_ended(&self.left, &self.right);
        append_progress(before, reach, ended, out)?;
        Ok(())
    }
}

impl Operator for Minus {
    ghost use Rattle.std.specs.Prelude.{◌+◌, length};
    ghost use Rattle.pipes_minus.specs.Tasks.{minus_task};
    ghost use Rattle.pipes_minus.specs.Minuses.{MinusStands};
    ghost use Rattle.pipes_minus.specs.MinusLaw.{minus_lawful};

    ghost task = { λ m. minus_task m.schema };

    ghost stands = { MinusStands };

    ghost failed = { λ m. m.failed };

    ghost held_count = { λ m. length m.line.ends + length m.waits };

    ghost lawful = { minus_lawful };

    fn ports(&self) -> u32 {
        2
    }

    fn take(&mut self, port: u32, message: Message, out: &mut Vec<Message>) -> Result<(), Memory> {
        if self.failed {
            return Err(Memory);
        }
        let before = out.len();
        match self.step(port, message, out) {
            Ok(()) => Ok(()),
            Err(fault) => {
                out.truncate(before);
                self.failed = true;
                Err(fault)
            }
        }
    }

    fn beat_now(&self) -> u64 {
        self.line.reach()
    }

    fn held(&self) -> u64 {
        (self.line.live() as u64).saturating_add(self.waits.len() as u64)
    }
}
