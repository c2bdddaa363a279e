// Replies to migrate commands, and what is told of each migration.
ghost use Rattle.std.specs.Prelude.{◌≡◌, ◌≤◌, ◌<◌, ◌+◌, ◌^◌, [], ℕ, List, false};
ghost use Rattle.pipes_replies.specs.Telling.{told_in, over_entries, idle_entries, ArePaces};
ghost use Rattle.pipes_time.specs.Interval.{closed};
ghost use Rattle.pipes_stream.specs.declared.Elem.{Elem as AnElem};
ghost use Rattle.pipes_told.specs.Told.{nothing_told};
ghost use Rattle.pipes_told.specs.Asks.{Ask};
ghost use Rattle.pipes_plan.specs.declared.plan.Plan.{Plan as Tree};
ghost use Rattle.pipes_derivation.specs.declared.derivation.Derivation.{Derivation as Moved};

use crate::stage::Stage;
use pipes_output::{Entry, RefusedWhy};
use pipes_time::CLOSED;

/// The most migrations that a run accepts.
const MOST_MOVES: u32 = 1024;

/// What is told of a migration once the inputs and the output have come further.
#[derive(Drop)]
pub struct Paced {
    /// That its old plan holds nothing, where that is new.
    pub idle: Option<Entry>,
    /// That it is over, where that is new.
    pub over: Option<Entry>,
}

// Nothing new.
fn nothing() -> Paced
    ensures told { told_in result ≡ [] }
    ensures paces { ArePaces result }
{
    Paced {
        idle: None,
        over: None,
    }
}

// That the migration with this number is over, and that it is idle where that wasn't told before.
fn over(was_idle: bool, number: u32) -> Paced
    ensures told { told_in result ≡ over_entries was_idle number }
    ensures paces { ArePaces result }
{
    let over = Some(Entry::Over(number));
    if was_idle {
        return Paced { idle: None, over };
    }
    Paced {
        idle: Some(Entry::Idle(number)),
        over,
    }
}

// That it is idle, where that wasn't told before.
fn reached(was_idle: bool, number: u32) -> Paced
    ensures told { told_in result ≡ idle_entries was_idle number }
    ensures paces { ArePaces result }
{
    if was_idle {
        return nothing();
    }
    Paced {
        idle: Some(Entry::Idle(number)),
        over: None,
    }
}

/// How many migrate commands had a reply, how many migrations were accepted, and where the last one
/// stands.
#[derive(Debug, Drop)]
pub struct Replies {
    pub(crate) commands: u32,
    pub(crate) accepted: u32,
    pub(crate) last: u64,
    pub(crate) stage: Stage,
}

impl Replies {
    ghost use Rattle.pipes_replies.specs.Keeping.{KeepsPaced, Beside, MayAccept};
    ghost use Rattle.pipes_replies.specs.Telling.{Refuses, Accepts, Paces, TellsResults, TellsDrain};
    ghost use Rattle.pipes_replies.specs.Telling.{TellsEnd, NumbersStay, CountsOne};
    ghost use Rattle.pipes_replies.specs.declared.stage.Stage.TheVariants as stage;
    ghost use Rattle.pipes_output.specs.declared.entry.Entry.TheVariants as entry;
    ghost use Rattle.pipes_output.specs.declared.entry.RefusedWhy.TheVariants as why;

    /// No command had a reply.
    pub fn new() -> Replies
        ensures keeps { (plan : Tree) (asks : List (Ask Moved)) (inputs output : ℕ)
            → KeepsPaced result (nothing_told plan asks) inputs output }
        ensures commands { result.commands ≡ 0 }
        ensures last { result.last ≡ 0 }
        ensures calm { result.stage ≡ stage.Calm }
    {
        Replies {
            commands: 0,
            accepted: 0,
            last: 0,
            stage: Stage::Calm,
        }
    }

    /// Why no migration is accepted now, whatever is asked for: one is in progress, or 1,024 were
    /// accepted.
    pub fn beside(&self) -> Option<RefusedWhy>
        ensures { Beside self.now result }
    {
        match self.stage {
            Stage::Moving { split, .. } => Some(RefusedWhy::Busy(split)),
            Stage::Calm => {
                if self.accepted < MOST_MOVES {
                    None
                } else {
                    Some(RefusedWhy::Limit)
                }
            }
        }
    }

    /// Refuses the next migrate command for this.
    pub fn refuse(&mut self, why: RefusedWhy) -> Entry
        requires commands { self.old.commands + 1 < 2 ^ 32 }
        ensures entry { result ≡ entry.Refused self.new.commands why }
        ensures refuses { Refuses self.old self.new why result }
        ensures numbers { CountsOne self.old self.new }
    {
        self.commands += 1;
        Entry::Refused {
            command: self.commands,
            why,
        }
    }

    /// Accepts the next migrate command with this split.
    pub fn accept(&mut self, split: u64) -> Entry
        requires free { MayAccept self.old }
        requires commands { self.old.commands + 1 < 2 ^ 32 }
        requires above { 1 ≤ split }
        requires rising { self.old.last ≤ split }
        requires within { split ≤ closed }
        ensures entry { result ≡ entry.Accepted self.new.accepted split }
        ensures accepts { Accepts self.old self.new split result }
        ensures commands { self.new.commands ≡ self.old.commands + 1 }
        ensures last { self.new.last ≡ split }
        ensures moving { self.new.stage ≡ stage.Moving split false }
    {
        self.commands += 1;
        self.accepted += 1;
        self.last = split;
        self.stage = Stage::Moving { split, idle: false };
        Entry::Accepted {
            number: self.accepted,
            split,
        }
    }

    /// What is told of the last migration, now that the inputs and the output have come this far:
    /// that it is idle once the inputs have reached its split, and that it is over once the output
    /// has passed it too, or the inputs have ended.
    pub fn pace(&mut self, inputs: u64, output: u64) -> Paced
        requires within { inputs ≤ closed }
        requires ends { inputs ≡ closed → output ≡ closed }
        ensures paces { Paces self.old self.new inputs output (told_in result) }
        ensures told { ArePaces result }
        ensures numbers { NumbersStay self.old self.new }
    {
        let Stage::Moving { split, idle } = self.stage else {
            return nothing();
        };
        if inputs < split {
            return nothing();
        }
        if split < output || inputs == CLOSED {
            self.stage = Stage::Calm;
            return over(idle, self.accepted);
        }
        self.stage = Stage::Moving { split, idle: true };
        reached(idle, self.accepted)
    }

    /// Results and drains may be told, and the end where the inputs have ended: a law, and nothing
    /// to run.
    pub fn tells(&self)
        ensures results { (elems : List AnElem) → TellsResults self.now elems }
        ensures drain { (inputs output : ℕ) → TellsDrain self.now inputs output }
        ensures end { TellsEnd self.now }
    {}
}
