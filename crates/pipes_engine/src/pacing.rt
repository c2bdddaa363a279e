// What is told of the migration in progress, once the inputs and the output have come further.
ghost use Rattle.std.specs.Prelude.{◌≡◌, ◌≤◌, ◌↔◌, [], ℕ, List, OnOk, IsTrue, IfSome, true};
ghost use Rattle.std.specs.Prelude.{option_to_list, false};
ghost use Rattle.pipes_time.specs.Interval.{closed};
ghost use Rattle.pipes_tuple.specs.declared.value.Kind.{Kind};
ghost use Rattle.pipes_stream.specs.Lawful.{Lists};
ghost use Rattle.pipes_plan.specs.declared.plan.Plan.{Plan as Tree};
ghost use Rattle.pipes_output.specs.declared.entry.Entry.{Entry as Line};
ghost use Rattle.pipes_written.specs.Made.{TellsMove};
ghost use Rattle.pipes_standing.specs.Calms.{Rows};
ghost use Rattle.pipes_replies.specs.Telling.{ArePaces, told_in};
ghost use Rattle.pipes_replies.specs.declared.stage.Stage.TheVariants as stage;
ghost use Rattle.pipes_live.specs.Lives.{IsWholeLive, IsSettledIn, IsAlone};
ghost use Rattle.pipes_live.specs.Deeds.{Tells, Stays};
ghost use Rattle.pipes_engine.specs.Parts.{MayPace, DropsOld};

use crate::serving::Serving;
use pipes_live::Live;
use pipes_output::{Entry, RefusedWhy};
use pipes_replies::{Paced, Replies};
use pipes_time::{CLOSED, Memory};

// Whether the inputs and the output may be at these heartbeats.
fn may_pace(inputs: u64, output: u64) -> bool
    ensures { IsTrue result ↔ MayPace inputs output }
{
    if inputs < CLOSED {
        return true;
    }
    inputs == CLOSED && output == CLOSED
}

// Tells the entry, if it is one.
fn tell_if(live: &mut Live, entry: Option<Entry>) -> Result<(), Memory>
    requires whole { IsWholeLive live.old }
    requires of_move { IfSome entry TellsMove }
    ensures whole { IsWholeLive live.new }
    ensures stays { Stays live.old live.new }
    ensures tells { OnOk result (Tells live.old live.new (option_to_list entry)) }
{
    match entry {
        Some(told) => live.tell(told),
        None => Ok(()),
    }
}

// Tells both entries, where they are there.
fn tell_paced(live: &mut Live, paced: Paced) -> Result<(), Memory>
    requires whole { IsWholeLive live.old }
    requires paces { ArePaces paced }
    ensures whole { IsWholeLive live.new }
    ensures stays { Stays live.old live.new }
    ensures tells { OnOk result (Tells live.old live.new (told_in paced)) }
{
    let Paced { idle, over } = paced;
    tell_if(live, idle)?;
    tell_if(live, over)?;
    Ok(())
}

// Whether no migration is in progress.
fn is_calm(replies: &Replies) -> bool
    ensures { IsTrue result ↔ (replies.now.stage ≡ stage.Calm) }
{
    match replies.beside() {
        None => true,
        Some(RefusedWhy::Limit) => true,
        Some(RefusedWhy::Busy(_)) => false,
        Some(RefusedWhy::NotDerived(_)) => unreachable!(),
    }
}

// Drops the plan that was replaced, where its migration is over.
fn drop_old(live: &mut Live, over: bool)
    requires whole { IsWholeLive live.old }
    requires settled { IsSettledIn live.old.state }
    ensures whole { IsWholeLive live.new }
    ensures settled { IsSettledIn live.new.state }
    ensures drops { DropsOld live.old live.new over }
{
    if over {
        if live.is_moving() {
            live.end();
        }
    }
}

impl Serving {
    ghost use Rattle.pipes_engine.specs.Runs.{IsSound, IsInOrder};
    ghost use Rattle.pipes_engine.specs.Parts.{PacesIn};

    // Tells of the migration in progress that it is idle, and that it is over, where that is new;
    // once it is over, its old plan is dropped.
    pub(crate) fn pace(&mut self) -> Result<(), Memory>
        requires sound { IsSound self.old }
        requires order { IsInOrder self.old }
        requires settled { IsSettledIn self.old.live.state }
        ensures sound { IsSound self.new }
        ensures schemas { self.new.schemas ≡ self.old.schemas }
        ensures commands { self.new.replies.commands ≡ self.old.replies.commands }
        ensures order { OnOk result (IsInOrder self.new) }
        ensures settled { OnOk result (IsSettledIn self.new.live.state) }
        ensures paces { OnOk result (PacesIn self.old self.new) }
    {
        let inputs = self.live.inputs_beat();
        let output = self.live.beat_now();
        self.live.keeps_up();
        if !may_pace(inputs, output) {
            return Ok(());
        }
        let paced = self.replies.pace(inputs, output);
        tell_paced(&mut self.live, paced)?;
        let over = is_calm(&self.replies);
        drop_old(&mut self.live, over);
        Ok(())
    }
}
