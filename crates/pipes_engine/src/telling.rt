// The reply to a drain, and the end of a run.
ghost use Rattle.std.specs.Prelude.{◌≡◌, OnOk};
ghost use Rattle.pipes_live.specs.Lives.{IsSettledIn};

use crate::serving::Serving;
use pipes_time::Memory;

impl Serving {
    ghost use Rattle.pipes_engine.specs.Runs.{IsSound, IsInOrder};
    ghost use Rattle.pipes_engine.specs.Deeds.{a_drain};
    ghost use Rattle.pipes_engine.specs.Parts.{RepliesIn, EndsIn};

    // Tells how far the output and the inputs have come.
    pub(crate) fn tell_drain(&mut self) -> Result<(), Memory>
        requires sound { IsSound self.old }
        requires order { IsInOrder self.old }
        requires settled { IsSettledIn self.old.live.state }
        ensures sound { IsSound self.new }
        ensures order { IsInOrder self.new }
        ensures schemas { self.new.schemas ≡ self.old.schemas }
        ensures commands { self.new.replies.commands ≡ self.old.replies.commands }
        ensures replies { OnOk result (RepliesIn self.old self.new a_drain) }
    {
        let inputs = self.live.inputs_beat();
        self.live.keeps_up();
        self.live.tell_drain(inputs)?;
        Ok(())
    }

    // Tells that the run has ended, or was stopped.
    pub(crate) fn tell_end(&mut self, stopped: bool) -> Result<(), Memory>
        requires sound { IsSound self.old }
        requires order { IsInOrder self.old }
        requires settled { IsSettledIn self.old.live.state }
        ensures sound { IsSound self.new }
        ensures order { IsInOrder self.new }
        ensures schemas { self.new.schemas ≡ self.old.schemas }
        ensures ends { OnOk result (EndsIn self.old self.new stopped) }
    {
        self.live.keeps_up();
        self.live.tell_end(stopped)?;
        self.live.tells();
        Ok(())
    }
}
