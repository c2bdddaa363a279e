// The reply to a migrate command.
ghost use Rattle.std.specs.Prelude.{◌≡◌, ◌≤◌, ◌<◌, ◌+◌, ◌^◌, max, OnOk};
ghost use Rattle.pipes_rewrite.specs.SameMeaning.{SameMeaning};
ghost use Rattle.pipes_rules.specs.Stepping.{Derives};
ghost use Rattle.pipes_replies.specs.Keeping.{MayAccept};
ghost use Rattle.pipes_live.specs.Lives.{IsSettledIn};

use crate::serving::Serving;
use pipes_derivation::Derivation;
use pipes_edge::Gate;
use pipes_moving::Next;
use pipes_output::RefusedWhy;
use pipes_rule_sources::derivation_keeps_leaves;
use pipes_rules::{DeriveRefusal, derive};
use pipes_time::Memory;
use std::thread::Threads;

impl Serving {
    ghost use Rattle.pipes_engine.specs.Runs.{IsSound, IsInOrder};
    ghost use Rattle.pipes_engine.specs.Deeds.{a_migration};
    ghost use Rattle.pipes_engine.specs.Parts.{RepliesIn, RefusesIn};

    // Refuses the next migrate command for this.
    fn refuse(&mut self, why: RefusedWhy) -> Result<(), Memory>
        requires sound { IsSound self.old }
        requires order { IsInOrder self.old }
        requires settled { IsSettledIn self.old.live.state }
        requires commands { self.old.replies.commands + 1 < 2 ^ 32 }
        ensures sound { IsSound self.new }
        ensures order { IsInOrder self.new }
        ensures schemas { self.new.schemas ≡ self.old.schemas }
        ensures commands { self.new.replies.commands ≡ self.old.replies.commands + 1 }
        ensures refuses { OnOk result (RefusesIn self.old self.new why) }
    {
        self.live.keeps_up();
        let entry = self.replies.refuse(why);
        self.live.tell(entry)?;
        Ok(())
    }

    // A split above every end of what came, and not below the last one.
    fn next_split(&self) -> u64
        requires { IsSound self.now }
        ensures { result ≡ max (self.now.end + 1) self.now.live.split }
    {
        (self.end + 1).max(self.live.split())
    }

    // Accepts the next migrate command.
    fn accept<R: Threads + Sync, G: Gate>(
        &mut self,
        rt: &R,
        gate: &G,
        derivation: &Derivation,
    ) -> Result<(), Memory>
        requires sound { IsSound self.old }
        requires order { IsInOrder self.old }
        requires settled { IsSettledIn self.old.live.state }
        requires commands { self.old.replies.commands + 1 < 2 ^ 32 }
        requires free { MayAccept self.old.replies }
        requires derives { Derives self.old.schemas self.old.plan derivation.now.steps
            derivation.now.plan }
        requires means { SameMeaning self.old.schemas self.old.plan derivation.now.plan }
        ensures sound { IsSound self.new }
        ensures schemas { self.new.schemas ≡ self.old.schemas }
        ensures commands { OnOk result
            (self.new.replies.commands ≡ self.old.replies.commands + 1) }
        ensures order { OnOk result (IsInOrder self.new) }
        ensures replies { OnOk result (RepliesIn self.old self.new (a_migration derivation.now)) }
    {
        derivation_keeps_leaves();
        self.live.keeps_up();
        let split = self.next_split();
        let next = Next::new(self.alloc, &derivation.plan, &self.schemas, self.workers)?;
        let plan = derivation.plan.copy(self.alloc)?;
        let entry = self.replies.accept(split);
        self.live.tell(entry)?;
        self.live.begin(rt, gate, next, split)?;
        self.live.coalesces();
        self.plan = plan;
        Ok(())
    }

    // Replies to a command whose derivation leads from the plan now to its own.
    fn reply_derived<R: Threads + Sync, G: Gate>(
        &mut self,
        rt: &R,
        gate: &G,
        derivation: &Derivation,
    ) -> Result<(), Memory>
        requires sound { IsSound self.old }
        requires order { IsInOrder self.old }
        requires settled { IsSettledIn self.old.live.state }
        requires commands { self.old.replies.commands + 1 < 2 ^ 32 }
        requires derives { Derives self.old.schemas self.old.plan derivation.now.steps
            derivation.now.plan }
        requires means { SameMeaning self.old.schemas self.old.plan derivation.now.plan }
        ensures sound { IsSound self.new }
        ensures schemas { self.new.schemas ≡ self.old.schemas }
        ensures commands { OnOk result
            (self.new.replies.commands ≡ self.old.replies.commands + 1) }
        ensures order { OnOk result (IsInOrder self.new) }
        ensures replies { OnOk result (RepliesIn self.old self.new (a_migration derivation.now)) }
    {
        match self.replies.beside() {
            Some(why) => self.refuse(why),
            None => self.accept(rt, gate, derivation),
        }
    }

    // Replies to a migrate command by this derivation: refuses it for the first cause, or accepts
    // it.
    pub(crate) fn reply<R: Threads + Sync, G: Gate>(
        &mut self,
        rt: &R,
        gate: &G,
        derivation: &Derivation,
    ) -> Result<(), Memory>
        requires sound { IsSound self.old }
        requires order { IsInOrder self.old }
        requires settled { IsSettledIn self.old.live.state }
        requires commands { self.old.replies.commands + 1 < 2 ^ 32 }
        ensures sound { IsSound self.new }
        ensures schemas { self.new.schemas ≡ self.old.schemas }
        ensures commands { OnOk result
            (self.new.replies.commands ≡ self.old.replies.commands + 1) }
        ensures order { OnOk result (IsInOrder self.new) }
        ensures replies { OnOk result (RepliesIn self.old self.new (a_migration derivation.now)) }
    {
        let steps = &derivation.steps;
        match derive(
            self.alloc,
            &self.schemas,
            &self.plan,
            steps,
            &derivation.plan,
        ) {
            Ok(()) => self.reply_derived(rt, gate, derivation),
            Err(DeriveRefusal::NotDerived { step }) => self.refuse(RefusedWhy::NotDerived(step)),
            Err(DeriveRefusal::Memory) => Err(Memory),
        }
    }
}
