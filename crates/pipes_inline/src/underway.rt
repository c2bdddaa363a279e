// A run on its way.
ghost use Rattle.std.specs.Prelude.{◌≡◌, ◌≤◌, ◌<◌, [], map, set, get_or, length, List, ℕ, Option};
ghost use Rattle.std.specs.Prelude.{None, false, IfOk, OnOk, OnErr, IsErrOf};
ghost use Rattle.pipes_edge.specs.Causes.{Rose};
ghost use Rattle.pipes_works.specs.Standing.{IsWhole};
ghost use Rattle.pipes_results.specs.Kept.{form_of};
ghost use Rattle.pipes_intake.specs.declared.intake.Intake.{Intake as Taking};

use crate::feeding::put_step;
use crate::sending::send_all;
use pipes_buffer::IoFault;
use pipes_edge::{Gate, Sink, Source};
use pipes_feed::Reason;
use pipes_intake::{Intake, Turned};
use pipes_results::Results;
use pipes_stream::Message;
use pipes_time::Memory;
use pipes_works::Works;
use std::alloc::Global;
use std::mem::replace;
use std::thread::Threads;

/// After so many arrivals the plan is worked off, and what came to the top is written.
const BATCH: u32 = 4096;

/// A run on its way: its sources, the plan at work, and what comes out.
#[derive(Drop)]
pub(crate) struct Underway {
    pub(crate) alloc: Global,
    pub(crate) works: Works,
    pub(crate) intakes: Vec<Intake>,
    // what came to the top, and is not on its way out
    pub(crate) top: Vec<Message>,
    pub(crate) results: Results,
    // how many turns there were since the plan was worked off
    pub(crate) turns: u32,
}

impl Underway {
    ghost use Rattle.pipes_inline.specs.Standing.{Start, GoesOn, GoesSomehow, StopsSo, CutShort};
    ghost use Rattle.pipes_inline.specs.Standing.{all_turns};

    // What stands where nothing more is written: a law, and nothing to run.
    pub(crate) fn stops_here(&self)
        requires { IsWhole self.now.works }
        ensures { (start : Start) (lefts : List (Option (List ℕ))) (faults : List ℕ)
            (now : Option (List ℕ)) → GoesOn start lefts faults now self.now
            → CutShort (form_of self.now.results) start now }
    {
        self.works.answers();
    }

    // One turn of the source with this number; the reason, where its arrivals have stopped.
    pub(crate) fn turn<R: Threads + Sync, G: Gate, S: Source>(
        &mut self,
        rt: &R,
        gate: &G,
        place: usize,
        src: &mut S,
    ) -> Result<Option<Reason>, Memory>
        requires whole { IsWhole self.old.works }
        requires in_range { place < length self.old.intakes.items }
        requires going { (d : Taking) → (get_or self.old.intakes.items place d).ended ≡ false }
        requires goes { GoesSomehow place (S.left src.old) (S.faults src.old) self.old }
        ensures whole { IsWhole self.new.works }
        ensures results { self.new.results ≡ self.old.results }
        ensures turned { IfOk result (λ stop. (start : Start) (lefts : List (Option (List ℕ)))
            (faults : List ℕ) (now : Option (List ℕ)) → get_or lefts place None ≡ S.left src.old
            → get_or faults place 0 ≡ S.faults src.old → GoesOn start lefts faults now self.old
            → GoesOn start (set lefts place (S.left src.new)) (set faults place (S.faults src.new))
            now self.new × StopsSo place stop self.new) }
        ensures fewer { IfOk result (λ stop. stop ≡ None
            → all_turns self.new.intakes.items < all_turns self.old.intakes.items) }
        ensures later { S.faults src.old ≤ S.faults src.new }
        ensures name { S.name src.new ≡ S.name src.old }
        ensures found_at { S.found_at src.new ≡ S.found_at src.old }
    {
        match self.intakes[place].turn(src)? {
            Turned::Gave(step) => {
                put_step(&mut self.works, rt, gate, place as u32, step, &mut self.top)?;
                Ok(None)
            }
            Turned::Stopped(reason) => Ok(Some(reason)),
        }
    }

    // Works the plan off, and sends what came to the top on its way out.
    pub(crate) fn deliver<R: Threads + Sync, G: Gate, K: Sink>(
        &mut self,
        rt: &R,
        gate: &G,
        out: &mut K,
    ) -> Result<(), IoFault>
        requires { IsWhole self.old.works }
        ensures whole { IsWhole self.new.works }
        ensures intakes { self.new.intakes ≡ self.old.intakes }
        ensures form { form_of self.new.results ≡ form_of self.old.results }
        ensures ok { OnOk result ((start : Start) (lefts : List (Option (List ℕ)))
            (faults : List ℕ) → GoesOn start lefts faults (K.written out.old) self.old
            → GoesOn start lefts faults (K.written out.new) self.new) }
        ensures err { OnErr result ((start : Start) (lefts : List (Option (List ℕ)))
            (faults : List ℕ) → GoesOn start lefts faults (K.written out.old) self.old
            → CutShort (form_of self.old.results) start (K.written out.new)) }
        ensures later { K.faults out.old ≤ K.faults out.new }
        ensures cause { IsErrOf result IoFault.Failed → Rose (K.faults out.old) (K.faults out.new) }
    {
        self.stops_here();
        self.works.work_off(rt, gate, &mut self.top)?;
        self.works.answers();
        let top = replace(&mut self.top, Vec::new(self.alloc));
        send_all(&mut self.results, top, out)
    }

    // Counts a turn, and delivers where there were enough.
    pub(crate) fn deliver_if_due<R: Threads + Sync, G: Gate, K: Sink>(
        &mut self,
        rt: &R,
        gate: &G,
        out: &mut K,
    ) -> Result<(), IoFault>
        requires { IsWhole self.old.works }
        ensures whole { IsWhole self.new.works }
        ensures intakes { self.new.intakes ≡ self.old.intakes }
        ensures form { form_of self.new.results ≡ form_of self.old.results }
        ensures ok { OnOk result ((start : Start) (lefts : List (Option (List ℕ)))
            (faults : List ℕ) → GoesOn start lefts faults (K.written out.old) self.old
            → GoesOn start lefts faults (K.written out.new) self.new) }
        ensures err { OnErr result ((start : Start) (lefts : List (Option (List ℕ)))
            (faults : List ℕ) → GoesOn start lefts faults (K.written out.old) self.old
            → CutShort (form_of self.old.results) start (K.written out.new)) }
        ensures later { K.faults out.old ≤ K.faults out.new }
        ensures cause { IsErrOf result IoFault.Failed → Rose (K.faults out.old) (K.faults out.new) }
    {
        self.turns = self.turns.saturating_add(1);
        if self.turns < BATCH {
            return Ok(());
        }
        self.turns = 0;
        self.deliver(rt, gate, out)
    }
}
