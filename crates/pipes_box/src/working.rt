// Rounds until nothing is on its way.
ghost use Rattle.std.specs.Prelude.{◌≡◌, ◌≤◌, ◌<◌, true, Some, None, IfOk, IfSome, IfNone};
ghost use Rattle.std.specs.Prelude.{OnOk, OnErr, IsErr, ℕ};
ghost use Rattle.std.specs.Bool.{OnTrue};
ghost use Rattle.pipes_link.specs.Ends.{ready};
ghost use Rattle.pipes_box.specs.Boxes.{IsSound, IsStill, TakesAll, StaysAsBefore};
ghost use Rattle.pipes_box.specs.Backlog.{backlog};
ghost use Rattle.pipes_box.specs.Rounds.{TopKnown, TopTaken, StepFalls};

use crate::plan_box::{Advance, PlanBox};
use crate::sums::number_at;
use pipes_edge::Gate;
use pipes_stream::Message;
use pipes_time::Memory;
use std::thread::Threads;

// The place of the number that fell, where a round moved something.
fn fell(advance: Advance) -> Option<u32>
    ensures some { 0 < advance.moved → result ≡ Some advance.place }
    ensures none { advance.moved ≡ 0 → result ≡ None }
{
    if advance.moved == 0 {
        return None;
    }
    Some(advance.place)
}

// What rounds have come to, unless the number at this place is the one that fell.
fn reached(fell: Option<u32>, place: u32) -> Option<Option<u32>>
    ensures reached { IfSome result (λ r. (r ≡ fell) × (fell ≡ Some place → ⊥)) }
    ensures goes_on { IfNone result (fell ≡ Some place) }
{
    match fell {
        Some(at) => {
            if at == place {
                return None;
            }
            Some(Some(at))
        }
        None => Some(None),
    }
}

impl PlanBox {
    // Takes all that is known to wait at the top, and appends it. Out of memory it takes none.
    fn take_all(&mut self, out: &mut Vec<Message>) -> Result<(), Memory>
        requires { IsSound self.old }
        ensures sound { IsSound self.new }
        ensures took { TakesAll self.old self.new out.old.items out.new.items }
        ensures none { OnOk result (ready self.new.top ≡ 0) }
        ensures nodes { self.new.nodes ≡ self.old.nodes }
        ensures known { TopKnown self.old → TopKnown self.new }
        ensures going { self.new.failed ≡ self.old.failed }
    {
        out.reserve(self.top.known_count() as usize)?;
        while let Some(message) = self.take() {
            out.push_reserved(message);
        }
        Ok(())
    }

    // Takes all that is known to wait at the top. Out of memory the box fails.
    fn take_top(&mut self, out: &mut Vec<Message>) -> Result<(), Memory>
        requires { IsSound self.old }
        ensures sound { IsSound self.new }
        ensures took { TakesAll self.old self.new out.old.items out.new.items }
        ensures none { OnOk result (ready self.new.top ≡ 0) }
        ensures nodes { self.new.nodes ≡ self.old.nodes }
        ensures known { TopKnown self.old → TopKnown self.new }
        ensures memory { OnErr result (self.new.failed ≡ true) }
    {
        match self.take_all(out) {
            Ok(()) => Ok(()),
            Err(fault) => {
                self.failed = true;
                Err(fault)
            }
        }
    }

    // Takes all from the top, and makes one round. Tells the place of the first number of the
    // backlog that fell, none where nothing is on its way any more.
    fn work_once<R: Threads + Sync, G: Gate>(
        &mut self,
        rt: &R,
        workers: u32,
        gate: &G,
        out: &mut Vec<Message>,
    ) -> Result<Option<u32>, Memory>
        requires sound { IsSound self.old }
        requires some { 1 ≤ workers }
        requires known { TopKnown self.old }
        ensures sound { IsSound self.new }
        ensures known { OnOk result (TopKnown self.new) }
        ensures works { TakesAll self.old self.new out.old.items out.new.items }
        ensures falls { IfOk result
            (λ r. (place : ℕ) → 64 ≤ place → StepFalls place self.old self.new r) }
        ensures memory { OnErr result (self.new.failed ≡ true) }
    {
        self.take_top(out)?;
        let advance = self.advance(rt, workers, gate)?;
        Ok(fell(advance))
    }

    // Rounds until a number of the backlog before this place falls; none where nothing is on its
    // way any more.
    fn work_at<R: Threads + Sync, G: Gate>(
        &mut self,
        rt: &R,
        workers: u32,
        gate: &G,
        out: &mut Vec<Message>,
        place: u32,
    ) -> Result<Option<u32>, Memory>
        requires sound { IsSound self.old }
        requires some { 1 ≤ workers }
        requires known { TopKnown self.old }
        requires in_range { place ≤ 64 }
        ensures sound { IsSound self.new }
        ensures known { OnOk result (TopKnown self.new) }
        ensures works { TakesAll self.old self.new out.old.items out.new.items }
        ensures falls { IfOk result (λ r. StepFalls place self.old self.new r) }
        ensures memory { OnErr result (self.new.failed ≡ true) }
    {
        if place >= 64 {
            let made = self.work_once(rt, workers, gate, out)?;
            return Ok(made);
        }
        'rounds: loop {
            let fell = self.work_at(rt, workers, gate, out, place + 1)?;
            match reached(fell, place) {
                Some(first) => return Ok(first),
                None => {}
            }
        }
    }

    /// Rounds until nothing is on its way in the box. All that comes to the top is taken and
    /// appended. After out of memory each call answers it; what was appended until then is right.
    ///
    /// Each round that moves something lowers the backlog, so this ends.
    pub fn work_off<R: Threads + Sync, G: Gate>(
        &mut self,
        rt: &R,
        workers: u32,
        gate: &G,
        out: &mut Vec<Message>,
    ) -> Result<(), Memory>
        requires sound { IsSound self.old }
        requires some { 1 ≤ workers }
        requires most { workers ≤ 16 }
        ensures sound { IsSound self.new }
        ensures works { TakesAll self.old self.new out.old.items out.new.items }
        ensures still { OnOk result (IsStill self.new) }
        ensures memory { OnErr result (self.new.failed ≡ true) }
        ensures stays_failed { OnTrue self.old.failed (IsErr result) }
    {
        if self.failed {
            return Err(Memory);
        }
        self.settle_top();
        self.work_at(rt, workers, gate, out, 0)?;
        Ok(())
    }

    /// The number at a place of the backlog, after each link is settled. It moves nothing.
    pub fn backlog_at(&mut self, place: u32) -> u128
        requires sound { IsSound self.old }
        requires in_range { place < 64 }
        ensures sound { IsSound self.new }
        ensures stands { StaysAsBefore self.old self.new }
        ensures going { self.new.failed ≡ self.old.failed }
        ensures answer { result ≡ backlog self.new place }
        ensures same { (j : ℕ) → j < 64 → backlog self.new j ≡ backlog self.old j }
    {
        self.settle_top();
        self.settle_links();
        number_at(self.nodes.as_slice(), place)
    }
}
