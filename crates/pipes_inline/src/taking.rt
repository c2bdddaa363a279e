// The turns of a run's sources, to the end of all or the stop of one.
ghost use Rattle.std.specs.Prelude.{◌≡◌, ◌≤◌, ◌<◌, map, get_or, length, List, ℕ, Option, IfOk};
ghost use Rattle.std.specs.Prelude.{OnOk, OnErr, IsErrOf, IfSome, IfNone, true, false};
ghost use Rattle.pipes_edge.specs.Causes.{Rose};
ghost use Rattle.pipes_works.specs.Standing.{IsWhole};
ghost use Rattle.pipes_results.specs.Kept.{form_of};
ghost use Rattle.pipes_intake.specs.declared.intake.Intake.{Intake as Taking};
ghost use Rattle.pipes_intake.specs.Giving.{next_turn_of};
ghost use Rattle.pipes_inline.specs.Standing.{Start, GoesOn, StopsAt, CutShort, AllLater};

use crate::underway::Underway;
use pipes_buffer::IoFault;
use pipes_edge::{Gate, Sink, Source};
use pipes_feed::Reason;
use pipes_intake::Intake;
use std::thread::Threads;

/// The source whose arrivals have stopped, and why.
#[derive(Clone, Copy, Debug)]
pub(crate) struct Stop {
    pub(crate) source: u32,
    pub(crate) reason: Reason,
}

// The source that has the next turn, the first of those that have it at once; none where all have
// come to their ends.
fn next_source(intakes: &[Intake]) -> Option<usize>
    ensures some { IfSome result (λ i. (i < length intakes.now)
        × ((d : Taking) → (get_or intakes.now i d).ended ≡ false)) }
    ensures first { IfSome result (λ i. (k : ℕ) (d : Taking) → k < length intakes.now
        → next_turn_of (get_or intakes.now i d) ≤ next_turn_of (get_or intakes.now k d)) }
    ensures none { IfNone result ((k : ℕ) (d : Taking) → k < length intakes.now
        → (get_or intakes.now k d).ended ≡ true) }
{
    let mut first = None;
    let mut least = u64::MAX;
    'intakes: for i in 0..intakes.len() {
        let turn = intakes[i].next_turn();
        if turn < least {
            first = Some(i);
            least = turn;
        }
    }
    first
}

// The source of a run that has the next turn.
fn next_of(underway: &Underway) -> Option<usize>
    ensures some { IfSome result (λ i. (i < length underway.now.intakes.items)
        × ((d : Taking) → (get_or underway.now.intakes.items i d).ended ≡ false)) }
    ensures none { IfNone result (StopsAt Option.None underway.now) }
{
    next_source(underway.intakes.as_slice())
}

/// Takes turns until all sources have come to their ends, or the arrivals of one have stopped.
pub(crate) fn take_all<R: Threads + Sync, G: Gate, S: Source, K: Sink>(
    underway: &mut Underway,
    rt: &R,
    gate: &G,
    srcs: &mut [S],
    out: &mut K,
) -> Result<Option<Stop>, IoFault>
    requires whole { IsWhole underway.old.works }
    requires count { length srcs.old ≡ length underway.old.intakes.items }
    requires goes { (start : Start) × GoesOn start (map S.left srcs.old) (map S.faults srcs.old)
        (K.written out.old) underway.old }
    ensures whole { IsWhole underway.new.works }
    ensures form { form_of underway.new.results ≡ form_of underway.old.results }
    ensures ok { OnOk result ((start : Start) → GoesOn start (map S.left srcs.old)
        (map S.faults srcs.old) (K.written out.old) underway.old → GoesOn start
        (map S.left srcs.new) (map S.faults srcs.new) (K.written out.new) underway.new) }
    ensures stops { IfOk result (λ stop. StopsAt stop underway.new) }
    ensures err { OnErr result ((start : Start) → GoesOn start (map S.left srcs.old)
        (map S.faults srcs.old) (K.written out.old) underway.old
        → CutShort (form_of underway.old.results) start (K.written out.new)) }
    ensures later { K.faults out.old ≤ K.faults out.new }
    ensures cause { IsErrOf result IoFault.Failed → Rose (K.faults out.old) (K.faults out.new) }
    ensures later_read { AllLater (map S.faults srcs.old) (map S.faults srcs.new) }
    ensures name { map S.name srcs.new ≡ map S.name srcs.old }
    ensures found_at { map S.found_at srcs.new ≡ map S.found_at srcs.old }
{
    'turns: loop {
        let Some(place) = next_of(underway) else {
            return Ok(None);
        };
        underway.stops_here();
        if let Some(reason) = underway.turn(rt, gate, place, &mut srcs[place])? {
            return Ok(Some(Stop {
                source: place as u32,
                reason,
            }));
        }
        underway.deliver_if_due(rt, gate, out)?;
    }
}
