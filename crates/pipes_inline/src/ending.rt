// The end of a run.
ghost use Rattle.std.specs.Prelude.{◌≡◌, ◌≤◌, ◌<◌, ◌+◌, List, ℕ, Option, OnOk, OnErr, IsErrOf};
ghost use Rattle.std.specs.Prelude.{length, Some};
ghost use Rattle.pipes_edge.specs.Causes.{Rose};
ghost use Rattle.pipes_window.specs.declared.item.Item.{Item};
ghost use Rattle.pipes_works.specs.Standing.{IsWhole};
ghost use Rattle.pipes_results.specs.Kept.{form_of};
ghost use Rattle.pipes_semantics.specs.Written.{EndsRun};
ghost use Rattle.pipes_inline.specs.Ran.{DidRun, HasRunCause, fault_in};
ghost use Rattle.pipes_inline.specs.Standing.{Start, GoesOn, Ends, StopsAt, CutShort, WroteAll};
ghost use Rattle.pipes_inline.specs.Ending.{fault_of_write, fault_of_stop, IsOver};

use crate::RunFault;
use crate::feeding::put_step;
use crate::sending::send_all;
use crate::taking::Stop;
use crate::underway::Underway;
use pipes_buffer::IoFault;
use pipes_edge::{Gate, Sink};
use pipes_feed::Reason;
use pipes_output::Entry;
use pipes_time::Memory;
use std::mem::replace;
use std::thread::Threads;

// Ends the source with this number where it is.
fn finish_one<R: Threads + Sync, G: Gate>(
    underway: &mut Underway,
    rt: &R,
    gate: &G,
    place: usize,
) -> Result<(), Memory>
    requires whole { IsWhole underway.old.works }
    requires in_range { place < length underway.old.intakes.items }
    requires ends { (start : Start) × (now : Option (List ℕ)) × (taken : ℕ → List Item)
        × Ends start place now taken underway.old }
    ensures whole { IsWhole underway.new.works }
    ensures count { length underway.new.intakes.items ≡ length underway.old.intakes.items }
    ensures results { underway.new.results ≡ underway.old.results }
    ensures ends { OnOk result ((start : Start) (now : Option (List ℕ)) (taken : ℕ → List Item)
        → Ends start place now taken underway.old → Ends start (place + 1) now taken underway.new) }
{
    match underway.intakes[place].finish()? {
        Some(step) => put_step(
            &mut underway.works,
            rt,
            gate,
            place as u32,
            step,
            &mut underway.top,
        ),
        None => Ok(()),
    }
}

// Ends all sources where they are.
fn finish_all<R: Threads + Sync, G: Gate>(
    underway: &mut Underway,
    rt: &R,
    gate: &G,
) -> Result<(), Memory>
    requires whole { IsWhole underway.old.works }
    requires ends { (start : Start) × (now : Option (List ℕ)) × (taken : ℕ → List Item)
        × Ends start 0 now taken underway.old }
    ensures whole { IsWhole underway.new.works }
    ensures results { underway.new.results ≡ underway.old.results }
    ensures ends { OnOk result ((start : Start) (now : Option (List ℕ)) (taken : ℕ → List Item)
        → Ends start 0 now taken underway.old → Ends start (length start.query.sources) now taken
        underway.new) }
{
    'places: for place in 0..underway.intakes.len() {
        finish_one(underway, rt, gate, place)?;
    }
    Ok(())
}

// Ends all sources, and works the plan off: what came to the top is the answer.
fn work_to_end<R: Threads + Sync, G: Gate>(
    underway: &mut Underway,
    rt: &R,
    gate: &G,
) -> Result<(), Memory>
    requires whole { IsWhole underway.old.works }
    requires ends { (start : Start) × (now : Option (List ℕ)) × (taken : ℕ → List Item)
        × Ends start 0 now taken underway.old }
    ensures results { underway.new.results ≡ underway.old.results }
    ensures over { OnOk result ((start : Start) (now : Option (List ℕ)) (taken : ℕ → List Item)
        → Ends start 0 now taken underway.old → IsOver start now taken underway.new) }
{
    finish_all(underway, rt, gate)?;
    underway.works.work_off(rt, gate, &mut underway.top)?;
    underway.works.answers();
    underway.works.keeps_up();
    Ok(())
}

// Writes all that the arrivals give, with this entry at the end of the stream.
fn write_end<R: Threads + Sync, G: Gate, K: Sink>(
    mut underway: Underway,
    rt: &R,
    gate: &G,
    last: &Entry,
    out: &mut K,
) -> Result<(), IoFault>
    requires whole { IsWhole underway.works }
    requires goes { (start : Start) × (lefts : List (Option (List ℕ))) × (faults : List ℕ)
        × GoesOn start lefts faults (K.written out.old) underway }
    requires last { EndsRun last.now }
    ensures ok { OnOk result ((start : Start) (lefts : List (Option (List ℕ))) (faults : List ℕ)
        (goes : GoesOn start lefts faults (K.written out.old) underway)
        → WroteAll (form_of underway.results) start goes.taken (K.written out.new) last.now) }
    ensures err { OnErr result ((start : Start) (lefts : List (Option (List ℕ))) (faults : List ℕ)
        → GoesOn start lefts faults (K.written out.old) underway
        → CutShort (form_of underway.results) start (K.written out.new)) }
    ensures later { K.faults out.old ≤ K.faults out.new }
    ensures cause { IsErrOf result IoFault.Failed → Rose (K.faults out.old) (K.faults out.new) }
{
    underway.stops_here();
    work_to_end(&mut underway, rt, gate)?;
    let top = replace(&mut underway.top, Vec::new(underway.alloc));
    send_all(&mut underway.results, top, out)?;
    underway.results.end(underway.alloc, out, last)
}

/// The fault of a write.
pub(crate) fn known(fault: IoFault) -> RunFault
    ensures { result ≡ fault_of_write fault }
{
    match fault {
        IoFault::Failed => RunFault::Write,
        IoFault::Memory => RunFault::Memory,
    }
}

// The fault of the source whose arrivals have stopped.
fn stopped(stop: Stop) -> RunFault
    requires { stop.reason ≡ Reason.AtEnd → ⊥ }
    ensures { Some result ≡ fault_of_stop stop.source stop.reason }
{
    let source = stop.source;
    match stop.reason {
        Reason::Row { line, why } => RunFault::Row { source, line, why },
        Reason::Limit { line } => RunFault::Limit { source, line },
        Reason::Failed => RunFault::Read { source },
        Reason::Memory => RunFault::Memory,
        Reason::AtEnd => unreachable!(),
    }
}

// Ends a run whose sources have all come to their ends.
fn end_whole<R: Threads + Sync, G: Gate, K: Sink>(
    underway: Underway,
    rt: &R,
    gate: &G,
    out: &mut K,
) -> Result<(), RunFault>
    requires whole { IsWhole underway.works }
    requires goes { (start : Start) × (lefts : List (Option (List ℕ))) × (faults : List ℕ)
        × GoesOn start lefts faults (K.written out.old) underway }
    requires stops { StopsAt Option.None underway }
    ensures ran { (start : Start) (lefts : List (Option (List ℕ))) (faults : List ℕ)
        → GoesOn start lefts faults (K.written out.old) underway
        → DidRun (form_of underway.results) start.query start.lefts start.written
        (K.written out.new) (fault_in result) }
    ensures cause { (start : Start) (lefts : List (Option (List ℕ))) (faults : List ℕ)
        (out_before : ℕ) → GoesOn start lefts faults (K.written out.old) underway
        → out_before ≤ K.faults out.old
        → HasRunCause start.faults faults out_before (K.faults out.new) (fault_in result) }
{
    match write_end(underway, rt, gate, &Entry::Ended, out) {
        Ok(()) => Ok(()),
        Err(fault) => Err(known(fault)),
    }
}

// Ends a run that a source has stopped.
fn end_stopped<R: Threads + Sync, G: Gate, K: Sink>(
    underway: Underway,
    rt: &R,
    gate: &G,
    stop: Stop,
    out: &mut K,
) -> Result<(), RunFault>
    requires whole { IsWhole underway.works }
    requires goes { (start : Start) × (lefts : List (Option (List ℕ))) × (faults : List ℕ)
        × GoesOn start lefts faults (K.written out.old) underway }
    requires stops { StopsAt (Some stop) underway }
    ensures ran { (start : Start) (lefts : List (Option (List ℕ))) (faults : List ℕ)
        → GoesOn start lefts faults (K.written out.old) underway
        → DidRun (form_of underway.results) start.query start.lefts start.written
        (K.written out.new) (fault_in result) }
    ensures cause { (start : Start) (lefts : List (Option (List ℕ))) (faults : List ℕ)
        (out_before : ℕ) → GoesOn start lefts faults (K.written out.old) underway
        → out_before ≤ K.faults out.old
        → HasRunCause start.faults faults out_before (K.faults out.new) (fault_in result) }
{
    underway.stops_here();
    if stop.reason == Reason::Memory {
        return Err(RunFault::Memory);
    }
    match write_end(underway, rt, gate, &Entry::Stopped, out) {
        Ok(()) => Err(stopped(stop)),
        Err(fault) => Err(known(fault)),
    }
}

/// Ends a run: what its sources have left is given, and all is written. Where a source's arrivals
/// have stopped for want of memory, nothing more is written.
pub(crate) fn end<R: Threads + Sync, G: Gate, K: Sink>(
    underway: Underway,
    rt: &R,
    gate: &G,
    stop: Option<Stop>,
    out: &mut K,
) -> Result<(), RunFault>
    requires whole { IsWhole underway.works }
    requires goes { (start : Start) × (lefts : List (Option (List ℕ))) × (faults : List ℕ)
        × GoesOn start lefts faults (K.written out.old) underway }
    requires stops { StopsAt stop underway }
    ensures ran { (start : Start) (lefts : List (Option (List ℕ))) (faults : List ℕ)
        → GoesOn start lefts faults (K.written out.old) underway
        → DidRun (form_of underway.results) start.query start.lefts start.written
        (K.written out.new) (fault_in result) }
    ensures cause { (start : Start) (lefts : List (Option (List ℕ))) (faults : List ℕ)
        (out_before : ℕ) → GoesOn start lefts faults (K.written out.old) underway
        → out_before ≤ K.faults out.old
        → HasRunCause start.faults faults out_before (K.faults out.new) (fault_in result) }
{
    match stop {
        Some(stop) => end_stopped(underway, rt, gate, stop, out),
        None => end_whole(underway, rt, gate, out),
    }
}
