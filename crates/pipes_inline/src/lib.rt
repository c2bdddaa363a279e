//! A run of a query over its sources in one thread: the arrivals of all sources by their stamps,
//! through the plan at work, to what is written.
#![tactic(auto)]

ghost use Rattle.std.specs.Prelude.{◌≡◌, ◌≤◌, map, length, List, ℕ, Option};
ghost use Rattle.std.specs.List.{All};
ghost use Rattle.pipes_plan.specs.PlanKinds.{IsTyped};
ghost use Rattle.pipes_plan.specs.Refusals.{Checks};
ghost use Rattle.pipes_window.specs.Windows.{IsWindow};
ghost use Rattle.pipes_semantics.specs.Answer.{schemas_of};
ghost use Rattle.pipes_works.specs.Standing.{IsWhole};
ghost use Rattle.pipes_results.specs.Kept.{form_of};
ghost use Rattle.pipes_inline.specs.Ran.{DidRun, HasRunCause, fault_in};
ghost use Rattle.pipes_inline.specs.Standing.{Start, GoesOn, AllLater};

mod ending;
mod feeding;
mod sending;
mod starting;
mod taking;
mod underway;

use crate::ending::{end, known};
use crate::starting::start;
use crate::taking::take_all;
use crate::underway::Underway;
use pipes_edge::{Gate, Sink, Source};
use pipes_feed::RowWhy;
use pipes_output::Form;
use pipes_query::Query;
use std::alloc::Global;
use std::thread::Threads;

/// Why a run did not come to the end of its sources.
#[derive(Clone, Copy, Debug, PartialEq, Eq)]
pub enum RunFault {
    /// A line of a source is refused.
    Row {
        /// The source, by its place in the query.
        source: u32,
        /// The line, counted from 1.
        line: u64,
        /// Why.
        why: RowWhy,
    },
    /// A line of a source is past a limit.
    Limit {
        /// The source, by its place in the query.
        source: u32,
        /// The line, counted from 1.
        line: u64,
    },
    /// A read of a source failed.
    Read {
        /// The source, by its place in the query.
        source: u32,
    },
    /// A write failed.
    Write,
    /// Out of memory.
    Memory,
}

// Takes all arrivals, and writes what they give.
fn run_underway<R: Threads + Sync, G: Gate, S: Source, K: Sink>(
    mut underway: Underway,
    rt: &R,
    gate: &G,
    srcs: &mut [S],
    out: &mut K,
) -> Result<(), RunFault>
    requires whole { IsWhole underway.works }
    requires count { length srcs.old ≡ length underway.intakes.items }
    requires goes { (start : Start) × GoesOn start (map S.left srcs.old) (map S.faults srcs.old)
        (K.written out.old) underway }
    ensures ran { (start : Start) → GoesOn start (map S.left srcs.old) (map S.faults srcs.old)
        (K.written out.old) underway → DidRun (form_of underway.results) start.query start.lefts
        start.written (K.written out.new) (fault_in result) }
    ensures cause { (start : Start) → GoesOn start (map S.left srcs.old) (map S.faults srcs.old)
        (K.written out.old) underway → HasRunCause start.faults (map S.faults srcs.new)
        (K.faults out.old) (K.faults out.new) (fault_in result) }
    ensures later { AllLater (map S.faults srcs.old) (map S.faults srcs.new) }
    ensures name { map S.name srcs.new ≡ map S.name srcs.old }
    ensures found_at { map S.found_at srcs.new ≡ map S.found_at srcs.old }
{
    match take_all(&mut underway, rt, gate, srcs, out) {
        Ok(stop) => end(underway, rt, gate, stop, out),
        Err(fault) => Err(known(fault)),
    }
}

/// Runs the query over its sources, one for each in its order, and writes what they give, in this
/// form. The arrival with the least stamp is taken first, of equal ones that of the first source;
/// at most so many workers share out a round of the plan's nodes.
///
/// A fault of a source ends the arrivals of all where they are, and what was taken is written to
/// the end; a write that fails, or out of memory, stops the run at once.
pub fn run<R: Threads + Sync, G: Gate, S: Source, K: Sink>(
    rt: &R,
    alloc: Global,
    form: Form,
    query: &Query,
    workers: u32,
    gate: &G,
    srcs: &mut [S],
    out: &mut K,
) -> Result<(), RunFault>
    requires typed { IsTyped query.now.plan (schemas_of query.now) }
    requires checks { Checks (schemas_of query.now) query.now.plan }
    requires windows { All (λ s. IsWindow s.window) query.now.sources }
    requires count { length srcs.old ≡ length query.now.sources }
    requires some { 1 ≤ workers }
    requires most { workers ≤ 16 }
    ensures ran { DidRun form query.now (map S.left srcs.old) (K.written out.old)
        (K.written out.new) (fault_in result) }
    ensures cause { HasRunCause (map S.faults srcs.old) (map S.faults srcs.new) (K.faults out.old)
        (K.faults out.new) (fault_in result) }
    ensures later { AllLater (map S.faults srcs.old) (map S.faults srcs.new) }
    ensures name { map S.name srcs.new ≡ map S.name srcs.old }
    ensures found_at { map S.found_at srcs.new ≡ map S.found_at srcs.old }
{
    match start(alloc, form, query, workers, srcs) {
        Ok(underway) => run_underway(underway, rt, gate, srcs, out),
        Err(_) => Err(RunFault::Memory),
    }
}
