// Answers at an instant.
ghost use Rattle.std.specs.Prelude.{◌≡◌, List, ℕ};
ghost use Rattle.pipes_plan.specs.PlanKinds.{IsTyped};
ghost use Rattle.pipes_semantics.specs.Answer.{schemas_of};
ghost use Rattle.pipes_run.specs.Errand as errand;
ghost use Rattle.pipes_run.specs.Outcome.{RanAfter, RanErrand};
ghost use Rattle.pipes_run.specs.Seen.{step_fault, io_fault_of};

use crate::query::query_at;
use pipes_answer::{answer_at, write_tuples};
use pipes_buffer::{BUFFER, IoFault};
use pipes_edge::{Files, Sink};
use pipes_error::Fault;
use pipes_query::Query;
use std::alloc::Global;

/// Answers the query of the file with the name, at the instant.
pub(crate) fn answer_query<'w, F: Files, K: Sink>(
    alloc: Global,
    query: &'w str,
    time: u64,
    files: &mut F,
    out: &mut K,
) -> Result<(), Fault<'w>>
    ensures { RanErrand (errand.At query.now time) (F.known files.old)
        (record {
          files = F.faults files.old;
          searches = F.failed_searches files.old;
          out =
              K.faults out.old;
        })
        (record {
          files = F.faults files.new;
          searches = F.failed_searches files.new;
          out =
              K.faults out.new;
        })
        (K.written out.old) (K.written out.new) (step_fault result) }
{
    let Ok(mut buffer) = Vec::from_elem(alloc, 0u8, BUFFER) else {
        return Err(Fault::Memory);
    };
    match query_at(alloc, files, query, buffer.as_mut_slice()) {
        Ok(checked) => answer_checked(alloc, &checked.query, time, files, out),
        Err(fault) => Err(fault),
    }
}

// Answers a query that checks.
fn answer_checked<F: Files, K: Sink>(
    alloc: Global,
    query: &Query,
    time: u64,
    files: &mut F,
    out: &mut K,
) -> Result<(), Fault<'static>>
    requires typed { IsTyped query.now.plan (schemas_of query.now) }
    ensures { (name : List ℕ) → RanAfter (errand.At name time) query.now (F.known files.old)
        (record {
          files = F.faults files.old;
          searches = F.failed_searches files.old;
          out =
              K.faults out.old;
        })
        (record {
          files = F.faults files.new;
          searches = F.failed_searches files.new;
          out =
              K.faults out.new;
        })
        (K.written out.old) (K.written out.new) (step_fault result) }
{
    match answer_at(alloc, files, query, time) {
        Ok(tuples) => written(write_tuples(alloc, tuples.as_slice(), out)),
        Err(fault) => Err(fault),
    }
}

/// What came of writing, as what came of the call.
pub(crate) fn written(done: Result<(), IoFault>) -> Result<(), Fault<'static>>
    ensures { step_fault result ≡ io_fault_of done }
{
    match done {
        Ok(()) => Ok(()),
        Err(IoFault::Failed) => Err(Fault::Write),
        Err(IoFault::Memory) => Err(Fault::Memory),
    }
}
