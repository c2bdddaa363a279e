// Runs of queries.
ghost use Rattle.std.specs.Prelude.{◌≡◌, ◌<◌, ◌≤◌, true, Some, Ok, Err, IfErr, List, ℕ, Option};
ghost use Rattle.std.specs.Prelude.{OnOk, length};
ghost use Rattle.std.specs.List.{All};
ghost use Rattle.pipes_edge.specs.Outside.{Names, NoneFalls};
ghost use Rattle.pipes_plan.specs.PlanKinds.{IsTyped};
ghost use Rattle.pipes_plan.specs.Refusals.{Checks};
ghost use Rattle.pipes_window.specs.Windows.{IsWindow};
ghost use Rattle.pipes_run.specs.Errand as errand;
ghost use Rattle.pipes_semantics.specs.Answer.{schemas_of};
ghost use Rattle.pipes_error.specs.Fault.{fault_seen};
ghost use Rattle.pipes_run.specs.Asked as asked;
ghost use Rattle.pipes_run.specs.Outcome.{RanAfter, RanErrand};
ghost use Rattle.pipes_run.specs.Running.{RanOver, IsOfScript, GivesScript, IsNamed, HasSource};
ghost use Rattle.pipes_run.specs.Seen.{step_fault, IsReadOf};

use crate::file::read_file;
use crate::query::query_at;
use crate::sources::{find_all, retire_all};
use pipes_args::Settings;
use pipes_buffer::BUFFER;
use pipes_edge::{Files, Gate, Sink};
use pipes_error::Fault;
use pipes_inline::RunFault;
use pipes_query::{Query, SourceDecl};
use std::alloc::Global;
use std::thread::Threads;

/// Runs the query under the script, of the files with these names, as the settings say.
pub(crate) fn run_query<'w, R: Threads + Sync, F: Files, K: Sink, G: Gate>(
    rt: &R,
    gate: &G,
    alloc: Global,
    query: &'w str,
    script: &'w str,
    settings: Settings,
    files: &mut F,
    out: &mut K,
) -> Result<(), Fault<'w>>
    requires some { 1 ≤ settings.workers }
    requires most { settings.workers ≤ 16 }
    ensures { RanErrand (errand.Run query.now script.now settings.form) (F.known files.old)
        (record {
          files = F.faults files.old;
          searches = F.failed_searches files.old;
          out =
              K.faults out.old;
        })
        (record {
          files = F.faults files.new;
          searches = F.failed_searches files.new;
          out =
              K.faults out.new;
        })
        (K.written out.old) (K.written out.new) (step_fault result) }
{
    let Ok(mut buffer) = Vec::from_elem(alloc, 0u8, BUFFER) else {
        return Err(Fault::Memory);
    };
    match query_at(alloc, files, query, buffer.as_mut_slice()) {
        Ok(checked) => run_checked(
            rt,
            gate,
            alloc,
            &checked.query,
            script,
            settings,
            buffer.as_mut_slice(),
            files,
            out,
        ),
        Err(fault) => Err(fault),
    }
}

// Runs a query that checks under the script of the file with the name.
fn run_checked<'w, R: Threads + Sync, F: Files, K: Sink, G: Gate>(
    rt: &R,
    gate: &G,
    alloc: Global,
    query: &Query,
    script: &'w str,
    settings: Settings,
    buffer: &mut [u8],
    files: &mut F,
    out: &mut K,
) -> Result<(), Fault<'w>>
    requires room { 0 < length buffer.old }
    requires typed { IsTyped query.now.plan (schemas_of query.now) }
    requires checks { Checks (schemas_of query.now) query.now.plan }
    requires windows { All (λ s. IsWindow s.window) query.now.sources }
    requires some { 1 ≤ settings.workers }
    requires most { settings.workers ≤ 16 }
    ensures { (name : List ℕ) → RanAfter (errand.Run name script.now settings.form) query.now
        (F.known files.old)
        (record {
          files = F.faults files.old;
          searches = F.failed_searches files.old;
          out =
              K.faults out.old;
        })
        (record {
          files = F.faults files.new;
          searches = F.failed_searches files.new;
          out =
              K.faults out.new;
        })
        (K.written out.old) (K.written out.new) (step_fault result) }
{
    match no_commands(alloc, files, script, buffer) {
        Ok(()) => run_over(rt, gate, alloc, settings, query, files, out),
        Err(fault) => Err(fault),
    }
}

// The script in the file with the name has no commands.
fn no_commands<'w, F: Files>(
    alloc: Global,
    files: &mut F,
    name: &'w str,
    buffer: &mut [u8],
) -> Result<(), Fault<'w>>
    requires { 0 < length buffer.old }
    ensures known { F.known files.new ≡ F.known files.old }
    ensures later { NoneFalls (F.faults files.old) (F.faults files.new) }
    ensures searches { F.failed_searches files.old ≤ F.failed_searches files.new }
    ensures served { IfErr result (λ e. IsOfScript (fault_seen e)) }
    ensures cause { IfErr result (λ e. IsReadOf name.now (F.faults files.old) (F.faults files.new)
        (fault_seen e)) }
    ensures gives { (named : Names) → F.known files.old ≡ Some named
        → GivesScript result (asked.is_empty_script named name.now) }
{
    let bytes = match read_file(alloc, files, name, 0, buffer) {
        Ok(bytes) => bytes,
        Err(fault) => return Err(fault.of_word(name)),
    };
    if bytes.is_empty() {
        Ok(())
    } else {
        Err(Fault::Unbuilt)
    }
}

// Finds the query's sources, and runs the query over them.
fn run_over<R: Threads + Sync, F: Files, K: Sink, G: Gate>(
    rt: &R,
    gate: &G,
    alloc: Global,
    settings: Settings,
    query: &Query,
    files: &mut F,
    out: &mut K,
) -> Result<(), Fault<'static>>
    requires typed { IsTyped query.now.plan (schemas_of query.now) }
    requires checks { Checks (schemas_of query.now) query.now.plan }
    requires windows { All (λ s. IsWindow s.window) query.now.sources }
    requires some { 1 ≤ settings.workers }
    requires most { settings.workers ≤ 16 }
    ensures { RanOver settings.form query.now (F.known files.old)
        (record {
          files = F.faults files.old;
          searches = F.failed_searches files.old;
          out =
              K.faults out.old;
        })
        (record {
          files = F.faults files.new;
          searches = F.failed_searches files.new;
          out =
              K.faults out.new;
        })
        (K.written out.old) (K.written out.new) (step_fault result) }
{
    let mut srcs = match find_all(alloc, query.sources.as_slice(), files) {
        Ok(srcs) => srcs,
        Err(fault) => return Err(fault),
    };
    let srcs_now = srcs.as_mut_slice();
    let Settings { form, workers, .. } = settings;
    let ran = pipes_inline::run(rt, alloc, form, query, workers, gate, srcs_now, out);
    retire_all(files, srcs);
    match ran {
        Ok(()) => Ok(()),
        Err(fault) => Err(named(query.sources.as_slice(), fault)),
    }
}

// The fault of a run over these sources.
fn named(sources: &[SourceDecl], fault: RunFault) -> Fault<'static>
    requires { HasSource (length sources.now) fault }
    ensures { IsNamed sources.now fault (fault_seen result) }
{
    match fault {
        RunFault::Row { source, line, why } => match sources[source as usize].name.copy() {
            Ok(source) => Fault::Row { source, line, why },
            Err(_) => Fault::Memory,
        },
        RunFault::Limit { source, line } => match sources[source as usize].name.copy() {
            Ok(source) => Fault::Limit { source, line },
            Err(_) => Fault::Memory,
        },
        RunFault::Read { source } => match sources[source as usize].file.copy() {
            Ok(file) => Fault::ReadSource(file),
            Err(_) => Fault::Memory,
        },
        RunFault::Write => Fault::Write,
        RunFault::Memory => Fault::Memory,
    }
}
