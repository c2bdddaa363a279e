//! A run of the program, from the words of its command line to its status.
#![tactic(auto)]

ghost use Rattle.std.specs.Prelude.{◌≡◌, ◌↔◌, None, Err, map, string_bytes};
ghost use Rattle.pipes_args.specs.Command.{command_of};
ghost use Rattle.pipes_error.specs.Fault as fault;
ghost use Rattle.pipes_run.specs.Errand.{errand_in};
ghost use Rattle.pipes_run.specs.Outcome.{Call, DidCommand, IsComplete};
ghost use Rattle.pipes_run.specs.Seen.{step_fault};

mod answer;
mod check;
mod derive;
mod file;
mod query;
mod run;
mod sources;

use answer::answer_query;
use check::check_query;
use derive::derive_query;
use pipes_args::{Command, Mode, command_in};
use pipes_edge::{Files, Gate, Sink};
use pipes_error::{Fault, say, status};
use run::run_query;
use std::alloc::Global;
use std::thread::Threads;

/// Does what the words ask for, and answers the status: 0 where all was done, and else that of the
/// first fault, of which `err` gets one line.
///
/// The words are those of `command_in`: `run QUERY SCRIPT`, `make SEED ROWS`, `at QUERY TIME`,
/// `check QUERY` or `derive QUERY DERIVATION`, with the options of a run. `make` and `--mode
/// threaded` are not served yet, with status 9, before any file is read. Files are found by their
/// names, each is read through one buffer, and a source that a run reads is never held whole. What
/// was written stands, also where a fault comes later. Out of memory gives status 6.
pub fn pipes<R: AllocGlobal + Threads + Sync, F: Files, K: Sink, G: Gate>(
    rt: &R,
    words: &[String],
    files: &mut F,
    out: &mut K,
    err: &mut K,
    gate: &G,
) -> u8
    ensures call { Call (map string_bytes words.now) (F.known files.old)
        (record {
          files = F.faults files.old;
          searches = F.failed_searches files.old;
          out =
              K.faults out.old;
        })
        (record {
          files = F.faults files.new;
          searches = F.failed_searches files.new;
          out =
              K.faults out.new;
        })
        (record {
          written_before = K.written out.old;
          written_now = K.written out.new;
          faults_before = K.faults out.old;
          faults_now = K.faults out.new;
        })
        (record {
          written_before = K.written err.old;
          written_now = K.written err.new;
          faults_before = K.faults err.old;
          faults_now = K.faults err.new;
        })
        result }
    ensures refused { (result ≡ 1) ↔ (command_of (map string_bytes words.now) ≡ None) }
    ensures unserved { errand_in (map string_bytes words.now) ≡ Err fault.Unbuilt → result ≡ 9 }
    ensures complete { IsComplete (map string_bytes words.now) (F.known files.old)
        (record {
          files = F.faults files.old;
          searches = F.failed_searches files.old;
          out =
              K.faults out.old;
        })
        (record {
          files = F.faults files.new;
          searches = F.failed_searches files.new;
          out =
              K.faults out.new;
        })
        result }
{
    match do_command(rt, gate, rt.alloc(), words, files, out) {
        Ok(()) => 0,
        Err(fault) => {
            say(err, &fault);
            status(&fault)
        }
    }
}

// Does what the words command.
fn do_command<'w, R: Threads + Sync, F: Files, K: Sink, G: Gate>(
    rt: &R,
    gate: &G,
    alloc: Global,
    words: &'w [String],
    files: &mut F,
    out: &mut K,
) -> Result<(), Fault<'w>>
    ensures { DidCommand (map string_bytes words.now) (F.known files.old)
        (record {
          files = F.faults files.old;
          searches = F.failed_searches files.old;
          out =
              K.faults out.old;
        })
        (record {
          files = F.faults files.new;
          searches = F.failed_searches files.new;
          out =
              K.faults out.new;
        })
        (K.written out.old) (K.written out.new) (step_fault result) }
{
    match command_in(words) {
        None => Err(Fault::Words),
        Some(
            Command::Run {
                query,
                script,
                settings,
            },
        ) => match settings.mode {
            Mode::Inline => run_query(rt, gate, alloc, query, script, settings, files, out),
            Mode::Threaded => Err(Fault::Unbuilt),
        },
        Some(Command::Make { .. }) => Err(Fault::Unbuilt),
        Some(Command::At { query, time }) => answer_query(alloc, query, time, files, out),
        Some(Command::Check { query }) => check_query(alloc, query, files, out),
        Some(Command::Derive { query, derivation }) => {
            derive_query(alloc, query, derivation, files, out)
        }
    }
}
