// Checks of queries.
ghost use Rattle.std.specs.Prelude.{◌≡◌, ◌≤◌, ◌++◌, OnOk, OnErr, IsErrOf, flat_map};
ghost use Rattle.std.specs.Io.KnownBytes.{Appends};
ghost use Rattle.pipes_edge.specs.Causes.{Rose};
ghost use Rattle.pipes_buffer.specs.Pieces.{AppendsPrefix};
ghost use Rattle.pipes_run.specs.Errand as errand;
ghost use Rattle.pipes_text.specs.Printing.{query_text};
ghost use Rattle.pipes_run.specs.Outcome.{RanErrand, kinds_line, kind_part};
ghost use Rattle.pipes_run.specs.Seen.{step_fault};

use crate::answer::written;
use crate::query::{CheckedQuery, query_at};
use pipes_buffer::{BUFFER, IoFault, write_all};
use pipes_edge::{Files, Sink};
use pipes_error::Fault;
use pipes_text::print_query;
use pipes_time::Memory;
use pipes_tuple::{Kind, append};
use std::alloc::Global;

/// Prints the query of the file with the name, and the kinds of its result.
pub(crate) fn check_query<'w, F: Files, K: Sink>(
    alloc: Global,
    query: &'w str,
    files: &mut F,
    out: &mut K,
) -> Result<(), Fault<'w>>
    ensures { RanErrand (errand.Check query.now) (F.known files.old)
        (record {
          files = F.faults files.old;
          searches = F.failed_searches files.old;
          out =
              K.faults out.old;
        })
        (record {
          files = F.faults files.new;
          searches = F.failed_searches files.new;
          out =
              K.faults out.new;
        })
        (K.written out.old) (K.written out.new) (step_fault result) }
{
    let Ok(mut buffer) = Vec::from_elem(alloc, 0u8, BUFFER) else {
        return Err(Fault::Memory);
    };
    match query_at(alloc, files, query, buffer.as_mut_slice()) {
        Ok(checked) => written(write_checked(alloc, &checked, out)),
        Err(fault) => Err(fault),
    }
}

// Writes the query's text, and the line of its result's kinds.
fn write_checked<K: Sink>(alloc: Global, checked: &CheckedQuery, out: &mut K) -> Result<(), IoFault>
    ensures ok { OnOk result (Appends (K.written out.old) (K.written out.new)
        (query_text checked.now.query ++ kinds_line checked.now.schema)) }
    ensures prefix { OnErr result (AppendsPrefix (K.written out.old) (K.written out.new)
        (query_text checked.now.query ++ kinds_line checked.now.schema)) }
    ensures later { K.faults out.old ≤ K.faults out.new }
    ensures cause { IsErrOf result IoFault.Failed → Rose (K.faults out.old) (K.faults out.new) }
{
    let mut text = Vec::new(alloc);
    print_query(&checked.query, &mut text)?;
    push_kinds(checked.schema.as_slice(), &mut text)?;
    write_all(out, text.as_slice())?;
    Ok(())
}

// Appends the line of the kinds.
fn push_kinds(kinds: &[Kind], text: &mut Vec<u8>) -> Result<(), Memory>
    ensures { OnOk result (text.new.items ≡ text.old.items ++ kinds_line kinds.now) }
{
    append(b"kinds", text)?;
    push_each(kinds, text)?;
    append(b"\n", text)
}

// Appends each kind after a space.
fn push_each(kinds: &[Kind], text: &mut Vec<u8>) -> Result<(), Memory>
    ensures { OnOk result (text.new.items ≡ text.old.items ++ flat_map kind_part kinds.now) }
{
    let mut rest = kinds;
    'kinds: while let [kind, others @ ..] = rest {
        push_kind(*kind, text)?;
        rest = others;
    }
    Ok(())
}

// Appends the kind after a space.
fn push_kind(kind: Kind, text: &mut Vec<u8>) -> Result<(), Memory>
    ensures { OnOk result (text.new.items ≡ text.old.items ++ kind_part kind) }
{
    append(b" ", text)?;
    append(kind.word(), text)
}
