// Derivations from the plan of a query.
ghost use Rattle.std.specs.Prelude.{◌≡◌, ◌<◌, ◌≤◌, ◌++◌, Some, Ok, IfOk, IfErr, OnOk, OnErr};
ghost use Rattle.std.specs.Prelude.{IsErrOf, List, ℕ, length, codes};
ghost use Rattle.std.specs.Fmt.{decimal};
ghost use Rattle.std.specs.Io.KnownBytes.{Appends};
ghost use Rattle.pipes_edge.specs.Causes.{Rose};
ghost use Rattle.pipes_buffer.specs.Pieces.{AppendsPrefix};
ghost use Rattle.pipes_edge.specs.Outside.{Names, NoneFalls};
ghost use Rattle.pipes_plan.specs.PlanKinds.{IsTyped};
ghost use Rattle.pipes_run.specs.Errand as errand;
ghost use Rattle.pipes_grammar.specs.Grammar.{HasSourceName};
ghost use Rattle.pipes_query.specs.Queries.{names_of};
ghost use Rattle.pipes_derivation.specs.declared.derivation.Derivation.{Derivation as ADerivation};
ghost use Rattle.pipes_derivation.specs.Texts.{IsFileOfDerivation};
ghost use Rattle.pipes_semantics.specs.Answer.{schemas_of};
ghost use Rattle.pipes_error.specs.Fault.{fault_seen};
ghost use Rattle.pipes_run.specs.Asked.{IsDerivationFile};
ghost use Rattle.pipes_run.specs.Outcome.{IsVerdict, RanAfter, RanErrand};
ghost use Rattle.pipes_run.specs.Seen.{step_fault, IsOfDerivation, IsReadOf, GivesDerivation};
ghost use Rattle.pipes_run.specs.Seen.{GivesThis, IsOfDerivationText};

use crate::answer::written;
use crate::file::read_file;
use crate::query::query_at;
use pipes_buffer::{BUFFER, IoFault, write_all};
use pipes_derivation::{Derivation, read_derivation};
use pipes_edge::{Files, Sink};
use pipes_error::{Fault, FileName};
use pipes_query::Query;
use pipes_rules::{DeriveRefusal, derive};
use pipes_time::Memory;
use pipes_token::ReadFault;
use pipes_tuple::{append, append_number};
use std::alloc::Global;

/// The most bytes of a derivation's text.
const LONGEST_DERIVATION: usize = 1_048_576;

/// Writes whether the derivation of the file with the one name leads from the plan of the query of
/// the file with the other to its own.
pub(crate) fn derive_query<'w, F: Files, K: Sink>(
    alloc: Global,
    query: &'w str,
    derivation: &'w str,
    files: &mut F,
    out: &mut K,
) -> Result<(), Fault<'w>>
    ensures { RanErrand (errand.Derive query.now derivation.now) (F.known files.old)
        (record {
          files = F.faults files.old;
          searches = F.failed_searches files.old;
          out =
              K.faults out.old;
        })
        (record {
          files = F.faults files.new;
          searches = F.failed_searches files.new;
          out =
              K.faults out.new;
        })
        (K.written out.old) (K.written out.new) (step_fault result) }
{
    let Ok(mut buffer) = Vec::from_elem(alloc, 0u8, BUFFER) else {
        return Err(Fault::Memory);
    };
    match query_at(alloc, files, query, buffer.as_mut_slice()) {
        Ok(checked) => derive_checked(
            alloc,
            &checked.query,
            derivation,
            buffer.as_mut_slice(),
            files,
            out,
        ),
        Err(fault) => Err(fault),
    }
}

// The same of a query that checks.
fn derive_checked<'w, F: Files, K: Sink>(
    alloc: Global,
    query: &Query,
    name: &'w str,
    buffer: &mut [u8],
    files: &mut F,
    out: &mut K,
) -> Result<(), Fault<'w>>
    requires room { 0 < length buffer.old }
    requires typed { IsTyped query.now.plan (schemas_of query.now) }
    requires sources { 1 ≤ length query.now.sources }
    requires named { HasSourceName (names_of query.now.sources) }
    ensures { (query_name : List ℕ)
        → RanAfter (errand.Derive query_name name.now) query.now (F.known files.old)
        (record {
          files = F.faults files.old;
          searches = F.failed_searches files.old;
          out =
              K.faults out.old;
        })
        (record {
          files = F.faults files.new;
          searches = F.failed_searches files.new;
          out =
              K.faults out.new;
        })
        (K.written out.old) (K.written out.new) (step_fault result) }
{
    match derivation_at(alloc, query, files, name, buffer) {
        Ok(derivation) => match verdict(alloc, query, &derivation) {
            Ok(text) => written(write_text(text.as_slice(), out)),
            Err(_) => Err(Fault::Memory),
        },
        Err(fault) => Err(fault),
    }
}

// Writes the text.
fn write_text<K: Sink>(text: &[u8], out: &mut K) -> Result<(), IoFault>
    ensures ok { OnOk result (Appends (K.written out.old) (K.written out.new) text.now) }
    ensures prefix { OnErr result (AppendsPrefix (K.written out.old) (K.written out.new) text.now) }
    ensures cause { IsErrOf result IoFault.Failed → Rose (K.faults out.old) (K.faults out.new) }
{
    write_all(out, text)?;
    Ok(())
}

// The derivation in the file with the name.
fn derivation_at<'w, F: Files>(
    alloc: Global,
    query: &Query,
    files: &mut F,
    name: &'w str,
    buffer: &mut [u8],
) -> Result<Derivation, Fault<'w>>
    requires room { 0 < length buffer.old }
    requires sources { 1 ≤ length query.now.sources }
    requires named { HasSourceName (names_of query.now.sources) }
    ensures known { F.known files.new ≡ F.known files.old }
    ensures later { NoneFalls (F.faults files.old) (F.faults files.new) }
    ensures searches { F.failed_searches files.old ≤ F.failed_searches files.new }
    ensures served { IfErr result (λ e. IsOfDerivation (fault_seen e)) }
    ensures cause { IfErr result (λ e. IsReadOf name.now (F.faults files.old) (F.faults files.new)
        (fault_seen e)) }
    ensures gives { (named : Names) → F.known files.old ≡ Some named
        → GivesDerivation query.now name.now (named name.now) result }
    ensures only { (named : Names) (derivation : ADerivation) → F.known files.old ≡ Some named
        → IsDerivationFile query.now name.now (named name.now) (Ok derivation)
        → GivesThis derivation result }
{
    let bytes = match read_file(alloc, files, name, LONGEST_DERIVATION, buffer) {
        Ok(bytes) => bytes,
        Err(fault) => return Err(fault.of_word(name)),
    };
    derivation_in(alloc, query, name, bytes.as_slice())
}

// The derivation that the bytes write, of the file with the name.
fn derivation_in<'w>(
    alloc: Global,
    query: &Query,
    name: &'w str,
    bytes: &[u8],
) -> Result<Derivation, Fault<'w>>
    requires sources { 1 ≤ length query.now.sources }
    requires named { HasSourceName (names_of query.now.sources) }
    ensures served { IfErr result (λ e. IsOfDerivation (fault_seen e)) }
    ensures unread { IfErr result (λ e. IsOfDerivationText (fault_seen e)) }
    ensures gives { GivesDerivation query.now name.now (Some bytes.now) result }
    ensures only { (derivation : ADerivation) → IsFileOfDerivation query.now derivation bytes.now
        → GivesThis derivation result }
{
    match read_derivation(alloc, query, bytes) {
        Ok(derivation) => Ok(derivation),
        Err(ReadFault::Text(refusal)) => Err(Fault::DerivationText {
            name: FileName::Word(name),
            refusal,
        }),
        Err(ReadFault::Memory) => Err(Fault::Memory),
    }
}

// What the derivation writes.
fn verdict(alloc: Global, query: &Query, derivation: &Derivation) -> Result<Vec<u8>, Memory>
    requires { IsTyped query.now.plan (schemas_of query.now) }
    ensures { IfOk result (λ text. IsVerdict query.now derivation.now text.items) }
{
    let schemas = query.schemas(alloc)?;
    match derive(
        alloc,
        &schemas,
        &query.plan,
        &derivation.steps,
        &derivation.plan,
    ) {
        Ok(()) => derived_text(alloc),
        Err(DeriveRefusal::NotDerived { step }) => steps_text(alloc, step),
        Err(DeriveRefusal::Memory) => Err(Memory),
    }
}

fn derived_text(alloc: Global) -> Result<Vec<u8>, Memory>
    ensures { IfOk result (λ text. text.items ≡ codes "derived\n") }
{
    let mut text = Vec::new(alloc);
    append(b"derived\n", &mut text)?;
    Ok(text)
}

fn steps_text(alloc: Global, number: u32) -> Result<Vec<u8>, Memory>
    ensures { IfOk result
        (λ text. text.items ≡ codes "steps " ++ decimal number ++ codes "\n") }
{
    let mut text = Vec::new(alloc);
    append(b"steps ", &mut text)?;
    append_number(number as u64, &mut text)?;
    append(b"\n", &mut text)?;
    Ok(text)
}
