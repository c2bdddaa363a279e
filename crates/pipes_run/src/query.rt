// The query of a call.
ghost use Rattle.std.specs.Prelude.{◌≡◌, ◌<◌, ◌≤◌, [], Some, Ok, IfOk, IfErr, length};
ghost use Rattle.pipes_edge.specs.Outside.{Names, NoneFalls};
ghost use Rattle.pipes_plan.specs.Refusals.{Checks, IsChecked};
ghost use Rattle.pipes_query.specs.declared.query.Query.{Query as AQuery};
ghost use Rattle.pipes_text.specs.Texts.{IsFileOfQuery};
ghost use Rattle.pipes_semantics.specs.Answer.{schemas_of};
ghost use Rattle.pipes_error.specs.Fault.{fault_seen};
ghost use Rattle.pipes_run.specs.Asked.{IsQueryFile, IsQueryText};
ghost use Rattle.pipes_run.specs.Seen.{IsOfQuery, IsOfText, IsReadOf, IsTypeRefusal, GivesQuery};
ghost use Rattle.pipes_run.specs.Seen.{GivesNoOther, HasQueryText, HasSchema};
ghost use Rattle.pipes_run.specs.Seen.{HasChecked};

use crate::file::read_file;
use pipes_edge::Files;
use pipes_error::Fault;
use pipes_plan::CheckFault;
use pipes_query::Query;
use pipes_text::read_query;
use pipes_token::ReadFault;
use pipes_tuple::Schema;
use std::alloc::Global;

/// The most bytes of a query's text.
const LONGEST_QUERY: usize = 1_048_576;

/// A query that checks, and the kinds of the columns of its result.
#[derive(Drop)]
pub(crate) struct CheckedQuery {
    pub(crate) query: Query,
    pub(crate) schema: Schema,
}

/// The query in the file with the name, which checks.
pub(crate) fn query_at<'w, F: Files>(
    alloc: Global,
    files: &mut F,
    name: &'w str,
    buffer: &mut [u8],
) -> Result<CheckedQuery, Fault<'w>>
    requires { 0 < length buffer.old }
    ensures known { F.known files.new ≡ F.known files.old }
    ensures later { NoneFalls (F.faults files.old) (F.faults files.new) }
    ensures searches { F.failed_searches files.old ≤ F.failed_searches files.new }
    ensures served { IfErr result (λ e. IsOfQuery (fault_seen e)) }
    ensures cause { IfErr result (λ e. IsReadOf name.now (F.faults files.old) (F.faults files.new)
        (fault_seen e)) }
    ensures text { IfOk result (λ checked. HasQueryText checked.query) }
    ensures schema { IfOk result HasSchema }
    ensures checks { IfOk result HasChecked }
    ensures gives { (named : Names) → F.known files.old ≡ Some named
        → GivesQuery name.now (named name.now) result }
    ensures only { (named : Names) (query : AQuery) → F.known files.old ≡ Some named
        → IsQueryFile name.now (named name.now) (Ok query) → GivesNoOther query result }
{
    let bytes = match read_file(alloc, files, name, LONGEST_QUERY, buffer) {
        Ok(bytes) => bytes,
        Err(fault) => return Err(fault.of_word(name)),
    };
    query_in(alloc, bytes.as_slice())
}

// The query that the bytes write, which checks.
fn query_in(alloc: Global, bytes: &[u8]) -> Result<CheckedQuery, Fault<'static>>
    ensures served { IfErr result (λ e. IsOfText (fault_seen e)) }
    ensures text { IfOk result (λ checked. IsFileOfQuery checked.query bytes.now) }
    ensures schema { IfOk result HasSchema }
    ensures checks { IfOk result HasChecked }
    ensures gives { GivesQuery [] (Some bytes.now) result }
    ensures only { (query : AQuery) → IsQueryText bytes.now (Ok query) → GivesNoOther query result }
{
    match read_query(alloc, bytes) {
        Ok(query) => checked(alloc, query),
        Err(ReadFault::Text(refusal)) => Err(Fault::QueryText(refusal)),
        Err(ReadFault::Memory) => Err(Fault::Memory),
    }
}

// The query and its result's kinds, if its plan checks.
fn checked(alloc: Global, query: Query) -> Result<CheckedQuery, Fault<'static>>
    ensures same { IfOk result (λ checked. checked.query ≡ query) }
    ensures checks { IfOk result (λ checked. Checks (schemas_of query) query.plan) }
    ensures schema { IfOk result HasSchema }
    ensures checked { IfOk result HasChecked }
    ensures refused { IfErr result (λ e. IsTypeRefusal query (fault_seen e)) }
{
    match result_schema(alloc, &query) {
        Ok(schema) => Ok(CheckedQuery { query, schema }),
        Err(CheckFault::Refused(refusal)) => Err(Fault::QueryType(refusal)),
        Err(CheckFault::Memory) => Err(Fault::Memory),
    }
}

// The kinds of the columns of the query's result, or why its plan doesn't check.
fn result_schema(alloc: Global, query: &Query) -> Result<Schema, CheckFault>
    ensures { IsChecked result (schemas_of query.now) query.now.plan }
{
    let schemas = query.schemas(alloc)?;
    query.plan.check(alloc, &schemas)
}
