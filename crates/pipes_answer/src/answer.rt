// The answer at an instant.
ghost use Rattle.std.specs.Prelude.{◌≡◌, IfOk, IfErr, Some, map};
ghost use Rattle.std.specs.List.Sorted.{IsSorted};
ghost use Rattle.pipes_edge.specs.Outside.{Names, NoneFalls};
ghost use Rattle.pipes_tuple.specs.Bag.{SameBag};
ghost use Rattle.pipes_tuple.specs.Order.{tuple_cmp};
ghost use Rattle.pipes_relation.specs.Relations.{bag_lists};
ghost use Rattle.pipes_plan.specs.Algebra.{alg};
ghost use Rattle.pipes_plan.specs.PlanKinds.{BagsFit, IsTyped};
ghost use Rattle.pipes_semantics.specs.Answer.{answer, bags_at, schemas_of};
ghost use Rattle.pipes_error.specs.Fault.{fault_seen};
ghost use Rattle.pipes_answer.specs.Gives.{GivesAnswer, HasAnswerCause, IsOfReading};
ghost use Rattle.pipes_answer.specs.Whole.{whole_items};

use crate::source::rows_of;
use pipes_edge::Files;
use pipes_error::Fault;
use pipes_query::{Query, SourceDecl};
use pipes_time::Memory;
use pipes_tuple::Tuple;
use std::alloc::Global;

/// The tuples of the answer at the instant, in their order, one for each copy.
///
/// The sources are found and read to their ends one after another. Of each, no more rows are held
/// at a time than are valid at the instant.
pub fn answer_at<F: Files>(
    alloc: Global,
    files: &mut F,
    query: &Query,
    time: u64,
) -> Result<Vec<Tuple>, Fault<'static>>
    requires typed { IsTyped query.now.plan (schemas_of query.now) }
    ensures known { F.known files.new ≡ F.known files.old }
    ensures later { NoneFalls (F.faults files.old) (F.faults files.new) }
    ensures cause { IfErr result (λ e. HasAnswerCause (F.faults files.old) (F.faults files.new)
        (fault_seen e)) }
    ensures served { IfErr result (λ e. IsOfReading (fault_seen e)) }
    ensures order { IfOk result (λ tuples. IsSorted tuple_cmp tuples.items) }
    ensures gives { (named : Names) → F.known files.old ≡ Some named
        → GivesAnswer (λ tuples items. SameBag tuples.items (answer query.now items time))
        fault_seen
        result (whole_items named query.now.sources) }
{
    let bags = match bags_of(alloc, files, query.sources.as_slice(), time) {
        Ok(bags) => bags,
        Err(fault) => return Err(fault),
    };
    match sorted_answer(alloc, query, bags.as_slice()) {
        Ok(tuples) => Ok(tuples),
        Err(_) => Err(Fault::Memory),
    }
}

// For each source the rows that are valid at the instant.
fn bags_of<F: Files>(
    alloc: Global,
    files: &mut F,
    sources: &[SourceDecl],
    time: u64,
) -> Result<Vec<Vec<Tuple>>, Fault<'static>>
    ensures known { F.known files.new ≡ F.known files.old }
    ensures later { NoneFalls (F.faults files.old) (F.faults files.new) }
    ensures cause { IfErr result (λ e. HasAnswerCause (F.faults files.old) (F.faults files.new)
        (fault_seen e)) }
    ensures served { IfErr result (λ e. IsOfReading (fault_seen e)) }
    ensures fit { IfOk result (λ bags. BagsFit (bag_lists bags.items)
        (map (λ s. s.schema) sources.now)) }
    ensures gives { (named : Names) → F.known files.old ≡ Some named
        → GivesAnswer (λ bags items. bag_lists bags.items ≡ bags_at sources.now items time)
        fault_seen
        result (whole_items named sources.now) }
{
    let mut bags = Vec::new(alloc);
    'sources: for source in sources {
        let rows = match rows_of(alloc, files, source, time) {
            Ok(rows) => rows,
            Err(fault) => return Err(fault),
        };
        let Ok(()) = bags.push(rows) else {
            return Err(Fault::Memory);
        };
    }
    Ok(bags)
}

// The answer on these bags, in the order of tuples.
fn sorted_answer(alloc: Global, query: &Query, bags: &[Vec<Tuple>]) -> Result<Vec<Tuple>, Memory>
    requires typed { IsTyped query.now.plan (schemas_of query.now) }
    requires fit { BagsFit (bag_lists bags.now) (schemas_of query.now) }
    ensures order { IfOk result (λ tuples. IsSorted tuple_cmp tuples.items) }
    ensures bag { IfOk result (λ tuples. SameBag tuples.items
        (alg query.now.plan (bag_lists bags.now))) }
{
    let schemas = query.schemas(alloc)?;
    let mut tuples = pipes_plan::answer(alloc, &query.plan, &schemas, bags)?;
    tuples.sort()?;
    Ok(tuples)
}
