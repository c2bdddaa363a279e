// The start of a run.
ghost use Rattle.std.specs.Prelude.{◌≡◌, ◌≤◌, ◌<◌, map, length, IfOk, List, ℕ, Option};
ghost use Rattle.std.specs.List.{All};
ghost use Rattle.pipes_plan.specs.PlanKinds.{IsTyped};
ghost use Rattle.pipes_plan.specs.Refusals.{Checks};
ghost use Rattle.pipes_window.specs.Windows.{IsWindow};
ghost use Rattle.pipes_semantics.specs.Answer.{schemas_of};
ghost use Rattle.pipes_works.specs.Standing.{IsWhole};
ghost use Rattle.pipes_results.specs.Kept.{form_of};
ghost use Rattle.pipes_inline.specs.Standing.{GoesOn, AllLater, AllNew};

use crate::underway::Underway;
use pipes_edge::Source;
use pipes_intake::Intake;
use pipes_output::Form;
use pipes_query::{Query, SourceDecl};
use pipes_results::Results;
use pipes_time::Memory;
use pipes_works::Works;
use std::alloc::Global;

// The sources as declared, the first arrival of each read ahead.
fn intakes_of<S: Source>(
    alloc: Global,
    sources: &[SourceDecl],
    srcs: &mut [S],
) -> Result<Vec<Intake>, Memory>
    requires windows { All (λ s. IsWindow s.window) sources.now }
    requires count { length srcs.old ≡ length sources.now }
    ensures count { IfOk result (λ intakes. length intakes.items ≡ length sources.now) }
    ensures stand { IfOk result (λ intakes. AllNew sources.now (map S.left srcs.old)
        (map S.left srcs.new) (map S.faults srcs.old) (map S.faults srcs.new) (length sources.now)
        intakes.items) }
    ensures later { AllLater (map S.faults srcs.old) (map S.faults srcs.new) }
    ensures name { map S.name srcs.new ≡ map S.name srcs.old }
    ensures found_at { map S.found_at srcs.new ≡ map S.found_at srcs.old }
{
    let mut intakes = Vec::new(alloc);
    'sources: for i in 0..sources.len() {
        let intake = Intake::new(alloc, &sources[i], &mut srcs[i])?;
        intakes.push(intake)?;
    }
    Ok(intakes)
}

/// A run of the query in this form, over these sources: nothing is taken.
pub(crate) fn start<S: Source>(
    alloc: Global,
    form: Form,
    query: &Query,
    workers: u32,
    srcs: &mut [S],
) -> Result<Underway, Memory>
    requires typed { IsTyped query.now.plan (schemas_of query.now) }
    requires checks { Checks (schemas_of query.now) query.now.plan }
    requires windows { All (λ s. IsWindow s.window) query.now.sources }
    requires count { length srcs.old ≡ length query.now.sources }
    requires some { 1 ≤ workers }
    requires most { workers ≤ 16 }
    ensures form { IfOk result (λ underway. form_of underway.results ≡ form) }
    ensures whole { IfOk result (λ underway. IsWhole underway.works) }
    ensures goes { IfOk result (λ underway. (written : Option (List ℕ)) → GoesOn
        (record {
          query = query.now;
          lefts = map S.left srcs.old;
          faults = map S.faults srcs.old;
          written = written;
        })
        (map S.left srcs.new) (map S.faults srcs.new) written underway) }
    ensures later { AllLater (map S.faults srcs.old) (map S.faults srcs.new) }
    ensures name { map S.name srcs.new ≡ map S.name srcs.old }
    ensures found_at { map S.found_at srcs.new ≡ map S.found_at srcs.old }
{
    let schemas = query.schemas(alloc)?;
    let works = Works::new(alloc, &query.plan, &schemas, workers)?;
    let intakes = intakes_of(alloc, query.sources.as_slice(), srcs)?;
    Ok(Underway {
        alloc,
        works,
        intakes,
        top: Vec::new(alloc),
        results: Results::new(alloc, form),
        turns: 0,
    })
}
