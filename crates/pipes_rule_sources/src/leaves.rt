// The sources that a plan reads, in the words of plans at work.
ghost use Rattle.std.specs.Prelude.{◌≡◌, ◌↔◌, ℕ, List, true};
ghost use Rattle.std.specs.List.{Contains};
ghost use Rattle.pipes_tuple.specs.declared.value.Kind.{Kind};
ghost use Rattle.pipes_plan.specs.declared.plan.Plan.{Plan};
ghost use Rattle.pipes_rules.specs.declared.step.Step.{Step};
ghost use Rattle.pipes_rules.specs.Stepping.{Derives};
ghost use Rattle.pipes_box.specs.Shapes.{shape_of, sources_of};
ghost use Rattle.pipes_rule_sources.specs.Reads.{reads};

/// A plan reads a source exactly where one of its leaves, at work, is given that source. So each
/// source of a leaf of a derived plan is the source of a leaf of the plan that it was derived from,
/// and the other way round: a law, and nothing to run.
pub fn derivation_keeps_leaves()
    ensures leaf { (schemas : List (List Kind)) (plan : Plan) (source : ℕ)
        → Contains (sources_of (shape_of schemas plan)) source ↔ (reads source plan ≡ true) }
    ensures derivation { (schemas : List (List Kind)) (old : Plan) (steps : List Step)
        (new : Plan) → Derives schemas old steps new → (source : ℕ)
        → Contains (sources_of (shape_of schemas old)) source
        ↔ Contains (sources_of (shape_of schemas new)) source }
{}
