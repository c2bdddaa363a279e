// Each step keeps the sources that a plan reads.
ghost use Rattle.std.specs.Prelude.{List};
ghost use Rattle.pipes_tuple.specs.declared.value.Kind.{Kind};
ghost use Rattle.pipes_plan.specs.declared.plan.Plan.{Plan};
ghost use Rattle.pipes_rules.specs.declared.step.Step.{Step};
ghost use Rattle.pipes_rules.specs.Stepping.{Applies, Derives};
ghost use Rattle.pipes_rule_sources.specs.Reads.{SameSources};

/// What a step makes of a plan, or a derivation, reads exactly the sources that the plan reads,
/// whichever rules were applied and where: a law, and nothing to run.
///
/// So the new plan may take the old one's place in mid-stream: it wants no row of a source that the
/// old one didn't read.
pub fn derivation_keeps_sources()
    ensures step { (schemas : List (List Kind)) (step : Step) (old new : Plan)
        → Applies schemas step old new → SameSources old new }
    ensures derivation { (schemas : List (List Kind)) (old : Plan) (steps : List Step)
        (new : Plan) → Derives schemas old steps new → SameSources old new }
{}
