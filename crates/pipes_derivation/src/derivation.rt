// Derivations as values.
use pipes_plan::Plan;
use pipes_rules::Steps;

/// Steps that make one plan of another.
#[derive(Debug, Drop)]
pub struct Derivation {
    /// The steps, in order.
    pub steps: Steps,
    /// The plan that is to come of them.
    pub plan: Plan,
}
