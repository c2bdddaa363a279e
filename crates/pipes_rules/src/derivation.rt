// Derivations of one plan from another.
ghost use Rattle.std.specs.Prelude.{◌≡◌, ◌+◌, ◌≤◌, ◌↔◌, IfOk, IsTrue, length};
ghost use Rattle.pipes_plan.specs.PlanKinds.{IsTyped};
ghost use Rattle.pipes_rewrite.specs.SameMeaning.{SameMeaning};
ghost use Rattle.pipes_rules.specs.Deriving.{IsDerived};

use crate::{Step, StepRefusal, Steps, apply};
use pipes_plan::{Plan, Schemas};
use pipes_time::Memory;
use std::alloc::Global;

/// Why a plan isn't derived from another.
#[derive(Clone, Copy, Debug, PartialEq, Eq)]
pub enum DeriveRefusal {
    /// The step with this number, counted from 1, is the first that is refused; where none is, the
    /// number is one more than that of the last step, and the plan that the steps make is another.
    NotDerived {
        /// The step's number.
        step: u32,
    },
    /// Memory was refused.
    Memory,
}

impl From<Memory> for DeriveRefusal {
    ghost use Rattle.pipes_rules.specs.declared.derivation.DeriveRefusal.TheVariants.{
      Memory as
          OutOfMemory,
    };
    ghost use Rattle.std.specs.Prelude.{◌≡◌};

    ghost from_gives = { λ _ refusal. refusal ≡ OutOfMemory };

    fn from(_: Memory) -> DeriveRefusal {
        DeriveRefusal::Memory
    }
}

// Whether the plans are equal as trees.
#[tactic(auto, using(pipes_expr::specs::CodedEqual::decided))]
fn same_plans(a: &Plan, b: &Plan) -> bool
    ensures { IsTrue result ↔ (a.now ≡ b.now) }
{
    *a == *b
}

// Whether the steps, the first of which has this number, make the new plan of this one.
#[tactic(auto, using(crate::proofs::StepByStep::step_by_step))]
fn derive_rest(
    alloc: Global,
    schemas: &Schemas,
    plan: &Plan,
    steps: &[Step],
    new: &Plan,
    number: u32,
) -> Result<(), DeriveRefusal>
    requires typed { IsTyped plan.now schemas.now }
    requires few { number + length steps.now ≤ 1000 }
    ensures derived { IsDerived result schemas.now plan.now steps.now new.now number }
    ensures sound { IfOk result (λ _. SameMeaning schemas.now plan.now new.now) }
{
    match steps.split_first() {
        None => {
            if same_plans(plan, new) {
                Ok(())
            } else {
                Err(DeriveRefusal::NotDerived { step: number })
            }
        }
        Some((step, rest)) => match apply(alloc, schemas, plan, step) {
            Ok(next) => derive_rest(alloc, schemas, &next, rest, new, number + 1),
            Err(StepRefusal::NoSuchPlace) => Err(DeriveRefusal::NotDerived { step: number }),
            Err(StepRefusal::NoMatch) => Err(DeriveRefusal::NotDerived { step: number }),
            Err(StepRefusal::NotAPlan) => Err(DeriveRefusal::NotDerived { step: number }),
            Err(StepRefusal::Memory) => Err(DeriveRefusal::Memory),
        },
    }
}

/// Whether the steps, one after another, make the new plan of the old one.
///
/// It is refused with NotDerived exactly where a step is refused, for another cause than memory, or
/// the plan that they make isn't the new one.
pub fn derive(
    alloc: Global,
    schemas: &Schemas,
    old: &Plan,
    steps: &Steps,
    new: &Plan,
) -> Result<(), DeriveRefusal>
    requires typed { IsTyped old.now schemas.now }
    ensures derived { IsDerived result schemas.now old.now steps.now new.now 1 }
    ensures sound { IfOk result (λ _. SameMeaning schemas.now old.now new.now) }
{
    derive_rest(alloc, schemas, old, steps.as_slice(), new, 1)
}
