// What a rule makes of a plan, and why its form isn't made.
use pipes_plan::Plan;
use pipes_time::Memory;

/// What a rule makes of a plan, which is nothing where the plan isn't of its form.
pub type Rewritten = Result<Option<Plan>, Memory>;

/// The same, where the form may have a list that is too long for a plan.
pub type Lengthened = Result<Option<Plan>, RewriteFault>;

/// Why a rule's form isn't made.
#[derive(Clone, Copy, Debug, PartialEq, Eq)]
pub enum RewriteFault {
    /// It has a list of more than 32 items.
    TooLong,
    /// Memory was refused.
    Memory,
}

impl From<Memory> for RewriteFault {
    ghost use Rattle.pipes_rewrite.specs.declared.fault.RewriteFault.TheVariants.{
      Memory as
          OutOfMemory,
    };
    ghost use Rattle.std.specs.Prelude.{◌≡◌};

    ghost from_gives = { λ _ fault. fault ≡ OutOfMemory };

    fn from(_: Memory) -> RewriteFault {
        RewriteFault::Memory
    }
}
