// An operator that sends the elements that pass a condition.
ghost use Rattle.std.specs.Prelude.{◌≡◌, [], ◌∷◌, List, IfOk, IsOk};
ghost use Rattle.pipes_stream.specs.declared.message.Message.{Message as Sent};
ghost use Rattle.pipes_stream.specs.Lawful.{Lists, no_messages};
ghost use Rattle.pipes_plan.specs.PlanKinds.{IsTyped};
ghost use Rattle.pipes_flat.specs.Tasks.{filter_task};
ghost use Rattle.pipes_flat.specs.OneByOne.{SendsOneByOne};

use crate::condition::Condition;
use crate::send::send_filtered;
use pipes_plan::Expr;
use pipes_stream::{Message, Operator, Watch};
use pipes_time::Memory;
use pipes_tuple::Schema;

/// Sends the elements whose tuple passes a condition, as they were taken.
#[derive(Drop)]
pub struct Filter {
    condition: Condition,
    watch: Watch,
    failed: bool,
}

impl Filter {
    ghost use Rattle.pipes_plan.specs.declared.plan.Plan.TheVariants as plan;

    /// A filter by this condition over tuples of this schema.
    #[tactic(auto, using(crate::proofs::Typing::condition_is_flag))]
    pub fn new(condition: Expr, schema: Schema) -> Result<Filter, Memory>
        requires { IsTyped (plan.Filter condition (plan.Source 0)) (schema ∷ []) }
        ensures made { IsOk result }
        ensures task { IfOk result (λ f. ⟦<Filter as Operator>⟧.task f ≡ filter_task condition
            schema) }
        ensures stands { IfOk result (λ f. ⟦<Filter as Operator>⟧.stands f no_messages []) }
    {
        let condition = Condition::new(condition, schema);
        let watch = Watch::new();
        Ok(Filter {
            condition,
            watch,
            failed: false,
        })
    }

    /// What was sent is, element by element, in order and with the same intervals, what was taken
    /// and passes: a law, and nothing to run.
    pub fn sends_one_by_one(&self)
        ensures { (taken : Lists) (sent : List Sent) → ⟦<Filter as Operator>⟧.stands self.now taken
            sent → SendsOneByOne (⟦<Filter as Operator>⟧.task self.now) taken sent }
    {}
}

impl Operator for Filter {
    ghost use Rattle.pipes_flat.specs.Tasks.{filter_task};
    ghost use Rattle.pipes_flat.specs.Filters.{FilterStands, filter_lawful};

    ghost task = { λ f. filter_task f.condition.expr f.condition.schema };

    ghost stands = { FilterStands };

    ghost failed = { λ f. f.failed };

    ghost held_count = { λ f. 0 };

    ghost lawful = { filter_lawful };

    fn ports(&self) -> u32 {
        1
    }

    fn take(&mut self, _port: u32, message: Message, out: &mut Vec<Message>) -> Result<(), Memory> {
        if self.failed {
            return Err(Memory);
        }
        self.watch.step(&message);
        match send_filtered(&self.condition, message, out) {
            Ok(()) => Ok(()),
            Err(fault) => {
                self.failed = true;
                Err(fault)
            }
        }
    }

    fn beat_now(&self) -> u64 {
        self.watch.beat_now()
    }

    fn held(&self) -> u64 {
        0
    }
}
