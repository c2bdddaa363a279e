// An operator that replaces each row.
ghost use Rattle.std.specs.Prelude.{◌≡◌, [], ◌∷◌, List, IfOk, IsOk};
ghost use Rattle.pipes_stream.specs.declared.message.Message.{Message as Sent};
ghost use Rattle.pipes_stream.specs.Lawful.{Lists, no_messages};
ghost use Rattle.pipes_plan.specs.PlanKinds.{IsTyped};
ghost use Rattle.pipes_flat.specs.Tasks.{map_task};
ghost use Rattle.pipes_flat.specs.OneByOne.{SendsOneByOne};

use crate::projection::Projection;
use crate::send::send_mapped;
use pipes_plan::Exprs;
use pipes_stream::{Message, Operator, Watch};
use pipes_time::Memory;
use pipes_tuple::Schema;
use std::alloc::Global;

/// Sends each element with its row replaced by the values of expressions.
#[derive(Drop)]
pub struct Map {
    projection: Projection,
    watch: Watch,
    failed: bool,
}

impl Map {
    ghost use Rattle.pipes_plan.specs.declared.plan.Plan.TheVariants as plan;

    /// A map by these expressions over tuples of this schema.
    #[tactic(auto, using(crate::proofs::Typing::exprs_are_typed))]
    pub fn new(alloc: Global, exprs: Exprs, schema: Schema) -> Result<Map, Memory>
        requires { IsTyped (plan.Map exprs (plan.Source 0)) (schema ∷ []) }
        ensures made { IsOk result }
        ensures task { IfOk result (λ m. ⟦<Map as Operator>⟧.task m ≡ map_task exprs schema) }
        ensures stands { IfOk result (λ m. ⟦<Map as Operator>⟧.stands m no_messages []) }
    {
        let projection = Projection::new(alloc, exprs, schema);
        let watch = Watch::new();
        Ok(Map {
            projection,
            watch,
            failed: false,
        })
    }

    /// What was sent is, element by element, in order and with the same intervals, what was taken,
    /// with its row replaced: a law, and nothing to run.
    pub fn sends_one_by_one(&self)
        ensures { (taken : Lists) (sent : List Sent) → ⟦<Map as Operator>⟧.stands self.now taken
            sent → SendsOneByOne (⟦<Map as Operator>⟧.task self.now) taken sent }
    {}
}

impl Operator for Map {
    ghost use Rattle.pipes_flat.specs.Tasks.{map_task};
    ghost use Rattle.pipes_flat.specs.Maps.{MapStands, map_lawful};

    ghost task = { λ m. map_task m.projection.exprs m.projection.schema };

    ghost stands = { MapStands };

    ghost failed = { λ m. m.failed };

    ghost held_count = { λ m. 0 };

    ghost lawful = { map_lawful };

    fn ports(&self) -> u32 {
        1
    }

    fn take(&mut self, _port: u32, message: Message, out: &mut Vec<Message>) -> Result<(), Memory> {
        if self.failed {
            return Err(Memory);
        }
        self.watch.step(&message);
        match send_mapped(&self.projection, message, out) {
            Ok(()) => Ok(()),
            Err(fault) => {
                self.failed = true;
                Err(fault)
            }
        }
    }

    fn beat_now(&self) -> u64 {
        self.watch.beat_now()
    }

    fn held(&self) -> u64 {
        0
    }
}
