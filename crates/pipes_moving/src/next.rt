// A plan that is ready to take the place of another.
ghost use Rattle.std.specs.Prelude.{◌≡◌, ◌≤◌, [], IfOk, false, length};
ghost use Rattle.pipes_stream.specs.Lawful.{no_messages};
ghost use Rattle.pipes_plan.specs.PlanKinds.{IsTyped};
ghost use Rattle.pipes_plan.specs.Refusals.{Checks};
ghost use Rattle.pipes_works.specs.Standing.{IsWhole, WorksStand, source_count};

use pipes_plan::{Plan, Schemas};
use pipes_stream::Message;
use pipes_time::Memory;
use pipes_works::Works;
use std::alloc::Global;

/// A plan that is ready to take the place of another: it is at work, and nothing came to it. All
/// memory that the change itself wants is taken.
#[derive(Drop)]
pub struct Next {
    pub(crate) works: Works,
    // empty, with room for what the old side of the merge begins with
    pub(crate) opening: Vec<Message>,
}

impl Next {
    ghost use Rattle.pipes_moving.specs.Moves.{IsReady};

    /// The plan over sources with these schemas, by at most so many workers.
    pub fn new(alloc: Global, plan: &Plan, schemas: &Schemas, workers: u32) -> Result<Next, Memory>
        requires typed { IsTyped plan.now schemas.now }
        requires checks { Checks schemas.now plan.now }
        requires some { 1 ≤ workers }
        requires most { workers ≤ 16 }
        ensures ready { IfOk result (λ n. IsReady n) }
        ensures stands { IfOk result (λ n. WorksStand n.works schemas.now plan.now no_messages []) }
        ensures count { IfOk result (λ n. source_count n.works ≡ length schemas.now) }
    {
        let works = Works::new(alloc, plan, schemas, workers)?;
        let mut opening = Vec::new(alloc);
        opening.reserve(2)?;
        Ok(Next { works, opening })
    }
}
