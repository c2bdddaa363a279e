// The operators of a plan, in one type.
use pipes_flat::{Filter, Map, Union};
use pipes_group::{Distinct, Group};
use pipes_minus::Minus;
use pipes_pair::Join;
use pipes_stream::{Message, Operator};
use pipes_time::Memory;

/// The operator of a plan's node that is no source.
#[derive(Drop)]
pub enum PlanOperator {
    Filter(Filter),
    Map(Map),
    Union(Union),
    Join(Join),
    Distinct(Distinct),
    Group(Group),
    Minus(Minus),
}

impl Operator for PlanOperator {
    ghost use Rattle.pipes_node.specs.Operators.{task_of, StandsFor, has_failed, held_by, lawful_of};

    ghost task = { task_of };

    ghost stands = { StandsFor };

    ghost failed = { has_failed };

    ghost held_count = { held_by };

    ghost lawful = { lawful_of };

    fn ports(&self) -> u32 {
        match self {
            PlanOperator::Filter(filter) => filter.ports(),
            PlanOperator::Map(map) => map.ports(),
            PlanOperator::Union(union) => union.ports(),
            PlanOperator::Join(join) => join.ports(),
            PlanOperator::Distinct(distinct) => distinct.ports(),
            PlanOperator::Group(group) => group.ports(),
            PlanOperator::Minus(minus) => minus.ports(),
        }
    }

    fn take(&mut self, port: u32, message: Message, out: &mut Vec<Message>) -> Result<(), Memory> {
        match self {
            PlanOperator::Filter(filter) => filter.take(port, message, out),
            PlanOperator::Map(map) => map.take(port, message, out),
            PlanOperator::Union(union) => union.take(port, message, out),
            PlanOperator::Join(join) => join.take(port, message, out),
            PlanOperator::Distinct(distinct) => distinct.take(port, message, out),
            PlanOperator::Group(group) => group.take(port, message, out),
            PlanOperator::Minus(minus) => minus.take(port, message, out),
        }
    }

    fn beat_now(&self) -> u64 {
        match self {
            PlanOperator::Filter(filter) => filter.beat_now(),
            PlanOperator::Map(map) => map.beat_now(),
            PlanOperator::Union(union) => union.beat_now(),
            PlanOperator::Join(join) => join.beat_now(),
            PlanOperator::Distinct(distinct) => distinct.beat_now(),
            PlanOperator::Group(group) => group.beat_now(),
            PlanOperator::Minus(minus) => minus.beat_now(),
        }
    }

    fn held(&self) -> u64 {
        match self {
            PlanOperator::Filter(filter) => filter.held(),
            PlanOperator::Map(map) => map.held(),
            PlanOperator::Union(union) => union.held(),
            PlanOperator::Join(join) => join.held(),
            PlanOperator::Distinct(distinct) => distinct.held(),
            PlanOperator::Group(group) => group.held(),
            PlanOperator::Minus(minus) => minus.held(),
        }
    }
}
