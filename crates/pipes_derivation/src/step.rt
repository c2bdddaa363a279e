// Reading steps.
ghost use Rattle.std.specs.Prelude.{◌≡◌, ◌≤◌, IfOk, length};
ghost use Rattle.pipes_reader.specs.Reading.{GivesFrom};
ghost use Rattle.pipes_derivation.specs.Reading as spec;

use crate::arg::read_arg;
use crate::path::read_path;
use crate::take::{
    read_at_word, read_direction, read_no_step, read_plan_word, read_step_or_plan, take_rule,
};
use pipes_reader::{Cursor, Entries, ParseFault, many_within};
use pipes_rules::{Arg, Rule, Step};
use pipes_tuple::Cols;
use std::alloc::Global;
use std::marker::Model;

// A step's rule and direction.
#[tactic(auto, unfolding(crate::specs::Reading::read_rule_use))]
fn read_rule_use(cursor: &mut Cursor<'_>) -> Result<(Rule, bool), ParseFault>
    ensures { GivesFrom (λ x. (x.0, x.1)) spec.read_rule_use cursor.old cursor.new result }
{
    let rule = take_rule(cursor)?;
    let back = read_direction(cursor)?;
    read_at_word(cursor)?;
    Ok((rule, back))
}

// Its path and what it takes.
#[tactic(auto, unfolding(crate::specs::Reading::read_step_end))]
fn read_step_end(alloc: Global, cursor: &mut Cursor<'_>) -> Result<(Cols, Arg), ParseFault>
    ensures { GivesFrom (λ x. (x.0, x.1)) spec.read_step_end cursor.old cursor.new result }
{
    let path = read_path(alloc, cursor)?;
    let arg = read_arg(alloc, cursor)?;
    Ok((path, arg))
}

// A step, from after its keyword.
#[tactic(auto, unfolding(crate::specs::Reading::read_one_step))]
fn read_one_step(alloc: Global, cursor: &mut Cursor<'_>) -> Result<Step, ParseFault>
    ensures { GivesFrom (λ step. step) spec.read_one_step cursor.old cursor.new result }
{
    let (rule, back) = read_rule_use(cursor)?;
    let (path, arg) = read_step_end(alloc, cursor)?;
    Ok(Step {
        rule,
        back,
        path,
        arg,
    })
}

// The steps that were read so far.
#[derive(Drop)]
pub struct StepList {
    pub steps: Vec<Step>,
}

impl Model for StepList {
    ghost use Rattle.std.specs.Prelude.{List};
    ghost use Rattle.std.specs.Coded.{codes};
    ghost use Rattle.pipes_expr.specs.contracts.expr.Expr as coding;
    ghost use Rattle.pipes_rules.specs.declared.step.Step.{Step};

    ghost Value = { List Step };

    ghost view = { λ l. l.steps.items };

    ghost coded = { Prim.hlevel (codes, coding.the_row.coded) };
}

impl Entries<()> for StepList {
    ghost step = { λ context. spec.next_step };

    ghost over = { λ context. spec.end_steps };

    #[tactic(auto, unfolding(crate::specs::Reading::next_step))]
    fn step(&mut self, _context: &(), cursor: &mut Cursor<'_>) -> Result<bool, ParseFault> {
        if read_step_or_plan(cursor)? {
            let alloc = *self.steps.allocator();
            self.steps.push(read_one_step(alloc, cursor)?)?;
            Ok(true)
        } else {
            Ok(false)
        }
    }

    #[tactic(auto, unfolding(crate::specs::Reading::end_steps))]
    fn over(&mut self, _context: &(), cursor: &mut Cursor<'_>) -> Result<(), ParseFault> {
        read_no_step(cursor)?;
        read_plan_word(cursor)
    }
}

// All steps, and the plan's keyword.
#[tactic(auto, using(crate::proofs::StepLists::steps_fit), unfolding(crate::specs::Reading::read_steps))]
pub fn read_steps(alloc: Global, cursor: &mut Cursor<'_>) -> Result<StepList, ParseFault>
    ensures exact { GivesFrom (λ steps. steps) spec.read_steps cursor.old cursor.new result }
    ensures bound { IfOk result (λ steps. length steps ≤ 256) }
{
    let mut steps = StepList {
        steps: Vec::new(alloc),
    };
    many_within(256, &(), &mut steps, cursor)?;
    Ok(steps)
}
