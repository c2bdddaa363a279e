// Printing derivations.
ghost use Rattle.std.specs.Prelude.{◌≡◌, ◌++◌, List, OnOk, OnErr, codes, length};
ghost use Rattle.std.specs.Fmt.{decimal};
ghost use Rattle.std.specs.List.{flat_map};
ghost use Rattle.pipes_print.specs.Writable.{AreSourceNames};
ghost use Rattle.pipes_print.specs.PlanText.{plan_text};
ghost use Rattle.pipes_query.specs.Queries.{names_of as names_in};
ghost use Rattle.pipes_rules.specs.Table.{rule_name};
ghost use Rattle.pipes_derivation.specs.Texts.{IsTextOfDerivation};
ghost use Rattle.pipes_derivation.specs.Printing as spec;
ghost use Rattle.pipes_derivation.specs.Writable.{IsWritableDerivation};

use crate::Derivation;
use pipes_plan::Plan;
use pipes_print::{print_expr, print_exprs, print_plan};
use pipes_query::{Query, SourceDecl, names_of};
use pipes_rules::{Arg, Step};
use pipes_time::Memory;
use pipes_tuple::{append, append_number};

// Appends the numbers of children, each after a point.
fn push_more_children(path: &[u32], out: &mut Vec<u8>) -> Result<(), Memory>
    ensures { OnOk result
        (out.new.items ≡ out.old.items ++ flat_map (λ m. codes "." ++ decimal m) path.now) }
{
    match path {
        [] => Ok(()),
        [child, others @ ..] => {
            append(b".", out)?;
            append_number(*child as u64, out)?;
            push_more_children(others, out)
        }
    }
}

// Appends the path.
fn push_path(path: &[u32], out: &mut Vec<u8>) -> Result<(), Memory>
    ensures { OnOk result (out.new.items ≡ out.old.items ++ spec.path_text path.now) }
{
    match path {
        [] => append(b"top", out),
        [child, others @ ..] => {
            append_number(*child as u64, out)?;
            push_more_children(others, out)
        }
    }
}

// Appends what the step takes.
fn push_arg(arg: &Arg, out: &mut Vec<u8>) -> Result<(), Memory>
    ensures { OnOk result (out.new.items ≡ out.old.items ++ spec.arg_text arg.now) }
{
    match arg {
        Arg::Nothing => Ok(()),
        Arg::OneExpr(expr) => {
            append(b" with ", out)?;
            print_expr(expr, out)
        }
        Arg::TwoLists(es, fs) => {
            append(b" with ", out)?;
            print_exprs(es.as_slice(), out)?;
            append(b" ", out)?;
            print_exprs(fs.as_slice(), out)
        }
    }
}

// What comes between a step's rule and its path.
fn between(back: bool) -> &'static [u8]
    ensures { result.now ≡ spec.direction_text back }
{
    if back { b" back at " } else { b" at " }
}

// Appends the step's line.
fn push_step(step: &Step, out: &mut Vec<u8>) -> Result<(), Memory>
    ensures { OnOk result (out.new.items ≡ out.old.items ++ spec.step_line step.now) }
{
    append(b"step ", out)?;
    append(step.rule.name().as_bytes(), out)?;
    append(between(step.back), out)?;
    push_path(step.path.as_slice(), out)?;
    push_arg(&step.arg, out)?;
    append(b"\n", out)
}

// Appends the steps' lines.
fn push_steps(steps: &[Step], out: &mut Vec<u8>) -> Result<(), Memory>
    ensures { OnOk result
        (out.new.items ≡ out.old.items ++ flat_map spec.step_line steps.now) }
{
    match steps {
        [] => Ok(()),
        [step, others @ ..] => {
            push_step(step, out)?;
            push_steps(others, out)
        }
    }
}

// Appends the plan's line.
fn push_plan(sources: &[SourceDecl], plan: &Plan, out: &mut Vec<u8>) -> Result<(), Memory>
    ensures { OnOk result (out.new.items ≡ out.old.items
        ++ (codes "plan " ++ (plan_text (names_in sources.now) plan.now ++ codes "\n"))) }
{
    let names = names_of(*out.allocator(), sources)?;
    append(b"plan ", out)?;
    print_plan(names.as_slice(), plan, out)?;
    append(b"\n", out)
}

/// Appends the text of the derivation over the query's sources: a line for each step, and one for
/// the plan. When memory runs out, `out` is as before.
#[tactic(auto, using(crate::proofs::PrintLaws::derivation_printed, crate::proofs::PrintLaws::derivation_writable))]
pub fn print_derivation(
    query: &Query,
    derivation: &Derivation,
    out: &mut Vec<u8>,
) -> Result<(), Memory>
    ensures ok { OnOk result (out.new.items
        ≡ out.old.items ++ spec.derivation_text (names_in query.now.sources) derivation.now) }
    ensures err { OnErr result (out.new.items ≡ out.old.items) }
    // What is printed of a writable derivation is read back.
    ensures read_back { AreSourceNames (names_in query.now.sources)
        → IsWritableDerivation (length query.now.sources) derivation.now
        → IsTextOfDerivation query.now derivation.now
        (spec.derivation_text (names_in query.now.sources) derivation.now) }
    // A derivation that some text has is writable.
    ensures writable { spec.HasDerivationText query.now derivation.now
        → IsWritableDerivation (length query.now.sources) derivation.now }
{
    let mut text = Vec::new(*out.allocator());
    push_steps(derivation.steps.as_slice(), &mut text)?;
    push_plan(query.sources.as_slice(), &derivation.plan, &mut text)?;
    append(text.as_slice(), out)
}
