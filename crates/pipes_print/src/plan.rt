// Plans.
ghost use Rattle.std.specs.Prelude.{◌≡◌, ◌++◌, List, OnOk, OnErr, codes, length, map};
ghost use Rattle.pipes_token.specs.declared.token.TokenKind.{TokenKind as AKind};
ghost use Rattle.pipes_grammar.specs.Limits.{IsPlanText};
ghost use Rattle.pipes_print.specs.ExprText.{expr_text};
ghost use Rattle.pipes_print.specs.PlanText.{source_text, plan_text};
ghost use Rattle.pipes_print.specs.Printed.{AreSpelled, PlanPrinted};
ghost use Rattle.pipes_print.specs.Writable.{AreSourceNames, IsWritablePlan, IsCheckedPlan};

use crate::expr::push_expr;
use crate::list::push_list;
use pipes_plan::Plan;
use pipes_time::Memory;
use pipes_tuple::{Text, append};

/// Appends the text of the plan over sources with these names, in order. After out of memory `out`
/// is as before.
#[tactic(auto, using(crate::proofs::WritablePlans::plan_printed, crate::proofs::WritablePlans::plan_writable))]
pub fn print_plan(names: &[Text], plan: &Plan, out: &mut Vec<u8>) -> Result<(), Memory>
    ensures ok { OnOk result (out.new.items ≡ out.old.items ++ plan_text names.now plan.now) }
    ensures err { OnErr result (out.new.items ≡ out.old.items) }
    // What is printed of a writable plan is read back, wherever it is written.
    ensures read_back { AreSourceNames names.now → IsWritablePlan (length names.now) plan.now
        → PlanPrinted names.now plan.now }
    // A plan that some text has is writable.
    ensures writable { (kinds : List AKind) → IsPlanText names.now plan.now kinds
        → AreSpelled kinds → IsWritablePlan (length names.now) plan.now }
    // A plan that checks over so many sources is writable.
    ensures checked { IsCheckedPlan (length names.now) plan.now
        → IsWritablePlan (length names.now) plan.now }
{
    let mut text = Vec::new(*out.allocator());
    push_plan(names, plan, &mut text)?;
    append(text.as_slice(), out)
}

// Appends the text of the plan.
#[cycle(push)]
fn push_plan(names: &[Text], plan: &Plan, out: &mut Vec<u8>) -> Result<(), Memory>
    ensures { OnOk result (out.new.items ≡ out.old.items ++ plan_text names.now plan.now) }
{
    match plan {
        Plan::Source(source) => push_source(names, *source, out),
        Plan::Filter(condition, a) => {
            append(b"filter(", out)?;
            push_expr(condition, out)?;
            push_last(names, a.get(), out)
        }
        Plan::Map(exprs, a) => {
            append(b"map(", out)?;
            push_list(exprs.as_slice(), out)?;
            push_last(names, a.get(), out)
        }
        Plan::Union(a, b) => {
            append(b"union(", out)?;
            push_both(names, a.get(), b.get(), out)
        }
        Plan::Join(pairs, condition, a, b) => {
            append(b"join(", out)?;
            push_list(pairs.as_slice(), out)?;
            append(b", ", out)?;
            push_expr(condition, out)?;
            append(b", ", out)?;
            push_both(names, a.get(), b.get(), out)
        }
        Plan::Distinct(a) => {
            append(b"distinct(", out)?;
            push_plan(names, a.get(), out)?;
            append(b")", out)
        }
        Plan::Group(columns, aggs, a) => {
            append(b"group(", out)?;
            push_list(columns.as_slice(), out)?;
            append(b", ", out)?;
            push_list(aggs.as_slice(), out)?;
            push_last(names, a.get(), out)
        }
        Plan::Minus(a, b) => {
            append(b"minus(", out)?;
            push_both(names, a.get(), b.get(), out)
        }
    }
}

// Appends the last plan of a node, after a comma.
#[cycle(push)]
fn push_last(names: &[Text], plan: &Plan, out: &mut Vec<u8>) -> Result<(), Memory>
    ensures { OnOk result (out.new.items ≡ out.old.items ++ (codes ", "
        ++ (plan_text names.now plan.now ++ codes ")"))) }
{
    append(b", ", out)?;
    push_plan(names, plan, out)?;
    append(b")", out)
}

// Appends the two plans of a node.
#[cycle(push)]
fn push_both(names: &[Text], a: &Plan, b: &Plan, out: &mut Vec<u8>) -> Result<(), Memory>
    ensures { OnOk result (out.new.items ≡ out.old.items ++ (plan_text names.now a.now
        ++ (codes ", " ++ (plan_text names.now b.now ++ codes ")")))) }
{
    push_plan(names, a, out)?;
    push_last(names, b, out)
}

// Appends the name of the source.
fn push_source(names: &[Text], source: u32, out: &mut Vec<u8>) -> Result<(), Memory>
    ensures { OnOk result (out.new.items ≡ out.old.items ++ source_text names.now source) }
{
    match names.get(source as usize) {
        Some(name) => append(name.as_str().as_bytes(), out),
        None => Ok(()),
    }
}
