// Printing queries.
ghost use Rattle.std.specs.Prelude.{◌≡◌, ◌++◌, length, OnOk, OnErr};
ghost use Rattle.pipes_tuple.specs.Texts.{quoted};
ghost use Rattle.pipes_text.specs.Texts.{IsTextOfQuery};
ghost use Rattle.pipes_text.specs.Printing.{HasText, with_plan};
ghost use Rattle.pipes_text.specs.Printing as spec;
ghost use Rattle.pipes_print.specs.Writable.{IsCheckedPlan};
ghost use Rattle.pipes_text.specs.Writable.{IsWritableQuery};

use pipes_plan::Plan;
use pipes_query::{Query, SourceDecl, names_of};
use pipes_time::Memory;
use pipes_tuple::{Kind, Text, Value, append, append_number};
use pipes_window::WindowKind;
use std::alloc::Global;

// Appends a column.
fn push_column(name: &Text, kind: Kind, out: &mut Vec<u8>) -> Result<(), Memory>
    ensures { OnOk result (out.new.items ≡ out.old.items ++ spec.column_text name.now kind) }
{
    append(name.as_str().as_bytes(), out)?;
    append(b" ", out)?;
    append(kind.word(), out)
}

// Appends the other columns, each after a comma.
fn push_more_columns(names: &[Text], kinds: &[Kind], out: &mut Vec<u8>) -> Result<(), Memory>
    ensures { OnOk result
        (out.new.items ≡ out.old.items ++ spec.more_columns_text names.now kinds.now) }
{
    match names {
        [] => Ok(()),
        [name, names @ ..] => match kinds {
            [] => Ok(()),
            [kind, kinds @ ..] => {
                append(b", ", out)?;
                push_column(name, *kind, out)?;
                push_more_columns(names, kinds, out)
            }
        },
    }
}

// Appends all columns.
fn push_columns(names: &[Text], kinds: &[Kind], out: &mut Vec<u8>) -> Result<(), Memory>
    ensures { OnOk result (out.new.items ≡ out.old.items ++ spec.columns_text names.now kinds.now) }
{
    match names {
        [] => Ok(()),
        [name, names @ ..] => match kinds {
            [] => Ok(()),
            [kind, kinds @ ..] => {
                push_column(name, *kind, out)?;
                push_more_columns(names, kinds, out)
            }
        },
    }
}

// Appends a window.
fn push_window(window: WindowKind, out: &mut Vec<u8>) -> Result<(), Memory>
    ensures { OnOk result (out.new.items ≡ out.old.items ++ spec.window_text window) }
{
    match window {
        WindowKind::Time(size) => {
            append(b"time ", out)?;
            append_number(size, out)
        }
        WindowKind::Slide(size, slide) => {
            append(b"time ", out)?;
            append_number(size, out)?;
            append(b" slide ", out)?;
            append_number(slide, out)
        }
        WindowKind::Count(size) => {
            append(b"count ", out)?;
            append_number(size as u64, out)
        }
    }
}

// Appends a text between quotes.
fn push_quoted(text: &Text, out: &mut Vec<u8>) -> Result<(), Memory>
    ensures { OnOk result (out.new.items ≡ out.old.items ++ quoted text.now) }
{
    Value::Text(text.copy()?).print(out)
}

// Appends a source's name and file.
fn push_head(source: &SourceDecl, out: &mut Vec<u8>) -> Result<(), Memory>
    ensures { OnOk result (out.new.items ≡ out.old.items ++ spec.head_text source.now) }
{
    append(b"source ", out)?;
    append(source.name.as_str().as_bytes(), out)?;
    append(b" from ", out)?;
    push_quoted(&source.file, out)
}

// Appends how late its rows may come, where they may.
fn push_slack(slack: u64, out: &mut Vec<u8>) -> Result<(), Memory>
    ensures { OnOk result (out.new.items ≡ out.old.items ++ spec.slack_text slack) }
{
    if slack == 0 {
        return Ok(());
    }
    append(b" slack ", out)?;
    append_number(slack, out)
}

// Appends its columns, slack and window.
fn push_shape(source: &SourceDecl, out: &mut Vec<u8>) -> Result<(), Memory>
    ensures { OnOk result (out.new.items ≡ out.old.items ++ spec.shape_text source.now) }
{
    append(b" (", out)?;
    push_columns(source.names.as_slice(), source.schema.as_slice(), out)?;
    append(b")", out)?;
    push_slack(source.slack, out)?;
    append(b" window ", out)?;
    push_window(source.window, out)?;
    append(b"\n", out)
}

// Appends a source's line.
fn push_source(source: &SourceDecl, out: &mut Vec<u8>) -> Result<(), Memory>
    ensures { OnOk result (out.new.items ≡ out.old.items ++ spec.source_line source.now) }
{
    push_head(source, out)?;
    push_shape(source, out)
}

// Appends the sources' lines.
fn push_sources(sources: &[SourceDecl], out: &mut Vec<u8>) -> Result<(), Memory>
    ensures { OnOk result (out.new.items ≡ out.old.items ++ spec.sources_text sources.now) }
{
    match sources {
        [] => Ok(()),
        [source, others @ ..] => {
            push_source(source, out)?;
            push_sources(others, out)
        }
    }
}

// Appends the plan's line.
fn push_plan(sources: &[SourceDecl], plan: &Plan, out: &mut Vec<u8>) -> Result<(), Memory>
    ensures { OnOk result (out.new.items ≡ out.old.items ++ spec.plan_line sources.now plan.now) }
{
    let names = names_of(*out.allocator(), sources)?;
    append(b"plan ", out)?;
    pipes_print::print_plan(names.as_slice(), plan, out)?;
    append(b"\n", out)
}

/// Appends the text of the query: a line for each source, and one for the plan. When memory runs
/// out, `out` is as before.
#[tactic(auto, using(crate::proofs::WritableLaws::query_printed, crate::proofs::WritableLaws::query_writable))]
pub fn print_query(query: &Query, out: &mut Vec<u8>) -> Result<(), Memory>
    ensures ok { OnOk result (out.new.items ≡ out.old.items ++ spec.query_text query.now) }
    ensures err { OnErr result (out.new.items ≡ out.old.items) }
    // What is printed of a writable query is read back.
    ensures read_back { IsWritableQuery query.now
        → IsTextOfQuery query.now (spec.query_text query.now) }
    // A query that some text has is writable.
    ensures writable { HasText query.now → IsWritableQuery query.now }
{
    let mut text = Vec::new(*out.allocator());
    push_sources(query.sources.as_slice(), &mut text)?;
    push_plan(query.sources.as_slice(), &query.plan, &mut text)?;
    append(text.as_slice(), out)
}

/// Appends the line of a plan over the query's sources. When memory runs out,
/// `out` is as before.
pub fn print_plan(query: &Query, plan: &Plan, out: &mut Vec<u8>) -> Result<(), Memory>
    ensures ok { OnOk result
        (out.new.items ≡ out.old.items ++ spec.plan_line query.now.sources plan.now) }
    ensures err { OnErr result (out.new.items ≡ out.old.items) }
    // After the lines of the sources it is read back, where the query with this plan is writable.
    ensures read_back { IsWritableQuery (with_plan query.now plan.now)
        → IsTextOfQuery (with_plan query.now plan.now)
        (spec.sources_text query.now.sources ++ spec.plan_line query.now.sources plan.now) }
    // So is a plan that checks over the sources of a writable query, though no text was read for
    // it.
    ensures checked { IsWritableQuery query.now
        → IsCheckedPlan (length query.now.sources) plan.now
        → IsTextOfQuery (with_plan query.now plan.now)
        (spec.sources_text query.now.sources ++ spec.plan_line query.now.sources plan.now) }
{
    let mut text = Vec::new(*out.allocator());
    push_plan(query.sources.as_slice(), plan, &mut text)?;
    append(text.as_slice(), out)
}
