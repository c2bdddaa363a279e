// The limits of what entries are made of, which their types keep: laws, and nothing to run.
ghost use Rattle.std.specs.List.{All};
ghost use Rattle.pipes_tuple.specs.Limits.{IsValue};
ghost use Rattle.pipes_output.specs.Lines.{IsEntry};

use pipes_output::{Entry, RefusedWhy};
use pipes_stream::Elem;
use pipes_tuple::Value;

fn is_int(number: i64)
    ensures { IsValue (Value.Int number) }
{}

// A value is within the limits of its type.
fn is_value(value: &Value)
    ensures { IsValue value.now }
{
    match value {
        Value::Int(number) => is_int(*number),
        Value::Text(text) => {
            let _ = text.as_str().as_bytes();
        }
        Value::Flag(_) => {}
    }
}

// So is each of these.
fn are_values(values: &[Value])
    ensures { All IsValue values.now }
{
    'values: for value in values {
        is_value(value);
    }
}

// A result is an interval with a tuple.
fn is_result(elem: &Elem)
    ensures { IsEntry (Entry.Result elem.now) }
{
    let _ = elem.span.start();
    let _ = elem.span.end();
    are_values(elem.tuple.as_slice());
}

fn is_beat(beat: u64)
    ensures { IsEntry (Entry.Beat beat) }
{}

fn is_accepted(number: u32, split: u64)
    ensures { IsEntry (Entry.Accepted number split) }
{}

fn is_refused(command: u32, why: RefusedWhy)
    ensures { IsEntry (Entry.Refused command why) }
{
    match why {
        RefusedWhy::NotDerived(_) => {}
        RefusedWhy::Busy(_) => {}
        RefusedWhy::Limit => {}
    }
}

fn is_idle(number: u32)
    ensures { IsEntry (Entry.Idle number) }
{}

fn is_over(number: u32)
    ensures { IsEntry (Entry.Over number) }
{}

fn is_drained(inputs: u64, output: u64)
    ensures { IsEntry (Entry.Drained inputs output) }
{}

// An entry is within the limits.
fn is_entry(entry: &Entry)
    ensures { IsEntry entry.now }
{
    match entry {
        Entry::Result(elem) => is_result(elem),
        Entry::Beat(beat) => is_beat(*beat),
        Entry::Accepted { number, split } => is_accepted(*number, *split),
        Entry::Refused { command, why } => is_refused(*command, *why),
        Entry::Idle(number) => is_idle(*number),
        Entry::Over(number) => is_over(*number),
        Entry::Drained { inputs, output } => is_drained(*inputs, *output),
        Entry::Ended => {}
        Entry::Stopped => {}
    }
}

/// So is each of these.
pub(crate) fn are_entries(entries: &[Entry])
    ensures { All IsEntry entries.now }
{
    'entries: for entry in entries {
        is_entry(entry);
    }
}
