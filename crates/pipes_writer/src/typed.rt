// What an entry holds is of the types of its line: laws, and nothing to run.
ghost use Rattle.std.specs.List.{All};
ghost use Rattle.pipes_tuple.specs.Limits.{IsValue};
ghost use Rattle.pipes_output.specs.Lines.{IsEntry};
ghost use Rattle.pipes_output.specs.declared.entry.Entry.TheVariants as entry;
ghost use Rattle.pipes_output.specs.declared.entry.RefusedWhy.{RefusedWhy as Cause};

use pipes_output::{Entry, RefusedWhy};
use pipes_stream::Elem;
use pipes_tuple::Value;

// A value is within the limits of its type.
fn look_at_value(value: &Value)
    ensures { IsValue value.now }
{
    match value {
        Value::Int(number) => {
            let _number = *number;
        }
        Value::Text(text) => {
            text.as_str();
        }
        Value::Flag(_) => {}
    }
}

fn look_at_values(values: &[Value])
    ensures { All IsValue values.now }
{
    'values: for value in values {
        look_at_value(value);
    }
}

fn look_at_elem(elem: &Elem)
    ensures { IsEntry (entry.Result elem.now) }
{
    elem.span.start();
    elem.span.end();
    look_at_values(elem.tuple.as_slice());
}

fn look_at_why(command: u32, why: RefusedWhy)
    ensures { IsEntry (entry.Refused command why) }
{
    match why {
        RefusedWhy::NotDerived(step) => {
            let _step = step;
        }
        RefusedWhy::Busy(split) => {
            let _split = split;
        }
        RefusedWhy::Limit => {}
    }
}

/// An entry is one that has a line.
pub(crate) fn look_at(entry: &Entry)
    ensures { IsEntry entry.now }
{
    match entry {
        Entry::Result(elem) => look_at_elem(elem),
        Entry::Beat(beat) => {
            let _beat = *beat;
        }
        Entry::Accepted { number, split } => {
            let _numbers = (*number, *split);
        }
        Entry::Refused { command, why } => look_at_why(*command, *why),
        Entry::Idle(number) => {
            let _number = *number;
        }
        Entry::Over(number) => {
            let _number = *number;
        }
        Entry::Drained { inputs, output } => {
            let _numbers = (*inputs, *output);
        }
        Entry::Ended => {}
        Entry::Stopped => {}
    }
}
