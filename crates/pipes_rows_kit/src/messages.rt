// Steps of an operator, written short: what it is given, and what it is to send then.
use pipes_stream::{Elem, Message, Operator};
use pipes_time::Interval;
use pipes_tuple::{Kind, Schema, Text, Tuple, Value};
use std::alloc::Global;
use std::test::Fail;

/// A value.
#[derive(Clone, Copy)]
pub enum Cell {
    Int(i64),
    Text(&'static str),
    Flag(bool),
}

/// An element of numbers, one of values, a heartbeat or the end.
#[derive(Clone, Copy)]
pub enum Said<'a> {
    Numbers(&'a [i64], u64, u64),
    Cells(&'a [Cell], u64, u64),
    Beat(u64),
    End,
}

/// What is given at a port, what is to be sent then, and the heartbeat and the number of elements
/// held after it.
#[derive(Clone, Copy)]
pub struct Step<'a> {
    pub port: u32,
    pub given: Said<'a>,
    pub wanted: &'a [Said<'a>],
    pub beat: u64,
    pub held: u64,
}

/// What is given at a port, what is to be sent then, and the heartbeat and the number of elements
/// held after it.
pub fn at_port<'a>(
    port: u32,
    given: Said<'a>,
    wanted: &'a [Said<'a>],
    beat: u64,
    held: u64,
) -> Step<'a> {
    Step {
        port,
        given,
        wanted,
        beat,
        held,
    }
}

/// Numbers over an interval.
pub fn row(numbers: &[i64], start: u64, end: u64) -> Said<'_> {
    Said::Numbers(numbers, start, end)
}

/// Values over an interval.
pub fn cells(values: &[Cell], start: u64, end: u64) -> Said<'_> {
    Said::Cells(values, start, end)
}

fn value(alloc: Global, cell: &Cell) -> Result<Value, Fail> {
    match cell {
        Cell::Int(number) => Ok(Value::Int(*number)),
        Cell::Text(text) => Ok(Value::Text(Text::new(alloc, text)?)),
        Cell::Flag(flag) => Ok(Value::Flag(*flag)),
    }
}

fn elem(values: Vec<Value>, start: u64, end: u64) -> Result<Message, Fail> {
    let tuple = Tuple::new(values).ok_or("no tuple")?;
    let span = Interval::new(start, end).ok_or("no interval")?;
    Ok(Message::Elem(Elem { tuple, span }))
}

fn of_numbers(alloc: Global, numbers: &[i64]) -> Result<Vec<Value>, Fail> {
    let mut values = Vec::new(alloc);
    for number in numbers {
        values.push(Value::Int(*number))?;
    }
    Ok(values)
}

fn of_cells(alloc: Global, cells: &[Cell]) -> Result<Vec<Value>, Fail> {
    let mut values = Vec::new(alloc);
    for cell in cells {
        values.push(value(alloc, cell)?)?;
    }
    Ok(values)
}

/// The message; it fails where its values are no tuple or its instants no interval.
pub fn message(alloc: Global, said: &Said<'_>) -> Result<Message, Fail> {
    match said {
        Said::Numbers(numbers, start, end) => elem(of_numbers(alloc, numbers)?, *start, *end),
        Said::Cells(cells, start, end) => elem(of_cells(alloc, cells)?, *start, *end),
        Said::Beat(at) => Ok(Message::Beat(*at)),
        Said::End => Ok(Message::End),
    }
}

/// Whether these messages were sent, in this order.
pub fn are_wanted(alloc: Global, sent: &[Message], wanted: &[Said<'_>]) -> Result<bool, Fail> {
    if sent.len() != wanted.len() {
        return Ok(false);
    }
    for (one, want) in sent.iter().zip(wanted) {
        if *one != message(alloc, want)? {
            return Ok(false);
        }
    }
    Ok(true)
}

/// What the operator sends for the message at the port, which it has; it fails where it has not.
pub fn sent<O: Operator>(
    alloc: Global,
    operator: &mut O,
    port: u32,
    given: &Said<'_>,
) -> Result<Vec<Message>, Fail> {
    if port >= operator.ports() {
        return Ok(Err("no port")?);
    }
    let mut out = Vec::new(alloc);
    operator.take(port, message(alloc, given)?, &mut out)?;
    Ok(out)
}

fn does<O: Operator>(alloc: Global, operator: &mut O, step: &Step<'_>) -> Result<bool, Fail> {
    let out = sent(alloc, operator, step.port, &step.given)?;
    if operator.beat_now() != step.beat || operator.held() != step.held {
        return Ok(false);
    }
    are_wanted(alloc, out.as_slice(), step.wanted)
}

/// How many of the steps are as wanted, up to the first that isn't.
pub fn steps_done<O: Operator>(
    alloc: Global,
    operator: &mut O,
    steps: &[Step<'_>],
) -> Result<usize, Fail> {
    let mut done = 0_usize;
    for step in steps {
        if !does(alloc, operator, step)? {
            break;
        }
        done = done.saturating_add(1);
    }
    Ok(done)
}

/// A schema of these kinds; it fails where there are too many.
pub fn schema(alloc: Global, kinds: &[Kind]) -> Result<Schema, Fail> {
    Ok(Schema::new(Vec::from_slice(alloc, kinds)?).ok_or("no schema")?)
}
