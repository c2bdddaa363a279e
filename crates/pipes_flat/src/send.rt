// What is sent for a message.
ghost use Rattle.std.specs.Prelude.{◌≡◌, ◌++◌, ◌∷◌, [], IfOk, OnOk, OnErr};
ghost use Rattle.pipes_flat.specs.Each.{changed, kept, sent_for, sent_for_elem};

use crate::condition::Condition;
use crate::projection::Projection;
use pipes_stream::{Elem, Message};
use pipes_time::Memory;

// The element where it passes the condition, and else how far its list has come.
fn filtered_elem(condition: &Condition, elem: Elem) -> Message
    ensures { result ≡ sent_for_elem elem (kept condition.now.expr elem.tuple) }
{
    if condition.holds(&elem.tuple) {
        Message::Elem(elem)
    } else {
        Message::Beat(elem.span.start())
    }
}

// What a filter sends for a message.
fn filtered(condition: &Condition, message: Message) -> Message
    ensures { result ≡ sent_for (kept condition.now.expr) message }
{
    match message {
        Message::Elem(elem) => filtered_elem(condition, elem),
        Message::Beat(at) => Message::Beat(at),
        Message::End => Message::End,
    }
}

// The element with its row replaced.
fn mapped_elem(projection: &Projection, elem: Elem) -> Result<Message, Memory>
    ensures { IfOk result (λ sent. sent
        ≡ sent_for_elem elem (changed projection.now.exprs elem.tuple)) }
{
    let tuple = projection.row(&elem.tuple)?;
    Ok(Message::Elem(Elem {
        tuple,
        span: elem.span,
    }))
}

// What a map sends for a message.
fn mapped(projection: &Projection, message: Message) -> Result<Message, Memory>
    ensures { IfOk result (λ sent. sent ≡ sent_for (changed projection.now.exprs) message) }
{
    match message {
        Message::Elem(elem) => mapped_elem(projection, elem),
        Message::Beat(at) => Ok(Message::Beat(at)),
        Message::End => Ok(Message::End),
    }
}

// Appends what a filter sends for a message. Without memory nothing is appended.
pub(crate) fn send_filtered(
    condition: &Condition,
    message: Message,
    out: &mut Vec<Message>,
) -> Result<(), Memory>
    ensures sends { OnOk result (out.new.items
        ≡ out.old.items ++ sent_for (kept condition.now.expr) message ∷ []) }
    ensures refused { OnErr result (out.new.items ≡ out.old.items) }
{
    let sent = filtered(condition, message);
    match out.push(sent) {
        Ok(()) => Ok(()),
        Err(_) => Err(Memory),
    }
}

// Appends what a map sends for a message. Without memory nothing is appended.
pub(crate) fn send_mapped(
    projection: &Projection,
    message: Message,
    out: &mut Vec<Message>,
) -> Result<(), Memory>
    ensures sends { OnOk result (out.new.items
        ≡ out.old.items ++ sent_for (changed projection.now.exprs) message ∷ []) }
    ensures refused { OnErr result (out.new.items ≡ out.old.items) }
{
    let sent = mapped(projection, message)?;
    match out.push(sent) {
        Ok(()) => Ok(()),
        Err(_) => Err(Memory),
    }
}
