// Messages appended to those that are pending, without the heartbeats that say nothing more.
ghost use Rattle.std.specs.Prelude.{◌≡◌, [], OnOk, OnErr};
ghost use Rattle.pipes_stream.specs.Lists.{beat};
ghost use Rattle.pipes_node.specs.Merging.{MergedOne, MergedAll, brought};

use pipes_stream::Message;
use pipes_time::{CLOSED, Memory};
use std::collections::VecDeque;

// The heartbeat of a list that ends with the message.
fn heartbeat(message: &Message) -> u64
    ensures { result ≡ brought message.now }
{
    match message {
        Message::Elem(elem) => elem.span.start(),
        Message::Beat(at) => *at,
        Message::End => CLOSED,
    }
}

// Appends the message. A Beat that is not above `level`, the heartbeat until then, is left out, and
// one that is last gives its place to the message.
fn append_merged(
    pending: &mut VecDeque<Message>,
    level: &mut u64,
    message: Message,
) -> Result<(), Memory>
    ensures merged { OnOk result (MergedOne pending.old.items level.old message pending.new.items
        level.new) }
    ensures memory { OnErr result ((pending.new.items ≡ pending.old.items)
        × (level.new ≡ level.old)) }
{
    if let Message::Beat(at) = &message {
        if *at <= *level {
            return Ok(());
        }
    }
    let next = heartbeat(&message);
    if let Some(last) = pending.back_mut() {
        if let Message::Beat(_) = last {
            *last = message;
            *level = next;
            return Ok(());
        }
    }
    pending.push_back(message)?;
    *level = next;
    Ok(())
}

// Appends all the messages in their order, and takes them out of `fresh`. Without memory some may
// be lost.
pub(crate) fn move_merged(
    fresh: &mut Vec<Message>,
    pending: &mut VecDeque<Message>,
    level: &mut u64,
) -> Result<(), Memory>
    ensures merged { OnOk result (MergedAll pending.old.items level.old fresh.old.items
        pending.new.items level.new) }
    ensures moved { OnOk result (fresh.new.items ≡ []) }
    ensures none { fresh.old.items ≡ [] → pending.new ≡ pending.old }
{
    for message in fresh.drain(..) {
        append_merged(pending, level, message)?;
    }
    Ok(())
}
