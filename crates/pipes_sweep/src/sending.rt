// Sending the elements that are due.
ghost use Rattle.std.specs.Prelude.{◌≡◌, ◌++◌, ◌∷◌, [], List, OnOk, OnErr, map};
ghost use Rattle.pipes_stream.specs.declared.message.Message.{Message as Sent};
ghost use Rattle.pipes_stream.specs.declared.message.Message.TheVariants as message;
ghost use Rattle.pipes_sweep.specs.Sending.{progress_after, sent_at};
ghost use Rattle.pipes_sweep.specs.Waiting.{StartsRise, due, later};

use crate::Hold;
use pipes_stream::{Elem, Message};
use pipes_time::Memory;
use std::alloc::Global;

// Appends the elements. Out of memory some may have been appended.
fn append_elems(elems: Vec<Elem>, out: &mut Vec<Message>) -> Result<(), Memory>
    ensures appended { OnOk result (out.new.items ≡ out.old.items ++ map message.Elem elems.items) }
    ensures grows { (more : List Sent) × (out.new.items ≡ out.old.items ++ more) }
{
    for elem in elems {
        out.push(Message::Elem(elem))?;
    }
    Ok(())
}

/// Appends how far the list has come, where its elements don't show it: `End` where it has ended,
/// and else a `Beat` where the heartbeat `now` is above `known`. Out of memory nothing is appended.
pub fn append_progress(
    known: u64,
    now: u64,
    ended: bool,
    out: &mut Vec<Message>,
) -> Result<(), Memory>
    ensures appended { OnOk result (out.new.items ≡ out.old.items
        ++ progress_after known now ended) }
    ensures refused { OnErr result (out.new.items ≡ out.old.items) }
{
    if ended {
        out.push(Message::End)?;
        return Ok(());
    }
    if known < now {
        out.push(Message::Beat(now))?;
        return Ok(());
    }
    Ok(())
}

/// Sends the elements that are due at the heartbeat `now`, in order, and then how far that is:
/// `End` where the list has ended, and else a `Beat` where the heartbeat rose from `known`. Out of
/// memory some of it may have been sent.
pub fn send_due(
    alloc: Global,
    hold: &mut Hold,
    known: u64,
    now: u64,
    ended: bool,
    out: &mut Vec<Message>,
) -> Result<(), Memory>
    ensures order { StartsRise (due now hold.old) }
    ensures sent { OnOk result
        (out.new.items ≡ out.old.items ++ sent_at known now ended hold.old) }
    ensures kept { OnOk result (hold.new ≡ later now hold.old) }
    ensures grows { (more : List Sent) × (out.new.items ≡ out.old.items ++ more) }
{
    let mut ready = Vec::new(alloc);
    hold.release(now, &mut ready)?;
    append_elems(ready, out)?;
    append_progress(known, now, ended, out)?;
    Ok(())
}
