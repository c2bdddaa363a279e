// What a source gives, put into the plan at work.
ghost use Rattle.std.specs.Prelude.{◌≡◌, ◌<◌, ◌∷◌, ◌++◌, [], map, OnOk};
ghost use Rattle.pipes_stream.specs.declared.message.Message.TheVariants as message;
ghost use Rattle.pipes_works.specs.Standing.{IsWhole, source_count};
ghost use Rattle.pipes_intake.specs.Giving.{messages_of};
ghost use Rattle.pipes_inline.specs.Standing.{CanPutAll, PutsAll};

use pipes_edge::Gate;
use pipes_intake::Step;
use pipes_stream::{Elem, Message};
use pipes_time::Memory;
use pipes_works::Works;
use std::thread::Threads;

// Puts elements of a source, one after another.
fn put_elems<R: Threads + Sync, G: Gate>(
    works: &mut Works,
    rt: &R,
    gate: &G,
    source: u32,
    elems: Vec<Elem>,
    top: &mut Vec<Message>,
) -> Result<(), Memory>
    requires whole { IsWhole works.old }
    requires in_range { source < source_count works.old }
    requires can { CanPutAll works.old source (map message.Elem elems.items) }
    ensures whole { IsWhole works.new }
    ensures count { source_count works.new ≡ source_count works.old }
    ensures puts { OnOk result (PutsAll works.old works.new source (map message.Elem elems.items)
        top.old.items top.new.items) }
{
    'elems: for elem in elems {
        works.put(rt, gate, source, Message::Elem(elem), top)?;
    }
    Ok(())
}

/// Puts what a turn of a source gave: its elements, and then its last message.
pub(crate) fn put_step<R: Threads + Sync, G: Gate>(
    works: &mut Works,
    rt: &R,
    gate: &G,
    source: u32,
    step: Step,
    top: &mut Vec<Message>,
) -> Result<(), Memory>
    requires whole { IsWhole works.old }
    requires in_range { source < source_count works.old }
    requires can { CanPutAll works.old source (messages_of step) }
    ensures whole { IsWhole works.new }
    ensures count { source_count works.new ≡ source_count works.old }
    ensures puts { OnOk result (PutsAll works.old works.new source (messages_of step)
        top.old.items top.new.items) }
{
    let Step { elems, last } = step;
    put_elems(works, rt, gate, source, elems, top)?;
    works.put(rt, gate, source, last, top)
}
