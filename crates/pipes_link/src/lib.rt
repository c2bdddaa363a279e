//! Links: bounded rings of messages from a single producer to a single consumer. Each end counts by
//! what it has seen of the other.
#![tactic(auto)]

ghost use Rattle.std.specs.Prelude.{◌≡◌, ◌≤◌, ◌+◌, ◌++◌, [], IfOk, OnOk, OnErr};
ghost use Rattle.pipes_link.specs.Ends.{sent, spare, room_of, taken, known, ready, AreEnds};
ghost use Rattle.pipes_link.specs.Ends.{SameOutlet, SameInlet, OutletLooks, InletLooks};
ghost use Rattle.pipes_link.specs.Whole.{LacksWaiting, KeepsWhole};

mod inlet;
mod outlet;

pub use inlet::Inlet;
pub use outlet::{Full, Outlet};
use pipes_time::Memory;
use rtrb::RingBuffer;
use std::alloc::Global;

/// The most messages that a link has room for.
pub const MOST_ROOM: u32 = 65_536;

/// A link with places for `room` messages: a bounded ring of one producer and one consumer, whose
/// ends may go to two threads.
/// No step of either end waits for the other.
pub fn link<T: Send + Drop>(alloc: Global, room: u32) -> Result<(Outlet<T>, Inlet<T>), Memory>
    requires at_least_one { 1 ≤ room }
    requires at_most { room ≤ MOST_ROOM }
    ensures ends { IfOk result (λ r. AreEnds r.0 r.1) }
    ensures room { IfOk result (λ r. room_of r.0 ≡ room) }
    ensures nothing_sent { IfOk result (λ r. (sent r.0 ≡ []) × (taken r.1 ≡ [])) }
    ensures all_free { IfOk result (λ r. (spare r.0 ≡ room) × (ready r.1 ≡ 0)) }
{
    match RingBuffer::new(alloc, room as usize) {
        Ok((producer, consumer)) => Ok((Outlet { producer }, Inlet { consumer })),
        Err(_) => Err(Memory),
    }
}

/// How many messages wait: those put in and not yet taken. Both ends then know each place and each
/// message of the link, so this is for a thread that holds the two.
pub fn settle<T>(outlet: &mut Outlet<T>, inlet: &mut Inlet<T>) -> u64
    requires { AreEnds outlet.old inlet.old }
    ensures answer { result ≡ ready inlet.new }
    ensures bound { result ≤ MOST_ROOM }
    ensures waits { taken inlet.new ++ known inlet.new ≡ sent outlet.new }
    ensures nothing_waits { result ≡ 0 → taken inlet.new ≡ sent outlet.new }
    ensures whole { LacksWaiting outlet.new inlet.new }
    ensures outlet { OutletLooks outlet.old outlet.new }
    ensures inlet { InletLooks inlet.old inlet.new }
    ensures all_known { room_of outlet.new ≤ spare outlet.new + ready inlet.new }
    ensures ends { AreEnds outlet.new inlet.new }
    ensures same_outlet { SameOutlet outlet.old outlet.new }
    ensures same_inlet { SameInlet inlet.old inlet.new }
{
    outlet.producer.slots_beside(&mut inlet.consumer);
    inlet.consumer.slots_beside(&mut outlet.producer) as u64
}

/// Makes the ends those of a new, empty link with as many places, once everything put in was taken.
/// Where memory is refused, the old link stands.
pub fn relink<T: Drop>(
    alloc: Global,
    outlet: &mut Outlet<T>,
    inlet: &mut Inlet<T>,
) -> Result<(), Memory>
    requires ends { AreEnds outlet.old inlet.old }
    requires all_taken { taken inlet.old ≡ sent outlet.old }
    ensures ends { AreEnds outlet.new inlet.new }
    ensures room { room_of outlet.new ≡ room_of outlet.old }
    ensures nothing_sent { OnOk result ((sent outlet.new ≡ []) × (taken inlet.new ≡ [])) }
    ensures all_free { OnOk result ((spare outlet.new ≡ room_of outlet.new)
        × (ready inlet.new ≡ 0)) }
    ensures whole { OnOk result (KeepsWhole outlet.old inlet.old outlet.new inlet.new) }
    ensures memory { OnErr result ((outlet.new ≡ outlet.old) × (inlet.new ≡ inlet.old)) }
{
    match RingBuffer::new(alloc, outlet.producer.capacity()) {
        Ok((producer, consumer)) => {
            outlet.producer = producer;
            inlet.consumer = consumer;
            Ok(())
        }
        Err(_) => Err(Memory),
    }
}
