// Messages on their way into a link, and out of it.
ghost use Rattle.std.specs.Prelude.{◌≡◌, ◌≤◌, ◌+◌, ◌⊎◌, [], ◌∷◌, ◌++◌, length};
ghost use Rattle.std.specs.Prelude.{vec_len, vec_capacity};
ghost use Rattle.pipes_link.specs.Ends.{SameInlet, SameOutlet, known, ready, sent, spare, taken};

use pipes_link::{Inlet, Outlet};
use pipes_parcel::Fed;
use std::collections::VecDeque;

// Puts a message. The outlet has room for it.
fn put_known(message: Fed, outlet: &mut Outlet<Fed>)
    requires { 1 ≤ spare outlet.old }
    ensures sent { sent outlet.new ≡ sent outlet.old ++ message ∷ [] }
    ensures places { spare outlet.old ≡ spare outlet.new + 1 }
    ensures link { SameOutlet outlet.old outlet.new }
{
    match outlet.put(message) {
        Ok(()) => {}
        Err(_) => unreachable!(),
    }
}

// Puts the pending messages in their order, as many as one look finds places for.
pub(crate) fn put_pending(pending: &mut VecDeque<Fed>, outlet: &mut Outlet<Fed>)
    ensures whole { sent outlet.new ++ pending.new.items ≡ sent outlet.old ++ pending.old.items }
    ensures full { (pending.new.items ≡ []) ⊎ (spare outlet.new ≡ 0) }
    ensures fewer { (pending.new.items ≡ [])
        ⊎ (length pending.new.items + spare outlet.old ≤ length pending.old.items) }
    ensures link { SameOutlet outlet.old outlet.new }
{
    let room = outlet.free();
    for _ in 0..room {
        let Some(message) = pending.pop_front() else {
            return;
        };
        put_known(message, outlet);
    }
}

/// Takes all messages that are known to wait, in their order. There is room for them.
pub fn take_all(inlet: &mut Inlet<Fed>, out: &mut Vec<Fed>)
    requires room { vec_len out.old + ready inlet.old ≤ vec_capacity out.old }
    ensures taken { taken inlet.new ≡ taken inlet.old ++ known inlet.old }
    ensures appended { out.new.items ≡ out.old.items ++ known inlet.old }
    ensures link { SameInlet inlet.old inlet.new }
{
    'messages: while let Some(message) = inlet.take_known() {
        out.push_reserved(message);
    }
}
