// The end that puts.
ghost use Rattle.std.specs.Prelude.{◌≤◌};
ghost use Rattle.rtrb.specs.Ring.{producer_capacity};
ghost use Rattle.pipes_link.specs.declared.TheConstants.{MOST_ROOM};

use rtrb::Producer;

/// No place was free, and the message comes back.
#[derive(Drop, Clone, Copy, Debug, PartialEq, Eq)]
pub struct Full<T>(pub T);

/// The end of a link that puts messages in. It may go to another thread.
#[derive(Drop)]
pub struct Outlet<T> {
    pub(crate) producer: Producer<T>,
    ghost has_places: { 1 ≤ producer_capacity producer },
    ghost bounded: { producer_capacity producer ≤ MOST_ROOM },
}

impl<T: Drop> Outlet<T> {
    ghost use Rattle.std.specs.Prelude.{◌≡◌, ◌+◌, ◌<◌, ◌++◌, ◌∷◌, [], IfErr, OnOk, IsOk};
    ghost use Rattle.pipes_link.specs.Ends.{sent, spare, room_of, SameOutlet, OutletLooks};

    /// The places that are free, by a look at the other end. The inlet may free more at any time.
    pub fn free(&mut self) -> u64
        ensures answer { result ≡ spare self.new }
        ensures within_room { result ≤ room_of self.new }
        ensures bound { result ≤ MOST_ROOM }
        ensures looks { OutletLooks self.old self.new }
        ensures same_link { SameOutlet self.old self.new }
    {
        self.producer.slots() as u64
    }

    /// Puts a message after those put before, unless no place is free: where the outlet knows of
    /// none, it looks first.
    pub fn put(&mut self, message: T) -> Result<(), Full<T>>
        ensures put { OnOk result (sent self.new ≡ sent self.old ++ message ∷ []) }
        ensures succeeds { 0 < spare self.old → IsOk result }
        ensures takes_a_place { 0 < spare self.old → spare self.old ≡ spare self.new + 1 }
        ensures full { IfErr result (λ refused. (refused.0 ≡ message)
            × (sent self.new ≡ sent self.old) × (spare self.new ≡ 0)) }
        ensures same_link { SameOutlet self.old self.new }
    {
        if self.producer.cached_slots() == 0 && self.producer.slots() == 0 {
            return Err(Full(message));
        }
        self.producer.push_reserved(message);
        Ok(())
    }
}
