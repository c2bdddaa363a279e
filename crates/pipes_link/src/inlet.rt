// The end that takes.
ghost use Rattle.std.specs.Prelude.{◌≤◌};
ghost use Rattle.rtrb.specs.Ring.{consumer_capacity};
ghost use Rattle.pipes_link.specs.declared.TheConstants.{MOST_ROOM};

use rtrb::Consumer;

/// The end of a link that takes messages out. It may go to another thread.
#[derive(Drop)]
pub struct Inlet<T> {
    pub(crate) consumer: Consumer<T>,
    ghost bounded: { consumer_capacity consumer ≤ MOST_ROOM },
}

impl<T: Drop> Inlet<T> {
    ghost use Rattle.std.specs.Prelude.{◌≡◌, ◌+◌, ◌<◌, ◌++◌, ◌∷◌, [], IfSome, IsSome, IfNone};
    ghost use Rattle.pipes_link.specs.Ends.{taken, known, ready, SameInlet, InletLooks};

    /// The messages that wait, by a look at the other end. The outlet may put in more at any time.
    pub fn waiting(&mut self) -> u64
        ensures answer { result ≡ ready self.new }
        ensures bound { result ≤ MOST_ROOM }
        ensures looks { InletLooks self.old self.new }
        ensures same_link { SameInlet self.old self.new }
    {
        self.consumer.slots() as u64
    }

    /// The messages that are known to wait, without a look at the other end.
    pub fn known_count(&self) -> u64
        ensures answer { result ≡ ready self.now }
        ensures bound { result ≤ MOST_ROOM }
    {
        self.consumer.cached_slots() as u64
    }

    /// Takes the oldest message that waits, unless none does: where the inlet knows of none, it
    /// looks first.
    pub fn take(&mut self) -> Option<T>
        ensures took { IfSome result (λ message. taken self.new ≡ taken self.old ++ message ∷ []) }
        ensures succeeds { 0 < ready self.old → IsSome result }
        ensures oldest { 0 < ready self.old
            → IfSome result (λ message. known self.old ≡ message ∷ known self.new) }
        ensures takes_one { 0 < ready self.old → ready self.old ≡ ready self.new + 1 }
        ensures none { IfNone result ((taken self.new ≡ taken self.old) × (ready self.new ≡ 0)) }
        ensures same_link { SameInlet self.old self.new }
    {
        if self.consumer.cached_slots() == 0 && self.consumer.slots() == 0 {
            return None;
        }
        self.take_known()
    }

    /// Takes the oldest message that is known to wait, unless none is, without a look at the other
    /// end. So what is taken was put in before the last look.
    pub fn take_known(&mut self) -> Option<T>
        ensures took { IfSome result (λ message. taken self.new ≡ taken self.old ++ message ∷ []) }
        ensures oldest { IfSome result (λ message. known self.old ≡ message ∷ known self.new) }
        ensures none { IfNone result ((self.new ≡ self.old) × (ready self.old ≡ 0)) }
        ensures same_link { SameInlet self.old self.new }
    {
        if self.consumer.cached_slots() == 0 {
            return None;
        }
        Some(self.consumer.pop_known())
    }
}
