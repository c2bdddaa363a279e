// What the operators of a plan have in common.
use crate::Message;
use pipes_time::Memory;

/// An operator: it takes messages at its ports, and sends messages.
///
/// It stands for the lists of messages that it took, by port, and for the list that it sent. For
/// those it is lawful: below the heartbeat of what was sent, the snapshots of what was sent are its
/// meaning on the snapshots of what was taken.
pub trait Operator {
    ghost use Rattle.std.specs.Prelude.{◌≡◌, ◌<◌, ◌-◌, ◌^◌, ℕ, Bool, true, false, List, OnOk};
    ghost use Rattle.std.specs.Prelude.{OnErr, IsErr, min};
    ghost use Rattle.std.specs.Bool.{OnTrue};
    ghost use Rattle.pipes_stream.specs.declared.message.Message.{Message as Sent};
    ghost use Rattle.pipes_stream.specs.Lists.{beat};
    ghost use Rattle.pipes_stream.specs.Lawful.{Task, Lists, Takes, Lawful};

    /// What the operator is there for.
    ghost task: { Self → Task };

    /// The operator stands for these lists taken, by port, and for this list sent.
    ghost stands: { Self → Lists → List Sent → Type 0 };

    /// It ran out of memory.
    ghost failed: { Self → Bool };

    /// The number of elements from the ports that it keeps.
    ghost held_count: { Self → ℕ };

    /// The number of ports. Port 0 is the left input.
    fn ports(&self) -> u32
        ensures { result ≡ (task self.now).ports };

    /// Takes a message at a port, and appends the messages that it sends for it. Out of memory,
    /// nothing is appended, and no later message is taken.
    fn take(&mut self, port: u32, message: Message, out: &mut Vec<Message>) -> Result<(), Memory>
        requires { port < (task self.old).ports }
        ensures same_task { task self.new ≡ task self.old }
        ensures takes { OnOk result
            (Takes (task self.old) (stands self.old)
            (stands self.new) port message out.old.items out.new.items) }
        ensures memory { OnErr result (out.new.items ≡ out.old.items) }
        ensures fails { OnErr result (failed self.new ≡ true) }
        ensures stays_failed { OnTrue (failed self.old) (IsErr result) }
        ensures goes_on { OnOk result (failed self.new ≡ false) };

    /// The heartbeat of what was sent.
    fn beat_now(&self) -> u64
        ensures { (taken : Lists) (sent : List Sent) → stands self.now taken sent
            → result ≡ beat sent };

    /// The number of elements from the ports that it keeps, clamped to 64 bits.
    fn held(&self) -> u64
        ensures { result ≡ min (held_count self.now) (2 ^ 64 - 1) };

    ghost lawful: { (op : Self) (taken : Lists) (sent : List Sent) → stands op taken sent
        → Lawful (task op) taken sent (held_count op) };
}
