// A port of a node: where messages come from a link, and are tested.
ghost use Rattle.std.specs.Prelude.{◌≡◌, ◌≤◌, ◌↔◌, IsTrue, IfSome, IfNone, length};
ghost use Rattle.std.specs.Bool.{OnTrue, OnFalse};
ghost use Rattle.pipes_stream.specs.Lists.{after};
ghost use Rattle.pipes_stream.specs.Lawful.{MessageFits};
ghost use Rattle.pipes_link.specs.Ends.{ready};
ghost use Rattle.pipes_node.specs.Passing.{MayPass};
ghost use Rattle.pipes_node.specs.Nodes.{total_ready};

use pipes_link::Inlet;
use pipes_stream::{Message, Watch};
use pipes_tuple::Schema;

/// The end of a link that a node takes from, with the test of its messages: a message from another
/// thread is known by its type alone.
#[derive(Drop)]
pub struct Port {
    pub inlet: Inlet<Message>,
    pub watch: Watch,
    pub schema: Schema,
    // The place of the node whose outlet is the other end.
    pub child: usize,
}

// Whether the message's tuple, if it has one, is of the schema.
fn message_fits(message: &Message, schema: &Schema) -> bool
    ensures { IsTrue result ↔ MessageFits message.now schema.now }
{
    match message {
        Message::Elem(elem) => elem.tuple.fits(schema),
        Message::Beat(_) => true,
        Message::End => true,
    }
}

// Whether the message may come; the watch moves past it if so.
fn passes(watch: &mut Watch, schema: &Schema, message: &Message) -> bool
    ensures moves { OnTrue result (MayPass schema.now watch.old message.now) }
    ensures after { OnTrue result (watch.new ≡ after watch.old message.now) }
    ensures refuses { OnFalse result (MayPass schema.now watch.old message.now → ⊥) }
    ensures stays { OnFalse result (watch.new ≡ watch.old) }
{
    if !message_fits(message, schema) {
        return false;
    }
    watch.step(message)
}

impl Port {
    ghost use Rattle.pipes_node.specs.Nodes.{PortTakes};

    /// Takes the oldest message that is known to wait, and tells whether it passed the test.
    pub fn take(&mut self) -> Option<(Message, bool)>
        ensures took { IfSome result (λ r. PortTakes self.old self.new r.0 r.1) }
        ensures none { IfNone result (self.new ≡ self.old) }
        ensures none_known { IfNone result (ready self.old.inlet ≡ 0) }
    {
        let message = self.inlet.take_known()?;
        let passed = passes(&mut self.watch, &self.schema, &message);
        Some((message, passed))
    }
}

// How many messages are known to wait at the ports, which are at most two.
pub(crate) fn total_known(ports: &[Port]) -> u64
    requires { length ports.now ≤ 2 }
    ensures value { result ≡ total_ready ports.now }
    ensures bound { result ≤ 131072 }
{
    let mut known: u64 = 0;
    for port in ports {
        known += port.inlet.known_count();
    }
    known
}
