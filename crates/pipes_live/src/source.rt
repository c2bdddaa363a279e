// The sources of a query: how far each has come, and the kinds of its tuples.
ghost use Rattle.std.specs.Prelude.{◌≡◌, IfOk, ◌↔◌, IsTrue, min, length, List};
ghost use Rattle.pipes_tuple.specs.declared.value.Kind.{Kind};
ghost use Rattle.pipes_stream.specs.Lists.{after};
ghost use Rattle.pipes_stream.specs.Lawful.{MessageFits, no_messages, Lists, least};
ghost use Rattle.pipes_node.specs.Passing.{MayPass};
ghost use Rattle.pipes_live.specs.Lives.{AreSources};

use pipes_plan::Schemas;
use pipes_stream::{Message, Watch};
use pipes_time::{CLOSED, Memory};
use pipes_tuple::Schema;
use std::alloc::Global;

/// A source of a query.
#[derive(Drop)]
pub struct Source {
    pub(crate) watch: Watch,
    pub(crate) schema: Schema,
}

// Whether the message's tuple, if it has one, is of the schema.
fn message_fits(message: &Message, schema: &Schema) -> bool
    ensures { IsTrue result ↔ MessageFits message.now schema.now }
{
    match message {
        Message::Elem(elem) => elem.tuple.fits(schema),
        Message::Beat(_) => true,
        Message::End => true,
    }
}

impl Source {
    // Whether the message may come next.
    pub(crate) fn may_come(&self, message: &Message) -> bool
        ensures { IsTrue result ↔ MayPass self.now.schema self.now.watch message.now }
    {
        if !message_fits(message, &self.schema) {
            return false;
        }
        let mut watch = self.watch;
        watch.step(message)
    }

    // The message came, which may come next.
    pub(crate) fn note(&mut self, message: &Message)
        requires { MayPass self.old.schema self.old.watch message.now }
        ensures { self.new ≡ record {
          watch = after self.old.watch message.now;
          schema = self.old.schema;
        } }
    {
        self.watch.step(message);
    }
}

// The sources of these schemas, from which nothing came.
pub(crate) fn sources_of(alloc: Global, schemas: &Schemas) -> Result<Vec<Source>, Memory>
    ensures { IfOk result (λ sources. AreSources schemas.now no_messages sources.items) }
{
    let mut sources = Vec::new(alloc);
    for source in 0..schemas.as_slice().len() {
        let schema = schemas.as_slice()[source].copy()?;
        sources.push(Source {
            watch: Watch::new(),
            schema,
        })?;
    }
    Ok(sources)
}

// The lesser of two heartbeats.
fn lesser(a: u64, b: u64) -> u64
    ensures { result ≡ min b a }
{
    b.min(a)
}

// The least heartbeat of these sources, `CLOSED` where there are none.
pub(crate) fn least_beat(sources: &[Source]) -> u64
    ensures { (schemas : List (List Kind)) (by_source : Lists)
        → AreSources schemas by_source sources.now
        → result ≡ least (length sources.now) by_source }
{
    let mut least = CLOSED;
    for source in 0..sources.len() {
        least = lesser(least, sources[source].watch.beat_now());
    }
    least
}
