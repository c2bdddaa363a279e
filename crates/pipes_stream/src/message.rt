// The messages of a stream.
ghost use Rattle.std.specs.Prelude.{◌≡◌, IfOk};

use crate::Elem;
use pipes_time::Memory;

/// A message of a stream. A stream is a list of messages whose heartbeat never falls.
#[derive(Debug, PartialEq, Eq, Drop)]
pub enum Message {
    /// An element, which starts at or above the heartbeat.
    Elem(Elem),
    /// The heartbeat from here on: no later element starts below it.
    Beat(u64),
    /// The last message: nothing follows.
    End,
}

impl Message {
    /// A message equal to this one.
    pub fn copy(&self) -> Result<Message, Memory>
        ensures { IfOk result (λ message. message ≡ self.now) }
    {
        match self {
            Message::Elem(elem) => Ok(Message::Elem(elem.copy()?)),
            Message::Beat(at) => Ok(Message::Beat(*at)),
            Message::End => Ok(Message::End),
        }
    }
}
