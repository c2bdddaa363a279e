// On which side of a split a message lies.
ghost use Rattle.std.specs.Prelude.{◌≡◌, ◌↔◌, IsTrue};
ghost use Rattle.pipes_moving.specs.Steps.{beat_below, beat_from};
ghost use Rattle.pipes_coalesce.specs.Stands.{EndsBy, StartsFromSplit};

use pipes_stream::Message;

// Whether an element ends at or below the split; other messages lie nowhere.
pub(crate) fn ends_by(message: &Message, split: u64) -> bool
    ensures { IsTrue result ↔ EndsBy split message.now }
{
    match message {
        Message::Elem(elem) => elem.span.end() <= split,
        Message::Beat(_) => true,
        Message::End => true,
    }
}

// Whether an element starts at or above the instant.
pub(crate) fn starts_from(message: &Message, low: u64) -> bool
    ensures { IsTrue result ↔ StartsFromSplit low message.now }
{
    match message {
        Message::Elem(elem) => low <= elem.span.start(),
        Message::Beat(_) => true,
        Message::End => true,
    }
}

// What the old plan is told of a heartbeat of a source: nothing comes to it from the split on.
pub(crate) fn beat_below(split: u64, at: u64) -> Message
    ensures { result ≡ beat_below split at }
{
    if split <= at {
        Message::End
    } else {
        Message::Beat(at)
    }
}

// What the fresh plan is told of it: nothing comes to it below the split.
pub(crate) fn beat_from(split: u64, at: u64, ended: bool) -> Message
    ensures { result ≡ beat_from split at ended }
{
    if ended {
        Message::End
    } else {
        Message::Beat(split.max(at))
    }
}
