// A source's messages on both sides of a split.
ghost use Rattle.std.specs.Prelude.{◌≡◌, IfOk, option_to_list};
ghost use Rattle.pipes_halves.specs.Halves.{IsHalved, low_part, high_part, SplitLaws};
ghost use Rattle.pipes_halves.specs.Halves.{low_opening, high_opening};

use pipes_split::cut;
use pipes_stream::{Elem, Message};
use pipes_time::Memory;

/// What is for the plan before a split, and what for the plan from it on.
#[derive(Debug, Drop)]
pub struct Halves {
    /// For the plan before it.
    pub below: Option<Message>,
    /// For the plan from it on.
    pub from: Option<Message>,
}

// What an element's part before the split tells; where there is none, the source has passed it.
fn below_of(part: Option<Elem>) -> Option<Message>
    ensures { option_to_list result ≡ low_part part }
{
    match part {
        Some(elem) => Some(Message::Elem(elem)),
        None => Some(Message::End),
    }
}

fn from_of(part: Option<Elem>) -> Option<Message>
    ensures { option_to_list result ≡ high_part part }
{
    match part {
        Some(elem) => Some(Message::Elem(elem)),
        None => None,
    }
}

/// A source's message on both sides of the split: an element is cut there; a heartbeat stays below
/// it for the one plan, and at it or above for the other. Once the source has come to the split,
/// that is the end for the plan before it.
pub fn split_message(message: Message, split: u64) -> Result<Halves, Memory>
    ensures { IfOk result (λ h.
        IsHalved split message (option_to_list h.below) (option_to_list h.from)) }
{
    match message {
        Message::Elem(elem) => {
            let (below, from) = cut(elem, split)?;
            Ok(Halves {
                below: below_of(below),
                from: from_of(from),
            })
        }
        Message::Beat(at) => {
            let below = if at < split {
                Message::Beat(at)
            } else {
                Message::End
            };
            Ok(Halves {
                below: Some(below),
                from: Some(Message::Beat(at.max(split))),
            })
        }
        Message::End => Ok(Halves {
            below: Some(Message::End),
            from: Some(Message::End),
        }),
    }
}

/// What comes first on both sides of the split, of a source that has come so far, and has ended or
/// not.
pub fn opening(beat: u64, ended: bool, split: u64) -> Halves
    ensures below { option_to_list result.below ≡ low_opening beat split }
    ensures from { option_to_list result.from ≡ high_opening beat ended split }
{
    let below = if beat < split {
        None
    } else {
        Some(Message::End)
    };
    let from = if ended {
        Message::End
    } else {
        Message::Beat(beat.max(split))
    };
    Halves {
        below,
        from: Some(from),
    }
}

/// What was given on both sides stands for the source's list: a law, and nothing to run.
pub fn splits_up()
    ensures { SplitLaws }
{}
