// A watch over a list of messages.
ghost use Rattle.std.specs.Prelude.{◌≡◌, ◌↔◌, ◌≤◌, IsTrue};
ghost use Rattle.std.specs.Bool.{OnFalse};
ghost use Rattle.pipes_time.specs.Interval.{IsInterval};
ghost use Rattle.pipes_stream.specs.Lists.{CanFollow, after, start_of_list};

use crate::{Elem, Message};
use pipes_time::CLOSED;
use std::marker::Model;

/// How far a list of messages has come, and so which messages may follow.
#[derive(Clone, Copy, Debug)]
pub struct Watch {
    beat: u64,
    ended: bool,
}

impl Model for Watch {
    ghost use Rattle.pipes_stream.specs.Progress.{Progress};

    ghost Value = { Progress };

    ghost view = { λ w. record { beat = w.beat; ended = w.ended } };

    ghost inverse = { λ p. record { beat = p.beat; ended = p.ended } };
}

// The start of an element, whose span is an interval.
fn start_of(elem: &Elem) -> u64
    ensures value { result ≡ elem.now.span.start }
    ensures interval { IsInterval elem.now.span.start elem.now.span.end }
{
    let _end = elem.span.end();
    elem.span.start()
}

impl Watch {
    // To this heartbeat, unless it lies below.
    fn rise(&mut self, at: u64) -> bool
        ensures exact { IsTrue result ↔ (self.old.beat ≤ at) }
        ensures follows { (self.old.beat ≤ at)
            → self.new ≡ record { beat = at; ended = self.old.ended } }
        ensures refuses { OnFalse result (self.new ≡ self.old) }
    {
        if at < self.beat {
            return false;
        }
        self.beat = at;
        true
    }

    /// At the start of a list.
    pub fn new() -> Watch
        ensures { result ≡ start_of_list }
    {
        Watch {
            beat: 0,
            ended: false,
        }
    }

    /// Whether the list is still valid with this message after it. If so the watch moves past the
    /// message, and else it does not change.
    pub fn step(&mut self, message: &Message) -> bool
        ensures exact { IsTrue result ↔ CanFollow self.old message.now }
        ensures follows { CanFollow self.old message.now → self.new ≡ after self.old message.now }
        ensures refuses { OnFalse result (self.new ≡ self.old) }
    {
        if self.ended {
            return false;
        }
        match message {
            Message::Elem(elem) => self.rise(start_of(elem)),
            Message::Beat(at) => {
                if *at > CLOSED {
                    return false;
                }
                self.rise(*at)
            }
            Message::End => {
                self.beat = CLOSED;
                self.ended = true;
                true
            }
        }
    }

    /// The heartbeat of the list: no later element starts below it.
    pub fn beat_now(&self) -> u64
        ensures { result ≡ self.now.beat }
    {
        self.beat
    }

    /// Whether the list has ended.
    pub fn is_ended(&self) -> bool
        ensures { result ≡ self.now.ended }
    {
        self.ended
    }
}
