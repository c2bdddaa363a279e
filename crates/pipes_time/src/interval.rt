// Half-open intervals of instants.
ghost use Rattle.std.specs.Prelude.{◌≡◌, ◌<◌, ◌≤◌, IfSome, IsSome, IsTrue, ◌↔◌};
ghost use Rattle.pipes_time.specs.Interval.{Holds, IsInterval, IsPart};

use crate::HORIZON;
use std::marker::Model;

/// The instants from `start` on and before `end`: never empty, and never past [`HORIZON`].
#[derive(Clone, Copy, Debug, PartialEq, Eq)]
pub struct Interval {
    start: u64,
    end: u64,
}

impl Model for Interval {
    ghost use Rattle.pipes_time.specs.Interval.{Span, IsInterval};

    ghost Value = { Span };

    ghost view = { λ i. record { start = i.start; end = i.end } };

    ghost inverse = { λ v. record { start = v.start; end = v.end } };

    ghost invariant = { λ i. IsInterval i.start i.end };
}

impl Interval {
    /// The interval with these ends, unless it would be empty or reach past [`HORIZON`].
    pub fn new(start: u64, end: u64) -> Option<Interval>
        ensures exact { IsSome result ↔ IsInterval start end }
        ensures value { IfSome result (λ i. i ≡ record { start = start; end = end }) }
    {
        if start < end && end <= HORIZON {
            Some(Interval { start, end })
        } else {
            None
        }
    }

    /// The first instant.
    pub fn start(&self) -> u64
        ensures value { result ≡ self.now.start }
        ensures below_end { result < self.now.end }
    {
        self.start
    }

    /// The instant after the last, at most [`HORIZON`].
    pub fn end(&self) -> u64
        ensures value { result ≡ self.now.end }
        ensures above_start { self.now.start < result }
        ensures bound { result ≤ HORIZON }
    {
        self.end
    }

    /// Whether the instant lies in the interval.
    pub fn holds(&self, t: u64) -> bool
        ensures { IsTrue result ↔ Holds self.now t }
    {
        self.start <= t && t < self.end
    }

    /// The instants of both. Intervals that only touch have none.
    pub fn overlap(&self, other: &Interval) -> Option<Interval>
        ensures { IsPart result (λ t. Holds self.now t × Holds other.now t) }
    {
        Interval::new(self.start.max(other.start), self.end.min(other.end))
    }

    /// The instants before `t`.
    pub fn below(&self, t: u64) -> Option<Interval>
        ensures { IsPart result (λ u. Holds self.now u × (u < t)) }
    {
        Interval::new(self.start, self.end.min(t))
    }

    /// The instants from `t` on.
    pub fn above(&self, t: u64) -> Option<Interval>
        ensures { IsPart result (λ u. Holds self.now u × (t ≤ u)) }
    {
        Interval::new(self.start.max(t), self.end)
    }
}
