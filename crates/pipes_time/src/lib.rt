//! Instants, half-open intervals of them, and the intervals that windows give.
#![tactic(auto)]

ghost use Rattle.std.specs.Prelude.{◌≡◌, ◌+◌, ◌<◌, IfSome, IsSome, IsTrue, ◌↔◌};
ghost use Rattle.pipes_time.specs.Interval.{IsPart};
ghost use Rattle.pipes_time.specs.Slides as slides;
ghost use Rattle.pipes_time.specs.Slides.{HasSlideSpan, IsDuration, IsInSlide, slide_interval};
ghost use Rattle.pipes_time.specs.Slides.{time_interval};

mod interval;
mod memory;

pub use interval::Interval;
pub use memory::Memory;

/// The number of instants. An instant is a whole number below it; stamps in milliseconds since
/// 1970 fit.
pub const HORIZON: u64 = 1_000_000_000_000_000;

/// The heartbeat of a stream that has ended: above every instant and above every end of an
/// interval.
pub const CLOSED: u64 = HORIZON + 1;

/// Whether a window may be so many instants long: 1 to [`HORIZON`].
pub fn is_duration(size: u64) -> bool
    ensures { IsTrue result ↔ IsDuration size }
{
    1 <= size && size <= HORIZON
}

/// The interval that a time window of this size gives a row with this stamp, clipped at
/// [`HORIZON`].
pub fn time_span(stamp: u64, size: u64) -> Option<Interval>
    ensures exact { IsSome result ↔ ((stamp < HORIZON) × (0 < size)) }
    ensures value { IfSome result (λ span. span ≡ time_interval stamp size) }
{
    Interval::new(stamp, stamp.saturating_add(size).min(HORIZON))
}

/// The last multiple of the slide at or before an instant, 0 where the slide is 0.
pub fn last_slide(t: u64, slide: u64) -> u64
    ensures { result ≡ slides.last_slide slide t }
{
    match t.checked_div(slide) {
        Some(turns) => turns * slide,
        None => 0,
    }
}

/// The first multiple of the slide at or after an instant.
#[tactic(auto, using(crate::proofs::Slides::slide_bound))]
pub fn next_slide(t: u64, slide: u64) -> u64
    requires below { t < HORIZON + HORIZON }
    requires slide { IsDuration slide }
    ensures { result ≡ slides.next_slide slide t }
{
    t.div_ceil(slide) * slide
}

/// The interval that a sliding window of this size gives a row with this stamp: from the first
/// multiple of the slide at or after the stamp up to the first at or after `stamp + size`, clipped
/// at [`HORIZON`]. There is none where the stamp is no instant, a size or slide is not 1 to
/// [`HORIZON`], or the interval would be empty.
pub fn slide_span(stamp: u64, size: u64, slide: u64) -> Option<Interval>
    ensures exact { IsSome result ↔ HasSlideSpan stamp size slide }
    ensures value { IfSome result (λ span. span ≡ slide_interval stamp size slide) }

    // At each instant it holds the row where the window's last move has it.
    ensures instants { IsDuration size → IsDuration slide
        → IsPart result (IsInSlide stamp size slide) }
{
    if stamp >= HORIZON || !is_duration(size) || !is_duration(slide) {
        return None;
    }
    let end = next_slide(stamp + size, slide).min(HORIZON);
    Interval::new(next_slide(stamp, slide), end)
}
