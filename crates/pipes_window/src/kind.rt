// The kinds of windows.
ghost use Rattle.std.specs.Prelude.{◌↔◌, IsTrue};

use pipes_time::is_duration;

/// How long a row is valid.
#[derive(Clone, Copy, Debug, PartialEq, Eq)]
pub enum WindowKind {
    /// For so many instants from the row's stamp on.
    Time(u64),
    /// A size and a slide: as a time window of this size, but looked at only at the multiples of
    /// the slide, and the same until the next of them.
    Slide(u64, u64),
    /// Until so many later rows of the source have come.
    Count(u32),
}

impl WindowKind {
    ghost use Rattle.pipes_window.specs.Windows.{IsWindow};

    /// Whether each size is within its limits: 1 to [`pipes_time::HORIZON`] instants, 1 to
    /// 1,000,000 rows.
    pub fn is_within_limits(self) -> bool
        ensures { IsTrue result ↔ IsWindow self }
    {
        match self {
            WindowKind::Time(size) => is_duration(size),
            WindowKind::Slide(size, slide) => is_duration(size) && is_duration(slide),
            WindowKind::Count(rows) => 1 <= rows && rows <= 1_000_000,
        }
    }
}
