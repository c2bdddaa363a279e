// Draws, each from the state that the one before left.
ghost use Rattle.std.specs.Prelude.{◌≡◌, ◌<◌, ◌≤◌, ◌+◌, ◌^◌};
ghost use Rattle.pipes_make.specs.Draws as draw;
ghost use Rattle.pipes_make.specs.Draws.{stepped, drawn, after_row, row_from};
ghost use Rattle.pipes_make.specs.Made.{row_seen};

/// A row, and whether it is of the asks, or else of the bids.
#[derive(Drop)]
pub(crate) struct Row {
    pub(crate) stamp: u64,
    pub(crate) is_ask: bool,
    pub(crate) item: u64,
    pub(crate) price: u64,
}

/// The state of draws, and the stamp of the last row.
#[derive(Drop)]
pub(crate) struct Draws {
    pub(crate) state: u64,
    pub(crate) stamp: u64,
}

impl Draws {
    /// The next row: its stamp is at most three above the last one.
    pub(crate) fn next_row(&mut self) -> Row
        requires { self.old.stamp + 3 < 2 ^ 64 }
        ensures row { row_seen result ≡ row_from self.old.state self.old.stamp }
        ensures state { self.new.state ≡ after_row self.old.state }
        ensures stamp { self.new.stamp ≡ result.stamp }
        ensures near { self.new.stamp ≤ self.old.stamp + 3 }
    {
        self.stamp += self.draw(4);
        let is_ask = self.draw(2) == 1;
        let item = self.draw(20);
        let price = self.draw(100);
        Row {
            stamp: self.stamp,
            is_ask,
            item,
            price,
        }
    }

    // One of the first so many numbers.
    fn draw(&mut self, of: u64) -> u64
        requires { 0 < of }
        ensures state { self.new.state ≡ stepped self.old.state }
        ensures drawn { result ≡ drawn of self.new.state }
        ensures below { result < of }
        ensures stamp { self.new.stamp ≡ self.old.stamp }
    {
        self.state = self
            .state
            .wrapping_mul(6_364_136_223_846_793_005)
            .wrapping_add(1_442_695_040_888_963_407);
        (self.state >> 33) % of
    }
}
