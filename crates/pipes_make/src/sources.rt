// The texts of two sources.
ghost use Rattle.std.specs.Prelude.{◌≡◌, ◌≤◌, ◌<◌, ◌+◌, ◌^◌, ◌++◌, [], IfOk, OnOk};
ghost use Rattle.pipes_time.specs.Rising.{RisesBy};
ghost use Rattle.pipes_make.specs.Draws.{rows_of, row_from, after_row};
ghost use Rattle.pipes_make.specs.Made.{row_seen};
ghost use Rattle.pipes_make.specs.Sources.{bids_text, asks_text, bid_line, ask_line, row_line, header};

use crate::draws::{Draws, Row};
use pipes_time::Memory;
use pipes_tuple::{append, append_number};
use std::alloc::Global;

/// The most rows of both sources together.
pub const MOST_ROWS: u64 = 1_000_000;

/// The texts of the two sources: a header, and a line for each row.
#[derive(Drop)]
pub struct Sources {
    /// Of `bids.csv`.
    pub bids: Vec<u8>,
    /// Of `asks.csv`.
    pub asks: Vec<u8>,
}

/// The sources that the seed makes, of so many rows, each of which goes to one of the two. Their
/// stamps never fall.
pub fn make_sources(alloc: Global, seed: u64, rows: u64) -> Result<Sources, Memory>
    requires { rows ≤ MOST_ROWS }
    ensures ordered { RisesBy (λ r. r.stamp) 0 (rows_of seed rows) }
    ensures bids { IfOk result (λ s. s.bids.items ≡ bids_text (rows_of seed rows)) }
    ensures asks { IfOk result (λ s. s.asks.items ≡ asks_text (rows_of seed rows)) }
{
    let mut draws = Draws {
        state: seed,
        stamp: 0,
    };
    let mut sources = empty_sources(alloc)?;
    let mut left = rows;
    'rows: while 0 < left {
        add_row(&mut draws, &mut sources)?;
        left -= 1;
    }
    Ok(sources)
}

fn empty_sources(alloc: Global) -> Result<Sources, Memory>
    ensures bids { IfOk result (λ s. s.bids.items ≡ bids_text []) }
    ensures asks { IfOk result (λ s. s.asks.items ≡ asks_text []) }
{
    let bids = header(alloc)?;
    let asks = header(alloc)?;
    Ok(Sources { bids, asks })
}

fn header(alloc: Global) -> Result<Vec<u8>, Memory>
    ensures { IfOk result (λ text. text.items ≡ header) }
{
    let mut text = Vec::new(alloc);
    append(b"at,item,price\n", &mut text)?;
    Ok(text)
}

// Appends the next row to its source.
fn add_row(draws: &mut Draws, sources: &mut Sources) -> Result<(), Memory>
    requires { draws.old.stamp + 3 < 2 ^ 64 }
    ensures state { draws.new.state ≡ after_row draws.old.state }
    ensures stamp { draws.new.stamp ≡ (row_from draws.old.state draws.old.stamp).stamp }
    ensures near { draws.new.stamp ≤ draws.old.stamp + 3 }
    ensures bids { OnOk result (sources.new.bids.items ≡ sources.old.bids.items
        ++ bid_line (row_from draws.old.state draws.old.stamp)) }
    ensures asks { OnOk result (sources.new.asks.items ≡ sources.old.asks.items
        ++ ask_line (row_from draws.old.state draws.old.stamp)) }
{
    let row = draws.next_row();
    if row.is_ask {
        push_row(&row, &mut sources.asks)
    } else {
        push_row(&row, &mut sources.bids)
    }
}

fn push_row(row: &Row, text: &mut Vec<u8>) -> Result<(), Memory>
    ensures { OnOk result (text.new.items ≡ text.old.items ++ row_line (row_seen row.now)) }
{
    append_number(row.stamp, text)?;
    append(b",", text)?;
    append_number(row.item, text)?;
    append(b",", text)?;
    append_number(row.price, text)?;
    append(b"\n", text)?;
    Ok(())
}
