// Periods, in which a tuple has one number of copies.
ghost use Rattle.std.specs.Prelude.{◌≡◌, ◌++◌, take, flat_map, vec_len, OnOk, OnErr};
ghost use Rattle.pipes_output.specs.NormalText.{period_cmp, period_line};

use crate::write::{push_fields, push_numbers};
use pipes_time::Memory;
use pipes_tuple::{Tuple, all_or_nothing};
use std::cmp::Ordering;
use std::marker::Model;

/// An interval in which a tuple has one number of copies: a line of the normal text.
#[derive(Debug, Drop)]
pub struct Period<'a> {
    start: u64,
    end: u64,
    copies: u64,
    tuple: &'a Tuple,
}

impl<'a> Model for Period<'a> {
    ghost use Rattle.pipes_output.specs.Periods.{Period as Seen};

    ghost Value = { Seen };

    ghost view = { λ p.
        record { start = p.start; end = p.end; copies = p.copies; tuple = p.tuple.now } };
}

impl<'a> Period<'a> {
    /// The period of the tuple from `start` on and before `end`, with so many copies.
    pub fn new(start: u64, end: u64, copies: u64, tuple: &'a Tuple) -> Period<'a>
        ensures { result ≡ record { start = start; end = end; copies = copies; tuple = tuple.now } }
    {
        Period {
            start,
            end,
            copies,
            tuple,
        }
    }

    // By start, then by end, then by tuple.
    pub(crate) fn order(&self, other: &Period<'_>) -> Ordering
        ensures { result ≡ period_cmp self.now other.now }
    {
        match self.start.cmp(&other.start) {
            Ordering::Equal => match self.end.cmp(&other.end) {
                Ordering::Equal => self.tuple.cmp(other.tuple),
                order => order,
            },
            order => order,
        }
    }

    /// Appends the period's line, with its line feed.
    pub fn print(&self, out: &mut Vec<u8>) -> Result<(), Memory>
        ensures ok { OnOk result (out.new.items ≡ out.old.items ++ period_line self.now) }
        ensures err { OnErr result (out.new.items ≡ out.old.items) }
    {
        let before = out.len();
        let tried = push_line(self, out);
        all_or_nothing(tried, before, out)
    }
}

// Appends the period's line.
fn push_line(period: &Period, out: &mut Vec<u8>) -> Result<(), Memory>
    ensures ok { OnOk result (out.new.items ≡ out.old.items ++ period_line period.now) }
    ensures err { OnErr result (take (vec_len out.old) out.new.items ≡ out.old.items) }
{
    out.push(b'=')?;
    push_numbers(&[period.start, period.end, period.copies], out)?;
    push_fields(period.tuple.as_slice(), out)?;
    out.push(b'\n')?;
    Ok(())
}

// Appends the lines of the periods.
pub(crate) fn push_lines(periods: &[Period<'_>], out: &mut Vec<u8>) -> Result<(), Memory>
    ensures ok { OnOk result (out.new.items ≡ out.old.items ++ flat_map period_line periods.now) }
    ensures err { OnErr result (take (vec_len out.old) out.new.items ≡ out.old.items) }
{
    'periods: for period in periods {
        push_line(period, out)?;
    }
    Ok(())
}
