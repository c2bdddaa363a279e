// The record in a line.
ghost use Rattle.std.specs.Prelude.{◌≡◌, ℕ, List, IfOk, length, option_map, slice_get};
ghost use Rattle.pipes_line.specs.Content.{content_of, Shows};
ghost use Rattle.pipes_line.specs.Fields.{fields_in};
ghost use Rattle.pipes_line.specs.Marks as marks;

use crate::copied::Copied;
use crate::part::{Part, bytes_in};
use pipes_time::Memory;
use std::alloc::Global;

/// How many records a line has.
#[derive(Clone, Copy, Debug, PartialEq, Eq)]
pub enum Shape {
    /// None.
    Blank,
    /// One.
    Single,
    /// More than one.
    Several,
}

/// The fields of one line. The line itself is kept by the caller, who hands it in again: only a
/// line whose fields are not parts of it is copied.
#[derive(Debug, Drop)]
pub struct Record {
    pub(crate) parts: Vec<Part>,
    pub(crate) is_copied: bool,
    pub(crate) copied: Copied,
}

impl Record {
    /// A record of no line. No memory is taken.
    pub fn new(alloc: Global) -> Record {
        Record {
            parts: Vec::new(alloc),
            is_copied: false,
            copied: Copied::new(alloc),
        }
    }

    /// Finds the fields of a line.
    pub fn read(&mut self, line: &[u8]) -> Result<Shape, Memory>
        ensures { IfOk result (λ shape. Shows shape (fields_in self.new line.now)
            (content_of line.now)) }
    {
        if line.is_empty() {
            return Ok(Shape::Blank);
        }
        if !may_be_marked(line) {
            if self.split(line)? || self.unquote(line)? {
                return Ok(Shape::Single);
            }
        }
        self.read_by_csv(line)
    }

    /// How many fields there are.
    pub fn len(&self) -> usize
        ensures { (line : List ℕ) → result ≡ length (fields_in self.now line) }
    {
        if self.is_copied {
            self.copied.len()
        } else {
            self.parts.len()
        }
    }

    /// A field of the line that was read, which is handed in again.
    pub fn field<'a>(&'a self, line: &'a [u8], i: usize) -> Option<&'a [u8]>
        ensures { option_map (λ field. field.now) result ≡ slice_get (fields_in self.now line.now)
            i }
    {
        if self.is_copied {
            return self.copied.get(i);
        }
        let part = *self.parts.get(i)?;
        Some(bytes_in(line, part))
    }
}

// Whether a byte order mark may stand at the start.
fn may_be_marked(line: &[u8]) -> bool
    ensures { result ≡ marks.may_be_marked line.now }
{
    line.first() == Some(&239)
}
