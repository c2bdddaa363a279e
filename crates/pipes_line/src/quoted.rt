// Lines whose fields are copied.
ghost use Rattle.std.specs.Prelude.{◌≡◌, ◌≢◌, ◌<◌, IfOk, IfSome, OnOk, IsTrue, length, false};
ghost use Rattle.csv.specs.Machine as machine;
ghost use Rattle.csv.specs.Reading.{default_config};
ghost use Rattle.csv.specs.Records.{fields_of};
ghost use Rattle.pipes_line.specs.Content.{single, content_of, Shows};
ghost use Rattle.pipes_line.specs.Fields.{fields_in};
ghost use Rattle.pipes_line.specs.Marks.{may_be_marked};
ghost use Rattle.pipes_line.specs.Walk.{state_of, action_of};

use crate::Record;
use crate::copied::Copied;
use crate::record::Shape;
use csv::{ByteRecord, ReaderBuilder};
use pipes_time::Memory;
use std::alloc::Global;

// Where a walk over a record stands.
#[derive(Clone, Copy, Debug, PartialEq, Eq)]
enum Walk {
    // At the start of the record.
    Record,
    // At the start of a field.
    Field,
    // In a field without quotes, or after the quotes of one.
    Bare,
    // Between quotes.
    Quoted,
    // After a quote that ends the quoted part, unless another follows.
    Quote,
}

// What becomes of a byte.
#[derive(Clone, Copy, Debug, PartialEq, Eq)]
enum Fate {
    Dropped,
    Kept,
    // It ends the field.
    Comma,
}

// One byte further, unless it ends the record.
fn step(walk: Walk, byte: u8) -> Option<(Walk, Fate)>
    ensures begun { IfSome result (λ next. next.0 ≢ Walk.Record) }
    ensures machine { IfSome result (λ next. machine.step default_config (state_of walk) byte ≡
        (state_of next.0, action_of next.1)) }
{
    match walk {
        Walk::Quoted => Some(if byte == b'"' {
            (Walk::Quote, Fate::Dropped)
        } else {
            (Walk::Quoted, Fate::Kept)
        }),
        Walk::Quote if byte == b'"' => Some((Walk::Quoted, Fate::Kept)),
        Walk::Record | Walk::Field if byte == b'"' => Some((Walk::Quoted, Fate::Dropped)),
        _ => match byte {
            b'\r' | b'\n' => None,
            b',' => Some((Walk::Field, Fate::Comma)),
            _ => Some((Walk::Bare, Fate::Kept)),
        },
    }
}

// What a byte does to the fields that were read so far.
fn act(fate: Fate, byte: u8, copied: &mut Copied) -> Result<(), Memory>
    ensures closed { OnOk result (copied.new.closed ≡ machine.fields_after (action_of fate)
        copied.old.closed copied.old.last) }
    ensures last { OnOk result (copied.new.last ≡ machine.field_after (action_of fate) byte
        copied.old.last) }
{
    match fate {
        Fate::Dropped => Ok(()),
        Fate::Kept => copied.push(byte),
        Fate::Comma => copied.close(),
    }
}

impl Record {
    // Copies the fields of a line without their quotes, unless a record ends inside the line.
    pub(crate) fn unquote(&mut self, line: &[u8]) -> Result<bool, Memory>
        requires some { 0 < length line.now }
        requires plain { may_be_marked line.now ≡ false }
        ensures { IfOk result (λ whole. IsTrue whole → content_of line.now ≡ single
            (fields_in self.new line.now)) }
    {
        self.is_copied = true;
        self.copied.clear();
        let mut walk = Walk::Record;
        for byte in line {
            let Some((next, fate)) = step(walk, *byte) else {
                return Ok(false);
            };
            act(fate, *byte, &mut self.copied)?;
            walk = next;
        }
        self.copied.close()?;
        Ok(true)
    }

    // What `csv` itself finds.
    pub(crate) fn read_by_csv(&mut self, line: &[u8]) -> Result<Shape, Memory>
        ensures { IfOk result (λ shape. Shows shape (fields_in self.new line.now)
            (content_of line.now)) }
    {
        let alloc = *self.parts.allocator();
        let mut row = ByteRecord::new(alloc);
        let shape = read_with_csv(alloc, line, &mut row)?;
        self.is_copied = true;
        copy_fields(&row, &mut self.copied)?;
        Ok(shape)
    }
}

// Copies the fields of a record.
fn copy_fields(row: &ByteRecord, copied: &mut Copied) -> Result<(), Memory>
    ensures { OnOk result (copied.new.closed ≡ fields_of row.now) }
{
    copied.clear();
    let mut i = 0;
    'fields: while let Some(field) = row.get(i) {
        copied.append(field)?;
        copied.close()?;
        i += 1;
    }
    Ok(())
}

// Reads a line as an input of its own.
fn read_with_csv(alloc: Global, line: &[u8], row: &mut ByteRecord) -> Result<Shape, Memory>
    ensures { IfOk result (λ shape. Shows shape (fields_of row.new) (content_of line.now)) }
{
    let mut reader = ReaderBuilder::new()
        .has_headers(false)
        .flexible(true)
        .from_reader(alloc, line);
    let Ok(found) = reader.read_byte_record(row) else {
        return Err(Memory);
    };
    if !found {
        return Ok(Shape::Blank);
    }
    let mut other = ByteRecord::new(alloc);
    match reader.read_byte_record(&mut other) {
        Err(_) => Err(Memory),
        Ok(false) => Ok(Shape::Single),
        Ok(true) => Ok(Shape::Several),
    }
}
