// Entries on their way out.
ghost use Rattle.std.specs.Prelude.{◌≡◌, ◌≤◌, ◌++◌, [], List, ℕ, Option, Err, OnOk, OnErr, IsErrOf};
ghost use Rattle.std.specs.Io.KnownBytes.{Appends};
ghost use Rattle.pipes_edge.specs.Causes.{Rose};
ghost use Rattle.pipes_buffer.specs.Pieces.{AppendsPrefix, AppendsShort, PassesOn};
ghost use Rattle.pipes_output.specs.Lines.{line, IsEntry};
ghost use Rattle.pipes_writer.specs.Wrote.{AddsResult};
ghost use Rattle.pipes_buffer.specs.declared.IoFault.TheVariants as fault;

use crate::typed::look_at;
use pipes_buffer::{IoFault, write_all, write_if_full};
use pipes_edge::Sink;
use pipes_output::{Entry, Form};
use pipes_settled::Settled;
use std::alloc::Global;

/// Entries on their way out: a line each in the stream form; in the normal form the lines of the
/// normal text, as soon as each is certain.
#[derive(Drop)]
pub struct Writer {
    pub(crate) waiting: Waiting,
}

/// What waits: text that was not written yet, and in the normal form the results whose lines aren't
/// certain yet.
#[derive(Drop)]
pub(crate) enum Waiting {
    Stream(Vec<u8>),
    Normal(Settled, Vec<u8>),
}

impl Writer {
    ghost use Rattle.pipes_writer.specs.Wrote.{form_of, Wrote, PutsOne, StopsAt, Passes, StopsPast};
    ghost use Rattle.pipes_writer.specs.Wrote.{Completes, StopsBefore};

    /// No entry came.
    pub fn new(alloc: Global, form: Form) -> Writer
        ensures form { form_of result ≡ form }
        ensures wrote { (written : Option (List ℕ)) → Wrote written written result [] 0 }
    {
        match form {
            Form::Stream => Writer {
                waiting: Waiting::Stream(Vec::new(alloc)),
            },
            Form::Normal => Writer {
                waiting: Waiting::Normal(Settled::new(alloc), Vec::new(alloc)),
            },
        }
    }

    /// One entry more. In the stream form its line waits, and is written with others once a buffer
    /// is full.
    pub fn put<K: Sink>(&mut self, entry: Entry, out: &mut K) -> Result<(), IoFault>
        ensures typed { IsEntry entry }
        ensures form { form_of self.new ≡ form_of self.old }
        ensures ok { OnOk result
            (PutsOne (K.written out.old) (K.written out.new) self.old self.new entry) }
        ensures err { OnErr result
            (StopsAt (K.written out.old) (K.written out.new) self.old entry) }
        ensures later { K.faults out.old ≤ K.faults out.new }
        ensures cause { IsErrOf result IoFault.Failed → Rose (K.faults out.old) (K.faults out.new) }
    {
        look_at(&entry);
        match &mut self.waiting {
            Waiting::Stream(text) => put_line(text, &entry, out),
            Waiting::Normal(settled, _) => add_result(settled, entry),
        }
    }

    /// No later result starts below the instant: writes what waits, and in the normal form what is
    /// certain then.
    pub fn pass<K: Sink>(&mut self, h: u64, out: &mut K) -> Result<(), IoFault>
        ensures form { form_of self.new ≡ form_of self.old }
        ensures ok { OnOk result (Passes (K.written out.old) (K.written out.new) self.old self.new h) }
        ensures err { OnErr result (StopsPast (K.written out.old) (K.written out.new) self.old h) }
        ensures later { K.faults out.old ≤ K.faults out.new }
        ensures cause { IsErrOf result IoFault.Failed → Rose (K.faults out.old) (K.faults out.new) }
    {
        match &mut self.waiting {
            Waiting::Stream(text) => flush(text, out),
            Waiting::Normal(settled, text) => {
                settled.advance(h, text)?;
                flush(text, out)
            }
        }
    }

    /// No entry comes any more: writes what is left.
    pub fn end<K: Sink>(&mut self, out: &mut K) -> Result<(), IoFault>
        ensures ok { OnOk result (Completes (K.written out.old) (K.written out.new) self.old) }
        ensures err { OnErr result (StopsBefore (K.written out.old) (K.written out.new) self.old) }
        ensures later { K.faults out.old ≤ K.faults out.new }
        ensures cause { IsErrOf result IoFault.Failed → Rose (K.faults out.old) (K.faults out.new) }
    {
        match &mut self.waiting {
            Waiting::Stream(text) => flush(text, out),
            Waiting::Normal(settled, text) => {
                settled.finish(text)?;
                flush(text, out)
            }
        }
    }
}

// Appends the entry's line, and writes what fills a buffer.
fn put_line<K: Sink>(text: &mut Vec<u8>, entry: &Entry, out: &mut K) -> Result<(), IoFault>
    ensures ok { OnOk result (PassesOn (K.written out.old) (K.written out.new)
        (text.old.items ++ line entry.now) text.new.items) }
    ensures short { OnErr result (AppendsShort (K.written out.old) (K.written out.new)
        (text.old.items ++ line entry.now)) }
    ensures later { K.faults out.old ≤ K.faults out.new }
    ensures cause { IsErrOf result IoFault.Failed → Rose (K.faults out.old) (K.faults out.new) }
{
    entry.print(text)?;
    write_if_full(out, text)?;
    Ok(())
}

// Adds the result, where the entry is one.
fn add_result(settled: &mut Settled, entry: Entry) -> Result<(), IoFault>
    ensures adds { OnOk result (AddsResult entry settled.old settled.new) }
    ensures memory { OnErr result (result ≡ Err fault.Memory) }
{
    if let Entry::Result(elem) = entry {
        settled.add(elem)?;
    }
    Ok(())
}

// Writes the text.
fn flush<K: Sink>(text: &mut Vec<u8>, out: &mut K) -> Result<(), IoFault>
    ensures ok { OnOk result (Appends (K.written out.old) (K.written out.new) text.old.items) }
    ensures none { OnOk result (text.new.items ≡ []) }
    ensures prefix { OnErr result (AppendsPrefix (K.written out.old) (K.written out.new)
        text.old.items) }
    ensures short { OnErr result (AppendsShort (K.written out.old) (K.written out.new)
        text.old.items) }
    ensures later { K.faults out.old ≤ K.faults out.new }
    ensures cause { IsErrOf result IoFault.Failed → Rose (K.faults out.old) (K.faults out.new) }
{
    write_all(out, text.as_slice())?;
    text.clear();
    Ok(())
}
