// Results on their way out.
ghost use Rattle.std.specs.Prelude.{◌≡◌, ◌⊎◌, ◌≤◌, ◌++◌, ◌∷◌, [], take, flat_map, List, ℕ, Option};
ghost use Rattle.std.specs.Prelude.{OnOk, OnErr, IsErrOf};
ghost use Rattle.std.specs.Io.KnownBytes.{Appends};
ghost use Rattle.pipes_stream.specs.declared.Elem.{Elem};
ghost use Rattle.pipes_stream.specs.Snapshot.{snapshot};
ghost use Rattle.pipes_edge.specs.Causes.{Rose};
ghost use Rattle.pipes_buffer.specs.Pieces.{AppendsPrefix, PassesOn};
ghost use Rattle.pipes_output.specs.declared.entry.Entry.TheVariants as entry;
ghost use Rattle.pipes_output.specs.Lines.{line};
ghost use Rattle.pipes_output.specs.NormalText.{IsNormalText, period_line};
ghost use Rattle.pipes_results.specs.Kept.{Keeps, StopsEarly, WritesPrefixOf, WritesWhole, form_of};

use pipes_buffer::{IoFault, write_all, write_if_full};
use pipes_edge::Sink;
use pipes_output::{Entry, Form, Normal, Period};
use pipes_stream::Elem;
use std::alloc::Global;

/// Results that wait: the text of those that were not written yet, or all of them.
#[derive(Drop)]
pub enum Results {
    Stream(Vec<u8>),
    Normal(Normal),
}

impl Results {
    /// None.
    pub fn new(alloc: Global, form: Form) -> Results
        ensures form { form_of result ≡ form }
        ensures kept { (written : Option (List ℕ)) → Keeps written written result [] }
    {
        match form {
            Form::Stream => Results::Stream(Vec::new(alloc)),
            Form::Normal => Results::Normal(Normal::new(alloc)),
        }
    }

    /// One result more.
    pub fn put<K: Sink>(&mut self, out: &mut K, elem: Elem) -> Result<(), IoFault>
        ensures form { form_of self.new ≡ form_of self.old }
        ensures ok { OnOk result ((init : Option (List ℕ)) (elems : List Elem)
            → Keeps init (K.written out.old) self.old elems → Keeps init (K.written out.new)
            self.new (elems ++ elem ∷ [])) }
        ensures err { OnErr result ((init : Option (List ℕ)) (elems : List Elem)
            → Keeps init (K.written out.old) self.old elems → StopsEarly init (K.written out.new)
            (form_of self.old) (elems ++ elem ∷ [])) }
        ensures later { K.faults out.old ≤ K.faults out.new }
        ensures cause { IsErrOf result IoFault.Failed → Rose (K.faults out.old) (K.faults out.new) }
    {
        match self {
            Results::Stream(text) => put_line(text, out, elem),
            Results::Normal(normal) => Ok(normal.add(elem)?),
        }
    }

    /// Writes what waits, with this entry at the end of the stream.
    pub fn end<K: Sink>(&mut self, alloc: Global, out: &mut K, last: &Entry) -> Result<(), IoFault>
        ensures ok { OnOk result ((init : Option (List ℕ)) (elems : List Elem)
            → Keeps init (K.written out.old) self.old elems → WritesWhole init (K.written out.new)
            (form_of self.old) elems last.now) }
        ensures err { OnErr result ((init : Option (List ℕ)) (elems : List Elem)
            → Keeps init (K.written out.old) self.old elems → WritesPrefixOf init
            (K.written out.new)
            (form_of self.old) elems last.now) }
        ensures later { K.faults out.old ≤ K.faults out.new }
        ensures cause { IsErrOf result IoFault.Failed → Rose (K.faults out.old) (K.faults out.new) }
    {
        match self {
            Results::Stream(text) => end_stream(text, out, last),
            Results::Normal(normal) => write_normal(alloc, normal, out),
        }
    }
}

// Appends the result's line, and writes what fills a buffer.
fn put_line<K: Sink>(text: &mut Vec<u8>, out: &mut K, elem: Elem) -> Result<(), IoFault>
    ensures ok { OnOk result (PassesOn (K.written out.old) (K.written out.new) (text.old.items
        ++ line (entry.Result elem)) text.new.items) }
    ensures prefix { OnErr result (AppendsPrefix (K.written out.old) (K.written out.new)
        (text.old.items ++ line (entry.Result elem))) }
    ensures later { K.faults out.old ≤ K.faults out.new }
    ensures cause { IsErrOf result IoFault.Failed → Rose (K.faults out.old) (K.faults out.new) }
{
    Entry::Result(elem).print(text)?;
    write_if_full(out, text)?;
    Ok(())
}

// Appends the entry's line, and writes all.
fn end_stream<K: Sink>(text: &mut Vec<u8>, out: &mut K, last: &Entry) -> Result<(), IoFault>
    ensures ok { OnOk result (Appends (K.written out.old) (K.written out.new) (text.old.items
        ++ line last.now)) }
    ensures prefix { OnErr result (AppendsPrefix (K.written out.old) (K.written out.new)
        (text.old.items ++ line last.now)) }
    ensures later { K.faults out.old ≤ K.faults out.new }
    ensures cause { IsErrOf result IoFault.Failed → Rose (K.faults out.old) (K.faults out.new) }
{
    last.print(text)?;
    write_all(out, text.as_slice())?;
    Ok(())
}

// Writes the normal text.
fn write_normal<K: Sink>(alloc: Global, normal: &Normal, out: &mut K) -> Result<(), IoFault>
    ensures ok { OnOk result ((text : List ℕ) × IsNormalText (snapshot normal.now) text
        × Appends (K.written out.old) (K.written out.new) text) }
    ensures prefix { OnErr result ((bytes : List ℕ) × Appends (K.written out.old)
        (K.written out.new)
        bytes × ((bytes ≡ []) ⊎ ((text : List ℕ) × (n : ℕ) × IsNormalText (snapshot normal.now) text
        × (bytes ≡ take n text)))) }
    ensures later { K.faults out.old ≤ K.faults out.new }
    ensures cause { IsErrOf result IoFault.Failed → Rose (K.faults out.old) (K.faults out.new) }
{
    let periods = normal.periods()?;
    write_periods(alloc, periods.as_slice(), out)
}

// Writes a line for each period.
fn write_periods<K: Sink>(alloc: Global, periods: &[Period<'_>], out: &mut K) -> Result<(), IoFault>
    ensures ok { OnOk result (Appends (K.written out.old) (K.written out.new)
        (flat_map period_line periods.now)) }
    ensures prefix { OnErr result (AppendsPrefix (K.written out.old) (K.written out.new)
        (flat_map period_line periods.now)) }
    ensures later { K.faults out.old ≤ K.faults out.new }
    ensures cause { IsErrOf result IoFault.Failed → Rose (K.faults out.old) (K.faults out.new) }
{
    let mut text = Vec::new(alloc);
    'periods: for period in periods {
        period.print(&mut text)?;
        write_if_full(out, &mut text)?;
    }
    write_all(out, text.as_slice())?;
    Ok(())
}
