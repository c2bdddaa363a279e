// The rows of one source that are valid at an instant.
ghost use Rattle.std.specs.Prelude.{◌≡◌, ◌≤◌, List, [], ℕ, ⊤, Some, IfOk, IfErr, IsErrOf, OnOk};
ghost use Rattle.std.specs.List.{All};
ghost use Rattle.pipes_edge.specs.Causes.{Rose};
ghost use Rattle.pipes_edge.specs.Outside.{Names, NoneFalls};
ghost use Rattle.pipes_tuple.specs.Kinds.{Fits};
ghost use Rattle.pipes_window.specs.Valid.{Gathers};
ghost use Rattle.pipes_window.specs.Windows.{in_window};
ghost use Rattle.pipes_feed.specs.Items.{items_of};
ghost use Rattle.pipes_error.specs.Fault.{fault_seen};
ghost use Rattle.pipes_answer.specs.Gathering.{ReleasesRows};
ghost use Rattle.pipes_answer.specs.Gives.{GivesAnswer, HasAnswerCause, IsOfReading, answer_fault};
ghost use Rattle.pipes_answer.specs.Gives.{source_refusal};
ghost use Rattle.pipes_answer.specs.Whole.{source_items, up_to_end};
ghost use Rattle.pipes_answer.specs.declared.source.SourceFault.TheVariants as faults;

use pipes_edge::{Files, FindFault, Source};
use pipes_error::{Fault, FileName};
use pipes_feed::{ItemReader, Next, Reason, Reorder, RowWhy};
use pipes_query::SourceDecl;
use pipes_time::Memory;
use pipes_tuple::{Text, Tuple};
use pipes_window::{Item, RowsAt};
use std::alloc::Global;

/// Why a source wasn't read to its end.
#[derive(Clone, Copy, Debug, PartialEq, Eq)]
pub(crate) enum SourceFault {
    /// There is no such file.
    Missing,
    /// A search or a read failed.
    Failed,
    /// A line is refused.
    Row {
        /// The line, counted from 1.
        line: u64,
        /// Why.
        why: RowWhy,
    },
    /// A line is past a limit.
    Limit {
        /// The line, counted from 1.
        line: u64,
    },
    /// Out of memory.
    Memory,
}

impl From<Memory> for SourceFault {
    ghost from_gives = { λ _ e. e ≡ faults.Memory };

    fn from(_: Memory) -> SourceFault {
        SourceFault::Memory
    }
}

impl SourceFault {
    /// The fault of the source with this name and this file.
    fn of(self, name: Text, file: Text) -> Fault<'static>
        ensures { fault_seen result ≡ answer_fault name file self }
    {
        match self {
            SourceFault::Missing => Fault::Missing(FileName::OfSource(file)),
            SourceFault::Failed => Fault::ReadFile(FileName::OfSource(file)),
            SourceFault::Row { line, why } => Fault::Row {
                source: name,
                line,
                why,
            },
            SourceFault::Limit { line } => Fault::Limit { source: name, line },
            SourceFault::Memory => Fault::Memory,
        }
    }
}

/// The rows of the source that are valid at the instant, in its order.
pub(crate) fn rows_of<F: Files>(
    alloc: Global,
    files: &mut F,
    source: &SourceDecl,
    time: u64,
) -> Result<Vec<Tuple>, Fault<'static>>
    ensures known { F.known files.new ≡ F.known files.old }
    ensures later { NoneFalls (F.faults files.old) (F.faults files.new) }
    ensures cause { IfErr result (λ e. HasAnswerCause (F.faults files.old) (F.faults files.new)
        (fault_seen e)) }
    ensures served { IfErr result (λ e. IsOfReading (fault_seen e)) }
    ensures fit { IfOk result (λ rows. All (λ row. Fits row source.now.schema) rows.items) }
    ensures gives { (named : Names) → F.known files.old ≡ Some named
        → GivesAnswer (λ rows items. rows.items ≡ in_window source.now.window items time) fault_seen
        result (source_items named source.now) }
{
    // A fault names its source and file, and its line may take no memory: they are copied before
    // anything is read.
    let Ok(name) = source.name.copy() else {
        return Err(Fault::Memory);
    };
    let Ok(file) = source.file.copy() else {
        return Err(Fault::Memory);
    };
    match read_source(alloc, files, source, time) {
        Ok(rows) => Ok(rows),
        Err(fault) => Err(fault.of(name, file)),
    }
}

// Finds the source, gathers its rows, and gives it back.
fn read_source<F: Files>(
    alloc: Global,
    files: &mut F,
    source: &SourceDecl,
    time: u64,
) -> Result<Vec<Tuple>, SourceFault>
    ensures known { F.known files.new ≡ F.known files.old }
    ensures later { NoneFalls (F.faults files.old) (F.faults files.new) }
    ensures cause { IsErrOf result SourceFault.Failed → Rose (F.faults files.old source.now.file)
        (F.faults files.new source.now.file) }
    ensures fit { IfOk result (λ rows. All (λ row. Fits row source.now.schema) rows.items) }
    ensures gives { (named : Names) → F.known files.old ≡ Some named
        → GivesAnswer (λ rows items. rows.items ≡ in_window source.now.window items time)
        (answer_fault source.now.name source.now.file) result (source_items named source.now) }
{
    let mut src = match files.find_src(source.file.as_str()) {
        Ok(src) => src,
        Err(FindFault::Missing) => return Err(SourceFault::Missing),
        Err(FindFault::Failed) => return Err(SourceFault::Failed),
        Err(FindFault::Memory) => return Err(SourceFault::Memory),
    };
    let rows = gather(alloc, &mut src, source, time);
    files.retire(src);
    rows
}

// Reads the source to its end, and keeps the rows that are valid.
fn gather<S: Source>(
    alloc: Global,
    src: &mut S,
    source: &SourceDecl,
    time: u64,
) -> Result<Vec<Tuple>, SourceFault>
    ensures later { S.faults src.old ≤ S.faults src.new }
    ensures cause { IsErrOf result SourceFault.Failed → Rose (S.faults src.old) (S.faults src.new) }
    ensures name { S.name src.new ≡ S.name src.old }
    ensures found_at { S.found_at src.new ≡ S.found_at src.old }
    ensures fit { IfOk result (λ rows. All (λ row. Fits row source.now.schema) rows.items) }
    ensures gives { (bytes : List ℕ) → S.left src.old ≡ Some bytes
        → GivesAnswer (λ rows items. rows.items ≡ in_window source.now.window items time)
        (answer_fault source.now.name source.now.file) result
        (up_to_end source.now (items_of source.now.schema source.now.slack bytes)) }
{
    let mut reader = ItemReader::new(alloc, &source.schema, source.slack)?;
    let mut waiting = Reorder::new(alloc);
    let mut rows = RowsAt::new(alloc, source.window, time);
    'items: loop {
        match reader.next(src) {
            Next::Item(item) => {
                waiting.put(item)?;
                release_due(&mut waiting, &mut rows, reader.floor())?;
            }
            Next::Ended(reason) => {
                if let Some(fault) = refusal(reason) {
                    return Err(fault);
                }
                release_rest(&mut waiting, &mut rows)?;
                return Ok(rows.into_rows());
            }
        }
    }
}

// Takes the rows of the items that nothing comes before any more.
fn release_due(waiting: &mut Reorder, rows: &mut RowsAt, floor: u64) -> Result<(), Memory>
    ensures { OnOk result (ReleasesRows (λ stamp. stamp ≤ floor) waiting.old waiting.new rows.old
        rows.new) }
{
    'due: while let Some(item) = waiting.take_due(floor) {
        take(rows, item)?;
    }
    Ok(())
}

// Takes the rows of all items that wait.
fn release_rest(waiting: &mut Reorder, rows: &mut RowsAt) -> Result<(), Memory>
    ensures rows { OnOk result (ReleasesRows (λ stamp. ⊤) waiting.old waiting.new rows.old
        rows.new) }
    ensures all { OnOk result (waiting.new ≡ []) }
{
    'rest: while let Some(item) = waiting.take() {
        take(rows, item)?;
    }
    Ok(())
}

fn take(rows: &mut RowsAt, item: Item) -> Result<(), Memory>
    ensures { OnOk result (Gathers rows.old rows.new item) }
{
    match item {
        Item::Row(stamp, tuple) => rows.take(stamp, tuple),
        Item::Beat(_) => Ok(()),
    }
}

// Why a source whose items end so wasn't read to its end.
fn refusal(reason: Reason) -> Option<SourceFault>
    ensures { result ≡ source_refusal reason }
{
    match reason {
        Reason::AtEnd => None,
        Reason::Row { line, why } => Some(SourceFault::Row { line, why }),
        Reason::Failed => Some(SourceFault::Failed),
        Reason::Limit { line } => Some(SourceFault::Limit { line }),
        Reason::Memory => Some(SourceFault::Memory),
    }
}
