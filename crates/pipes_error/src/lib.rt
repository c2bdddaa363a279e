//! Why a call of the program ends with another status than 0, and the line that tells of it.
#![tactic(auto)]

ghost use Rattle.std.specs.Prelude.{◌≡◌, [], ◌∷◌, map, Some};
ghost use Rattle.pipes_tuple.specs.Texts.{quoted};
ghost use Rattle.pipes_error.specs.Fault.{status_of, line_of_parts, fault_line, fault_seen};
ghost use Rattle.pipes_error.specs.Fault.{name_seen};
ghost use Rattle.pipes_error.specs.Fault.{text_why, type_why, value_why, WritesLine};
ghost use Rattle.pipes_error.specs.Fault as fault;
ghost use Rattle.pipes_error.specs.Pieces.{piece_text};

mod name;
mod piece;

use piece::{Piece, write_line};
use pipes_edge::Sink;
use pipes_feed::RowWhy;
use pipes_plan::{TypeRefusal, Why};
use pipes_token::{TextRefusal, TextWhy};
use pipes_tuple::{Text, ValueRefusal};

/// The name of a file: one of the words, or what a query says.
#[derive(Debug, Drop)]
pub enum FileName<'w> {
    /// The word.
    Word(&'w str),
    /// The file of a source.
    OfSource(Text),
}

/// Why a call ends with another status than 0.
#[derive(Debug, Drop)]
pub enum Fault<'w> {
    /// The words are no command.
    Words,
    /// The query's text has no reading.
    QueryText(TextRefusal),
    /// The query's plan doesn't check.
    QueryType(TypeRefusal),
    /// The text of the derivation with this name has no reading.
    DerivationText {
        /// The derivation's file.
        name: FileName<'w>,
        /// Where the reading ends, and why.
        refusal: TextRefusal,
    },
    /// What was read isn't served yet.
    Unbuilt,
    /// There is no file with the name.
    Missing(FileName<'w>),
    /// A search or a read of a file failed, before anything was written.
    ReadFile(FileName<'w>),
    /// A read of a source's file failed, in a run.
    ReadSource(Text),
    /// A line of a source is refused.
    Row {
        /// The source's name.
        source: Text,
        /// The line, counted from 1.
        line: u64,
        /// Why.
        why: RowWhy,
    },
    /// A line of a source is past a limit.
    Limit {
        /// The source's name.
        source: Text,
        /// The line, counted from 1.
        line: u64,
    },
    /// A write of the output failed.
    Write,
    /// Out of memory.
    Memory,
}

/// The status of a fault.
pub fn status(fault: &Fault<'_>) -> u8
    ensures { result ≡ status_of (Some (fault_seen fault.now)) }
{
    match fault {
        Fault::Words => 1,
        Fault::QueryText(_) => 2,
        Fault::QueryType(_) => 2,
        Fault::Row { .. } => 3,
        Fault::Missing(_) => 4,
        Fault::ReadFile(_) => 4,
        Fault::ReadSource(_) => 4,
        Fault::Write => 5,
        Fault::Memory => 6,
        Fault::DerivationText { .. } => 7,
        Fault::Limit { .. } => 8,
        Fault::Unbuilt => 9,
    }
}

/// Tells of the fault, as far as the sink takes the line. Takes no memory.
pub fn say<K: Sink>(err: &mut K, fault: &Fault<'_>)
    ensures { WritesLine (fault_line (Some (fault_seen fault.now)))
        (record {
          written_before = K.written err.old;
          written_now = K.written err.new;
          faults_before = K.faults err.old;
          faults_now = K.faults err.new;
        }) }
{
    match fault {
        Fault::Words => say_parts(err, &[Piece::Plain(b"words")]),
        Fault::QueryText(refusal) => say_text(err, refusal),
        Fault::QueryType(refusal) => say_type(err, refusal),
        Fault::DerivationText { name, refusal } => say_derivation(err, name.as_str(), refusal),
        Fault::Unbuilt => say_parts(err, &[Piece::Plain(b"unbuilt")]),
        Fault::Missing(name) => say_file(err, b"missing", name.as_str()),
        Fault::ReadFile(name) => say_file(err, b"read", name.as_str()),
        Fault::ReadSource(name) => say_file(err, b"read", name.as_str()),
        Fault::Row { source, line, why } => say_row(err, source.as_str(), *line, why),
        Fault::Limit { source, line } => say_limit(err, source.as_str(), *line),
        Fault::Write => say_parts(err, &[Piece::Plain(b"write")]),
        Fault::Memory => say_parts(err, &[Piece::Plain(b"memory")]),
    }
}

impl FileName<'_> {
    fn as_str(&self) -> &str
        ensures { result.now ≡ name_seen self.now }
    {
        match self {
            FileName::Word(name) => name,
            FileName::OfSource(name) => name.as_str(),
        }
    }
}

// Says the parts of a line. What a fault of `err` leaves unsaid stays unsaid.
fn say_parts<K: Sink>(err: &mut K, parts: &[Piece<'_>])
    ensures { WritesLine (line_of_parts (map piece_text parts.now)) (record {
      written_before = K.written err.old;
      written_now = K.written err.new;
      faults_before = K.faults err.old;
      faults_now =
          K.faults err.new;
    }) }
{
    let _ = write_line(err, parts);
}

fn say_file<K: Sink>(err: &mut K, what: &[u8], name: &str)
    ensures { WritesLine (line_of_parts (what.now ∷ quoted name.now ∷ []))
        (record {
          written_before = K.written err.old;
          written_now = K.written err.new;
          faults_before = K.faults err.old;
          faults_now = K.faults err.new;
        }) }
{
    say_parts(err, &[Piece::Plain(what), Piece::Name(name.as_bytes())])
}

fn say_text<K: Sink>(err: &mut K, refusal: &TextRefusal)
    ensures { WritesLine (fault_line (Some (fault.QueryText refusal.now)))
        (record {
          written_before = K.written err.old;
          written_now = K.written err.new;
          faults_before = K.faults err.old;
          faults_now = K.faults err.new;
        }) }
{
    let why = text_why(refusal.why);
    say_parts(
        err,
        &[
            Piece::Plain(b"query"),
            Piece::Number(refusal.line as u64),
            Piece::Number(refusal.column as u64),
            Piece::Plain(why),
        ],
    )
}

fn say_derivation<K: Sink>(err: &mut K, name: &str, refusal: &TextRefusal)
    ensures { WritesLine (fault_line (Some (fault.DerivationText name.now refusal.now)))
        (record {
          written_before = K.written err.old;
          written_now = K.written err.new;
          faults_before = K.faults err.old;
          faults_now = K.faults err.new;
        }) }
{
    let why = text_why(refusal.why);
    say_parts(
        err,
        &[
            Piece::Plain(b"derivation"),
            Piece::Name(name.as_bytes()),
            Piece::Number(refusal.line as u64),
            Piece::Number(refusal.column as u64),
            Piece::Plain(why),
        ],
    )
}

fn say_type<K: Sink>(err: &mut K, refusal: &TypeRefusal)
    ensures { WritesLine (fault_line (Some (fault.QueryType refusal.now)))
        (record {
          written_before = K.written err.old;
          written_now = K.written err.new;
          faults_before = K.faults err.old;
          faults_now = K.faults err.new;
        }) }
{
    let why = type_why(refusal.why);
    say_parts(
        err,
        &[
            Piece::Plain(b"query"),
            Piece::Plain(b"type"),
            Piece::Number(refusal.place as u64),
            Piece::Plain(why),
        ],
    )
}

fn say_limit<K: Sink>(err: &mut K, source: &str, line: u64)
    ensures { WritesLine (fault_line (Some (fault.Limit source.now line)))
        (record {
          written_before = K.written err.old;
          written_now = K.written err.new;
          faults_before = K.faults err.old;
          faults_now = K.faults err.new;
        }) }
{
    say_parts(
        err,
        &[
            Piece::Plain(b"limit"),
            Piece::Plain(source.as_bytes()),
            Piece::Number(line),
        ],
    )
}

fn say_row<K: Sink>(err: &mut K, source: &str, line: u64, why: &RowWhy)
    ensures { WritesLine (fault_line (Some (fault.Row source.now line why.now)))
        (record {
          written_before = K.written err.old;
          written_now = K.written err.new;
          faults_before = K.faults err.old;
          faults_now = K.faults err.new;
        }) }
{
    let row = Piece::Plain(b"row");
    let source = Piece::Plain(source.as_bytes());
    let line = Piece::Number(line);
    match why {
        RowWhy::Header => say_parts(err, &[row, source, line, Piece::Plain(b"header")]),
        RowWhy::Fields => say_parts(err, &[row, source, line, Piece::Plain(b"fields")]),
        RowWhy::Stamp => say_parts(err, &[row, source, line, Piece::Plain(b"stamp")]),
        RowWhy::Range => say_parts(err, &[row, source, line, Piece::Plain(b"range")]),
        RowWhy::Falling { stamp, last } => {
            let (stamp, last) = (Piece::Number(*stamp), Piece::Number(*last));
            say_parts(
                err,
                &[row, source, line, Piece::Plain(b"falling"), stamp, last],
            )
        }
        RowWhy::Value { column, why } => {
            let column = Piece::Number(*column as u64);
            let why = Piece::Plain(value_why(*why));
            say_parts(
                err,
                &[row, source, line, Piece::Plain(b"value"), column, why],
            )
        }
    }
}

fn text_why(why: TextWhy) -> &'static [u8]
    ensures { result.now ≡ text_why why }
{
    match why {
        TextWhy::Byte => b"byte",
        TextWhy::Token => b"token",
        TextWhy::Ended => b"end",
        TextWhy::Name => b"name",
        TextWhy::Range => b"range",
        TextWhy::Deep => b"deep",
        TextWhy::Many => b"many",
        TextWhy::Long => b"long",
        TextWhy::Mode => b"mode",
    }
}

fn type_why(why: Why) -> &'static [u8]
    ensures { result.now ≡ type_why why }
{
    match why {
        Why::TooMany => b"many",
        Why::TooDeep => b"deep",
        Why::NoSource => b"source",
        Why::NoColumn => b"column",
        Why::WrongKind => b"kind",
        Why::Width => b"width",
    }
}

fn value_why(why: ValueRefusal) -> &'static [u8]
    ensures { result.now ≡ value_why why }
{
    match why {
        ValueRefusal::NotInt => b"int",
        ValueRefusal::IntRange => b"intrange",
        ValueRefusal::NotUtf8 => b"utf8",
        ValueRefusal::TooLong => b"long",
        ValueRefusal::NotFlag => b"flag",
        ValueRefusal::Memory => b"",
    }
}
