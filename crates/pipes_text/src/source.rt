// Reading sources.
ghost use Rattle.std.specs.Prelude.{◌≡◌, ◌≤◌, ◌∷◌, ◌++◌, [], OnOk, length};
ghost use Rattle.pipes_reader.specs.Reading.{GivesFrom};
ghost use Rattle.pipes_text.specs.Reading as spec;

use crate::mark::{Mark, Measure};
use crate::take::{
    expect, read_column_name, read_comma, read_kind, read_measure, read_source_name,
};
use pipes_query::{ColumnNames, SourceDecl};
use pipes_reader::{Cursor, Entries, ParseFault, many_within, take_number, take_text, too_many};
use pipes_time::{HORIZON, Memory};
use pipes_token::{Keyword, TokenKind};
use pipes_tuple::{Kind, Schema, Text};
use pipes_window::WindowKind;
use std::alloc::Global;
use std::marker::Model;

// The columns of a source that were read so far.
#[derive(Drop)]
pub struct Columns {
    names: Vec<Text>,
    kinds: Vec<Kind>,
}

impl Model for Columns {
    ghost use Rattle.std.specs.Prelude.{List, ℕ};
    ghost use Rattle.pipes_tuple.specs.declared.value.Kind.{Kind};

    ghost Value = { List (List ℕ) × List Kind };

    ghost view = { λ c. (c.names.items, c.kinds.items) };
}

impl Columns {
    // None yet.
    fn new(alloc: Global) -> Columns
        ensures { result ≡ ([], []) }
    {
        Columns {
            names: Vec::new(alloc),
            kinds: Vec::new(alloc),
        }
    }

    // One more.
    fn add(&mut self, name: Text, kind: Kind) -> Result<(), Memory>
        ensures { OnOk result (self.new ≡ spec.with_column self.old name kind) }
    {
        self.names.push(name)?;
        self.kinds.push(kind)?;
        Ok(())
    }
}

impl Entries<()> for Columns {
    ghost step = { λ context. spec.read_column };

    ghost over = { λ context. spec.one_too_many };

    #[tactic(auto, unfolding(crate::specs::Reading::read_column))]
    fn step(&mut self, _context: &(), cursor: &mut Cursor<'_>) -> Result<bool, ParseFault> {
        let name = read_column_name(*self.names.allocator(), self.names.as_slice(), cursor)?;
        let kind = read_kind(cursor)?;
        let more = read_comma(cursor)?;
        self.add(name, kind)?;
        Ok(more)
    }

    fn over(&mut self, _context: &(), cursor: &mut Cursor<'_>) -> Result<(), ParseFault> {
        Err(ParseFault::Refused(too_many(cursor.rest())))
    }
}

// The columns, as the value of a source has them.
fn listed(columns: Columns) -> (ColumnNames, Schema)
    requires names { length columns.0 ≤ 32 }
    requires kinds { (1 ≤ length columns.1) × (length columns.1 ≤ 32) }
    ensures { (result.0 ≡ columns.0) × (result.1 ≡ columns.1) }
{
    (
        ColumnNames::new(columns.names).unwrap(),
        Schema::new(columns.kinds).unwrap(),
    )
}

// The columns of a source, and the end of them.
#[tactic(auto, using(crate::proofs::ColumnLaws::names_fit, crate::proofs::ColumnLaws::kinds_fit), unfolding(crate::specs::Reading::read_columns))]
fn read_columns(alloc: Global, cursor: &mut Cursor<'_>) -> Result<(ColumnNames, Schema), ParseFault>
    ensures { GivesFrom (λ x. (x.0, x.1)) spec.read_columns cursor.old cursor.new result }
{
    let mut columns = Columns::new(alloc);
    many_within(32, &(), &mut columns, cursor)?;
    Ok(listed(columns))
}

// How late its rows may come, where that is written.
#[tactic(auto, unfolding(crate::specs::Reading::read_slack, pipes_reader::specs::Reading::optional))]
fn read_slack(cursor: &mut Cursor<'_>) -> Result<u64, ParseFault>
    ensures { GivesFrom (λ slack. slack) spec.read_slack cursor.old cursor.new result }
{
    match cursor.rest() {
        [token, ..] if matches!(token.kind, TokenKind::Keyword(Keyword::Slack)) => {
            cursor.skip();
            take_number(1, HORIZON, cursor)
        }
        _ => Ok(0),
    }
}

// The slide of a time window, where that is written.
#[tactic(auto, unfolding(crate::specs::Reading::read_slide, pipes_reader::specs::Reading::optional))]
fn read_slide(size: u64, cursor: &mut Cursor<'_>) -> Result<WindowKind, ParseFault>
    ensures { GivesFrom (λ window. window) (spec.read_slide size) cursor.old cursor.new result }
{
    match cursor.rest() {
        [token, ..] if matches!(token.kind, TokenKind::Keyword(Keyword::Slide)) => {
            cursor.skip();
            Ok(WindowKind::Slide(size, take_number(1, HORIZON, cursor)?))
        }
        _ => Ok(WindowKind::Time(size)),
    }
}

#[tactic(auto, unfolding(crate::specs::Reading::read_window))]
fn read_window(cursor: &mut Cursor<'_>) -> Result<WindowKind, ParseFault>
    ensures { GivesFrom (λ window. window) spec.read_window cursor.old cursor.new result }
{
    match read_measure(cursor)? {
        Measure::Time => {
            let size = take_number(1, HORIZON, cursor)?;
            read_slide(size, cursor)
        }
        Measure::Count => Ok(WindowKind::Count(take_number(1, 1_000_000, cursor)? as u32)),
    }
}

// A source's name and file.
#[tactic(auto, unfolding(crate::specs::Reading::read_head))]
fn read_head(names: &[Text], cursor: &mut Cursor<'_>) -> Result<(Text, Text), ParseFault>
    ensures { GivesFrom (λ x. (x.0, x.1)) (spec.read_head names.now) cursor.old cursor.new result }
{
    let name = read_source_name(names, cursor)?;
    expect(Mark::From, cursor)?;
    let file = take_text(cursor)?;
    Ok((name, file))
}

// The columns, slack and window of a source.
#[derive(Drop)]
struct Shape {
    names: ColumnNames,
    schema: Schema,
    slack: u64,
    window: WindowKind,
}

#[tactic(auto, unfolding(crate::specs::Reading::read_shape))]
fn read_shape(alloc: Global, cursor: &mut Cursor<'_>) -> Result<Shape, ParseFault>
    ensures { GivesFrom
        (λ x. (
          (x.names, x.schema),
          x.slack,
          x.window,
        )) spec.read_shape cursor.old cursor.new result }
{
    expect(Mark::Open, cursor)?;
    let (names, schema) = read_columns(alloc, cursor)?;
    let slack = read_slack(cursor)?;
    expect(Mark::Window, cursor)?;
    let window = read_window(cursor)?;
    Ok(Shape {
        names,
        schema,
        slack,
        window,
    })
}

// A source beside others with these names, from after its keyword.
#[tactic(auto, unfolding(crate::specs::Reading::read_source))]
pub fn read_source(
    alloc: Global,
    others: &[Text],
    cursor: &mut Cursor<'_>,
) -> Result<SourceDecl, ParseFault>
    ensures { GivesFrom (λ source. source)
        (spec.read_source others.now) cursor.old cursor.new result }
{
    let (name, file) = read_head(others, cursor)?;
    let shape = read_shape(alloc, cursor)?;
    Ok(SourceDecl {
        name,
        file,
        names: shape.names,
        schema: shape.schema,
        slack: shape.slack,
        window: shape.window,
    })
}
