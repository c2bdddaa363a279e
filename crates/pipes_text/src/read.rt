// Reading queries.
ghost use Rattle.std.specs.Prelude.{◌≤◌, IfOk, IfErr, length};
ghost use Rattle.pipes_reader.specs.Reading.{GivesFrom};
ghost use Rattle.pipes_query.specs.declared.query.Query.{Query as AQuery};
ghost use Rattle.pipes_reader.specs.Texts.{ReadAs};
ghost use Rattle.pipes_grammar.specs.Grammar.{HasSourceName};
ghost use Rattle.pipes_query.specs.Queries.{names_of};
ghost use Rattle.pipes_text.specs.Texts.{IsFileOfQuery, QueryCause};
ghost use Rattle.pipes_text.specs.Reading as spec;

use crate::source::read_source;
use crate::take::{read_next, read_no_source, read_plan_mark};
use pipes_grammar::read_plan;
use pipes_query::{Query, SourceDecl, Sources, names_of};
use pipes_reader::{Cursor, Entries, ParseFault, Parser, many_within, read_text};
use pipes_token::ReadFault;
use std::alloc::Global;
use std::marker::Model;

// The sources that were read so far.
#[derive(Drop)]
struct SourceList {
    sources: Vec<SourceDecl>,
}

impl Model for SourceList {
    ghost use Rattle.std.specs.Prelude.{List};
    ghost use Rattle.pipes_query.specs.declared.query.SourceDecl.{SourceDecl};

    ghost Value = { List SourceDecl };

    ghost view = { λ l. l.sources.items };
}

impl Entries<()> for SourceList {
    ghost step = { λ context. spec.next_source };

    ghost over = { λ context. spec.end_sources };

    #[tactic(auto, unfolding(crate::specs::Reading::next_source))]
    fn step(&mut self, _context: &(), cursor: &mut Cursor<'_>) -> Result<bool, ParseFault> {
        if read_next(!self.sources.is_empty(), cursor)? {
            let alloc = *self.sources.allocator();
            let names = names_of(alloc, self.sources.as_slice())?;
            self.sources
                .push(read_source(alloc, names.as_slice(), cursor)?)?;
            Ok(true)
        } else {
            Ok(false)
        }
    }

    #[tactic(auto, unfolding(crate::specs::Reading::end_sources))]
    fn over(&mut self, _context: &(), cursor: &mut Cursor<'_>) -> Result<(), ParseFault> {
        read_no_source(cursor)?;
        read_plan_mark(!self.sources.is_empty(), cursor)
    }
}

// All sources, and the plan's keyword.
#[tactic(auto, using(crate::proofs::QueryLaws::sources_fit), unfolding(crate::specs::Reading::read_sources))]
fn read_sources(alloc: Global, cursor: &mut Cursor<'_>) -> Result<SourceList, ParseFault>
    ensures exact { GivesFrom (λ sources. sources) spec.read_sources cursor.old cursor.new result }
    ensures bound { IfOk result (λ sources. length sources ≤ 16) }
{
    let mut sources = SourceList {
        sources: Vec::new(alloc),
    };
    many_within(16, &(), &mut sources, cursor)?;
    Ok(sources)
}

// What reads queries.
struct QueryParser;

impl Parser<Query> for QueryParser {
    ghost reads = { λ parser. spec.parse_query };

    #[tactic(auto, unfolding(crate::specs::Reading::parse_query))]
    fn parse(&self, alloc: Global, cursor: &mut Cursor<'_>) -> Result<Query, ParseFault> {
        let list = read_sources(alloc, cursor)?;
        let names = names_of(alloc, list.sources.as_slice())?;
        let (plan, rest) = read_plan(alloc, names.as_slice(), cursor.rest())?;
        *cursor = Cursor::new(rest);
        Ok(Query {
            sources: Sources::new(list.sources).unwrap(),
            plan,
        })
    }
}

/// The query of the text.
#[tactic(auto, using(crate::proofs::QueryTexts::query_found, crate::proofs::QueryTexts::read_some, crate::proofs::QueryTexts::read_named, crate::proofs::QueryTexts::query_only, crate::proofs::QueryTexts::query_refused))]
pub fn read_query(alloc: Global, bytes: &[u8]) -> Result<Query, ReadFault>
    // What is read is the text's query.
    ensures found { IfOk result (λ query. IsFileOfQuery query bytes.now) }
    // It declares a source.
    ensures some { IfOk result (λ query. 1 ≤ length query.sources) }
    // One of its sources has a name that texts have.
    ensures named { IfOk result (λ query. HasSourceName (names_of query.sources)) }
    // The text's query is read, unless memory runs out.
    ensures only { (query : AQuery) → IsFileOfQuery query bytes.now → ReadAs query result }
    // A refusal is the first that the text has, and it has one.
    ensures refused { IfErr result (λ fault. QueryCause bytes.now fault) }
{
    read_text(alloc, &QueryParser, bytes)
}
