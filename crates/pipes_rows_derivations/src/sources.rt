// Queries of two sources, and derivations over them.
use pipes_derivation::{Derivation, read_derivation};
use pipes_query::Query;
use pipes_text::read_query;
use pipes_token::ReadFault;
use std::alloc::Global;
use std::test::Fail;

const SOURCES: &str = "source a from \"a.csv\" (i int, j int) window time 1\n\
    source b from \"b.csv\" (k int, l int) window time 1\n\
    plan ";

/// The query of the two sources and this plan.
pub fn query_over(alloc: Global, plan: &str) -> Result<Query, Fail> {
    let text = format!(in alloc; "{SOURCES}{plan}")?;
    match read_query(alloc, text.as_bytes()) {
        Ok(query) => Ok(query),
        Err(_) => Ok(Err("no query")?),
    }
}

/// What is read of the text over the query's sources; it fails where there is none.
pub fn read_over(
    alloc: Global,
    query: &Query,
    text: &str,
) -> Result<Result<Derivation, ReadFault>, Fail> {
    if query.sources.as_slice().is_empty() {
        return Ok(Err("no source")?);
    }
    Ok(read_derivation(alloc, query, text.as_bytes()))
}
