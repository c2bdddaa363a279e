// Queries as values.
ghost use Rattle.std.specs.Prelude.{◌≡◌, IfOk, map};
ghost use Rattle.pipes_query.specs.Queries.{names_of};

use pipes_plan::{Plan, Schemas};
use pipes_time::Memory;
use pipes_tuple::{BoundedList, Schema, Text};
use pipes_window::WindowKind;
use std::alloc::Global;

/// At most 32 names, one for each column of a source.
pub type ColumnNames = BoundedList<Text, 32>;

/// A source as a query declares it.
#[derive(Debug, Drop, PartialEq, Eq)]
pub struct SourceDecl {
    /// The name by which the plan and a script speak of it.
    pub name: Text,
    /// The name of the file that its rows come from.
    pub file: Text,
    /// The names of its columns, in order.
    pub names: ColumnNames,
    /// The kinds of its columns, in order.
    pub schema: Schema,
    /// By how many instants a row may come after rows of a later stamp; 0 where the rows come in
    /// order.
    pub slack: u64,
    /// How long its rows are valid.
    pub window: WindowKind,
}

/// At most 16 sources.
pub type Sources = BoundedList<SourceDecl, 16>;

/// A plan over sources. A source's number in the plan is its place in the list.
#[derive(Debug, Drop, PartialEq, Eq)]
pub struct Query {
    /// The sources, in the order of their declaration.
    pub sources: Sources,
    /// What is made of their rows.
    pub plan: Plan,
}

impl Query {
    /// The schemas of the sources, in order: what the plan is checked against.
    pub fn schemas(&self, alloc: Global) -> Result<Schemas, Memory>
        ensures { IfOk result
            (λ schemas. schemas ≡ map (λ source. source.schema) self.now.sources) }
    {
        let mut schemas: Vec<Schema> = Vec::new(alloc);
        for source in self.sources.as_slice() {
            schemas.push(source.schema.copy()?)?;
        }
        Ok(Schemas::new(schemas).unwrap())
    }
}

/// The names of the sources, in order.
pub fn names_of(alloc: Global, sources: &[SourceDecl]) -> Result<Vec<Text>, Memory>
    ensures { IfOk result (λ names. names.items ≡ names_of sources.now) }
{
    let mut names: Vec<Text> = Vec::new(alloc);
    for source in sources {
        names.push(source.name.copy()?)?;
    }
    Ok(names)
}
