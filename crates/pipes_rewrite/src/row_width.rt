// How many columns the rows of a plan have.
ghost use Rattle.std.specs.Prelude.{◌≡◌, [], length, slice_get, unwrap_or};
ghost use Rattle.pipes_rewrite.specs.Widths.{width as plan_width};

use pipes_plan::Plan;
use pipes_tuple::Schema;

/// How many columns the rows of the plan have, over these schemas of its sources.
pub fn width(schemas: &[Schema], plan: &Plan) -> u32
    ensures { result ≡ plan_width schemas.now plan.now }
{
    match plan {
        Plan::Source(i) => source_width(schemas, *i),
        Plan::Filter(_, a) => width(schemas, a.get()),
        Plan::Map(exprs, _) => exprs.as_slice().len() as u32,
        Plan::Union(a, _) => width(schemas, a.get()),
        Plan::Join(_, _, a, b) => width(schemas, a.get()).saturating_add(width(schemas, b.get())),
        Plan::Distinct(a) => width(schemas, a.get()),
        Plan::Group(columns, aggs, _) => {
            columns.as_slice().len() as u32 + aggs.as_slice().len() as u32
        }
        Plan::Minus(a, _) => width(schemas, a.get()),
    }
}

fn source_width(schemas: &[Schema], i: u32) -> u32
    ensures { result ≡ length (unwrap_or (slice_get schemas.now i) []) }
{
    match schemas.get(i as usize) {
        Some(schema) => schema.as_slice().len() as u32,
        None => 0,
    }
}
