// Plans at work, made of the text of a query.
ghost use Rattle.std.specs.Prelude.{IfOk};
ghost use Rattle.pipes_box.specs.Boxes.{IsSound};

use pipes_box::PlanBox;
use pipes_query::Query;
use pipes_stream::Message;
use pipes_text::read_query;
use std::alloc::Global;
use std::test::Fail;

// Two sources of one number each. What is given at a leaf is an element already, so that their
// windows do nothing.
const SOURCES: &str = "source a from \"a\" (v int) window time 1\n\
                       source b from \"b\" (v int) window time 1\n";

// The query of the two sources and this plan.
fn query_of(alloc: Global, plan: &str) -> Result<Query, Fail> {
    let mut text = Vec::from_slice(alloc, SOURCES.as_bytes())?;
    text.extend_from_slice(plan.as_bytes())?;
    match read_query(alloc, text.as_slice()) {
        Ok(query) => Ok(query),
        Err(_) => Ok(Err("no query")?),
    }
}

// The plan at work, whose links have room for so many messages.
pub fn box_of(alloc: Global, plan: &str, room: u32) -> Result<PlanBox, Fail>
    ensures { IfOk result (λ b. IsSound b) }
{
    if room == 0 || room > 4096 {
        return Ok(Err("no room")?);
    }
    let query = query_of(alloc, plan)?;
    let schemas = query.schemas(alloc)?;
    match query.plan.check(alloc, &schemas) {
        Ok(_) => Ok(PlanBox::build(alloc, &query.plan, &schemas, room)?),
        Err(_) => Ok(Err("not typed")?),
    }
}

// Gives the message at the leaf, and tells whether there is such a leaf and it had room.
pub fn gives(b: &mut PlanBox, leaf: u32, message: Message) -> bool
    requires { IsSound b.old }
    ensures { IsSound b.new }
{
    if leaf >= b.leaf_count() {
        return false;
    }
    b.give(leaf, message).is_ok()
}
