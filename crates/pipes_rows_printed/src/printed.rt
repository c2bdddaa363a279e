// Queries that no text was read for: they are drawn, printed, and read back.
ghost use Rattle.std.specs.Prelude.{◌<◌};

use pipes_expr::{Expr, Exprs, Op};
use pipes_plan::Plan;
use pipes_print::look_at_literals;
use pipes_query::{ColumnNames, Query, SourceDecl, Sources};
use pipes_relation::{Agg, Aggs, Pair, Pairs};
use pipes_text::{print_plan, print_query, read_query};
use pipes_time::Memory;
use pipes_tuple::{Cols, Kind, Schema, Text, Value};
use pipes_window::WindowKind;
use sqlite_items::Boxed;
use std::alloc::Global;
use std::test::Fail;

// Numbers in a fixed order that looks like chance.
#[derive(Drop)]
struct Draw {
    state: u64,
}

impl Draw {
    fn number(&mut self) -> u64
        ensures { result < 2147483648 }
    {
        self.state = self
            .state
            .wrapping_mul(6_364_136_223_846_793_005)
            .wrapping_add(1_442_695_040_888_963_407);
        (self.state >> 33) % 2_147_483_648
    }

    fn below_eight(&mut self) -> u32
        ensures { result < 8 }
    {
        (self.number() % 8) as u32
    }

    // A column's number.
    fn column(&mut self) -> u32
        ensures { result < 32 }
    {
        (self.number() % 32) as u32
    }

    fn integer(&mut self) -> i64 {
        match self.below_eight() {
            0 => i64::MIN,
            1 => i64::MAX,
            2 => 0,
            3 => -1,
            _ => {
                let number = self.number() as i64;
                number.wrapping_mul(-4_294_967_297)
            }
        }
    }
}

// ---- expressions

// Some have characters that are written by an escape, some wide ones.
fn text(alloc: Global, draw: &mut Draw) -> Result<Text, Fail> {
    let text = match draw.below_eight() {
        0 => "",
        1 => "a \"b\" \\n",
        2 => "\n\r\\\\",
        3 => "# no comment",
        4 => "è € 𝄞",
        _ => "plan filter(",
    };
    Ok(Text::new(alloc, text)?)
}

fn boxed_expr(alloc: Global, expr: Expr) -> Result<Boxed<Expr>, Memory> {
    Ok(Boxed::new(alloc, expr)?)
}

// A literal or a column.
fn leaf(alloc: Global, draw: &mut Draw) -> Result<Boxed<Expr>, Fail> {
    let leaf = match draw.below_eight() {
        0 => Expr::Literal(Value::Flag(true)),
        1 => Expr::Literal(Value::Flag(false)),
        2 => Expr::Literal(Value::Text(text(alloc, draw)?)),
        3 | 4 => Expr::Literal(Value::Int(draw.integer())),
        _ => Expr::Col(draw.column()),
    };
    Ok(boxed_expr(alloc, leaf)?)
}

fn operator(draw: &mut Draw) -> Op {
    match draw.below_eight() {
        0 => Op::Add,
        1 => Op::Sub,
        2 => Op::Mul,
        3 => Op::Eq,
        4 => Op::Lt,
        5 => Op::Le,
        6 => Op::And,
        _ => Op::Or,
    }
}

// The expression under one more node.
fn over_expr(alloc: Global, draw: &mut Draw, expr: Boxed<Expr>) -> Result<Boxed<Expr>, Fail> {
    let op = operator(draw);
    let kind = draw.below_eight();
    if kind == 0 {
        return Ok(boxed_expr(alloc, Expr::Not(expr))?);
    }
    let other = leaf(alloc, draw)?;
    let node = if kind < 4 {
        Expr::Binary(op, other, expr)
    } else {
        Expr::Binary(op, expr, other)
    };
    Ok(boxed_expr(alloc, node)?)
}

fn expr(alloc: Global, draw: &mut Draw, nodes: u32) -> Result<Expr, Fail> {
    let mut expr = leaf(alloc, draw)?;
    for _ in 0..nodes {
        expr = over_expr(alloc, draw, expr)?;
    }
    Ok(expr.into_inner())
}

// ---- lists

fn exprs(alloc: Global, draw: &mut Draw) -> Result<Exprs, Fail> {
    let mut list = Vec::new(alloc);
    for _ in 0..draw.below_eight() + 1 {
        let nodes = draw.below_eight();
        list.push(expr(alloc, draw, nodes)?)?;
    }
    Ok(Exprs::new(list).ok_or("too many")?)
}

fn pairs(alloc: Global, draw: &mut Draw) -> Result<Pairs, Fail> {
    let mut list = Vec::new(alloc);
    for _ in 0..draw.below_eight() {
        let left = draw.column();
        let right = draw.column();
        list.push(Pair { left, right })?;
    }
    Ok(Pairs::new(list).ok_or("too many")?)
}

fn columns(alloc: Global, draw: &mut Draw) -> Result<Cols, Fail> {
    let mut list = Vec::new(alloc);
    for _ in 0..draw.column() + 1 {
        list.push(draw.column())?;
    }
    Ok(Cols::new(list).ok_or("too many")?)
}

fn aggs(alloc: Global, draw: &mut Draw) -> Result<Aggs, Fail> {
    let mut list = Vec::new(alloc);
    for _ in 0..draw.below_eight() {
        let column = draw.column();
        let agg = match draw.below_eight() {
            0 => Agg::Sum(column),
            1 => Agg::Min(column),
            2 => Agg::Max(column),
            3 => Agg::Avg(column),
            _ => Agg::Count,
        };
        list.push(agg)?;
    }
    Ok(Aggs::new(list).ok_or("too many")?)
}

// ---- plans over two sources

fn boxed_plan(alloc: Global, plan: Plan) -> Result<Boxed<Plan>, Memory> {
    Ok(Boxed::new(alloc, plan)?)
}

fn source(alloc: Global, draw: &mut Draw) -> Result<Boxed<Plan>, Memory> {
    boxed_plan(alloc, Plan::Source(draw.below_eight() % 2))
}

// The plan under one more node with one child.
fn over_one(alloc: Global, draw: &mut Draw, plan: Boxed<Plan>) -> Result<Boxed<Plan>, Fail> {
    let nodes = draw.column() % 31;
    let node = match draw.below_eight() % 4 {
        0 => Plan::Filter(expr(alloc, draw, nodes)?, plan),
        1 => Plan::Map(exprs(alloc, draw)?, plan),
        2 => Plan::Group(columns(alloc, draw)?, aggs(alloc, draw)?, plan),
        _ => Plan::Distinct(plan),
    };
    Ok(boxed_plan(alloc, node)?)
}

// The plan under one more node with two children.
fn over_two(alloc: Global, draw: &mut Draw, plan: Boxed<Plan>) -> Result<Boxed<Plan>, Fail> {
    let nodes = draw.column() % 31;
    let other = source(alloc, draw)?;
    let node = match draw.below_eight() % 4 {
        0 => Plan::Union(plan, other),
        1 => Plan::Minus(other, plan),
        _ => Plan::Join(pairs(alloc, draw)?, expr(alloc, draw, nodes)?, plan, other),
    };
    Ok(boxed_plan(alloc, node)?)
}

fn plan(alloc: Global, draw: &mut Draw, nodes: u32) -> Result<Plan, Fail> {
    let mut plan = source(alloc, draw)?;
    for _ in 0..nodes {
        plan = if draw.below_eight() < 4 {
            over_one(alloc, draw, plan)?
        } else {
            over_two(alloc, draw, plan)?
        };
    }
    Ok(plan.into_inner())
}

// ---- queries

fn window(draw: &mut Draw) -> WindowKind {
    let size = draw.number() + 1;
    let slide = draw.number() + 1;
    match draw.below_eight() {
        0 => WindowKind::Count(1),
        1 => WindowKind::Count(1_000_000),
        2 => WindowKind::Slide(1_000_000_000_000_000, 1),
        3 => WindowKind::Slide(size, slide),
        _ => WindowKind::Time(size),
    }
}

fn slack(draw: &mut Draw) -> u64 {
    match draw.below_eight() {
        0 => 1,
        1 => 1_000_000_000_000_000,
        _ => 0,
    }
}

fn column_names(alloc: Global) -> Result<ColumnNames, Fail> {
    let mut names = Vec::new(alloc);
    for name in ["plan", "v", "slack_", "a0", "slide"] {
        names.push(Text::new(alloc, name)?)?;
    }
    Ok(ColumnNames::new(names).ok_or("too many")?)
}

fn kinds(alloc: Global) -> Result<Schema, Fail> {
    let kinds = [Kind::Int, Kind::Text, Kind::Flag, Kind::Int, Kind::Text];
    Ok(Schema::new(Vec::from_array(alloc, kinds)?).ok_or("no schema")?)
}

fn declared(alloc: Global, draw: &mut Draw, name: &str) -> Result<SourceDecl, Fail> {
    Ok(SourceDecl {
        name: Text::new(alloc, name)?,
        file: text(alloc, draw)?,
        names: column_names(alloc)?,
        schema: kinds(alloc)?,
        slack: slack(draw),
        window: window(draw),
    })
}

fn sources(alloc: Global, draw: &mut Draw) -> Result<Sources, Fail> {
    let mut sources = Vec::new(alloc);
    for name in ["a", "planet_9"] {
        sources.push(declared(alloc, draw, name)?)?;
    }
    Ok(Sources::new(sources).ok_or("too many")?)
}

fn query(alloc: Global, draw: &mut Draw) -> Result<Query, Fail> {
    let nodes = draw.column() % 31;
    Ok(Query {
        sources: sources(alloc, draw)?,
        plan: plan(alloc, draw, nodes)?,
    })
}

// Whether the query is read back from what is printed of it.
fn is_read_back(alloc: Global, query: &Query) -> Result<bool, Fail> {
    let mut text = Vec::new(alloc);
    print_query(query, &mut text)?;
    let read = read_query(alloc, text.as_slice())?;
    Ok(read == *query)
}

// How many of so many queries are, up to the first that isn't.
fn read_back(alloc: Global, draw: &mut Draw, most: u32) -> Result<u32, Fail> {
    let mut done = 0_u32;
    for _ in 0..most {
        if !is_read_back(alloc, &query(alloc, draw)?)? {
            break;
        }
        done = done.saturating_add(1);
    }
    Ok(done)
}

#[test]
fn values_that_no_text_was_read_for(rt: HostRuntime) -> Result<(), Fail> {
    let mut draw = Draw { state: 7 };
    assert_eq!(rt; read_back(rt.alloc(), &mut draw, 200)?, 200);
    Ok(())
}

// ---- a plan that checks

fn literal(alloc: Global, text: &str) -> Result<Boxed<Expr>, Fail> {
    let text = Text::new(alloc, text)?;
    Ok(boxed_expr(alloc, Expr::Literal(Value::Text(text)))?)
}

fn same_texts(alloc: Global) -> Result<Expr, Fail> {
    let left = literal(alloc, "a \"b\"\n")?;
    let right = literal(alloc, "")?;
    Ok(Expr::Binary(Op::Eq, left, right))
}

fn filtered(alloc: Global) -> Result<Plan, Fail> {
    let condition = same_texts(alloc)?;
    let a = boxed_plan(alloc, Plan::Source(0))?;
    Ok(Plan::Filter(condition, a))
}

fn is_checked(alloc: Global, query: &Query, plan: &Plan) -> Result<bool, Fail> {
    let schemas = query.schemas(alloc)?;
    Ok(plan.check(alloc, &schemas).is_ok())
}

// A line that declares a source.
const LINE: &[u8] = b"source a from \"a.csv\" (v int) window time 10\n";

// The query of that source and the plan `a`.
fn plain(alloc: Global) -> Result<Query, Fail> {
    let mut text = Vec::from_slice(alloc, LINE)?;
    text.extend_from_slice(b"plan a")?;
    Ok(read_query(alloc, text.as_slice())?)
}

// Whether the plan is read back from the line that is printed of it, after the source's line.
fn is_plan_read_back(alloc: Global, query: &Query, plan: &Plan) -> Result<bool, Fail> {
    let mut text = Vec::from_slice(alloc, LINE)?;
    print_plan(query, plan, &mut text)?;
    let read = read_query(alloc, text.as_slice())?;
    Ok(read.plan == *plan)
}

// Whether a plan that checks is read back from its line.
fn is_printed(alloc: Global) -> Result<bool, Fail> {
    let query = plain(alloc)?;
    let plan = filtered(alloc)?;
    if !is_checked(alloc, &query, &plan)? {
        return Ok(false);
    }
    look_at_literals(&plan);
    is_plan_read_back(alloc, &query, &plan)
}

#[test]
fn a_plan_that_checks(rt: HostRuntime) -> Result<(), Fail> {
    assert!(rt; is_printed(rt.alloc())?);
    Ok(())
}
