// Reading what a step takes beside the plan.
ghost use Rattle.std.specs.Prelude.{◌≡◌};
ghost use Rattle.pipes_reader.specs.Reading.{GivesFrom};
ghost use Rattle.pipes_rules.specs.declared.step.Arg.TheVariants as arg;
ghost use Rattle.pipes_derivation.specs.Reading as spec;

use crate::take::is_list_mark;
use pipes_grammar::{read_expr, read_exprs};
use pipes_plan::{Expr, Exprs};
use pipes_reader::{Cursor, ParseFault, ran_out};
use pipes_rules::Arg;
use pipes_token::{Keyword, TokenKind};
use std::alloc::Global;

// One expression.
#[tactic(auto, unfolding(crate::specs::Reading::read_one_expr))]
fn read_one_expr(alloc: Global, cursor: &mut Cursor<'_>) -> Result<Arg, ParseFault>
    ensures { GivesFrom (λ given. given) spec.read_one_expr cursor.old cursor.new result }
{
    let (expr, rest) = read_expr(alloc, cursor.rest())?;
    *cursor = Cursor::new(rest);
    Ok(Arg::OneExpr(expr))
}

// Two lists of expressions.
#[tactic(auto, unfolding(crate::specs::Reading::read_two_lists))]
fn read_two_lists(alloc: Global, cursor: &mut Cursor<'_>) -> Result<Arg, ParseFault>
    ensures { GivesFrom (λ given. given) spec.read_two_lists cursor.old cursor.new result }
{
    let (es, rest) = read_exprs(alloc, cursor.rest())?;
    let (fs, rest) = read_exprs(alloc, rest)?;
    *cursor = Cursor::new(rest);
    Ok(Arg::TwoLists(es, fs))
}

// One expression, or two lists.
#[tactic(auto, unfolding(crate::specs::Reading::read_exprs_given, crate::specs::Reading::either))]
fn read_exprs_given(alloc: Global, cursor: &mut Cursor<'_>) -> Result<Arg, ParseFault>
    ensures { GivesFrom (λ given. given) spec.read_exprs_given cursor.old cursor.new result }
{
    match cursor.rest() {
        [] => Err(ParseFault::Refused(ran_out())),
        [token, ..] => {
            if is_list_mark(&token.kind) {
                read_two_lists(alloc, cursor)
            } else {
                read_one_expr(alloc, cursor)
            }
        }
    }
}

// What a step takes, where something is written.
#[tactic(auto, unfolding(crate::specs::Reading::read_arg, pipes_reader::specs::Reading::optional))]
pub fn read_arg(alloc: Global, cursor: &mut Cursor<'_>) -> Result<Arg, ParseFault>
    ensures { GivesFrom (λ given. given) spec.read_arg cursor.old cursor.new result }
{
    match cursor.rest() {
        [token, ..] if matches!(token.kind, TokenKind::Keyword(Keyword::With)) => {
            cursor.skip();
            read_exprs_given(alloc, cursor)
        }
        _ => Ok(Arg::Nothing),
    }
}
