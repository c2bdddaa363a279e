// Lists in brackets.
ghost use Rattle.std.specs.Prelude.{◌≡◌, ◌≤◌, IfOk, IfErr, List, Result, length, vec_len};
ghost use Rattle.pipes_token.specs.declared.refusal.Refusal.{Refusal};
ghost use Rattle.pipes_token.specs.declared.token.Token.{Token};
ghost use Rattle.pipes_expr.specs.declared.expr.Expr.{Expr};
ghost use Rattle.pipes_grammar.specs.Limits.{AreExprsText};
ghost use Rattle.pipes_reader.specs.Reading.{Gives, done};
ghost use Rattle.pipes_grammar.specs.Reading.{SentencePrefix};
ghost use Rattle.pipes_grammar.specs.Places.{ExprsRefused};
ghost use Rattle.pipes_grammar.specs.ListReading as spec;

use crate::ParseFault;
use crate::node::parse_exprs;
use crate::tokens::after_open_list;
use pipes_plan::Exprs;
use pipes_reader::{ran_out, refused, too_many};
use pipes_token::{Sign, Token, TokenKind};
use pipes_tuple::BoundedList;
use std::alloc::Global;

// The most entries of a list.
const MOST_ENTRIES: usize = 32;

/// What stands in a list.
pub trait Entry {
    ghost entry: { List Token → Result (Self × List Token) Refusal };

    fn read(alloc: Global, tokens: &[Token]) -> Result<(Self, &[Token]), ParseFault>
        ensures { Gives (λ x. (x.0, x.1.now)) result (entry tokens.now) };
}

// Whether a comma follows, or the end of the list.
#[tactic(auto, unfolding(crate::specs::ListReading::read_goes_on))]
fn read_goes_on(tokens: &[Token]) -> Result<(bool, &[Token]), ParseFault>
    ensures { Gives (λ x. (x.0, x.1.now)) result (spec.read_goes_on tokens.now) }
{
    match tokens {
        [] => Err(ParseFault::Refused(ran_out())),
        [token, rest @ ..] => match token.kind {
            TokenKind::Sign(Sign::Comma) => Ok((true, rest)),
            TokenKind::Sign(Sign::CloseList) => Ok((false, rest)),
            _ => Err(ParseFault::Refused(refused(token))),
        },
    }
}

// An entry, and whether another follows.
#[tactic(auto, unfolding(crate::specs::ListReading::step_from))]
fn step_from<T: Entry + Drop>(
    alloc: Global,
    tokens: &[Token],
) -> Result<(T, bool, &[Token]), ParseFault>
    ensures { Gives (λ x. ((x.0, x.1), x.2.now)) result (spec.step_from T.entry tokens.now) }
{
    let (entry, rest) = T::read(alloc, tokens)?;
    let (goes_on, rest) = read_goes_on(rest)?;
    Ok((entry, goes_on, rest))
}

// At most so many entries, and what stands after the end of the list.
fn entries_within<T: Entry + Drop>(
    alloc: Global,
    most: usize,
    tokens: &[Token],
) -> Result<(Vec<T>, &[Token]), ParseFault>
    ensures value { Gives (λ x. (x.0.items, x.1.now)) result
        (spec.entries_within T.entry most tokens.now) }
    ensures bound { IfOk result (λ x. vec_len x.0 ≤ most) }
{
    let mut list = Vec::new(alloc);
    let mut rest = tokens;
    'entries: for _ in 0..most {
        let (entry, goes_on, later) = match step_from::<T>(alloc, rest) {
            Ok(step) => step,
            Err(fault) => return Err(fault),
        };
        list.push(entry)?;
        if !goes_on {
            return Ok((list, later));
        }
        rest = later;
    }
    Err(ParseFault::Refused(too_many(rest)))
}

// A list of at most 32 entries, from after its `[` and one of them on.
fn entries<T: Entry + Drop>(
    alloc: Global,
    tokens: &[Token],
) -> Result<(BoundedList<T, MOST_ENTRIES>, &[Token]), ParseFault>
    ensures { Gives (λ x. (x.0, x.1.now)) result (spec.entries_within T.entry 32 tokens.now) }
{
    let (list, rest) = entries_within::<T>(alloc, MOST_ENTRIES, tokens)?;
    Ok((BoundedList::new(list).unwrap(), rest))
}

// A list that isn't empty.
#[tactic(auto, unfolding(crate::specs::ListReading::filled_from))]
pub fn filled_from<T: Entry + Drop>(
    alloc: Global,
    tokens: &[Token],
) -> Result<(BoundedList<T, MOST_ENTRIES>, &[Token]), ParseFault>
    ensures { Gives (λ x. (x.0, x.1.now)) result (spec.filled_from T.entry tokens.now) }
{
    let rest = after_open_list(tokens)?;
    entries(alloc, rest)
}

// What stands after `[`: entries and the end of the list, or its end alone.
#[tactic(auto, unfolding(crate::specs::ListReading::entries_from))]
fn entries_from<T: Entry + Drop>(
    alloc: Global,
    tokens: &[Token],
) -> Result<(BoundedList<T, MOST_ENTRIES>, &[Token]), ParseFault>
    ensures { Gives (λ x. (x.0, x.1.now)) result (spec.entries_from T.entry tokens.now) }
{
    match tokens {
        [] => Err(ParseFault::Refused(ran_out())),
        [token, rest @ ..] => match token.kind {
            TokenKind::Sign(Sign::CloseList) => Ok((
                BoundedList::new(Vec::new(alloc)).unwrap(),
                rest,
            )),
            _ => entries(alloc, tokens),
        },
    }
}

// A list that may be empty.
#[tactic(auto, unfolding(crate::specs::ListReading::list_from))]
pub fn list_from<T: Entry + Drop>(
    alloc: Global,
    tokens: &[Token],
) -> Result<(BoundedList<T, MOST_ENTRIES>, &[Token]), ParseFault>
    ensures { Gives (λ x. (x.0, x.1.now)) result (spec.list_from T.entry tokens.now) }
{
    let rest = after_open_list(tokens)?;
    entries_from(alloc, rest)
}

/// The list of expressions that comes first, and the tokens after it.
#[tactic(auto, using(crate::proofs::EntryReaders::exprs_found, crate::proofs::KitReaders::exprs_refused))]
pub fn read_exprs(alloc: Global, tokens: &[Token]) -> Result<(Exprs, &[Token]), ParseFault>
    // What is read is spelled by the tokens before the rest.
    ensures found { IfOk result (λ x. SentencePrefix AreExprsText x.0 tokens.now x.1.now) }
    // What is spelled so is read, unless memory runs out.
    ensures only { (es : List Expr) (rest : List Token)
        → SentencePrefix AreExprsText es tokens.now rest
        → Gives (λ x. (x.0, x.1.now)) result (done es rest) }
    // A refusal comes at the first place at which the tokens can't go on.
    ensures first { IfErr result (λ fault. ExprsRefused spec.parse_exprs tokens.now fault) }
    // Which refusal it is.
    ensures exact { Gives (λ x. (x.0, x.1.now)) result (spec.parse_exprs tokens.now) }
{
    parse_exprs(alloc, tokens)
}
