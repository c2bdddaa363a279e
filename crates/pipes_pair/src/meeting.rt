// What two elements make, whose keys are equal.
ghost use Rattle.std.specs.Prelude.{◌≡◌, ◌+◌, ◌≤◌, ◌++◌, [], true, IfOk, OnOk, length};
ghost use Rattle.std.specs.List.{All, flat_map};
ghost use Rattle.pipes_tuple.proofs.Perm.{Perm};
ghost use Rattle.pipes_pair.specs.Meeting.{AreNarrow, joined_from, listed};

use pipes_plan::Expr;
use pipes_stream::Elem;
use pipes_sweep::{Hold, KeyElems, Steps};
use pipes_time::{Interval, Memory};
use std::sync::ledger::Ledger;

// The element that two elements make, if they meet while both are valid. They are looked at where
// they are, and their values are copied only then.
fn joined(condition: &Expr, left: &Elem, right: &Elem) -> Result<Option<Elem>, Memory>
    ensures { IfOk result (λ made. AreNarrow left.now right.now
        → listed made ≡ joined_from [] condition.now true left.now right.now) }
{
    let start = left.span.start().max(right.span.start());
    let end = left.span.end().min(right.span.end());
    match Interval::new(start, end) {
        None => Ok(None),
        Some(span) => {
            if left.tuple.len() + right.tuple.len() > 32 {
                return Ok(None);
            }
            if !condition.test_both(&left.tuple, &right.tuple) {
                return Ok(None);
            }
            let tuple = left.tuple.append(&right.tuple)?;
            Ok(Some(Elem { tuple, span }))
        }
    }
}

// The same, where the first is on the left or on the right.
fn joined_at(
    condition: &Expr,
    is_left: bool,
    own: &Elem,
    other: &Elem,
) -> Result<Option<Elem>, Memory>
    ensures { IfOk result (λ made. AreNarrow own.now other.now
        → listed made ≡ joined_from [] condition.now is_left own.now other.now) }
{
    if is_left {
        joined(condition, own, other)
    } else {
        joined(condition, other, own)
    }
}

// Puts what two elements make.
fn put_joined(
    condition: &Expr,
    is_left: bool,
    own: &Elem,
    other: &Elem,
    hold: &mut Hold,
) -> Result<(), Memory>
    ensures { OnOk result (AreNarrow own.now other.now → Perm hold.new
        (joined_from [] condition.now is_left own.now other.now ++ hold.old)) }
{
    match joined_at(condition, is_left, own, other)? {
        Some(elem) => {
            hold.put(elem)?;
            Ok(())
        }
        None => Ok(()),
    }
}

// Puts what an element and each of the other side's that have its key make.
pub(crate) fn put_all<L: Ledger>(
    condition: &Expr,
    is_left: bool,
    own: &Elem,
    others: &mut KeyElems<'_>,
    hold: &mut Hold,
    steps: &mut Steps<L>,
) -> Result<(), Memory>
    ensures put { OnOk result (All (AreNarrow own.now) others.old → Perm hold.new
        (flat_map (joined_from [] condition.now is_left own.now) others.old ++ hold.old)) }
    ensures steps { steps.new ≤ steps.old + length others.old }
{
    while let Some(other) = others.next(steps) {
        put_joined(condition, is_left, own, other, hold)?;
    }
    Ok(())
}
