// One side of a join.
ghost use Rattle.std.specs.Prelude.{◌≡◌, ◌+◌, ◌≤◌, [], OnOk};
ghost use Rattle.pipes_stream.specs.declared.message.Message.TheVariants as messages;
ghost use Rattle.pipes_pair.specs.Meeting.{joined_from};
ghost use Rattle.pipes_pair.specs.Sides.{Admits, KeepsElem, met_count};

use crate::meeting::put_all;
use pipes_plan::Expr;
use pipes_stream::{Elem, Message, Watch};
use pipes_sweep::{Area, Hold, Steps};
use pipes_time::Memory;
use std::sync::ledger::Ledger;

// How far the side has come, and its elements that can still meet others.
#[derive(Drop)]
pub struct Side {
    pub watch: Watch,
    pub area: Area,
}

// Keeps an element, and puts what it and each of the other side's that have its key make. An
// element without the columns of its key doesn't come.
fn keep<L: Ledger>(
    condition: &Expr,
    is_left: bool,
    elem: Elem,
    own: &mut Area,
    other: &Area,
    hold: &mut Hold,
    steps: &mut Steps<L>,
) -> Result<(), Memory>
    ensures keeps { OnOk result (KeepsElem (joined_from [] condition.now is_left) own.old own.new
        other.now hold.old hold.new (messages.Elem elem)) }
    ensures steps { steps.new ≤ steps.old + met_count own.old other.now (messages.Elem elem) }
{
    match own.key_of(&elem.tuple)? {
        None => Ok(()),
        Some(key) => {
            let mut others = other.of_key(&key);
            put_all(condition, is_left, &elem, &mut others, hold, steps)?;
            own.insert_keyed(key, elem)?;
            Ok(())
        }
    }
}

// Keeps the message's element, if it has one.
fn keep_any<L: Ledger>(
    condition: &Expr,
    is_left: bool,
    message: Message,
    own: &mut Area,
    other: &Area,
    hold: &mut Hold,
    steps: &mut Steps<L>,
) -> Result<(), Memory>
    ensures keeps { OnOk result (KeepsElem (joined_from [] condition.now is_left) own.old own.new
        other.now hold.old hold.new message) }
    ensures steps { steps.new ≤ steps.old + met_count own.old other.now message }
{
    match message {
        Message::Elem(elem) => keep(condition, is_left, elem, own, other, hold, steps),
        Message::Beat(_) => Ok(()),
        Message::End => Ok(()),
    }
}

// Takes a message on one side.
pub fn admit<L: Ledger>(
    condition: &Expr,
    is_left: bool,
    message: Message,
    own: &mut Side,
    other: &Side,
    hold: &mut Hold,
    steps: &mut Steps<L>,
) -> Result<(), Memory>
    ensures admits { OnOk result (Admits (joined_from [] condition.now is_left) own.old own.new
        other.now hold.old hold.new message) }
    ensures steps { steps.new ≤ steps.old + met_count own.old.area other.now.area message }
{
    own.watch.step(&message);
    keep_any(
        condition,
        is_left,
        message,
        &mut own.area,
        &other.area,
        hold,
        steps,
    )?;
    Ok(())
}
