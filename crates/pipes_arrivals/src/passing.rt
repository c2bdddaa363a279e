// Items on their way through a window.
ghost use Rattle.std.specs.Prelude.{◌≡◌, ◌≤◌, ◌<◌, List, [], ◌∷◌, ◌++◌, false, OnOk, OnErr};
ghost use Rattle.pipes_stream.specs.declared.Elem.{Elem as AnElem};
ghost use Rattle.pipes_window.specs.declared.item.Item.TheVariants.{Row as ARow, Beat as ABeat};
ghost use Rattle.pipes_window.specs.Items.{item_stamp, RisesFrom};
ghost use Rattle.pipes_feed.specs.Items.{placed_item};
ghost use Rattle.pipes_feed.specs.Waiting.{up_to, past};
ghost use Rattle.pipes_feed.specs.Released.{rows_with};
ghost use Rattle.pipes_arrivals.specs.Taking.{Passes};

use pipes_feed::Reorder;
use pipes_stream::Elem;
use pipes_time::{HORIZON, Memory};
use pipes_tuple::Tuple;
use pipes_window::{Item, Window};

// The window takes an item.
fn pass_item(window: &mut Window, item: Item, out: &mut Vec<Elem>) -> Result<(), Memory>
    requires order { window.old.last ≤ item_stamp item }
    requires below { item_stamp item < HORIZON }
    requires goes_on { window.old.ended ≡ false }
    ensures passes { OnOk result
        (Passes (item ∷ []) window.old window.new out.old.items out.new.items) }
    ensures last { OnOk result (window.new.last ≡ item_stamp item) }
    ensures kept { OnErr result (out.new.items ≡ out.old.items) }
    ensures kind { window.new.kind ≡ window.old.kind }
    ensures ended { window.new.ended ≡ window.old.ended }
{
    match item {
        Item::Row(stamp, tuple) => window.take(stamp, tuple, out),
        Item::Beat(stamp) => {
            window.beat(stamp);
            Ok(())
        }
    }
}

// The window takes those that wait and lie no higher than the floor.
pub(crate) fn pass_due(
    waiting: &mut Reorder,
    window: &mut Window,
    floor: u64,
    out: &mut Vec<Elem>,
) -> Result<(), Memory>
    requires rises { RisesFrom window.old.last waiting.old }
    requires last { window.old.last ≤ floor }
    requires goes_on { window.old.ended ≡ false }
    ensures passes { OnOk result
        (Passes (up_to floor waiting.old) window.old window.new out.old.items out.new.items) }
    ensures left { OnOk result (waiting.new ≡ past floor waiting.old) }
    ensures last { OnOk result (window.new.last ≤ floor) }
    ensures longer { (more : List AnElem) × (out.new.items ≡ out.old.items ++ more) }
    ensures kind { window.new.kind ≡ window.old.kind }
    ensures ended { window.new.ended ≡ window.old.ended }
{
    'due: while let Some(item) = waiting.take_due(floor) {
        pass_item(window, item, out)?;
    }
    Ok(())
}

// The window takes all that wait.
pub(crate) fn pass_rest(
    waiting: &mut Reorder,
    window: &mut Window,
    out: &mut Vec<Elem>,
) -> Result<(), Memory>
    requires rises { RisesFrom window.old.last waiting.old }
    requires goes_on { window.old.ended ≡ false }
    ensures passes { OnOk result
        (Passes waiting.old window.old window.new out.old.items out.new.items) }
    ensures longer { (more : List AnElem) × (out.new.items ≡ out.old.items ++ more) }
    ensures kind { window.new.kind ≡ window.old.kind }
    ensures ended { window.new.ended ≡ window.old.ended }
{
    'rest: while let Some(item) = waiting.take() {
        pass_item(window, item, out)?;
    }
    Ok(())
}

// A row arrives. Without slack nothing waits, and the row is due.
fn pass_row(
    slack: u64,
    floor: u64,
    waiting: &mut Reorder,
    window: &mut Window,
    stamp: u64,
    tuple: Tuple,
    out: &mut Vec<Elem>,
) -> Result<(), Memory>
    requires rises { RisesFrom window.old.last waiting.old }
    requires order { window.old.last ≤ stamp }
    requires below { stamp < HORIZON }
    requires last { window.old.last ≤ floor }
    requires none { slack ≡ 0 → waiting.old ≡ [] }
    requires due { slack ≡ 0 → stamp ≤ floor }
    requires goes_on { window.old.ended ≡ false }
    ensures passes { OnOk result (Passes (up_to floor (placed_item (ARow stamp tuple) waiting.old))
        window.old window.new out.old.items out.new.items) }
    ensures left { OnOk result
        (waiting.new ≡ past floor (placed_item (ARow stamp tuple) waiting.old)) }
    ensures last { OnOk result (window.new.last ≤ floor) }
    ensures longer { (more : List AnElem) × (out.new.items ≡ out.old.items ++ more) }
    ensures kind { window.new.kind ≡ window.old.kind }
    ensures ended { window.new.ended ≡ window.old.ended }
{
    let item = Item::Row(stamp, tuple);
    if slack == 0 {
        return pass_item(window, item, out);
    }
    waiting.put(item)?;
    pass_due(waiting, window, floor, out)
}

// An arrival comes, which raises the floor to this one: what is due goes on.
fn pass_rows(
    slack: u64,
    floor: u64,
    waiting: &mut Reorder,
    window: &mut Window,
    arrival: Item,
    out: &mut Vec<Elem>,
) -> Result<(), Memory>
    requires rises { RisesFrom window.old.last waiting.old }
    requires order { window.old.last ≤ item_stamp arrival }
    requires below { item_stamp arrival < HORIZON }
    requires last { window.old.last ≤ floor }
    requires none { slack ≡ 0 → waiting.old ≡ [] }
    requires due { slack ≡ 0 → item_stamp arrival ≤ floor }
    requires goes_on { window.old.ended ≡ false }
    ensures passes { OnOk result (Passes (up_to floor (rows_with arrival waiting.old)) window.old
        window.new out.old.items out.new.items) }
    ensures left { OnOk result (waiting.new ≡ past floor (rows_with arrival waiting.old)) }
    ensures last { OnOk result (window.new.last ≤ floor) }
    ensures longer { (more : List AnElem) × (out.new.items ≡ out.old.items ++ more) }
    ensures kind { window.new.kind ≡ window.old.kind }
    ensures ended { window.new.ended ≡ window.old.ended }
{
    match arrival {
        Item::Row(stamp, tuple) => pass_row(slack, floor, waiting, window, stamp, tuple, out),
        Item::Beat(_) => pass_due(waiting, window, floor, out),
    }
}

// As before, and then a heartbeat at the floor.
pub(crate) fn pass_arrival(
    slack: u64,
    floor: u64,
    waiting: &mut Reorder,
    window: &mut Window,
    arrival: Item,
    out: &mut Vec<Elem>,
) -> Result<(), Memory>
    requires rises { RisesFrom window.old.last waiting.old }
    requires order { window.old.last ≤ item_stamp arrival }
    requires below { item_stamp arrival < HORIZON }
    requires last { window.old.last ≤ floor }
    requires floor { floor < HORIZON }
    requires none { slack ≡ 0 → waiting.old ≡ [] }
    requires due { slack ≡ 0 → item_stamp arrival ≤ floor }
    requires goes_on { window.old.ended ≡ false }
    ensures passes { OnOk result
        (Passes (up_to floor (rows_with arrival waiting.old) ++ ABeat floor ∷ []) window.old
        window.new out.old.items out.new.items) }
    ensures left { OnOk result (waiting.new ≡ past floor (rows_with arrival waiting.old)) }
    ensures last { OnOk result (window.new.last ≡ floor) }
    ensures longer { (more : List AnElem) × (out.new.items ≡ out.old.items ++ more) }
    ensures kind { window.new.kind ≡ window.old.kind }
    ensures ended { window.new.ended ≡ window.old.ended }
{
    pass_rows(slack, floor, waiting, window, arrival, out)?;
    pass_item(window, Item::Beat(floor), out)
}
