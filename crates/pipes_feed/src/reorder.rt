// Items that wait for those that may still come before them.
ghost use Rattle.std.specs.Prelude.{◌≡◌, ◌<◌, ◌≤◌, [], ◌∷◌, OnOk, OnErr, IfSome, IfNone, take};
ghost use Rattle.std.specs.Prelude.{drop};
ghost use Rattle.std.specs.List.{All};
ghost use Rattle.std.specs.VecDeque.{deque_len};
ghost use Rattle.pipes_feed.specs.Items as items;
ghost use Rattle.pipes_feed.specs.Items.{placed_item};
ghost use Rattle.pipes_feed.specs.Waiting.{ArrivalsRise, up_to, past};

use pipes_time::Memory;
use pipes_window::Item;
use std::alloc::Global;
use std::collections::VecDeque;
use std::marker::Model;

/// Puts the arrivals of a source whose rows may come late in the order of their stamps: it holds
/// those that a later arrival may still come before. Those of one stamp stay in file order.
#[derive(Drop)]
pub struct Reorder {
    waiting: VecDeque<Item>,
}

impl Model for Reorder {
    ghost use Rattle.std.specs.Prelude.{List};
    ghost use Rattle.pipes_window.specs.declared.item.Item.{Item};
    ghost use Rattle.pipes_feed.specs.Waiting.{ArrivalsRise};

    ghost Value = { List Item };

    ghost view = { λ r. r.waiting.items };

    ghost invariant = { λ r. ArrivalsRise r.waiting.items };
}

// The stamp of an item.
fn stamp_in(item: &Item) -> u64
    ensures { result ≡ items.stamp_in item.now }
{
    match item {
        Item::Row(stamp, _) => *stamp,
        Item::Beat(stamp) => *stamp,
    }
}

// How many have a stamp up to this one: these come first.
fn count_up_to(waiting: &VecDeque<Item>, stamp: u64) -> usize
    requires { ArrivalsRise waiting.now.items }
    ensures bound { result ≤ deque_len waiting.now }
    ensures first { take result waiting.now.items ≡ up_to stamp waiting.now.items }
    ensures rest { drop result waiting.now.items ≡ past stamp waiting.now.items }
{
    waiting.partition_point(|item| stamp_in(item) <= stamp)
}

impl Reorder {
    /// Nothing waits.
    pub fn new(alloc: Global) -> Reorder
        ensures { result ≡ [] }
    {
        Reorder {
            waiting: VecDeque::new(alloc),
        }
    }

    /// One more item waits, after those whose stamps are no greater. Out of memory, nothing
    /// changes.
    pub fn put(&mut self, item: Item) -> Result<(), Memory>
        ensures put { OnOk result (self.new ≡ placed_item item self.old) }
        ensures memory { OnErr result (self.new ≡ self.old) }
    {
        let place = count_up_to(&self.waiting, stamp_in(&item));
        self.waiting.insert(place, item)?;
        Ok(())
    }

    /// The first of those that wait, where its stamp is at most the floor: nothing comes before it
    /// any more. It waits no longer.
    pub fn take_due(&mut self, floor: u64) -> Option<Item>
        ensures due { IfSome result (λ item. (self.old ≡ item ∷ self.new)
            × (items.stamp_in item ≤ floor)) }
        ensures none { IfNone result ((self.new ≡ self.old) × All (λ i. floor < items.stamp_in i)
            self.old) }
        ensures order { ArrivalsRise self.old }
    {
        match self.waiting.front() {
            Some(first) if stamp_in(first) <= floor => self.waiting.pop_front(),
            _ => None,
        }
    }

    /// The first of those that wait, which waits no longer; none where nothing waits.
    pub fn take(&mut self) -> Option<Item>
        ensures first { IfSome result (λ item. self.old ≡ item ∷ self.new) }
        ensures none { IfNone result ((self.old ≡ []) × (self.new ≡ [])) }
        ensures order { ArrivalsRise self.old }
    {
        self.waiting.pop_front()
    }
}
