// What an operator makes of the rows of one key.
use pipes_time::Memory;
use pipes_tuple::{Key, Tuple};

/// What an operator makes of the rows of one key. A tally stands for them: it is kept as rows come
/// and end, and the answer is read from it.
pub trait Rule<T: Drop> {
    ghost use Rattle.std.specs.Prelude.{◌≡◌, ◌<◌, ℕ, OnOk, IfOk};
    ghost use Rattle.std.specs.Bool.{OnTrue, OnFalse};
    ghost use Rattle.pipes_timeline.specs.Rules.{Row, RowBags, SameOfKey, NoneOfKey, KeyRule};
    ghost use Rattle.pipes_timeline.specs.Tables.{IsAnswer, with_arrival};

    /// The keys, and what their rows give.
    ghost rule: { Self → KeyRule };

    /// The tally stands for the rows with the key that the bags have.
    ghost tells: { Self → Row → T → RowBags → Type 0 };

    /// The key of a row.
    fn key(&self, tuple: &Tuple) -> Result<Key, Memory>
        ensures { IfOk result (λ k. k ≡ (rule self.now).key tuple.now) };

    /// The tally of no rows.
    fn none(&self) -> Result<T, Memory>
        ensures { IfOk result (λ tally. (k : Row) (bags : RowBags)
            → NoneOfKey (rule self.now).key k bags → tells self.now k tally bags) };

    /// A row comes at a port.
    fn add(&self, tally: &mut T, port: u32, tuple: &Tuple) -> Result<(), Memory>
        ensures { OnOk result ((k : Row) (bags : RowBags)
            → (rule self.now).key tuple.now ≡ k → tells self.now k tally.old bags
            → tells self.now k tally.new (with_arrival bags port tuple.now)) };

    /// A row that came at the port goes.
    fn remove(&self, tally: &mut T, port: u32, tuple: &Tuple) -> Result<(), Memory>
        ensures { OnOk result ((k : Row) (bags : RowBags)
            → (rule self.now).key tuple.now ≡ k
            → tells self.now k tally.old (with_arrival bags port tuple.now)
            → tells self.now k tally.new bags) };

    /// Whether there are no rows.
    fn is_empty(&self, tally: &T) -> bool
        ensures { OnTrue result ((k : Row) (bags : RowBags) → tells self.now k tally.now bags
            → NoneOfKey (rule self.now).key k bags) };

    /// Whether they give something.
    fn has_answer(&self, tally: &T) -> bool
        ensures some { OnTrue result ((k : Row) (bags : RowBags) → tells self.now k tally.now bags
            → (x : Row) × (0 < (rule self.now).gives k bags x)) }
        ensures none { OnFalse result ((k : Row) (bags : RowBags)
            → tells self.now k tally.now bags → (x : Row) → (rule self.now).gives k bags x ≡ 0) };

    /// What they give: a tuple, and how often.
    fn answer(&self, key: &Key, tally: &T) -> Result<(Tuple, u64), Memory>
        ensures { IfOk result (λ a. (bags : RowBags) → tells self.now key.now tally.now bags
            → IsAnswer (rule self.now) key.now bags a.0 a.1) };

    ghost stays: { (s : Self) (k : Row) (tally : T) (bags others : RowBags)
        → SameOfKey (rule s).key k bags others → tells s k tally bags → tells s k tally others };
}
