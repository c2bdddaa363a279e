// Two plans' results, joined at a split.
ghost use Rattle.std.specs.Prelude.{◌≡◌, ◌++◌, ◌∷◌, [], true, false, OnOk, OnErr, IsErr};
ghost use Rattle.std.specs.Prelude.{min, ◌^◌, ◌-◌};
ghost use Rattle.std.specs.Bool.{OnTrue};
ghost use Rattle.pipes_coalesce.specs.Stands.{CoalesceStands, IsMerged, held_of};
ghost use Rattle.pipes_seam.specs.Seams.{GivesOld, GivesFresh, only_elements};

use pipes_coalesce::Coalesce;
use pipes_stream::Message;
use pipes_time::Memory;
use std::alloc::Global;

/// What came to the tops of two plans, joined at a split: the old plan's results before it, and the
/// fresh one's from it on.
#[derive(Drop)]
pub struct Seam {
    pub(crate) merge: Coalesce,
    // how far the output was at the beginning
    pub(crate) first: u64,
    pub(crate) failed: bool,
}

// Gives all these messages to the old side.
fn give_old(
    merge: &mut Coalesce,
    olds: &mut Vec<Message>,
    out: &mut Vec<Message>,
) -> Result<(), Memory>
    ensures gives { OnOk result
        (GivesOld merge.old merge.new olds.old.items out.old.items out.new.items) }
    ensures taken { OnOk result (olds.new.items ≡ []) }
{
    for message in olds.drain(..) {
        merge.old(message, out)?;
    }
    Ok(())
}

// Gives all these messages to the fresh side.
fn give_fresh(
    merge: &mut Coalesce,
    fresh: &mut Vec<Message>,
    out: &mut Vec<Message>,
) -> Result<(), Memory>
    ensures gives { OnOk result
        (GivesFresh merge.old merge.new fresh.old.items out.old.items out.new.items) }
    ensures taken { OnOk result (fresh.new.items ≡ []) }
{
    for message in fresh.drain(..) {
        merge.fresh(message, out)?;
    }
    Ok(())
}

// Appends the message if it is an element.
fn keep(message: Message, out: &mut Vec<Message>) -> Result<(), Memory>
    ensures { OnOk result (out.new.items ≡ out.old.items ++ only_elements (message ∷ [])) }
{
    match message {
        Message::Elem(elem) => Ok(out.push(Message::Elem(elem))?),
        Message::Beat(_) => Ok(()),
        Message::End => Ok(()),
    }
}

// Appends the elements among the messages.
fn keep_elements(sent: Vec<Message>, out: &mut Vec<Message>) -> Result<(), Memory>
    ensures { OnOk result (out.new.items ≡ out.old.items ++ only_elements sent.items) }
{
    for message in sent {
        keep(message, out)?;
    }
    Ok(())
}

impl Seam {
    ghost use Rattle.pipes_seam.specs.Seams.{Joins, level_of};

    /// The seam at this split, to which nothing came; the output is that far. No memory is taken.
    pub fn new(alloc: Global, split: u64, first: u64) -> Seam
        ensures stands { CoalesceStands result.merge [] [] [] }
        ensures split { result.merge.split ≡ split }
        ensures first { result.first ≡ first }
        ensures going { result.failed ≡ false }
    {
        Seam {
            merge: Coalesce::two(alloc, split),
            first,
            failed: false,
        }
    }

    /// Takes all that came to the two tops, and appends what the output is to take of it: the
    /// elements that are due, and then how far it is. After out of memory each call answers it.
    pub fn join(
        &mut self,
        olds: &mut Vec<Message>,
        fresh: &mut Vec<Message>,
        out: &mut Vec<Message>,
    ) -> Result<(), Memory>
        ensures joins { OnOk result (Joins self.old self.new olds.old.items fresh.old.items
            out.old.items out.new.items) }
        ensures olds { OnOk result (olds.new.items ≡ []) }
        ensures fresh { OnOk result (fresh.new.items ≡ []) }
        ensures memory { OnErr result (self.new.failed ≡ true) }
        ensures stays_failed { OnTrue self.old.failed (IsErr result) }
        ensures going { OnOk result (self.new.failed ≡ false) }
    {
        if self.failed {
            return Err(Memory);
        }
        self.failed = true;
        self.join_all(olds, fresh, out)?;
        self.failed = false;
        Ok(())
    }

    fn join_all(
        &mut self,
        olds: &mut Vec<Message>,
        fresh: &mut Vec<Message>,
        out: &mut Vec<Message>,
    ) -> Result<(), Memory>
        ensures joins { OnOk result (Joins self.old self.new olds.old.items fresh.old.items
            out.old.items out.new.items) }
        ensures olds { OnOk result (olds.new.items ≡ []) }
        ensures fresh { OnOk result (fresh.new.items ≡ []) }
        ensures failed { self.new.failed ≡ self.old.failed }
    {
        let mut sent = Vec::new(*out.allocator());
        give_old(&mut self.merge, olds, &mut sent)?;
        give_fresh(&mut self.merge, fresh, &mut sent)?;
        keep_elements(sent, out)?;
        let level = self.level();
        out.push(Message::Beat(level))?;
        Ok(())
    }

    /// The split.
    pub fn split(&self) -> u64
        ensures { result ≡ self.now.merge.split }
    {
        self.merge.split
    }

    /// How far the output was at the beginning.
    pub fn first(&self) -> u64
        ensures { result ≡ self.now.first }
    {
        self.first
    }

    /// How far the output is: no less than at the beginning, and else as far as both tops allow.
    pub fn level(&self) -> u64
        ensures { result ≡ level_of self.now }
    {
        self.first.max(self.merge.beat_now())
    }

    /// The number of elements that are held, clamped to 64 bits. What was sent is the old plan's
    /// list before the split and the fresh one's from it on, as far as it has come.
    pub fn held(&self) -> u64
        ensures value { result ≡ min (held_of self.now.merge) (2 ^ 64 - 1) }
        ensures merged { IsMerged self.now.merge }
    {
        self.merge.held()
    }
}
