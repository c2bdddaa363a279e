// Lists of entries under a limit.
ghost use Rattle.std.specs.Prelude.{List, Bool};
ghost use Rattle.pipes_reader.specs.Reading.{Reads, GivesFrom};
ghost use Rattle.pipes_reader.specs.Reading as reading;

use crate::{Cursor, ParseFault};

/// What is read entry by entry, in a context that stays the same.
pub trait Entries<C> {
    ghost step: { C → Self → Reads (Self × Bool) };

    ghost over: { C → Self → Reads Self };

    /// Reads one more entry and says whether another follows.
    fn step(&mut self, context: &C, cursor: &mut Cursor<'_>) -> Result<bool, ParseFault>
        ensures { GivesFrom (λ more. (self.new, more))
            (step context.now self.old) cursor.old cursor.new result };

    /// Reads on after the last entry that the limit allows, where another would follow.
    fn over(&mut self, context: &C, cursor: &mut Cursor<'_>) -> Result<(), ParseFault>
        ensures { GivesFrom (λ done. self.new)
            (over context.now self.old) cursor.old cursor.new result };
}

/// Reads at most so many entries.
#[tactic(auto, using(crate::proofs::Loops::step_failed, crate::proofs::Loops::step_last, crate::proofs::Loops::step_more, crate::proofs::Loops::steps_over))]
pub fn many_within<C, E: Entries<C>>(
    limit: u32,
    context: &C,
    entries: &mut E,
    cursor: &mut Cursor<'_>,
) -> Result<(), ParseFault>
    ensures { GivesFrom (λ done. entries.new)
        (reading.many_within limit (E.step context.now)
        (E.over context.now) entries.old) cursor.old cursor.new result }
{
    for count in 0..limit {
        match entries.step(context, cursor) {
            Err(fault) => return Err(fault),
            Ok(more) => {
                if !more {
                    return Ok(());
                }
            }
        }
    }
    entries.over(context, cursor)
}
