// How often a row is at each side.
ghost use Rattle.std.specs.Prelude.{◌≡◌, IfOk};

use pipes_time::Memory;
use pipes_timeline::Rule;
use pipes_tuple::{Key, Tuple, Value};
use std::alloc::Global;

/// How often a row is at the left and at the right port.
#[derive(Clone, Copy)]
pub struct Counts {
    pub(crate) left: u64,
    pub(crate) right: u64,
}

/// A row is as often in the difference as it is at the left port, less as often as at the right.
#[derive(Drop)]
pub struct Difference {
    pub(crate) alloc: Global,
}

fn copied(alloc: Global, values: &[Value]) -> Result<Vec<Value>, Memory>
    ensures { IfOk result (λ copy. copy.items ≡ values.now) }
{
    let mut copy = Vec::new(alloc);
    for value in values {
        copy.push(value.copy()?)?;
    }
    Ok(copy)
}

impl Rule<Counts> for Difference {
    ghost use Rattle.pipes_minus.specs.Differences.{minus_rule, MinusTells, minus_stays};

    ghost rule = { λ d. minus_rule };

    ghost tells = { λ d. MinusTells };

    ghost stays = { λ d. minus_stays };

    fn key(&self, tuple: &Tuple) -> Result<Key, Memory> {
        let values = copied(self.alloc, tuple.as_slice())?;
        Key::new(values).ok_or(Memory)
    }

    fn none(&self) -> Result<Counts, Memory> {
        Ok(Counts { left: 0, right: 0 })
    }

    fn add(&self, tally: &mut Counts, port: u32, _tuple: &Tuple) -> Result<(), Memory> {
        match port {
            0 => {
                tally.left = tally.left.checked_add(1).ok_or(Memory)?;
                Ok(())
            }
            1 => {
                tally.right = tally.right.checked_add(1).ok_or(Memory)?;
                Ok(())
            }
            _ => Err(Memory),
        }
    }

    fn remove(&self, tally: &mut Counts, port: u32, _tuple: &Tuple) -> Result<(), Memory> {
        match port {
            0 => {
                tally.left = tally.left.saturating_sub(1);
                Ok(())
            }
            1 => {
                tally.right = tally.right.saturating_sub(1);
                Ok(())
            }
            _ => Err(Memory),
        }
    }

    fn is_empty(&self, tally: &Counts) -> bool {
        tally.left == 0 && tally.right == 0
    }

    fn has_answer(&self, tally: &Counts) -> bool {
        tally.right < tally.left
    }

    fn answer(&self, key: &Key, tally: &Counts) -> Result<(Tuple, u64), Memory> {
        let values = copied(self.alloc, key.as_slice())?;
        let tuple = Tuple::new(values).ok_or(Memory)?;
        Ok((tuple, tally.left.saturating_sub(tally.right)))
    }
}
