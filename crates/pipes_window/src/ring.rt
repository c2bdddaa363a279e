// The last few of what has come.
ghost use Rattle.std.specs.Prelude.{◌≡◌, ◌≤◌, [], ◌∷◌, ◌++◌, length, IfOk, OnOk, OnErr};
ghost use Rattle.std.specs.Option.{option_to_list};
ghost use Rattle.pipes_window.specs.Items.{last_n};

use pipes_time::Memory;
use std::collections::VecDeque;

// The newest joins, and the oldest leaves where there are then more than the most.
pub(crate) fn slide<T: Drop>(
    held: &mut VecDeque<T>,
    most: usize,
    newest: T,
) -> Result<Option<T>, Memory>
    requires { length held.old.items ≤ most }
    ensures all { IfOk result
        (λ oldest. option_to_list oldest ++ held.new.items ≡ held.old.items ++ newest ∷ []) }
    ensures last { OnOk result (held.new.items ≡ last_n most (held.old.items ++ newest ∷ [])) }
    ensures few { length held.new.items ≤ most }
    ensures kept { OnErr result (held.new.items ≡ held.old.items) }
{
    held.push_back(newest)?;
    if held.len() <= most {
        return Ok(None);
    }
    Ok(held.pop_front())
}
