// Lists of entries.
ghost use Rattle.std.specs.Prelude.{◌≡◌, ◌++◌, List, ℕ, OnOk, codes};
ghost use Rattle.std.specs.Fmt.{decimal};
ghost use Rattle.std.specs.List.{flat_map};
ghost use Rattle.pipes_print.specs.ExprText.{entries_text, list_text};

use pipes_plan::{Agg, Pair};
use pipes_time::Memory;
use pipes_tuple::{append, append_number};

// What has a text of its own in a list.
pub(crate) trait Entry {
    ghost text: { Self → List ℕ };

    // Appends the text.
    fn push_to(&self, out: &mut Vec<u8>) -> Result<(), Memory>
        ensures { OnOk result (out.new.items ≡ out.old.items ++ text self.now) };
}

impl Entry for u32 {
    ghost use Rattle.std.specs.Fmt.{decimal};

    ghost text = { decimal };

    fn push_to(&self, out: &mut Vec<u8>) -> Result<(), Memory> {
        append_number(u64::from(*self), out)
    }
}

impl Entry for Pair {
    ghost use Rattle.pipes_print.specs.PlanText.{pair_text};

    ghost text = { pair_text };

    fn push_to(&self, out: &mut Vec<u8>) -> Result<(), Memory> {
        append_number(u64::from(self.left), out)?;
        append(b"=", out)?;
        append_number(u64::from(self.right), out)
    }
}

impl Entry for Agg {
    ghost use Rattle.pipes_print.specs.PlanText.{agg_text};

    ghost text = { agg_text };

    fn push_to(&self, out: &mut Vec<u8>) -> Result<(), Memory> {
        match self {
            Agg::Count => append(b"count", out),
            Agg::Sum(column) => push_word(b"sum ", *column, out),
            Agg::Min(column) => push_word(b"min ", *column, out),
            Agg::Max(column) => push_word(b"max ", *column, out),
            Agg::Avg(column) => push_word(b"avg ", *column, out),
        }
    }
}

// Appends a word and a number.
fn push_word(word: &[u8], number: u32, out: &mut Vec<u8>) -> Result<(), Memory>
    ensures { OnOk result (out.new.items ≡ out.old.items ++ (word.now ++ decimal number)) }
{
    append(word, out)?;
    append_number(u64::from(number), out)
}

// Appends the list in brackets.
pub(crate) fn push_list<T: Entry>(entries: &[T], out: &mut Vec<u8>) -> Result<(), Memory>
    ensures { OnOk result (out.new.items ≡ out.old.items ++ list_text T.text entries.now) }
{
    append(b"[", out)?;
    push_entries(entries, out)?;
    append(b"]", out)
}

// Appends the entries.
fn push_entries<T: Entry>(entries: &[T], out: &mut Vec<u8>) -> Result<(), Memory>
    ensures { OnOk result (out.new.items ≡ out.old.items ++ entries_text T.text entries.now) }
{
    match entries {
        [] => Ok(()),
        [first, others @ ..] => {
            first.push_to(out)?;
            push_others(others, out)
        }
    }
}

// Appends the entries, each after a comma.
fn push_others<T: Entry>(entries: &[T], out: &mut Vec<u8>) -> Result<(), Memory>
    ensures { OnOk result (out.new.items ≡ out.old.items ++ flat_map (λ entry. codes ", "
        ++ T.text entry) entries.now) }
{
    for entry in entries {
        push_next(entry, out)?;
    }
    Ok(())
}

// Appends the entry after a comma.
fn push_next<T: Entry>(entry: &T, out: &mut Vec<u8>) -> Result<(), Memory>
    ensures { OnOk result (out.new.items ≡ out.old.items ++ (codes ", " ++ T.text entry.now)) }
{
    append(b", ", out)?;
    entry.push_to(out)
}
