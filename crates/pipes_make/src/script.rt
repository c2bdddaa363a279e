// Scripts.
ghost use Rattle.std.specs.Prelude.{◌≡◌, ◌++◌, IfOk, OnOk};
ghost use Rattle.pipes_make.specs.Scripts.{share, feed, feeds, shares, steady_script};
ghost use Rattle.pipes_make.specs.Scripts.{moving_script};

use pipes_time::Memory;
use pipes_tuple::{append, append_number};
use std::alloc::Global;

/// The script of a run over so many rows, without migrations.
pub fn steady_script(alloc: Global, rows: u64) -> Result<Vec<u8>, Memory>
    ensures { IfOk result (λ text. text.items ≡ steady_script rows) }
{
    shares(alloc, rows, b"", b"", b"")
}

/// The same, with a migration by each of the three derivations.
pub fn moving_script(alloc: Global, rows: u64) -> Result<Vec<u8>, Memory>
    ensures { IfOk result (λ text. text.items ≡ moving_script rows) }
{
    shares(
        alloc,
        rows,
        b"migrate \"m1\"\n",
        b"migrate \"m2\"\n",
        b"migrate \"m3\"\n",
    )
}

fn shares(
    alloc: Global,
    rows: u64,
    first: &[u8],
    second: &[u8],
    third: &[u8],
) -> Result<Vec<u8>, Memory>
    ensures { IfOk result (λ text. text.items ≡ shares rows first.now second.now third.now) }
{
    let share = share(rows);
    let mut text = Vec::new(alloc);
    push_feeds(share, first, &mut text)?;
    push_feeds(share, second, &mut text)?;
    push_feeds(share, third, &mut text)?;
    append(b"rest\n", &mut text)?;
    Ok(text)
}

fn share(rows: u64) -> u64
    ensures { result ≡ share rows }
{
    (rows / 8).max(1)
}

fn push_feeds(share: u64, others: &[u8], text: &mut Vec<u8>) -> Result<(), Memory>
    ensures { OnOk result (text.new.items ≡ text.old.items ++ feeds share others.now) }
{
    push_feed(b"feed bids ", share, text)?;
    push_feed(b"feed asks ", share, text)?;
    append(others, text)?;
    Ok(())
}

fn push_feed(command: &[u8], share: u64, text: &mut Vec<u8>) -> Result<(), Memory>
    ensures { OnOk result (text.new.items ≡ text.old.items ++ feed command.now share) }
{
    append(command, text)?;
    append_number(share, text)?;
    append(b"\n", text)?;
    Ok(())
}
