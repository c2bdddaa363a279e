// Scripts: what is read, and what is refused where and why.
ghost use Rattle.std.specs.Prelude.{◌≤◌, length};

use crate::text::{Row, is_refused, joined, query, repeated, stop};
use pipes_query::{Command, Mode, Query};
use pipes_text::read_script;
use pipes_token::TextWhy;
use std::alloc::Global;
use std::test::Fail;

// ---- what is read

// Whether the text has these commands and these files.
fn is_read(
    alloc: Global,
    query: &Query,
    start: (Mode, &[u8]),
    commands: &[Command],
    files: &[&str],
) -> Result<bool, Fail>
    requires { 1 ≤ length query.now.sources }
{
    let (mode, text) = start;
    let script = read_script(alloc, query, mode, text)?;
    let named = script.files.as_slice();
    let same = named.len() == files.len()
        && named
            .iter()
            .zip(files)
            .all(|(name, file)| name.as_str() == *file);
    Ok(same && script.commands.as_slice() == commands)
}

#[test]
fn a_script_has_its_files_once(rt: HostRuntime) -> Result<(), Fail> {
    let query = query(rt.alloc())?;
    let text = b"feed a 4000000 migrate \"m\" # x\nmigrate \"n\" drain migrate \"m\" rest";
    let wanted = [
        Command::Feed(0, 4_000_000),
        Command::Migrate(0),
        Command::Migrate(1),
        Command::Drain,
        Command::Migrate(0),
        Command::Rest,
    ];
    assert!(rt;
        is_read(
            rt.alloc(),
            &query,
            (Mode::Inline, text),
            &wanted,
            &["m", "n"]
        )?
    );
    Ok(())
}

#[test]
fn a_script_of_threads(rt: HostRuntime) -> Result<(), Fail> {
    let query = query(rt.alloc())?;
    let text = b"await 0 await 1000000000000000";
    let wanted = [Command::Await(0), Command::Await(1_000_000_000_000_000)];
    assert!(rt; is_read(rt.alloc(), &query, (Mode::Threaded, text), &wanted, &[])?);
    assert!(rt;
        is_read(
            rt.alloc(),
            &query,
            (Mode::Inline, b" # nothing\n"),
            &[],
            &[]
        )?
    );
    Ok(())
}

// ---- what is refused

// Whether the script with the row's part after this is refused so.
fn one_refused(
    alloc: Global,
    query: &Query,
    start: (Mode, &[u8]),
    row: &Row<'_>,
) -> Result<bool, Fail>
    requires { 1 ≤ length query.now.sources }
{
    let (mode, first) = start;
    let text = joined(alloc, &[first, row.part])?;
    Ok(is_refused(read_script(alloc, query, mode, text.as_slice()), row))
}

// How many of the rows are refused so, up to the first that isn't.
fn refused(
    alloc: Global,
    query: &Query,
    start: (Mode, &[u8]),
    rows: &[Row<'_>],
) -> Result<usize, Fail>
    requires { 1 ≤ length query.now.sources }
{
    let mut done = 0_usize;
    for row in rows {
        if !one_refused(alloc, query, start, row)? {
            break;
        }
        done = done.saturating_add(1);
    }
    Ok(done)
}

#[test]
fn scripts_in_turn_are_refused_where_they_stop(rt: HostRuntime) -> Result<(), Fail> {
    let query = query(rt.alloc())?;
    let rows = [
        stop(b"await 5", 1, 1, TextWhy::Mode),
        stop(b"feed b 1", 1, 6, TextWhy::Name),
        stop(b"feed source 1", 1, 6, TextWhy::Token),
        stop(b"feed a 0", 1, 8, TextWhy::Range),
        stop(b"feed a 4000001", 1, 8, TextWhy::Range),
        stop(b"feed a", 1, 7, TextWhy::Ended),
        stop(b"migrate m", 1, 9, TextWhy::Token),
        stop(b"migrate \"m", 1, 11, TextWhy::Ended),
        stop(b"migrate \"m\n", 1, 11, TextWhy::Byte),
        stop(b"plan a", 1, 1, TextWhy::Token),
        stop(b"drain @", 1, 7, TextWhy::Byte),
    ];
    assert_eq!(rt;
        refused(rt.alloc(), &query, (Mode::Inline, b""), &rows)?,
        11
    );
    Ok(())
}

#[test]
fn scripts_of_threads_are_refused_where_they_stop(rt: HostRuntime) -> Result<(), Fail> {
    let query = query(rt.alloc())?;
    let rows = [
        stop(b"drain feed", 1, 7, TextWhy::Mode),
        stop(b"rest", 1, 1, TextWhy::Mode),
        stop(b"await 1000000000000001", 1, 7, TextWhy::Range),
    ];
    assert_eq!(rt;
        refused(rt.alloc(), &query, (Mode::Threaded, b""), &rows)?,
        3
    );
    Ok(())
}

// ---- one too many

// Whether the text has so many commands and files.
fn counts(
    alloc: Global,
    query: &Query,
    text: &[u8],
    commands: usize,
    files: usize,
) -> Result<bool, Fail>
    requires { 1 ≤ length query.now.sources }
{
    let script = read_script(alloc, query, Mode::Inline, text)?;
    Ok(script.commands.as_slice().len() == commands && script.files.as_slice().len() == files)
}

#[test]
fn the_2049th_migrate_command(rt: HostRuntime) -> Result<(), Fail> {
    let query = query(rt.alloc())?;
    let moves = repeated(rt.alloc(), b"migrate \"m\"\n", 2_048)?;
    let rows = [stop(b"drain migrate", 2_049, 7, TextWhy::Many)];
    let start = (Mode::Inline, moves.as_slice());
    assert_eq!(rt; refused(rt.alloc(), &query, start, &rows)?, 1);
    assert!(rt; counts(rt.alloc(), &query, moves.as_slice(), 2_048, 1)?);
    Ok(())
}

fn most_commands(alloc: Global) -> Result<Vec<u8>, Fail> {
    repeated(alloc, b"drain ", 65_536)
}

#[test]
fn the_most_commands(rt: HostRuntime) -> Result<(), Fail> {
    let query = query(rt.alloc())?;
    let most = most_commands(rt.alloc())?;
    assert!(rt; counts(rt.alloc(), &query, most.as_slice(), 65_536, 0)?);
    Ok(())
}

// Whether the most commands and this are refused at this, and for that.
fn is_too_much(alloc: Global, part: &[u8], why: TextWhy) -> Result<bool, Fail> {
    let query = query(alloc)?;
    let most = most_commands(alloc)?;
    let start = (Mode::Inline, most.as_slice());
    one_refused(alloc, &query, start, &stop(part, 1, 393_217, why))
}

#[test]
fn the_65537th_command(rt: HostRuntime) -> Result<(), Fail> {
    assert!(rt; is_too_much(rt.alloc(), b"migrate", TextWhy::Many)?);
    Ok(())
}

#[test]
fn the_65537th_command_of_another_mode(rt: HostRuntime) -> Result<(), Fail> {
    assert!(rt; is_too_much(rt.alloc(), b"await", TextWhy::Mode)?);
    Ok(())
}

#[test]
fn no_command_after_the_most(rt: HostRuntime) -> Result<(), Fail> {
    assert!(rt; is_too_much(rt.alloc(), b"plan", TextWhy::Token)?);
    Ok(())
}
