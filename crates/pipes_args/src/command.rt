// Commands, and the words that come with each.
ghost use Rattle.std.specs.Prelude.{◌≡◌, map, string_bytes, option_map, IfSome};
ghost use Rattle.pipes_args.specs.Command.{command_named, command_seen, with_one, with_two, run_of};
ghost use Rattle.pipes_args.specs.Command.{make_of, at_of, check_of, derive_of, HasWorkers};

use crate::settings::{Settings, settings_in};
use crate::word::{number_in, one_in, two_in};
use pipes_time::HORIZON;

/// What the words command. Files are named as the words name them.
#[derive(Clone, Copy, Debug)]
pub enum Command<'w> {
    /// A run of a query under a script.
    Run {
        /// The query's file.
        query: &'w str,
        /// The script's file.
        script: &'w str,
        /// How it runs, and what it writes.
        settings: Settings,
    },
    /// A run over sources that are made by draws.
    Make {
        /// What the draws begin with.
        seed: u64,
        /// The rows of all sources together, 1 to 1,000,000.
        rows: u64,
        /// How it runs, and what it writes.
        settings: Settings,
    },
    /// The answer of a query at an instant.
    At {
        /// The query's file.
        query: &'w str,
        /// The instant, below the horizon.
        time: u64,
    },
    /// A check of a query.
    Check {
        /// The query's file.
        query: &'w str,
    },
    /// A derivation from the plan of a query.
    Derive {
        /// The query's file.
        query: &'w str,
        /// The derivation's file.
        derivation: &'w str,
    },
}

// The command with this name, where these words come with it.
pub(crate) fn command_named<'w>(name: &str, words: &'w [String]) -> Option<Command<'w>>
    ensures command { option_map command_seen result ≡ command_named name.now
        (map string_bytes words.now) }
    ensures workers { IfSome result HasWorkers }
{
    if name == "run" {
        run_in(words)
    } else if name == "make" {
        make_in(words)
    } else if name == "at" {
        at_in(words)
    } else if name == "check" {
        check_in(words)
    } else if name == "derive" {
        derive_in(words)
    } else {
        None
    }
}

fn run_in(words: &[String]) -> Option<Command<'_>>
    ensures command { option_map command_seen result ≡ with_two run_of
        (map string_bytes words.now) }
    ensures workers { IfSome result HasWorkers }
{
    let (query, script, options) = two_in(words)?;
    let settings = settings_in(options)?;
    Some(Command::Run {
        query,
        script,
        settings,
    })
}

fn make_in(words: &[String]) -> Option<Command<'_>>
    ensures command { option_map command_seen result ≡ with_two make_of
        (map string_bytes words.now) }
    ensures workers { IfSome result HasWorkers }
{
    let (seed, rows, options) = two_in(words)?;
    let seed = number_in(seed, 0, u64::MAX)?;
    let rows = number_in(rows, 1, 1_000_000)?;
    let settings = settings_in(options)?;
    Some(Command::Make {
        seed,
        rows,
        settings,
    })
}

fn at_in(words: &[String]) -> Option<Command<'_>>
    ensures command { option_map command_seen result ≡ with_two at_of (map string_bytes words.now) }
    ensures workers { IfSome result HasWorkers }
{
    let (query, time, []) = two_in(words)? else {
        return None;
    };
    let time = number_in(time, 0, HORIZON - 1)?;
    Some(Command::At { query, time })
}

fn check_in(words: &[String]) -> Option<Command<'_>>
    ensures command { option_map command_seen result ≡ with_one check_of
        (map string_bytes words.now) }
    ensures workers { IfSome result HasWorkers }
{
    let (query, []) = one_in(words)? else {
        return None;
    };
    Some(Command::Check { query })
}

fn derive_in(words: &[String]) -> Option<Command<'_>>
    ensures command { option_map command_seen result ≡ with_two derive_of
        (map string_bytes words.now) }
    ensures workers { IfSome result HasWorkers }
{
    let (query, derivation, []) = two_in(words)? else {
        return None;
    };
    Some(Command::Derive { query, derivation })
}
