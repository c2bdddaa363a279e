//! The words of the command line.
#![tactic(auto)]

ghost use Rattle.std.specs.Prelude.{◌≡◌, map, string_bytes, option_map, IfSome};
ghost use Rattle.pipes_args.specs.Command.{command_of, command_seen, HasWorkers};

mod command;
mod settings;
mod word;

pub use command::Command;
use command::command_named;
pub use settings::{Mode, Settings};

/// The command, where the words are one: `run QUERY SCRIPT`, `make SEED ROWS`, `at QUERY TIME`,
/// `check QUERY` or `derive QUERY DERIVATION`.
///
/// After the words of `run` and of `make` there may be options, each at most once, in any order, as
/// two words, a name and a value: `--form stream` or `--form normal`, `--workers N` with 1 to 16,
/// `--mode inline` or `--mode threaded`. A positional word is not empty and begins with no dash.
/// TIME is an instant, SEED a number of 64 bits, and ROWS 1 to 1,000,000; a number is one or more
/// digits, leading zeros allowed.
pub fn command_in(words: &[String]) -> Option<Command<'_>>
    ensures command { option_map command_seen result ≡ command_of (map string_bytes words.now) }
    ensures workers { IfSome result HasWorkers }
{
    match words {
        [] => None,
        [name, words @ ..] => command_named(name.as_str(), words),
    }
}
