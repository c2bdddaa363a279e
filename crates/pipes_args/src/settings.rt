// Options of runs.
ghost use Rattle.std.specs.Prelude.{◌≡◌, map, string_bytes, option_map, is_some, IfSome};
ghost use Rattle.pipes_args.specs.Words.{form_named, mode_named, is_option, is_new, are_options};
ghost use Rattle.pipes_args.specs.Words.{settings_of, said_or, number_in, value_of, AreWorkers};

use crate::word::number_in;
use pipes_output::Form;

/// Who turns the sources of a run.
#[derive(Clone, Copy, Debug)]
pub enum Mode {
    /// The calling thread, command after command of the script.
    Inline,
    /// Threads of their own.
    Threaded,
}

/// How a run goes, and what it writes.
#[derive(Clone, Copy, Debug)]
pub struct Settings {
    /// The form of what the run writes.
    pub form: Form,
    /// The number of threads that work on the plan, 1 to 16.
    pub workers: u32,
    /// Who turns the sources.
    pub mode: Mode,
}

// The settings that the options give, where they are pairs of a name and its value.
pub(crate) fn settings_in(options: &[String]) -> Option<Settings>
    ensures settings { result ≡ settings_of (map string_bytes options.now) }
    ensures workers { IfSome result (λ s. AreWorkers s.workers) }
{
    if !are_options(options) {
        return None;
    }
    let form = form_in(value_of("--form", options))?;
    let workers = workers_in(value_of("--workers", options))?;
    let mode = mode_in(value_of("--mode", options))?;
    Some(Settings {
        form,
        workers,
        mode,
    })
}

fn are_options(words: &[String]) -> bool
    ensures { result ≡ are_options (map string_bytes words.now) }
{
    match words {
        [] => true,
        [_] => false,
        [name, _, rest @ ..] => {
            if is_new(name.as_str(), rest) {
                are_options(rest)
            } else {
                false
            }
        }
    }
}

fn is_option(name: &str) -> bool
    ensures { result ≡ is_option name.now }
{
    name == "--form" || name == "--workers" || name == "--mode"
}

// The name is that of an option, and none of these options has it.
fn is_new(name: &str, options: &[String]) -> bool
    ensures { result ≡ is_new name.now (map string_bytes options.now) }
{
    is_option(name) && !is_given(name, options)
}

// One of the options has this name.
fn is_given(name: &str, options: &[String]) -> bool
    ensures { result ≡ is_some (value_of name.now (map string_bytes options.now)) }
{
    match value_of(name, options) {
        None => false,
        Some(_) => true,
    }
}

// The value of the option with this name.
fn value_of<'w>(name: &str, options: &'w [String]) -> Option<&'w str>
    ensures { option_map (λ w. w.now) result ≡ value_of name.now (map string_bytes options.now) }
{
    match options {
        [] => None,
        [_] => None,
        [other, value, rest @ ..] => {
            if other.as_str() == name {
                Some(value.as_str())
            } else {
                value_of(name, rest)
            }
        }
    }
}

fn form_in(word: Option<&str>) -> Option<Form>
    ensures { result ≡ said_or Form.Stream form_named (option_map (λ w. w.now) word.entry) }
{
    match word {
        None => Some(Form::Stream),
        Some("stream") => Some(Form::Stream),
        Some("normal") => Some(Form::Normal),
        Some(_) => None,
    }
}

fn workers_in(word: Option<&str>) -> Option<u32>
    ensures number { result ≡ said_or 1 (number_in 1 16) (option_map (λ w. w.now) word.entry) }
    ensures workers { IfSome result AreWorkers }
{
    match word {
        None => Some(1),
        Some(word) => {
            let workers = number_in(word, 1, 16)?;
            Some(workers as u32)
        }
    }
}

fn mode_in(word: Option<&str>) -> Option<Mode>
    ensures { result ≡ said_or Mode.Inline mode_named (option_map (λ w. w.now) word.entry) }
{
    match word {
        None => Some(Mode::Inline),
        Some("inline") => Some(Mode::Inline),
        Some("threaded") => Some(Mode::Threaded),
        Some(_) => None,
    }
}
