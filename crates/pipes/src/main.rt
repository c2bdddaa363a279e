//! The program `pipes`: hands the words of the command line, the system's files and the standard
//! streams to the run.
#![tactic(auto)]

use pipes_edge::{HostFiles, HostSink, NoGate};
use pipes_error::{Fault, say, status};
use pipes_run::pipes;
use pipes_time::Memory;
use std::env;
use std::io::ErrorKind;
use std::process::ExitCode;

// The words after the program's name. Words that are no text are wrong ones, as no words are.
fn words_of(rt: &HostRuntime) -> Result<Vec<String>, Memory> {
    let mut words = Vec::new(rt.alloc());
    match env::args(rt) {
        Ok(args) => {
            for word in args.skip(1) {
                words.push(word)?;
            }
            Ok(words)
        }
        Err(error) if error.kind() == ErrorKind::OutOfMemory => Err(Memory),
        Err(_) => Ok(words),
    }
}

fn main(rt: HostRuntime) -> ExitCode {
    let mut err = HostSink::err(rt.stderr());
    let Ok(words) = words_of(&rt) else {
        let fault = Fault::Memory;
        say(&mut err, &fault);
        return ExitCode::from(status(&fault));
    };
    let mut out = HostSink::out(rt.stdout());
    let mut files = HostFiles::new(&rt);
    let ended = pipes(
        &rt,
        words.as_slice(),
        &mut files,
        &mut out,
        &mut err,
        &NoGate,
    );
    ExitCode::from(ended)
}
