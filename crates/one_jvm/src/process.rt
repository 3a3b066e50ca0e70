//! The call of a process: its own words, files and streams.

ghost use Rattle.std.specs.Prelude.{◌≡◌};
ghost use Rattle.std.specs.Process.{exit_status};

use crate::outcome::Outcome;
use crate::top::{cjvm, without_words};
use cjvm_io::{ErrSink, FileShelf, OutSink};
use std::process::ExitCode;
use std::{env, io};

/// The words after the program's name. Words that aren't UTF-8 are no command's, and are taken as no
/// words.
fn words_of(rt: &HostRuntime) -> io::Result<Vec<String>> {
    let mut words = Vec::new(rt.alloc());
    match env::args(rt) {
        Ok(args) => {
            for word in args.skip(1) {
                words.push(word)?;
            }
            Ok(words)
        }
        Err(error) if error.kind() == io::ErrorKind::InvalidData => Ok(words),
        Err(error) => Err(error),
    }
}

/// Calls with the process's words, files and streams.
fn call(rt: &HostRuntime) -> Outcome {
    let mut err = ErrSink::new(rt.stderr());
    let Ok(words) = words_of(rt) else {
        return without_words(rt.alloc(), &mut err);
    };
    let mut shelf = FileShelf::new(rt);
    let mut out = OutSink::new(rt.stdout());
    cjvm(rt.alloc(), words.as_slice(), &mut shelf, &mut out, &mut err)
}

/// The end of a process whose call had this outcome: its status, whatever that is.
fn end_of(outcome: &Outcome) -> ExitCode
    ensures { exit_status result ≡ outcome.now.status }
{
    ExitCode::from(outcome.status)
}

/// Does what the process's words say, and answers its status. A program's `main` is this call.
pub fn run_process(rt: &HostRuntime) -> ExitCode {
    end_of(&call(rt))
}
