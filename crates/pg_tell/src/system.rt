//! The program over the system: files under the working folder, standard output and standard error, and the exit
//! status.
ghost use Rattle.std.specs.Prelude.{◌≡◌};
ghost use Rattle.std.specs.Process.{exit_status};
ghost use Rattle.pg_command.specs.Lines.{exit_number};

use crate::course::serve;
use pg_command::Status;
use pg_outside::{FileShelf, StreamSink, words_of};
use pg_table::Steps;
use std::io;
use std::marker::Brand;
use std::process::ExitCode;
use std::sync::ledger::{Blank, Ledger};

/// The exit number where memory for the words is wanting.
const NO_MEMORY: u8 = 6;

/// The exit number where the system does not give the words, which no status has.
const NO_WORDS: u8 = 8;

// The exit code of how the program ended.
fn exit_code(status: Status) -> ExitCode
    ensures { exit_status result ≡ exit_number status }
{
    ExitCode::from(status.number())
}

// Serves the words, over the files under the working folder, standard output and standard error.
fn run<L: Ledger>(rt: &HostRuntime, words: &Vec<String>, blank: Blank) -> ExitCode
    requires name { blank.name ≡ L.name }
    requires parts { blank.parts ≡ L.parts }
    requires one { blank.parts ≡ 1 }
{
    let mut shelf = FileShelf::new(rt);
    let mut out = StreamSink::new(rt.stdout());
    let mut say = StreamSink::new(rt.stderr());
    let mut steps = Steps::<L>::new(blank);
    exit_code(serve(
        rt.alloc(),
        words,
        &mut shelf,
        &mut out,
        &mut say,
        &mut steps,
    ))
}

/// Serves the words that the system gives.
pub fn program(rt: &HostRuntime) -> ExitCode {
    match words_of(rt) {
        Ok(words) => run::<Brand>(rt, &words, Blank::new(1)),
        Err(error) if error.kind() == io::ErrorKind::OutOfMemory => ExitCode::from(NO_MEMORY),
        Err(_) => ExitCode::from(NO_WORDS),
    }
}
