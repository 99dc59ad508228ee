//! The program over the system: files under the working folder, standard output and standard error, and the exit
//! status.
ghost use Rattle.std.specs.Prelude.{◌≡◌};
ghost use Rattle.std.specs.Process.{exit_status};
ghost use Rattle.pg_draw.specs.Lines.{exit_number};

use crate::course::serve;
use crate::ending::Status;
use crate::target::FileTarget;
use crate::words::{Request, read_request};
use pg_outside::{FileShelf, StreamSink, words_of};
use std::io;
use std::process::ExitCode;

/// The exit number where memory for the words is wanting.
const NO_MEMORY: u8 = 6;

/// The exit number where the system does not give the words, which no status has.
const NO_WORDS: u8 = 8;

// The exit code of how the program ended.
fn exit_code(status: Status) -> ExitCode
    ensures { exit_status result ≡ exit_number status }
{
    ExitCode::from(status.number())
}

// The file that the words name for the page, where they name one.
fn target_of(words: &Vec<String>) -> Option<&str> {
    match read_request(words) {
        Some(Request::Draw(job)) => job.options.target,
        _ => None,
    }
}

// Serves the words, over the files under the working folder, the file that they name for the page or standard output,
// and standard error.
fn run(rt: &HostRuntime, words: &Vec<String>) -> Status {
    let mut shelf = FileShelf::new(rt);
    let mut say = StreamSink::new(rt.stderr());
    match target_of(words) {
        Some(name) => {
            let mut out = FileTarget::new(rt, name);
            serve(rt.alloc(), words, &mut shelf, &mut out, &mut say)
        }
        None => {
            let mut out = StreamSink::new(rt.stdout());
            serve(rt.alloc(), words, &mut shelf, &mut out, &mut say)
        }
    }
}

/// Serves the words that the system gives.
pub fn program(rt: &HostRuntime) -> ExitCode {
    match words_of(rt) {
        Ok(words) => exit_code(run(rt, &words)),
        Err(error) if error.kind() == io::ErrorKind::OutOfMemory => ExitCode::from(NO_MEMORY),
        Err(_) => ExitCode::from(NO_WORDS),
    }
}
