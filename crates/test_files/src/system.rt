//! What the system gives and is told.
ghost use Rattle.std.specs.Prelude.{◌≡◌};
ghost use Rattle.std.specs.Process.{exit_status};
ghost use Rattle.pg_command.specs.Lines.{exit_number, status_of};

use pg_command::{Ending, Status, say_line};
use pg_outside::StreamSink;
use std::process::ExitCode;
use std::{env, io};

/// The words behind the program's name. No clause can say what the system gives.
pub fn words_of(rt: &HostRuntime) -> Result<Vec<String>, io::Error> {
    let words = env::args(rt)?.skip(1).collect(rt.alloc())?;
    Ok(words)
}

/// The exit code of how a program ended.
pub fn exit_code(status: Status) -> ExitCode
    ensures { exit_status result ≡ exit_number status }
{
    ExitCode::from(status.number())
}

/// Says on standard error what ended a run, where `pg` would, and answers the exit code.
pub fn ended(rt: &HostRuntime, ending: &Ending<'_>) -> ExitCode
    ensures { exit_status result ≡ exit_number (status_of ending.now) }
{
    let mut say = StreamSink::new(rt.stderr());
    say_line(ending, &mut say);
    exit_code(ending.status())
}
