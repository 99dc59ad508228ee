//! The program once more, on words whose file is not there: its stored run holds it to its exit status, and to an empty
//! standard output.
#![tactic(auto)]

use pg_main::program;
use std::process::ExitCode;

fn main(rt: HostRuntime) -> ExitCode {
    program(&rt)
}
