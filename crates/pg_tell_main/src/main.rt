//! The program `pg_tell`.
#![tactic(auto)]

use pg_tell::program;
use std::process::ExitCode;

fn main(rt: HostRuntime) -> ExitCode {
    program(&rt)
}
