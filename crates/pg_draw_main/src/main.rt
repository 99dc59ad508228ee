//! The program `pg_draw`.
#![tactic(auto)]

use pg_draw::program;
use std::process::ExitCode;

fn main(rt: HostRuntime) -> ExitCode {
    program(&rt)
}
