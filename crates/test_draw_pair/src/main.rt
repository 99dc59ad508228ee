//! The program `pg_draw` once more, on two paginations of one galley: its stored run holds it to the page of both.
#![tactic(auto)]

use pg_draw::program;
use std::process::ExitCode;

fn main(rt: HostRuntime) -> ExitCode {
    program(&rt)
}
