//! What ends a run over files of paginations.
use crate::plans::{Named, PlansFault, read_plans};
use crate::system::{ended, exit_code};
use pg_command::{Ending, Status};
use std::alloc::Global;
use std::io;
use std::process::ExitCode;

/// What ends a run.
#[derive(Drop)]
pub enum Stop<'a> {
    /// What ends a run of `pg`.
    Ends(Ending<'a>),
    /// The line of this number of the file is none of a pagination.
    NoPlan(&'a str, u32),
}

impl<'a> From<Ending<'a>> for Stop<'a> {
    fn from(ending: Ending<'a>) -> Stop<'a> {
        Stop::Ends(ending)
    }
}

/// The paginations that the bytes of a file of this name tell, or what ends the run.
pub fn plans_of<'a, 'b>(
    alloc: Global,
    name: &'a str,
    bytes: &'b [u8],
) -> Result<Vec<Named<'b>>, Stop<'a>> {
    let Ok(text) = str::from_utf8(bytes) else {
        return Err(Stop::NoPlan(name, 0));
    };
    match read_plans(alloc, text) {
        Ok(plans) => Ok(plans),
        Err(PlansFault::Line(line)) => Err(Stop::NoPlan(name, line)),
        Err(PlansFault::Memory) => Err(Stop::Ends(Ending::Memory)),
    }
}

fn say_usage(rt: &HostRuntime, usage: &str) -> io::Result<()> {
    eprintln!(rt; "usage: {usage}")
}

fn say_plan_fault(rt: &HostRuntime, name: &str, line: u32) -> io::Result<()> {
    eprintln!(rt; "pg: {name}: line {line}: no pagination")
}

/// Says what ended the run, and answers the exit code.
pub fn stopped(rt: &HostRuntime, usage: &str, stop: &Stop<'_>) -> ExitCode {
    match stop {
        Stop::Ends(Ending::Usage) => {
            let _ = say_usage(rt, usage);
            exit_code(Status::Usage)
        }
        Stop::Ends(ending) => ended(rt, ending),
        Stop::NoPlan(name, line) => {
            let _ = say_plan_fault(rt, name, *line);
            exit_code(Status::Refused)
        }
    }
}
