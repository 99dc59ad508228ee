//! Judges or prints paginations that stand in files:
//! `test_plans [--wrap N] judge|print STYLE GALLEY PLANS [judge|print STYLE GALLEY PLANS]..`.
//!
//! Behind `judge` it writes one line for each pagination: its name, and `legal COST` or `rule R column C`. Behind
//! `print` it writes a line `-- NAME` and the page text, or the rule that is broken. Styles and galleys are read as
//! `pg run` reads them, and where one is refused the line for the user and the exit status are those of `pg`. How a file
//! of paginations is written is told in bench/README.md. The stored run is the test of pg_judge and of pg_pages: its
//! `stdout` was worked out by hand.
#![tactic(auto)]

mod files;
mod judging;
mod printing;

use files::say_all;
use pg_command::{Ending, Status};
use pg_outside::{FileShelf, StreamSink};
use std::process::ExitCode;
use test_files::{ended, exit_code, stopped, words_of};

/// How the program is called.
const USAGE: &str =
    "test_plans [--wrap N] judge|print STYLE GALLEY PLANS [judge|print STYLE GALLEY PLANS]..";

fn main(rt: HostRuntime) -> ExitCode {
    let Ok(words) = words_of(&rt) else {
        return ended(&rt, &Ending::Memory);
    };
    let mut shelf = FileShelf::new(&rt);
    let mut out = StreamSink::new(rt.stdout());
    match say_all(rt.alloc(), words.as_slice(), &mut shelf, &mut out) {
        Ok(()) => exit_code(Status::Done),
        Err(stop) => stopped(&rt, USAGE, &stop),
    }
}
