//! The words of a command, how a run ends, and the line that is said of it.
//!
//! Proved: `command` reads the words as `specs/Words` defines a command, each ending has the status and the line of
//! `specs/Lines`, and `say_line` writes that line, or a front of it where the sink failed; where there is no line it
//! writes nothing.
#![tactic(auto)]

mod ending;
mod job;
mod line;
mod options;
mod say;
mod status;
mod words;

pub use ending::Ending;
pub use job::{CheckJob, EditJob, FoldJob, Job, LinesJob, PagesJob, RunJob, StyleWord};
pub use say::say_line;
pub use status::Status;
pub use words::command;
