//! The commands that write a galley.
ghost use Rattle.std.specs.Prelude.{Some};
ghost use Rattle.pg_outside.specs.Outside.{over_output};
ghost use Rattle.pg_command.specs.Words.{IsLineRule, lines as lines_command, show as show_command};
ghost use Rattle.pg_course.specs.Calls.{Goes, over_shelf};

use pg_command::{Ending, LinesJob};
use pg_outside::{Shelf, Sink};
use std::alloc::Global;

/// The command `show`.
pub fn show_course<'a, H: Shelf, O: Sink>(
    alloc: Global,
    name: &'a str,
    wrap: Option<u32>,
    shelf: &mut H,
    out: &mut O,
) -> Ending<'a>
    ensures goes { Goes (Some (show_command name.now wrap))
        (over_shelf (H.held shelf.old) (H.faults shelf.old) (H.faults shelf.new) (H.last_failed shelf.new))
        (over_output O.written O.writes O.faults out.old out.new) result }
{
    pg_course::show_course(alloc, name, wrap, shelf, out)
}

/// The command `lines`.
pub fn lines_course<'a, H: Shelf, O: Sink>(
    alloc: Global,
    width: i32,
    tolerance: u16,
    around: u8,
    file: &'a str,
    shelf: &mut H,
    out: &mut O,
) -> Ending<'a>
    requires { IsLineRule width tolerance around }
    ensures goes { Goes (Some (lines_command width tolerance around file.now))
        (over_shelf (H.held shelf.old) (H.faults shelf.old) (H.faults shelf.new) (H.last_failed shelf.new))
        (over_output O.written O.writes O.faults out.old out.new) result }
{
    let job = LinesJob {
        width,
        tolerance,
        around,
        file,
    };
    pg_course::lines_course(alloc, job, shelf, out)
}
