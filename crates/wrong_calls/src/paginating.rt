//! The commands that paginate, and the check of what one writes.
ghost use Rattle.std.specs.Prelude.{Some};
ghost use Rattle.pg_outside.specs.Outside.{over_output};
ghost use Rattle.pg_command.specs.Lines.{status_of};
ghost use Rattle.pg_command.specs.Words.{check as check_command, edit as edit_command, run as run_command, style_name, IsStyle, named};
ghost use Rattle.pg_course.specs.Calls.{Goes, over_shelf};
ghost use Rattle.pg_course.specs.Complete.{IsComplete};
ghost use Rattle.pg_course.specs.Counted.{IsCounted, UnlessMemory};

use pg_command::{CheckJob, EditJob, Ending, RunJob, StyleWord};
use pg_outside::{Shelf, Sink};
use pg_table::Steps;
use std::alloc::Global;
use std::sync::ledger::Ledger;

/// The command `run`.
pub fn run_course<'a, H: Shelf, O: Sink, L: Ledger>(
    alloc: Global,
    style: StyleWord<'a>,
    name: &'a str,
    labels: bool,
    wrap: Option<u32>,
    shelf: &mut H,
    out: &mut O,
    steps: &mut Steps<L>,
) -> Ending<'a>
    requires { IsStyle style }
    ensures goes { Goes (Some (run_command (style_name style.entry) name.now labels wrap))
        (over_shelf (H.held shelf.old) (H.faults shelf.old) (H.faults shelf.new) (H.last_failed shelf.new))
        (over_output O.written O.writes O.faults out.old out.new) result }
    ensures counted { UnlessMemory (status_of result)
        (IsCounted (Some (run_command (style_name style.entry) name.now labels wrap)) (H.held shelf.old)
        steps.old steps.new) }
{
    let job = RunJob {
        style,
        galley: name,
        labels,
        wrap,
    };
    pg_course::run_course(alloc, job, shelf, out, steps)
}

/// The command `edit`.
pub fn edit_course<'a, H: Shelf, O: Sink, L: Ledger>(
    alloc: Global,
    style: &'a str,
    galley: &'a str,
    script: &'a str,
    labels: bool,
    wrap: Option<u32>,
    shelf: &mut H,
    out: &mut O,
    steps: &mut Steps<L>,
) -> Ending<'a>
    ensures goes { Goes (Some (edit_command style.now galley.now script.now labels wrap))
        (over_shelf (H.held shelf.old) (H.faults shelf.old) (H.faults shelf.new) (H.last_failed shelf.new))
        (over_output O.written O.writes O.faults out.old out.new) result }
    ensures counted { UnlessMemory (status_of result)
        (IsCounted (Some (edit_command style.now galley.now script.now labels wrap)) (H.held shelf.old)
        steps.old steps.new) }
{
    let job = EditJob {
        style,
        galley,
        script,
        labels,
        wrap,
    };
    pg_course::edit_course(alloc, job, shelf, out, steps)
}

/// The command `check`.
pub fn check_course<'a, H: Shelf, O: Sink, L: Ledger>(
    alloc: Global,
    style: &'a str,
    galley: &'a str,
    output: &'a str,
    wrap: Option<u32>,
    shelf: &mut H,
    out: &mut O,
    steps: &mut Steps<L>,
) -> Ending<'a>
    ensures goes { Goes (Some (check_command style.now galley.now output.now wrap))
        (over_shelf (H.held shelf.old) (H.faults shelf.old) (H.faults shelf.new) (H.last_failed shelf.new))
        (over_output O.written O.writes O.faults out.old out.new) result }
    ensures counted { UnlessMemory (status_of result)
        (IsCounted (Some (check_command style.now galley.now output.now wrap)) (H.held shelf.old)
        steps.old steps.new) }
    ensures complete { IsComplete (Some (check_command style.now galley.now output.now wrap))
        (over_shelf (H.held shelf.old) (H.faults shelf.old) (H.faults shelf.new) (H.last_failed shelf.new))
        (over_output O.written O.writes O.faults out.old out.new) (status_of result) }
{
    let job = CheckJob {
        style,
        galley,
        output,
        wrap,
    };
    pg_course::check_course(alloc, job, shelf, out, steps)
}
