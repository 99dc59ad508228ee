//! The commands that tell something of the best pages.
ghost use Rattle.std.specs.Prelude.{Some};
ghost use Rattle.pg_outside.specs.Outside.{over_output};
ghost use Rattle.pg_command.specs.Lines.{status_of};
ghost use Rattle.pg_command.specs.Words.{compare as compare_command, fold as fold_command, heads as heads_command, IsFolds, IsNest};
ghost use Rattle.pg_course.specs.Calls.{Goes, over_shelf};
ghost use Rattle.pg_course.specs.Counted.{IsCounted, UnlessMemory};

use pg_command::{Ending, FoldJob, PagesJob};
use pg_outside::{Shelf, Sink};
use pg_table::Steps;
use std::alloc::Global;
use std::sync::ledger::Ledger;

/// The command `heads`.
pub fn heads_course<'a, H: Shelf, O: Sink, L: Ledger>(
    alloc: Global,
    style: &'a str,
    galley: &'a str,
    wrap: Option<u32>,
    shelf: &mut H,
    out: &mut O,
    steps: &mut Steps<L>,
) -> Ending<'a>
    ensures goes { Goes (Some (heads_command style.now galley.now wrap))
        (over_shelf (H.held shelf.old) (H.faults shelf.old) (H.faults shelf.new) (H.last_failed shelf.new))
        (over_output O.written O.writes O.faults out.old out.new) result }
    ensures counted { UnlessMemory (status_of result)
        (IsCounted (Some (heads_command style.now galley.now wrap)) (H.held shelf.old) steps.old steps.new) }
{
    let job = PagesJob {
        style,
        galley,
        wrap,
    };
    pg_course::heads_course(alloc, job, shelf, out, steps)
}

/// The command `compare`.
pub fn compare_course<'a, H: Shelf, O: Sink, L: Ledger>(
    alloc: Global,
    style: &'a str,
    galley: &'a str,
    wrap: Option<u32>,
    shelf: &mut H,
    out: &mut O,
    steps: &mut Steps<L>,
) -> Ending<'a>
    ensures goes { Goes (Some (compare_command style.now galley.now wrap))
        (over_shelf (H.held shelf.old) (H.faults shelf.old) (H.faults shelf.new) (H.last_failed shelf.new))
        (over_output O.written O.writes O.faults out.old out.new) result }
    ensures counted { UnlessMemory (status_of result)
        (IsCounted (Some (compare_command style.now galley.now wrap)) (H.held shelf.old) steps.old steps.new) }
{
    let job = PagesJob {
        style,
        galley,
        wrap,
    };
    pg_course::compare_course(alloc, job, shelf, out, steps)
}

/// The command `fold`.
pub fn fold_course<'a, H: Shelf, O: Sink, L: Ledger>(
    alloc: Global,
    style: &'a str,
    galley: &'a str,
    folds: u8,
    nest: u8,
    wrap: Option<u32>,
    shelf: &mut H,
    out: &mut O,
    steps: &mut Steps<L>,
) -> Ending<'a>
    requires folds { IsFolds folds }
    requires nest { IsNest nest }
    ensures goes { Goes (Some (fold_command style.now galley.now folds nest wrap))
        (over_shelf (H.held shelf.old) (H.faults shelf.old) (H.faults shelf.new) (H.last_failed shelf.new))
        (over_output O.written O.writes O.faults out.old out.new) result }
    ensures counted { UnlessMemory (status_of result)
        (IsCounted (Some (fold_command style.now galley.now folds nest wrap)) (H.held shelf.old)
        steps.old steps.new) }
{
    let job = FoldJob {
        style,
        galley,
        folds,
        nest,
        wrap,
    };
    pg_course::fold_course(alloc, job, shelf, out, steps)
}
