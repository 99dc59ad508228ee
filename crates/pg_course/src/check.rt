//! The command `check`.
ghost use Rattle.std.specs.Prelude.{◌≡◌, ◌≤◌, ◌+◌, ℕ, List, length, Option, Ok, Some, IfSome};
ghost use Rattle.pg_outside.specs.Outside.{over_output};
ghost use Rattle.pg_floats.specs.AreFloats.{AreFloats};
ghost use Rattle.pg_labels.specs.Reading.{IsFew};
ghost use Rattle.pg_command.specs.declared.status.Status.TheVariants.{Done};
ghost use Rattle.pg_command.specs.declared.job.Job.TheVariants.{Check};
ghost use Rattle.pg_command.specs.Lines.{status_of};
ghost use Rattle.pg_command.specs.Words.{check as check_command, command_in, named};
ghost use Rattle.pg_course.specs.Complete.{IsComplete};
ghost use Rattle.pg_course.specs.Course.{CheckOutput, CheckText, OneText, opened, opened_output, opened_style};
ghost use Rattle.pg_course.specs.Calls.{AreRead, Goes, GoesOn, Writes, no_ending, over_shelf};
ghost use Rattle.pg_course.specs.Counted.{CountsCheck, CountsTaken, CountsText, IsCounted, UnlessMemory};
ghost use Rattle.pg_course.specs.Verdict.{yes_line};

use crate::line::yes_line_of;
use crate::open::{open_galley, open_output, open_style};
use crate::run::float_ending;
use law_read_back::labelled_texts_tell;
use pg_command::{CheckJob, Ending, StyleWord};
use pg_floats::FloatList;
use pg_judge::Basis;
use pg_labelcheck::{No, Proved, check};
use pg_labels::Output;
use pg_list::Galley;
use pg_outside::{Shelf, Sink};
use pg_style::Style;
use pg_table::Steps;
use std::alloc::Global;
use std::sync::ledger::Ledger;

// A check that is asked for, and where memory for it comes from.
#[derive(Clone, Copy)]
struct CheckTask<'a> {
    alloc: Global,
    job: CheckJob<'a>,
}

// Writes the line of a yes in one piece.
fn write_yes<'a, O: Sink>(alloc: Global, proved: Proved, out: &mut O) -> Ending<'a>
    ensures writes { Writes (OneText (yes_line proved) Done)
        (over_output O.written O.writes O.faults out.old out.new) result }
{
    match yes_line_of(alloc, proved) {
        Err(_) => Ending::Memory,
        Ok(line) => match out.write(&line) {
            Err(_) => Ending::WriteFault,
            Ok(()) => Ending::Done,
        },
    }
}

// How a run ends where a check says no.
fn ending_of_no<'a>(fault: No) -> Ending<'a>
    ensures { result ≡ no_ending fault }
{
    match fault {
        No::Memory => Ending::Memory,
        _ => Ending::NotProved(fault),
    }
}

// Tests an output text, and writes a yes.
fn check_output<'a, O: Sink, L: Ledger>(
    alloc: Global,
    basis: &Basis,
    output: &Output,
    out: &mut O,
    steps: &mut Steps<L>,
) -> Ending<'a>
    requires floats { AreFloats basis.now.galley.now.blocks basis.now.style.now basis.now.list.now }
    requires few { IsFew output.now }
    ensures writes { Writes (CheckOutput basis.now.style.now basis.now.galley.now output.now)
        (over_output O.written O.writes O.faults out.old out.new) result }
    ensures counted { steps.new ≤ steps.old + length output.now.labels }
{
    match check(alloc, basis.galley, basis.style, basis.list, output, steps) {
        Err(fault) => ending_of_no(fault),
        Ok(proved) => write_yes(alloc, proved, out),
    }
}

// Tests the output text of a task.
fn check_file<'a, H: Shelf, O: Sink, L: Ledger>(
    task: &CheckTask<'a>,
    basis: &Basis,
    shelf: &mut H,
    out: &mut O,
    steps: &mut Steps<L>,
) -> Ending<'a>
    requires { AreFloats basis.now.galley.now.blocks basis.now.style.now basis.now.list.now }
    ensures goes { GoesOn (λ held. CheckText basis.now.style.now basis.now.galley.now
        (opened_output task.now.job.output.now (held task.now.job.output.now))) task.now.job.output.now
        (over_shelf (H.held shelf.old) (H.faults shelf.old) (H.faults shelf.new) (H.last_failed shelf.new))
        (over_output O.written O.writes O.faults out.old out.new) result }
    ensures counted { IfSome (H.held shelf.old) (λ held.
        CountsText (opened_output task.now.job.output.now (held task.now.job.output.now)) steps.old steps.new) }
{
    match open_output(task.alloc, task.job.output, shelf) {
        Err(ending) => ending,
        Ok(output) => check_output(task.alloc, basis, &output, out, steps),
    }
}

// Tests the output text of a task against a galley, if the style has the classes of its inserts and its floats are not too many.
fn check_galley<'a, H: Shelf, O: Sink, L: Ledger>(
    task: &CheckTask<'a>,
    galley: &Galley,
    style: &Style,
    shelf: &mut H,
    out: &mut O,
    steps: &mut Steps<L>,
) -> Ending<'a>
    ensures goes { (style_file galley_file : List ℕ) (wrap : Option ℕ) →
        IfSome (H.held shelf.old) (AreRead style_file galley_file wrap style.now galley.now) →
        Goes (Some (check_command style_file galley_file task.now.job.output.now wrap))
        (over_shelf (H.held shelf.old) (H.faults shelf.old) (H.faults shelf.new) (H.last_failed shelf.new))
        (over_output O.written O.writes O.faults out.old out.new) result }
    ensures counted { IfSome (H.held shelf.old) (λ held.
        CountsTaken style.now galley.now (opened_output task.now.job.output.now (held task.now.job.output.now))
        steps.old steps.new) }
    ensures complete { (style_file galley_file : List ℕ) (wrap : Option ℕ) →
        IfSome (H.held shelf.old) (AreRead style_file galley_file wrap style.now galley.now) →
        IsComplete (Some (check_command style_file galley_file task.now.job.output.now wrap))
        (over_shelf (H.held shelf.old) (H.faults shelf.old) (H.faults shelf.new) (H.last_failed shelf.new))
        (over_output O.written O.writes O.faults out.old out.new) (status_of result) }
{
    labelled_texts_tell(galley, style);
    match FloatList::of(task.alloc, galley, style) {
        Err(fault) => float_ending(fault),
        Ok(floats) => {
            let basis = Basis {
                galley,
                style,
                list: &floats,
            };
            check_file(task, &basis, shelf, out, steps)
        }
    }
}

// Reads the galley of a task behind a style, and tests its output text against them.
fn check_styled<'a, H: Shelf, O: Sink, L: Ledger>(
    task: &CheckTask<'a>,
    style: &Style,
    shelf: &mut H,
    out: &mut O,
    steps: &mut Steps<L>,
) -> Ending<'a>
    ensures goes { (style_file : List ℕ) →
        IfSome (H.held shelf.old) (λ held. opened_style (named style_file) held ≡ Ok style.now) →
        Goes (Some (check_command style_file task.now.job.galley.now task.now.job.output.now task.now.job.wrap))
        (over_shelf (H.held shelf.old) (H.faults shelf.old) (H.faults shelf.new) (H.last_failed shelf.new))
        (over_output O.written O.writes O.faults out.old out.new) result }
    ensures counted { IfSome (H.held shelf.old) (λ held.
        CountsCheck (Ok style.now) (opened task.now.job.galley.now task.now.job.wrap (held task.now.job.galley.now))
        (opened_output task.now.job.output.now (held task.now.job.output.now)) steps.old steps.new) }
    ensures complete { (style_file : List ℕ) →
        IfSome (H.held shelf.old) (λ held. opened_style (named style_file) held ≡ Ok style.now) →
        IsComplete (Some (check_command style_file task.now.job.galley.now task.now.job.output.now task.now.job.wrap))
        (over_shelf (H.held shelf.old) (H.faults shelf.old) (H.faults shelf.new) (H.last_failed shelf.new))
        (over_output O.written O.writes O.faults out.old out.new) (status_of result) }
{
    match open_galley(task.alloc, task.job.galley, task.job.wrap, shelf) {
        Err(ending) => ending,
        Ok(galley) => check_galley(task, &galley, style, shelf, out, steps),
    }
}

/// Tests the output text of a job against its style and its galley, which are read first, in this order, and writes a yes
/// in one piece. A no is an ending. Of a file of at most 2^26 bytes that holds what `run --labels` writes for them it
/// writes a yes, unless a file was not read, the output failed or memory ran out. Each label of the output text is opened
/// at most once, and counted as a step.
pub fn check_course<'a, H: Shelf, O: Sink, L: Ledger>(
    alloc: Global,
    job: CheckJob<'a>,
    shelf: &mut H,
    out: &mut O,
    steps: &mut Steps<L>,
) -> Ending<'a>
    ensures goes { Goes (Some (command_in (Check job.entry)))
        (over_shelf (H.held shelf.old) (H.faults shelf.old) (H.faults shelf.new) (H.last_failed shelf.new))
        (over_output O.written O.writes O.faults out.old out.new) result }
    ensures counted { UnlessMemory (status_of result)
        (IsCounted (Some (command_in (Check job.entry))) (H.held shelf.old) steps.old steps.new) }
    ensures complete { IsComplete (Some (command_in (Check job.entry)))
        (over_shelf (H.held shelf.old) (H.faults shelf.old) (H.faults shelf.new) (H.last_failed shelf.new))
        (over_output O.written O.writes O.faults out.old out.new) (status_of result) }
{
    let task = CheckTask { alloc, job };
    match open_style(alloc, StyleWord::Named(job.style), shelf) {
        Err(ending) => ending,
        Ok(style) => check_styled(&task, &style, shelf, out, steps),
    }
}
