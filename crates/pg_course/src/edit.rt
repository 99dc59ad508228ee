//! The command `edit`.
ghost use Rattle.std.specs.Prelude.{◌≡◌, ◌≤◌, ◌^◌, ℕ, List, Option, None, Ok, Some, IfErr, IfOk, IfSome};
ghost use Rattle.pg_outside.specs.Outside.{over_output, sent};
ghost use Rattle.pg_command.specs.declared.job.Job.TheVariants.{Edit as AnEdit};
ghost use Rattle.pg_command.specs.Lines.{status_of};
ghost use Rattle.pg_command.specs.Words.{command_in, edit as edit_command, named};
ghost use Rattle.pg_edits.specs.declared.script.ScriptStep.TheVariants.{Show as AShow};
ghost use Rattle.pg_floats.specs.AreFloats.{float_total, unknown_class};
ghost use Rattle.pg_session.specs.Shows.{AreCounted, show_of, shows_from};
ghost use Rattle.pg_course.specs.Course.{EditFront, EditScript, EditSteps, ScriptFront, opened, opened_script};
ghost use Rattle.pg_course.specs.Course.{opened_style};
ghost use Rattle.pg_course.specs.Calls.{AreRead, Goes, GoesThrough, WritesOn, edit_ending, over_shelf};
ghost use Rattle.pg_course.specs.Steps.{AreMade, IsNoStep, IsStep, ending_of_made};
ghost use Rattle.pg_course.specs.Counted.{CountsEdit, CountsScript, IsCounted, UnlessMemory};
ghost use Rattle.pg_command.specs.declared.status.Status.TheVariants.{Done};

use crate::open::{open_galley, open_script, open_style};
use crate::paginate::page_text_of;
use crate::run::float_ending;
use pg_command::{EditJob, Ending, StyleWord};
use pg_edits::{EditFault, ScriptStep};
use pg_list::{Edit, Galley};
use pg_outside::{Shelf, Sink};
use pg_session::Session;
use pg_style::Style;
use pg_table::Steps;
use std::alloc::Global;
use std::sync::ledger::Ledger;

// An edit that is asked for, and where memory for it comes from.
#[derive(Clone, Copy)]
struct EditTask<'a> {
    alloc: Global,
    job: EditJob<'a>,
}

// A step of a script, and its number, from 1 on.
#[derive(Clone, Copy)]
struct Numbered<'a> {
    step: &'a ScriptStep,
    number: u64,
}

// How a run ends where the edit of a step is refused.
fn refused<'a>(step: u64, fault: EditFault) -> Ending<'a>
    ensures { result ≡ edit_ending step fault }
{
    match fault {
        EditFault::Memory => Ending::Memory,
        _ => Ending::BadEdit(step, fault),
    }
}

// Writes the text for the galley of a session as it stands in one piece, and answers whether it has a legal pagination.
fn show<'a, O: Sink, L: Ledger>(
    alloc: Global,
    session: &mut Session,
    labels: bool,
    out: &mut O,
    steps: &mut Steps<L>,
) -> Result<bool, Ending<'a>>
    ensures made { IfOk result (λ legal. IsStep labels AShow session.old session.new legal
        (sent O.written O.writes out.old) (sent O.written O.writes out.new) steps.old steps.new) }
    ensures not_made { (number : ℕ) → IfErr result (IsNoStep labels AShow number session.old session.new
        (over_output O.written O.writes O.faults out.old out.new) steps.old steps.new) }
    ensures later { O.faults out.old ≤ O.faults out.new }
{
    match page_text_of(alloc, session, labels, steps) {
        Err(_) => Err(Ending::Memory),
        Ok(text) => match out.write(text.as_slice()) {
            Err(_) => Err(Ending::WriteFault),
            Ok(()) => Ok(text.is_legal()),
        },
    }
}

// Makes a step of a script, and answers whether a galley that is shown has a legal pagination.
fn make_step<'a, O: Sink, L: Ledger>(
    alloc: Global,
    session: &mut Session,
    numbered: &Numbered,
    labels: bool,
    out: &mut O,
    steps: &mut Steps<L>,
) -> Result<bool, Ending<'a>>
    ensures made { IfOk result (λ legal. IsStep labels numbered.now.step.now session.old session.new legal
        (sent O.written O.writes out.old) (sent O.written O.writes out.new) steps.old steps.new) }
    ensures not_made { IfErr result (IsNoStep labels numbered.now.step.now numbered.now.number session.old session.new
        (over_output O.written O.writes O.faults out.old out.new) steps.old steps.new) }
    ensures later { O.faults out.old ≤ O.faults out.new }
{
    match numbered.step {
        ScriptStep::Change(edit) => match session.edit(edit) {
            Err(fault) => Err(refused(numbered.number, fault)),
            Ok(()) => Ok(true),
        },
        ScriptStep::Show => show(alloc, session, labels, out, steps),
    }
}

// Makes the steps of a script in their order, and answers whether all galleys that are shown have a legal pagination.
fn make_each<'a, O: Sink, L: Ledger>(
    alloc: Global,
    session: &mut Session,
    script: &[ScriptStep],
    labels: bool,
    out: &mut O,
    steps: &mut Steps<L>,
) -> Result<bool, Ending<'a>>
    ensures made { IfOk result (λ legal. AreMade labels session.old script.now session.new legal
        (sent O.written O.writes out.old) (sent O.written O.writes out.new) steps.old steps.new) }
    ensures ends { IfErr result (λ ending.
        WritesOn (EditSteps labels session.old.style session.old.galley 1 Done script.now)
        (EditFront labels session.old.style session.old.galley script.now)
        (over_output O.written O.writes O.faults out.old out.new) ending) }
    ensures counted { IfErr result (λ ending. UnlessMemory (status_of ending) (AreCounted session.old.style
        (shows_from (show_of session.old) session.old.style script.now) steps.old steps.new)) }
{
    let mut legal = true;
    let mut number = 0;
    for step in script {
        number += 1;
        let numbered = Numbered { step, number };
        match make_step(alloc, session, &numbered, labels, out, steps) {
            Err(ending) => return Err(ending),
            Ok(shown) => legal &= shown,
        }
    }
    Ok(legal)
}

// How it ends where all steps were made.
fn made_ending<'a>(legal: bool) -> Ending<'a>
    ensures { result ≡ ending_of_made legal }
{
    if legal { Ending::Done } else { Ending::NoLegal }
}

// Makes the steps of a script in their order, and writes the text of each show in one piece.
fn make_steps<'a, O: Sink, L: Ledger>(
    alloc: Global,
    session: &mut Session,
    script: &[ScriptStep],
    labels: bool,
    out: &mut O,
    steps: &mut Steps<L>,
) -> Ending<'a>
    ensures writes { WritesOn (EditSteps labels session.old.style session.old.galley 1 Done script.now)
        (EditFront labels session.old.style session.old.galley script.now)
        (over_output O.written O.writes O.faults out.old out.new) result }
    ensures counted { UnlessMemory (status_of result) (AreCounted session.old.style
        (shows_from (show_of session.old) session.old.style script.now) steps.old steps.new) }
{
    match make_each(alloc, session, script, labels, out, steps) {
        Err(ending) => ending,
        Ok(legal) => made_ending(legal),
    }
}

// Reads the script of a task, and makes its steps over a session.
fn edit_file<'a, H: Shelf, O: Sink, L: Ledger>(
    task: &EditTask<'a>,
    session: &mut Session,
    shelf: &mut H,
    out: &mut O,
    steps: &mut Steps<L>,
) -> Ending<'a>
    requires known { unknown_class session.old.galley.blocks session.old.style ≡ None }
    requires few { float_total session.old.galley.blocks session.old.style ≤ 2 ^ 12 }
    ensures goes { GoesThrough
        (λ held. EditScript task.now.job.labels session.old.style session.old.galley
        (opened_script task.now.job.script.now (held task.now.job.script.now)))
        (λ held. ScriptFront task.now.job.labels session.old.style session.old.galley
        (opened_script task.now.job.script.now (held task.now.job.script.now)))
        task.now.job.script.now
        (over_shelf (H.held shelf.old) (H.faults shelf.old) (H.faults shelf.new) (H.last_failed shelf.new))
        (over_output O.written O.writes O.faults out.old out.new) result }
    ensures counted { UnlessMemory (status_of result) (IfSome (H.held shelf.old) (λ held.
        CountsScript session.old.style (show_of session.old)
        (opened_script task.now.job.script.now (held task.now.job.script.now)) steps.old steps.new)) }
{
    match open_script(task.alloc, task.job.script, shelf) {
        Err(ending) => ending,
        Ok(script) => make_steps(
            task.alloc,
            session,
            script.as_slice(),
            task.job.labels,
            out,
            steps,
        ),
    }
}

// Edits a galley under a style, if the style has the classes of its inserts and its floats are not too many.
fn edit_galley<'a, H: Shelf, O: Sink, L: Ledger>(
    task: &EditTask<'a>,
    galley: Galley,
    style: Style,
    shelf: &mut H,
    out: &mut O,
    steps: &mut Steps<L>,
) -> Ending<'a>
    ensures goes { (style_file galley_file : List ℕ) (wrap : Option ℕ) →
        IfSome (H.held shelf.old) (AreRead style_file galley_file wrap style galley) →
        Goes (Some (edit_command style_file galley_file task.now.job.script.now task.now.job.labels wrap))
        (over_shelf (H.held shelf.old) (H.faults shelf.old) (H.faults shelf.new) (H.last_failed shelf.new))
        (over_output O.written O.writes O.faults out.old out.new) result }
    ensures counted { UnlessMemory (status_of result) (IfSome (H.held shelf.old) (λ held.
        CountsEdit (Ok style) (Ok galley) (opened_script task.now.job.script.now (held task.now.job.script.now))
        steps.old steps.new)) }
{
    match Session::new(task.alloc, galley, style) {
        Err(fault) => float_ending(fault),
        Ok(mut session) => edit_file(task, &mut session, shelf, out, steps),
    }
}

// Reads the galley of a task behind a style, and edits it by its script.
fn edit_styled<'a, H: Shelf, O: Sink, L: Ledger>(
    task: &EditTask<'a>,
    style: Style,
    shelf: &mut H,
    out: &mut O,
    steps: &mut Steps<L>,
) -> Ending<'a>
    ensures goes { (style_file : List ℕ) →
        IfSome (H.held shelf.old) (λ held. opened_style (named style_file) held ≡ Ok style) →
        Goes (Some (edit_command style_file task.now.job.galley.now task.now.job.script.now task.now.job.labels task.now.job.wrap))
        (over_shelf (H.held shelf.old) (H.faults shelf.old) (H.faults shelf.new) (H.last_failed shelf.new))
        (over_output O.written O.writes O.faults out.old out.new) result }
    ensures counted { UnlessMemory (status_of result) (IfSome (H.held shelf.old) (λ held.
        CountsEdit (Ok style) (opened task.now.job.galley.now task.now.job.wrap (held task.now.job.galley.now))
        (opened_script task.now.job.script.now (held task.now.job.script.now)) steps.old steps.new)) }
{
    match open_galley(task.alloc, task.job.galley, task.job.wrap, shelf) {
        Err(ending) => ending,
        Ok(galley) => edit_galley(task, galley, style, shelf, out, steps),
    }
}

/// Edits the galley of a job by its script, under its style, and writes for each show of the script what a run writes for
/// the galley as it stands, in one piece, where the job asks for labels with those of the search.
/// The files are read in the order style, galley, script. A change that is refused ends it.
///
/// What was found for one show serves the next: only what the edits between can reach is searched again.
pub fn edit_course<'a, H: Shelf, O: Sink, L: Ledger>(
    alloc: Global,
    job: EditJob<'a>,
    shelf: &mut H,
    out: &mut O,
    steps: &mut Steps<L>,
) -> Ending<'a>
    ensures goes { Goes (Some (command_in (AnEdit job.entry)))
        (over_shelf (H.held shelf.old) (H.faults shelf.old) (H.faults shelf.new) (H.last_failed shelf.new))
        (over_output O.written O.writes O.faults out.old out.new) result }
    ensures counted { UnlessMemory (status_of result)
        (IsCounted (Some (command_in (AnEdit job.entry))) (H.held shelf.old) steps.old steps.new) }
{
    let task = EditTask { alloc, job };
    match open_style(alloc, StyleWord::Named(job.style), shelf) {
        Err(ending) => ending,
        Ok(style) => edit_styled(&task, style, shelf, out, steps),
    }
}
