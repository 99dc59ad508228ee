//! The command `lines`.
ghost use Rattle.std.specs.Prelude.{◌≡◌, Ok, Some};
ghost use Rattle.pg_outside.specs.Outside.{over_output};
ghost use Rattle.pg_command.specs.declared.job.Job.TheVariants.{Lines};
ghost use Rattle.pg_command.specs.Words.{IsLineRule, command_in};
ghost use Rattle.law_lines.specs.ParagraphsLaws.{IsRule};
ghost use Rattle.pg_lines.specs.Answers.{AnswersLines};
ghost use Rattle.pg_course.specs.Course.{LinesCourse};
ghost use Rattle.pg_course.specs.Calls.{AreSaid, Goes, Writes, over_shelf};

use crate::open::open_paras;
use crate::show::write_galley;
use law_lines::{LineFault, LineRule, lines_read_back};
use pg_command::{Ending, LinesJob};
use pg_hlist::Paras;
use pg_lines::break_lines;
use pg_list::Galley;
use pg_outside::{Shelf, Sink};
use pg_table::Steps;
use std::alloc::Global;
use std::marker::Brand;
use std::sync::ledger::{Blank, Ledger};

// The galley of paragraphs, with a counter of its own.
fn counted_galley<L: Ledger>(
    alloc: Global,
    paras: &Paras,
    rule: &LineRule,
    blank: Blank,
) -> Result<Galley, LineFault>
    requires name { blank.name ≡ L.name }
    requires parts { blank.parts ≡ L.parts }
    requires one { blank.parts ≡ 1 }
    requires rule { IsRule rule.now }
    ensures { AnswersLines rule.now paras.now result }
{
    let mut steps = Steps::<L>::new(blank);
    break_lines(alloc, paras, rule, &mut steps)
}

// The galley of paragraphs, or the first paragraph at fault.
fn galley_of(alloc: Global, paras: &Paras, rule: &LineRule) -> Result<Galley, LineFault>
    requires { IsRule rule.now }
    ensures { AnswersLines rule.now paras.now result }
{
    counted_galley::<Brand>(alloc, paras, rule, Blank::new(1))
}

// Breaks the paragraphs of the file of this name, and writes their galley in one piece.
fn write_lines<'a, O: Sink>(
    alloc: Global,
    name: &'a str,
    paras: &Paras,
    rule: &LineRule,
    out: &mut O,
) -> Ending<'a>
    requires rule { IsRule rule.now }
    requires said { AreSaid paras.now }
    ensures writes { Writes (LinesCourse rule.now name.now (Ok paras.now))
        (over_output O.written O.writes O.faults out.old out.new) result }
{
    lines_read_back(rule);
    match galley_of(alloc, paras, rule) {
        Ok(galley) => write_galley(alloc, &galley, out),
        Err(fault) => match fault {
            LineFault::Memory => Ending::Memory,
            _ => Ending::BadParagraph(name, fault),
        },
    }
}

/// Breaks the paragraphs of the file of a job into lines of its width, each line at most so bad as its tolerance allows,
/// in the best number of lines and up to so many around it, and writes their galley in one piece.
pub fn lines_course<'a, H: Shelf, O: Sink>(
    alloc: Global,
    job: LinesJob<'a>,
    shelf: &mut H,
    out: &mut O,
) -> Ending<'a>
    requires { IsLineRule job.width job.tolerance job.around }
    ensures goes { Goes (Some (command_in (Lines job.entry)))
        (over_shelf (H.held shelf.old) (H.faults shelf.old) (H.faults shelf.new) (H.last_failed shelf.new))
        (over_output O.written O.writes O.faults out.old out.new) result }
{
    let rule = LineRule {
        width: job.width,
        tolerance: job.tolerance,
        around: job.around,
    };
    match open_paras(alloc, job.file, shelf) {
        Err(ending) => ending,
        Ok(paras) => write_lines(alloc, job.file, &paras, &rule, out),
    }
}
