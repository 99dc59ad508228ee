//! The command `heads`.
ghost use Rattle.std.specs.Prelude.{◌≡◌, ◌<◌, ◌^◌, ◌++◌, length, Some, IfOk, OnOk};
ghost use Rattle.pg_outside.specs.Outside.{over_output};
ghost use Rattle.law_course.specs.MarkLaws.{LegalColumnsFit};
ghost use Rattle.pg_marks.specs.Fitting.{AllFit};
ghost use Rattle.pg_marks.specs.Heads.{heads as the_heads, references as the_references};
ghost use Rattle.pg_marks.specs.HeadsText.{marks_text};
ghost use Rattle.law_course.specs.SizeLaws.{LegalAreSmall};
ghost use Rattle.pg_space.specs.Solves.{Solves};
ghost use Rattle.pg_command.specs.declared.job.Job.TheVariants.{Heads};
ghost use Rattle.pg_command.specs.Lines.{status_of};
ghost use Rattle.pg_command.specs.Words.{command_in};
ghost use Rattle.pg_course.specs.Calls.{Goes, Writes, over_shelf};
ghost use Rattle.pg_course.specs.Counted.{IsCounted, IsShown, UnlessMemory};
ghost use Rattle.pg_course.specs.Course.{WritesOne};
ghost use Rattle.pg_course.specs.Out.{bytes_of, end_of};
ghost use Rattle.pg_course.specs.Products.{HeadsOut};

use crate::open::{GalleyFile, open_style};
use crate::paginate::PageText;
use crate::product::Product;
use crate::run::run_file;
use crate::write::write_text;
use law_course::{legal_columns_fit, legal_plans_are_small};
use pg_command::{Ending, PagesJob, StyleWord};
use pg_list::Galley;
use pg_marks::{heads, print_heads, references};
use pg_outside::{Shelf, Sink};
use pg_pages::print_none;
use pg_plan::Pagination;
use pg_session::Session;
use pg_space::Outcome;
use pg_style::Style;
use pg_table::Steps;
use std::alloc::{AllocError, Global};
use std::sync::ledger::Ledger;

// Each column of a legal pagination fits the galley, and there are few pages.
fn legal_plans_fit(galley: &Galley, style: &Style)
    ensures fit { LegalColumnsFit galley.now style.now }
    ensures small { LegalAreSmall galley.now style.now }
{
    // Both hand on what the types keep, which the laws ask for.
    style.stays_in_range();
    let _ = galley.blocks().as_slice();
    legal_columns_fit(galley, style);
    legal_plans_are_small(galley, style);
}

// Appends the heads of pages, and the references to them.
fn print_marks(
    alloc: Global,
    galley: &Galley,
    plan: &Pagination,
    out: &mut Vec<u8>,
) -> Result<(), AllocError>
    requires fit { AllFit galley.now.blocks plan.now.pages }
    requires few { length plan.now.pages < 2 ^ 31 }
    ensures { OnOk result (out.new.items ≡ out.old.items ++ marks_text (the_heads galley.now.blocks plan.now.pages)
        (the_references galley.now.blocks plan.now.pages)) }
{
    let heads = heads(alloc, galley, plan)?;
    let references = references(alloc, galley, plan)?;
    print_heads(&heads, &references, out)?;
    Ok(())
}

// The heads of the best pages, or the line for none where no pagination is legal.
fn heads_of(
    alloc: Global,
    galley: &Galley,
    style: &Style,
    outcome: &Outcome,
) -> Result<PageText, AllocError>
    requires { Solves galley.now style.now outcome.now }
    ensures { IfOk result (λ page. HeadsOut galley.now style.now (bytes_of page) (end_of page)) }
{
    legal_plans_fit(galley, style);
    let mut text = Vec::new(alloc);
    match outcome {
        Outcome::Best(plan, _) => {
            print_marks(alloc, galley, plan, &mut text)?;
            Ok(PageText::Best(text))
        }
        Outcome::NoLegal => {
            print_none(&mut text)?;
            Ok(PageText::NoLegal(text))
        }
    }
}

// The same for the galley of a session as it stands, which is paginated for it.
fn heads_text_of<L: Ledger>(
    alloc: Global,
    session: &mut Session,
    steps: &mut Steps<L>,
) -> Result<PageText, AllocError>
    ensures text { IfOk result (λ page.
        HeadsOut session.old.galley session.old.style (bytes_of page) (end_of page)) }
    ensures shown { OnOk result (IsShown session.old session.new steps.old steps.new) }
{
    let told = session.paginate(steps)?;
    let text = heads_of(alloc, session.galley(), session.style(), &told.outcome)?;
    Ok(text)
}

/// Writes the heads of the best pages of the galley of a session as it stands, and its references to pages, in one
/// piece, and answers how that ends the run.
pub fn write_heads<'a, O: Sink, L: Ledger>(
    alloc: Global,
    session: &mut Session,
    out: &mut O,
    steps: &mut Steps<L>,
) -> Ending<'a>
    ensures writes { Writes (WritesOne HeadsOut session.old.style session.old.galley)
        (over_output O.written O.writes O.faults out.old out.new) result }
    ensures shown { UnlessMemory (status_of result) (IsShown session.old session.new steps.old steps.new) }
{
    match heads_text_of(alloc, session, steps) {
        Err(_) => Ending::Memory,
        Ok(text) => write_text(&text, out),
    }
}

/// Tells the running heads of the best pages of a galley under a style, and its references to pages. The style is read
/// first.
pub fn heads_course<'a, H: Shelf, O: Sink, L: Ledger>(
    alloc: Global,
    job: PagesJob<'a>,
    shelf: &mut H,
    out: &mut O,
    steps: &mut Steps<L>,
) -> Ending<'a>
    ensures goes { Goes (Some (command_in (Heads job.entry)))
        (over_shelf (H.held shelf.old) (H.faults shelf.old) (H.faults shelf.new) (H.last_failed shelf.new))
        (over_output O.written O.writes O.faults out.old out.new) result }
    ensures counted { UnlessMemory (status_of result)
        (IsCounted (Some (command_in (Heads job.entry))) (H.held shelf.old) steps.old steps.new) }
{
    let file = GalleyFile {
        alloc,
        name: job.galley,
        wrap: job.wrap,
    };
    match open_style(alloc, StyleWord::Named(job.style), shelf) {
        Err(ending) => ending,
        Ok(style) => run_file(&file, style, Product::Heads, shelf, out, steps),
    }
}
