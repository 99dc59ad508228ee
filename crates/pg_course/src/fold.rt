//! The command `fold`.
ghost use Rattle.std.specs.Prelude.{◌≡◌, ◌<◌, ◌≤◌, ◌^◌, List, length, Some, IfOk, OnOk};
ghost use Rattle.pg_outside.specs.Outside.{over_output};
ghost use Rattle.pg_floats.specs.AreFloats.{float_total};
ghost use Rattle.pg_fold.specs.Laws.{ReadsInOrder};
ghost use Rattle.pg_fold.specs.SheetsText.{fold_text};
ghost use Rattle.pg_fold.specs.declared.sheets.Sheet.{Sheet};
ghost use Rattle.law_course.specs.SizeLaws.{LegalAreSmall};
ghost use Rattle.pg_space.specs.Solves.{Solves};
ghost use Rattle.pg_command.specs.declared.job.Job.TheVariants.{Fold};
ghost use Rattle.pg_command.specs.Lines.{status_of};
ghost use Rattle.pg_command.specs.Words.{IsFolds, IsNest, command_in};
ghost use Rattle.pg_course.specs.Calls.{Goes, Writes, over_shelf};
ghost use Rattle.pg_course.specs.Counted.{IsCounted, IsShown, UnlessMemory};
ghost use Rattle.pg_course.specs.Course.{WritesOne};
ghost use Rattle.pg_course.specs.Out.{bytes_of, end_of};
ghost use Rattle.pg_course.specs.Products.{AreSheets, SheetsOut};

use crate::open::{GalleyFile, open_style};
use crate::paginate::PageText;
use crate::product::{Product, page_count};
use crate::run::run_file;
use crate::write::write_text;
use law_course::legal_plans_are_small;
use pg_command::{Ending, FoldJob, StyleWord};
use pg_fold::{impose, print_sheets};
use pg_list::Galley;
use pg_outside::{Shelf, Sink};
use pg_pages::print_none;
use pg_plan::Pagination;
use pg_session::Session;
use pg_space::Outcome;
use pg_style::Style;
use pg_table::Steps;
use std::alloc::{AllocError, Global};
use std::sync::ledger::Ledger;

// A legal pagination has few pages.
fn legal_plans_fit(galley: &Galley, style: &Style)
    ensures { LegalAreSmall galley.now style.now }
{
    // Both hand on what the types keep, which the law asks for.
    style.stays_in_range();
    let _ = galley.blocks().as_slice();
    legal_plans_are_small(galley, style);
}

// The sheets on which pages are printed.
fn sheets_text(alloc: Global, plan: &Pagination, folds: u8, nest: u8) -> Result<Vec<u8>, AllocError>
    requires folds { IsFolds folds }
    requires nest { IsNest nest }
    requires few { length plan.now.pages < 2 ^ 21 }
    ensures { IfOk result (λ text. AreSheets folds nest plan.now text.items) }
{
    let pages = page_count(plan);
    let sheets = impose(alloc, pages, folds, nest)?;
    let mut text = Vec::new(alloc);
    print_sheets(&sheets, pages, folds, nest, &mut text)?;
    Ok(text)
}

// The sheets of the best pages, or the line for none where no pagination is legal.
fn sheets_of(
    alloc: Global,
    galley: &Galley,
    style: &Style,
    folds: u8,
    nest: u8,
    outcome: &Outcome,
) -> Result<PageText, AllocError>
    requires folds { IsFolds folds }
    requires nest { IsNest nest }
    requires floats { float_total galley.now.blocks style.now ≤ 2 ^ 12 }
    requires solves { Solves galley.now style.now outcome.now }
    ensures { IfOk result (λ page. SheetsOut folds nest galley.now style.now (bytes_of page) (end_of page)) }
{
    legal_plans_fit(galley, style);
    match outcome {
        Outcome::Best(plan, _) => Ok(PageText::Best(sheets_text(alloc, plan, folds, nest)?)),
        Outcome::NoLegal => {
            let mut text = Vec::new(alloc);
            print_none(&mut text)?;
            Ok(PageText::NoLegal(text))
        }
    }
}

// The same for the galley of a session as it stands, which is paginated for it.
fn sheets_text_of<L: Ledger>(
    alloc: Global,
    session: &mut Session,
    folds: u8,
    nest: u8,
    steps: &mut Steps<L>,
) -> Result<PageText, AllocError>
    requires folds { IsFolds folds }
    requires nest { IsNest nest }
    ensures text { IfOk result (λ page.
        SheetsOut folds nest session.old.galley session.old.style (bytes_of page) (end_of page)) }
    ensures shown { OnOk result (IsShown session.old session.new steps.old steps.new) }
{
    let told = session.paginate(steps)?;
    let floats = session.floats();
    floats.stays_few();
    let text = sheets_of(
        alloc,
        session.galley(),
        session.style(),
        folds,
        nest,
        &told.outcome,
    )?;
    Ok(text)
}

/// Writes the sheets of the best pages of the galley of a session as it stands in one piece, and answers how that ends
/// the run.
pub fn write_sheets<'a, O: Sink, L: Ledger>(
    alloc: Global,
    session: &mut Session,
    folds: u8,
    nest: u8,
    out: &mut O,
    steps: &mut Steps<L>,
) -> Ending<'a>
    requires folds { IsFolds folds }
    requires nest { IsNest nest }
    ensures writes { Writes (WritesOne (SheetsOut folds nest) session.old.style session.old.galley)
        (over_output O.written O.writes O.faults out.old out.new) result }
    ensures shown { UnlessMemory (status_of result) (IsShown session.old session.new steps.old steps.new) }
{
    match sheets_text_of(alloc, session, folds, nest, steps) {
        Err(_) => Ending::Memory,
        Ok(text) => write_text(&text, out),
    }
}

/// Lays the best pages of a galley under a style on sheets that are folded 1 to 4 times, 1 to 16 put into each other.
/// The style is read first.
pub fn fold_course<'a, H: Shelf, O: Sink, L: Ledger>(
    alloc: Global,
    job: FoldJob<'a>,
    shelf: &mut H,
    out: &mut O,
    steps: &mut Steps<L>,
) -> Ending<'a>
    requires folds { IsFolds job.folds }
    requires nest { IsNest job.nest }
    ensures goes { Goes (Some (command_in (Fold job.entry)))
        (over_shelf (H.held shelf.old) (H.faults shelf.old) (H.faults shelf.new) (H.last_failed shelf.new))
        (over_output O.written O.writes O.faults out.old out.new) result }
    ensures counted { UnlessMemory (status_of result)
        (IsCounted (Some (command_in (Fold job.entry))) (H.held shelf.old) steps.old steps.new) }
{
    let file = GalleyFile {
        alloc,
        name: job.galley,
        wrap: job.wrap,
    };
    match open_style(alloc, StyleWord::Named(job.style), shelf) {
        Err(ending) => ending,
        Ok(style) => {
            let product = Product::Sheets {
                folds: job.folds,
                nest: job.nest,
            };
            run_file(&file, style, product, shelf, out, steps)
        }
    }
}
