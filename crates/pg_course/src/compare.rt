//! The command `compare`.
ghost use Rattle.std.specs.Prelude.{◌≡◌, ◌++◌, ◌∷◌, ◌-ℤ◌, [], length, Some, IfOk, OnOk};
ghost use Rattle.pg_outside.specs.Outside.{over_output};
ghost use Rattle.pg_plan.specs.declared.pages.Pagination.{Pagination as APagination};
ghost use Rattle.pg_rules.specs.Best.{Best};
ghost use Rattle.pg_rules.specs.Cost.{cost as cost_of};
ghost use Rattle.pg_rules.specs.Legal.{Legal, breach};
ghost use Rattle.pg_floats.specs.AreFloats.{AreFloats};
ghost use Rattle.pg_greedy.specs.Compare.{first_line};
ghost use Rattle.pg_greedy.specs.FirstFit.{IsFirstFit};
ghost use Rattle.pg_session.specs.Shows.{AreCounted, show_of};
ghost use Rattle.law_course.specs.SizeLaws.{FirstFitsAreShort, IsShortPlan, LegalAreSmall};
ghost use Rattle.pg_space.specs.Solves.{Solves};
ghost use Rattle.pg_table.specs.Space.{Small};
ghost use Rattle.pg_command.specs.declared.job.Job.TheVariants.{Compare};
ghost use Rattle.pg_command.specs.Lines.{status_of};
ghost use Rattle.pg_command.specs.Words.{command_in};
ghost use Rattle.pg_course.specs.Calls.{Goes, Writes, fit_ending, over_shelf};
ghost use Rattle.pg_course.specs.Counted.{IsCounted, IsShown, UnlessMemory, made_shows};
ghost use Rattle.pg_course.specs.Course.{CompareGalley, WritesOne};
ghost use Rattle.pg_course.specs.Out.{bytes_of, end_of};
ghost use Rattle.pg_course.specs.declared.product.Product.TheVariants.{Comparison};
ghost use Rattle.pg_course.specs.Products.{BreaksAt, CompareOut, IsSavedText, IsUnsavedText};

use crate::open::{GalleyFile, open_style};
use crate::paginate::PageText;
use crate::product::{Product, page_count};
use crate::run::run_file;
use crate::write::write_text;
use law_course::{first_fits_are_short, legal_plans_are_small};
use pg_command::{Ending, PagesJob, StyleWord};
use pg_floats::FloatList;
use pg_greedy::{GreedyFault, first_fit, print_best, print_broken, print_saved};
use pg_judge::{Basis, JudgeFault, judge};
use pg_list::Galley;
use pg_outside::{Shelf, Sink};
use pg_pages::print_none;
use pg_plan::Pagination;
use pg_session::Session;
use pg_space::Outcome;
use pg_style::Style;
use pg_table::Steps;
use std::alloc::{AllocError, Global};
use std::sync::ledger::Ledger;

// Legal paginations and first fits are small.
fn plans_are_small(galley: &Galley, style: &Style)
    ensures small { LegalAreSmall galley.now style.now }
    ensures short { FirstFitsAreShort galley.now style.now }
{
    // Both hand on what the types keep, which the laws ask for.
    style.stays_in_range();
    let _ = galley.blocks().as_slice();
    legal_plans_are_small(galley, style);
    first_fits_are_short(galley, style);
}

// What is saved of a cost.
fn saving(cost: &i128, best: &i128) -> i128
    requires cost { Small cost.now }
    requires best { Small best.now }
    ensures { result ≡ cost.now -ℤ best.now }
{
    *cost - *best
}

// Appends the line of a first fit beside best pages of this cost.
fn print_first(
    alloc: Global,
    basis: &Basis,
    first: &Pagination,
    best: &i128,
    out: &mut Vec<u8>,
) -> Result<(), AllocError>
    requires floats { AreFloats basis.now.galley.now.blocks basis.now.style.now basis.now.list.now }
    requires legal { LegalAreSmall basis.now.galley.now basis.now.style.now }
    requires short { IsShortPlan first.now }
    requires best { Small best.now }
    ensures { OnOk result (out.new.items ≡ out.old.items ++ first_line (length first.now.pages)
        (breach basis.now.galley.now basis.now.style.now first.now)
        (cost_of basis.now.galley.now basis.now.style.now first.now) best.now) }
{
    let pages = page_count(first);
    let judged = judge(alloc, basis.galley, basis.style, basis.list, first);
    match &judged {
        Ok(cost) => print_saved(pages, cost, &saving(cost, best), out),
        Err(JudgeFault::Broken { rule, column }) => print_broken(pages, *rule, *column, out),
        Err(JudgeFault::Memory) => Err(AllocError),
    }
}

// Appends the line of a first fit where no pagination is legal.
fn print_illegal(
    alloc: Global,
    basis: &Basis,
    first: &Pagination,
    out: &mut Vec<u8>,
) -> Result<(), AllocError>
    requires floats { AreFloats basis.now.galley.now.blocks basis.now.style.now basis.now.list.now }
    requires short { IsShortPlan first.now }
    requires none { (plan : APagination) → Legal basis.now.galley.now basis.now.style.now plan → ⊥ }
    ensures { OnOk result (BreaksAt basis.now.galley.now basis.now.style.now first.now out.old.items out.new.items) }
{
    let pages = page_count(first);
    match judge(alloc, basis.galley, basis.style, basis.list, first) {
        Ok(_) => unreachable!(),
        Err(JudgeFault::Broken { rule, column }) => print_broken(pages, rule, column, out),
        Err(JudgeFault::Memory) => Err(AllocError),
    }
}

// First fit beside the best pages.
fn saved_text(
    alloc: Global,
    basis: &Basis,
    first: &Pagination,
    plan: &Pagination,
    cost: &i128,
) -> Result<Vec<u8>, AllocError>
    requires floats { AreFloats basis.now.galley.now.blocks basis.now.style.now basis.now.list.now }
    requires fit { IsFirstFit basis.now.galley.now basis.now.style.now first.now }
    requires best { Best basis.now.galley.now basis.now.style.now plan.now }
    requires cost { cost_of basis.now.galley.now basis.now.style.now plan.now ≡ cost.now }
    ensures { IfOk result (λ text. IsSavedText basis.now.galley.now basis.now.style.now text.items) }
{
    plans_are_small(basis.galley, basis.style);
    let mut text = Vec::new(alloc);
    print_first(alloc, basis, first, cost, &mut text)?;
    print_best(page_count(plan), cost, &mut text)?;
    Ok(text)
}

// First fit where no pagination is legal.
fn unsaved_text(alloc: Global, basis: &Basis, first: &Pagination) -> Result<Vec<u8>, AllocError>
    requires floats { AreFloats basis.now.galley.now.blocks basis.now.style.now basis.now.list.now }
    requires fit { IsFirstFit basis.now.galley.now basis.now.style.now first.now }
    requires illegal { (plan : APagination) → Legal basis.now.galley.now basis.now.style.now plan → ⊥ }
    ensures { IfOk result (λ text. IsUnsavedText basis.now.galley.now basis.now.style.now text.items) }
{
    plans_are_small(basis.galley, basis.style);
    let mut text = Vec::new(alloc);
    print_illegal(alloc, basis, first, &mut text)?;
    print_none(&mut text)?;
    Ok(text)
}

// First fit beside what was found for a galley.
fn compared(
    alloc: Global,
    galley: &Galley,
    style: &Style,
    floats: &FloatList,
    first: &Pagination,
    outcome: &Outcome,
) -> Result<PageText, AllocError>
    requires floats { AreFloats galley.now.blocks style.now floats.now }
    requires fit { IsFirstFit galley.now style.now first.now }
    requires solves { Solves galley.now style.now outcome.now }
    ensures { IfOk result (λ page. CompareOut galley.now style.now (bytes_of page) (end_of page)) }
{
    let basis = Basis {
        galley,
        style,
        list: floats,
    };
    match outcome {
        Outcome::Best(plan, cost) => {
            let text = saved_text(alloc, &basis, first, plan, cost)?;
            Ok(PageText::Best(text))
        }
        Outcome::NoLegal => {
            let text = unsaved_text(alloc, &basis, first)?;
            Ok(PageText::NoLegal(text))
        }
    }
}

// The same for the galley of a session as it stands, which is paginated for it.
fn compared_text_of<L: Ledger>(
    alloc: Global,
    session: &mut Session,
    first: &Pagination,
    steps: &mut Steps<L>,
) -> Result<PageText, AllocError>
    requires fit { IsFirstFit session.old.galley session.old.style first.now }
    ensures text { IfOk result (λ page.
        CompareOut session.old.galley session.old.style (bytes_of page) (end_of page)) }
    ensures shown { OnOk result (IsShown session.old session.new steps.old steps.new) }
{
    let told = session.paginate(steps)?;
    let text = compared(
        alloc,
        session.galley(),
        session.style(),
        session.floats(),
        first,
        &told.outcome,
    )?;
    Ok(text)
}

// Writes it in one piece.
fn write_compared<'a, O: Sink, L: Ledger>(
    alloc: Global,
    session: &mut Session,
    first: &Pagination,
    out: &mut O,
    steps: &mut Steps<L>,
) -> Ending<'a>
    requires fit { IsFirstFit session.old.galley session.old.style first.now }
    ensures writes { Writes (WritesOne CompareOut session.old.style session.old.galley)
        (over_output O.written O.writes O.faults out.old out.new) result }
    ensures shown { UnlessMemory (status_of result) (IsShown session.old session.new steps.old steps.new) }
{
    match compared_text_of(alloc, session, first, steps) {
        Err(_) => Ending::Memory,
        Ok(text) => write_text(&text, out),
    }
}

// How a run ends where a galley has no first fit.
fn no_fit<'a>(fault: GreedyFault) -> Ending<'a>
    ensures { result ≡ fit_ending fault }
{
    match fault {
        GreedyFault::Memory => Ending::Memory,
        _ => Ending::NoFirstFit(fault),
    }
}

/// Writes first fit beside the best pages of the galley of a session as it stands in one piece, and answers how that
/// ends the run. A galley without a first fit is not paginated, and takes no step.
pub fn write_comparison<'a, O: Sink, L: Ledger>(
    alloc: Global,
    session: &mut Session,
    out: &mut O,
    steps: &mut Steps<L>,
) -> Ending<'a>
    ensures writes { Writes (CompareGalley session.old.style session.old.galley)
        (over_output O.written O.writes O.faults out.old out.new) result }
    ensures counted { UnlessMemory (status_of result)
        (AreCounted session.old.style
        (made_shows Comparison session.old.style session.old.galley (show_of session.old ∷ [])) steps.old steps.new) }
{
    match first_fit(alloc, session.galley(), session.style()) {
        Err(fault) => no_fit(fault),
        Ok(first) => write_compared(alloc, session, &first, out, steps),
    }
}

/// Tells first fit beside the best pages of a galley under a style. The style is read first.
pub fn compare_course<'a, H: Shelf, O: Sink, L: Ledger>(
    alloc: Global,
    job: PagesJob<'a>,
    shelf: &mut H,
    out: &mut O,
    steps: &mut Steps<L>,
) -> Ending<'a>
    ensures goes { Goes (Some (command_in (Compare job.entry)))
        (over_shelf (H.held shelf.old) (H.faults shelf.old) (H.faults shelf.new) (H.last_failed shelf.new))
        (over_output O.written O.writes O.faults out.old out.new) result }
    ensures counted { UnlessMemory (status_of result)
        (IsCounted (Some (command_in (Compare job.entry))) (H.held shelf.old) steps.old steps.new) }
{
    let file = GalleyFile {
        alloc,
        name: job.galley,
        wrap: job.wrap,
    };
    match open_style(alloc, StyleWord::Named(job.style), shelf) {
        Err(ending) => ending,
        Ok(style) => run_file(&file, style, Product::Comparison, shelf, out, steps),
    }
}
