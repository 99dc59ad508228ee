//! What is written for a galley.
ghost use Rattle.std.specs.Prelude.{◌≡◌, ◌++◌, true, false, IfOk, OnOk};
ghost use Rattle.pg_floats.specs.AreFloats.{AreFloats};
ghost use Rattle.pg_space.specs.Solves.{Solves};
ghost use Rattle.law_page_text.specs.PageLaws.{LegalShowEachOnce};
ghost use Rattle.law_texts.specs.Texts.{LegalHaveEachOnce};
ghost use Rattle.pg_labels.specs.LabelText.{label_text};
ghost use Rattle.pg_course.specs.Counted.{IsShown};
ghost use Rattle.pg_course.specs.Steps.{shown_end};
ghost use Rattle.pg_course.specs.Out.{Out, RunOut, bytes_of, end_of, tells_fitness};

use law_page_text::pages_have_each_once;
use law_texts::legal_plans_have_each_once;
use pg_floats::FloatList;
use pg_labels::print_labels;
use pg_list::Galley;
use pg_pages::{print_none, print_pages};
use pg_plan::LabelList;
use pg_session::Session;
use pg_space::Outcome;
use pg_style::Style;
use pg_table::Steps;
use std::alloc::{AllocError, Global};
use std::sync::ledger::Ledger;

/// The text that is written for a galley: of its best pagination, or for none.
#[derive(Drop)]
pub enum PageText {
    Best(Vec<u8>),
    NoLegal(Vec<u8>),
}

impl PageText {
    /// Its bytes.
    pub fn as_slice(&self) -> &[u8]
        ensures { result.now ≡ bytes_of self.now }
    {
        match self {
            PageText::Best(bytes) | PageText::NoLegal(bytes) => bytes.as_slice(),
        }
    }

    /// Whether it is the text of a pagination.
    pub fn is_legal(&self) -> bool
        ensures { end_of self.now ≡ shown_end result }
    {
        match self {
            PageText::Best(_) => true,
            PageText::NoLegal(_) => false,
        }
    }
}

// Each box, note and float stands once in a legal pagination, and each note and float once in the areas of its text.
fn each_once(galley: &Galley, style: &Style)
    ensures once { LegalHaveEachOnce galley.now style.now }
    ensures areas { LegalShowEachOnce galley.now style.now }
{
    // Both hand on what the types keep, which the laws ask for.
    style.stays_in_range();
    let _ = galley.blocks().as_slice();
    legal_plans_have_each_once(galley, style);
    pages_have_each_once(galley, style);
}

// The text of the best pagination, or the line for none where none is legal.
fn text_of(
    alloc: Global,
    galley: &Galley,
    style: &Style,
    floats: &FloatList,
    outcome: &Outcome,
) -> Result<PageText, AllocError>
    requires floats { AreFloats galley.now.blocks style.now floats.now }
    requires solves { Solves galley.now style.now outcome.now }
    ensures { IfOk result (λ page. Out galley.now style.now (bytes_of page) (end_of page)) }
{
    each_once(galley, style);
    let mut text = Vec::new(alloc);
    match outcome {
        Outcome::Best(plan, cost) => {
            print_pages(galley, style, floats, plan, *cost, &mut text)?;
            Ok(PageText::Best(text))
        }
        Outcome::NoLegal => {
            print_none(&mut text)?;
            Ok(PageText::NoLegal(text))
        }
    }
}

// Whether labels tell their fitness under a style.
fn has_fitness(style: &Style) -> bool
    ensures { result ≡ tells_fitness style.now }
{
    style.version != 1
}

// The text with that of the labels behind it.
fn with_labels(text: PageText, labels: &LabelList, style: &Style) -> Result<PageText, AllocError>
    ensures text { IfOk result (λ page.
        bytes_of page ≡ bytes_of text ++ label_text (tells_fitness style.now) labels.now) }
    ensures end { IfOk result (λ page. end_of page ≡ end_of text) }
{
    match text {
        PageText::Best(mut bytes) => {
            print_labels(labels, has_fitness(style), &mut bytes)?;
            Ok(PageText::Best(bytes))
        }
        PageText::NoLegal(mut bytes) => {
            print_labels(labels, has_fitness(style), &mut bytes)?;
            Ok(PageText::NoLegal(bytes))
        }
    }
}

// The text for the galley of a session as it stands, which is solved for it, with the text of its labels behind it.
fn labelled_text_of<L: Ledger>(
    alloc: Global,
    session: &mut Session,
    steps: &mut Steps<L>,
) -> Result<PageText, AllocError>
    ensures text { IfOk result (λ page.
        RunOut true session.old.galley session.old.style (bytes_of page) (end_of page)) }
    ensures shown { OnOk result (IsShown session.old session.new steps.old steps.new) }
{
    let outcome = session.solve(steps)?;
    let text = text_of(
        alloc,
        session.galley(),
        session.style(),
        session.floats(),
        &outcome,
    )?;
    with_labels(text, session.labels(), session.style())
}

// The same without labels, which are not listed.
fn plain_text_of<L: Ledger>(
    alloc: Global,
    session: &mut Session,
    steps: &mut Steps<L>,
) -> Result<PageText, AllocError>
    ensures text { IfOk result (λ page.
        RunOut false session.old.galley session.old.style (bytes_of page) (end_of page)) }
    ensures shown { OnOk result (IsShown session.old session.new steps.old steps.new) }
{
    let told = session.paginate(steps)?;
    text_of(
        alloc,
        session.galley(),
        session.style(),
        session.floats(),
        &told.outcome,
    )
}

/// The text for the galley of a session as it stands: of its best pagination, or the line for none where none is
/// legal; where `labels` is true with the text of the frontier's labels behind it. No labels are listed where it is
/// not.
pub fn page_text_of<L: Ledger>(
    alloc: Global,
    session: &mut Session,
    labels: bool,
    steps: &mut Steps<L>,
) -> Result<PageText, AllocError>
    ensures text { IfOk result (λ page.
        RunOut labels session.old.galley session.old.style (bytes_of page) (end_of page)) }
    ensures shown { OnOk result (IsShown session.old session.new steps.old steps.new) }
{
    if labels {
        labelled_text_of(alloc, session, steps)
    } else {
        plain_text_of(alloc, session, steps)
    }
}
