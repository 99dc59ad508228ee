//! References: each use with its page, and the page of the first label of its name.
ghost use Rattle.std.specs.Prelude.{◌≡◌, ◌<◌, ◌+◌, ◌^◌, ◌++◌, IfOk, OnOk, length, map, List, ℕ};
ghost use Rattle.pg_column.specs.Between.{behind};
ghost use Rattle.pg_marks.specs.Fitting.{AllFit};
ghost use Rattle.pg_marks.specs.Carries.{label_of as label_in};
ghost use Rattle.pg_marks.specs.Heads.{references as references_of};
ghost use Rattle.pg_marks.specs.Walked.{label_behind, labelled, labels_from, labels_on, no_pages, page_text, use_on, uses_from, uses_on};
ghost use Rattle.pg_marks.specs.Told.{page_in};

use crate::carries::{label_of, use_of};
use crate::lists::{Reference, ReferenceList};
use crate::page_items::page_items;
use pg_list::{Bytes, Galley, Item};
use pg_plan::{Page, Pagination};
use std::alloc::{AllocError, Global};
use std::collections::HashMap;

// The page of the first label of each name.
type LabelPages<'a> = HashMap<&'a [u8], u32>;

// Keeps the page of a label, unless there is one of its name.
fn keep_first<'a>(name: &'a [u8], page: u32, labels: &mut LabelPages<'a>) -> Result<(), AllocError>
    ensures { OnOk result (page_in labels.new ≡ label_behind (page_in labels.old) page name.now) }
{
    if !labels.contains_key(name) {
        labels.insert(name, page)?;
    }
    Ok(())
}

// Keeps the page of an item that is a label.
fn keep_label<'a>(item: &'a Item, page: u32, labels: &mut LabelPages<'a>) -> Result<(), AllocError>
    ensures { OnOk result (page_in labels.new ≡ labelled (page_in labels.old) page (label_in item.now)) }
{
    if let Some(name) = label_of(item) {
        keep_first(name, page, labels)?;
    }
    Ok(())
}

// Keeps the page of the labels among items.
fn keep_labels<'a>(
    items: &[&'a Item],
    page: u32,
    labels: &mut LabelPages<'a>,
) -> Result<(), AllocError>
    ensures { OnOk result (page_in labels.new ≡ labels_on (page_in labels.old) page (behind items.now)) }
{
    let mut rest = items;
    'items: while let [item, after @ ..] = rest {
        keep_label(*item, page, labels)?;
        rest = after;
    }
    Ok(())
}

// The labels of all pages.
fn all_labels<'a>(
    alloc: Global,
    galley: &'a Galley,
    pages: &[Page],
) -> Result<LabelPages<'a>, AllocError>
    requires fit { AllFit galley.now.blocks pages.now }
    requires few { length pages.now < 2 ^ 31 }
    ensures { IfOk result (λ labels.
        page_in labels ≡ labels_from no_pages 1 (map (page_text galley.now.blocks) pages.now)) }
{
    let mut labels = HashMap::new(alloc);
    let mut number: u32 = 0;
    let mut rest = pages;
    'pages: while let [page, after @ ..] = rest {
        number += 1;
        let items = page_items(alloc, galley, page)?;
        keep_labels(items.as_slice(), number, &mut labels)?;
        rest = after;
    }
    Ok(labels)
}

// The page of the first label of this name.
#[tactic(auto, unfolding(crate::specs::Told::page_in))]
fn page_of(labels: &LabelPages<'_>, name: &[u8]) -> Option<u32>
    ensures { result ≡ page_in labels.now name.now }
{
    labels.get(name).copied()
}

// Adds an item that is a use.
fn push_use(
    alloc: Global,
    item: &Item,
    on: u32,
    labels: &LabelPages<'_>,
    references: &mut ReferenceList,
) -> Result<(), AllocError>
    ensures { OnOk result (references.new ≡ references.old ++ use_on (page_in labels.now) on item.now) }
{
    if let Some(name) = use_of(item) {
        references.push(Reference {
            name: Bytes::from_slice(alloc, name)?,
            on,
            page: page_of(labels, name),
        })?;
    }
    Ok(())
}

// Adds the uses among items.
fn push_uses(
    alloc: Global,
    items: &[&Item],
    on: u32,
    labels: &LabelPages<'_>,
    references: &mut ReferenceList,
) -> Result<(), AllocError>
    ensures { OnOk result (references.new ≡ references.old ++ uses_on (page_in labels.now) on (behind items.now)) }
{
    let mut rest = items;
    'items: while let [item, after @ ..] = rest {
        push_use(alloc, item, on, labels, references)?;
        rest = after;
    }
    Ok(())
}

// Adds the uses of all pages.
fn push_all(
    alloc: Global,
    galley: &Galley,
    pages: &[Page],
    labels: &LabelPages<'_>,
    references: &mut ReferenceList,
) -> Result<(), AllocError>
    requires fit { AllFit galley.now.blocks pages.now }
    requires few { length pages.now < 2 ^ 31 }
    ensures { OnOk result (references.new ≡ references.old
        ++ uses_from (page_in labels.now) 1 (map (page_text galley.now.blocks) pages.now)) }
{
    let mut number: u32 = 0;
    let mut rest = pages;
    'pages: while let [page, after @ ..] = rest {
        number += 1;
        let items = page_items(alloc, galley, page)?;
        push_uses(alloc, items.as_slice(), number, labels, references)?;
        rest = after;
    }
    Ok(())
}

/// Each use, in order, with the page on which it stands and the page of the first label of its name. It has no page
/// exactly where no item of the pages is such a label. Pages are counted from 1.
///
/// Conditions: each column fits the galley, as those of a legal pagination do (`legal_columns_fit` of law_course), and
/// there are fewer than 2^31 pages. The only refusal is for want of memory.
pub fn references(
    alloc: Global,
    galley: &Galley,
    plan: &Pagination,
) -> Result<ReferenceList, AllocError>
    requires fit { AllFit galley.now.blocks plan.now.pages }
    requires few { length plan.now.pages < 2 ^ 31 }
    ensures { IfOk result (λ references. references ≡ references_of galley.now.blocks plan.now.pages) }
{
    let pages = plan.pages.as_slice();
    let labels = all_labels(alloc, galley, pages)?;
    let mut references = ReferenceList::new(alloc);
    push_all(alloc, galley, pages, &labels, &mut references)?;
    Ok(references)
}
