//! The marks of pages.
ghost use Rattle.std.specs.Prelude.{◌≡◌, IfOk, [], List, ℕ};
ghost use Rattle.pg_column.specs.Between.{behind};
ghost use Rattle.pg_marks.specs.Fitting.{AllFit};
ghost use Rattle.pg_marks.specs.Heads.{first_or, heads as heads_of, last_or, marks};
ghost use Rattle.pg_marks.specs.Walked.{heads_from, page_text};

use crate::carries::mark_of;
use crate::lists::{Head, HeadList};
use crate::page_items::page_items;
use pg_list::{Bytes, Galley, Item};
use pg_plan::Pagination;
use std::alloc::{AllocError, Global};

// The first mark among items, or the one before them.
fn first_mark<'a>(before: &'a [u8], items: &[&'a Item]) -> &'a [u8]
    ensures { result.now ≡ first_or before.now (marks (behind items.now)) }
{
    let mut rest = items;
    'items: while let [item, after @ ..] = rest {
        if let Some(mark) = mark_of(*item) {
            return mark;
        }
        rest = after;
    }
    before
}

// The last mark among items, or the one before them.
fn last_mark<'a>(before: &'a [u8], items: &[&'a Item]) -> &'a [u8]
    ensures { result.now ≡ last_or before.now (marks (behind items.now)) }
{
    let mut last = before;
    let mut rest = items;
    'items: while let [item, after @ ..] = rest {
        if let Some(mark) = mark_of(*item) {
            last = mark;
        }
        rest = after;
    }
    last
}

// A head of these marks.
fn head(alloc: Global, top: &[u8], first: &[u8], bottom: &[u8]) -> Result<Head, AllocError>
    ensures { IfOk result (λ head. head ≡ record { top = top.now; first = first.now; bottom = bottom.now }) }
{
    Ok(Head {
        top: Bytes::from_slice(alloc, top)?,
        first: Bytes::from_slice(alloc, first)?,
        bottom: Bytes::from_slice(alloc, bottom)?,
    })
}

/// The marks of each page: the last of all pages before it, its first, and its last. Where a page has none, its first
/// and its last are those that stood before it; before the first mark of all stands an empty one.
///
/// Condition: each column fits the galley, as those of a legal pagination do (`legal_columns_fit` of law_course). The
/// only refusal is for want of memory.
pub fn heads(alloc: Global, galley: &Galley, plan: &Pagination) -> Result<HeadList, AllocError>
    requires { AllFit galley.now.blocks plan.now.pages }
    ensures { IfOk result (λ heads. heads ≡ heads_of galley.now.blocks plan.now.pages) }
{
    let mut heads = HeadList::new(alloc);
    let mut top: &[u8] = &[];
    let mut rest = plan.pages.as_slice();
    'pages: while let [page, after @ ..] = rest {
        let items = page_items(alloc, galley, page)?;
        let first = first_mark(top, items.as_slice());
        let bottom = last_mark(top, items.as_slice());
        heads.push(head(alloc, top, first, bottom)?)?;
        top = bottom;
        rest = after;
    }
    Ok(heads)
}
