//! The pages of first fit.
ghost use Rattle.std.specs.Prelude.{◌≡◌, ◌≤◌, ◌<◌, ◌^◌, ◌+◌, IfOk, IfErr, length, None};
ghost use Rattle.pg_greedy.specs.Faults.{Causes, greedy_fault};
ghost use Rattle.pg_greedy.specs.FirstFit.{AreFirstFit, IsFirstFit, fit_page as fit_page_of};
ghost use Rattle.pg_greedy.specs.Looking.{IsBuilder, items_from, style_of};

use crate::fault::GreedyFault;
use crate::look::{Builder, place_at};
use crate::refuse::find_fault;
use pg_breaks::is_spent;
use pg_floats::{full_height, slots_of};
use pg_list::Galley;
use pg_plan::{Column, Columns, Counts, Page, Pages, Pagination, Picks};
use pg_style::Style;
use std::alloc::{AllocError, Global};

// A page of run 0 with one column of text, without floats, from one block to another.
fn fit_page(alloc: Global, style: &Style, from: u32, to: u32) -> Result<Page, AllocError>
    ensures { IfOk result (λ page. page ≡ fit_page_of style.now from to) }
{
    let slots = slots_of(style);
    let mut columns = Columns::new(alloc);
    columns.push(Column {
        from: place_at(from),
        to: place_at(to),
        top: Counts::zeros(alloc, slots),
        bottom: Counts::zeros(alloc, slots),
        picks: Picks::new(alloc),
    })?;
    Ok(Page {
        run: 0,
        wide: Counts::zeros(alloc, slots),
        columns,
    })
}

// The pages of a galley without choices.
fn pages_of(alloc: Global, builder: &Builder<'_>) -> Result<Pages, AllocError>
    requires { IsBuilder builder.now }
    ensures { IfOk result (λ pages. AreFirstFit (style_of builder.now) (items_from builder.now 0) 0 pages) }
{
    let mut pages = Pages::new(alloc);
    let mut from: u32 = 0;
    'pages: while !is_spent(builder.galley, place_at(from)) {
        let to = from + builder.take_page(from);
        pages.push(fit_page(alloc, builder.style, from, to)?)?;
        from = to;
    }
    Ok(pages)
}

/// Breaks a galley into pages as TeX's page builder does (TeX: The Program, §1005): each page ends at the last of the
/// cheapest breaks that it sees, and what is behind it is not looked at. Pages have run 0, one column and no float; they
/// may break the rules of a pagination.
///
/// `Columns` comes exactly where the style has two columns; else `Choice` or `Float` names the first block that is a choice
/// or an insert of a float class, if there is one. `Memory` may come in place of success.
pub fn first_fit(alloc: Global, galley: &Galley, style: &Style) -> Result<Pagination, GreedyFault>
    ensures fit { IfOk result (λ plan. IsFirstFit galley.now style.now plan) }
    ensures none { IfOk result (λ plan. greedy_fault style.now galley.now.blocks ≡ None) }
    ensures cause { IfErr result (λ fault. Causes style.now galley.now.blocks fault) }
{
    if let Some(fault) = find_fault(galley, style) {
        return Err(fault);
    }
    let builder = Builder {
        galley,
        style,
        room: full_height(style, 0),
    };
    match pages_of(alloc, &builder) {
        Ok(pages) => Ok(Pagination { pages }),
        Err(_) => Err(GreedyFault::Memory),
    }
}
