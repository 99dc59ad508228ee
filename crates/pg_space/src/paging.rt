//! Pages one by one.
ghost use Rattle.std.specs.Prelude.{◌≡◌, IfOk};
ghost use Rattle.pg_space.specs.Paged.{single_page, double_page, paged};

use pg_plan::{Columns, Page, PageMove, Pages};
use std::alloc::{AllocError, Global};

// The page of a column alone.
fn single(alloc: Global, first: &PageMove) -> Result<Page, AllocError>
    ensures { IfOk result (λ page. page ≡ single_page first.now) }
{
    let mut columns = Columns::with_room(alloc, 1)?;
    columns.push(first.column.copy()?)?;
    Ok(Page {
        run: first.run,
        wide: first.wide.copy()?,
        columns,
    })
}

// The page of two columns.
fn double(alloc: Global, first: &PageMove, second: &PageMove) -> Result<Page, AllocError>
    ensures { IfOk result (λ page. page ≡ double_page first.now second.now) }
{
    let mut columns = Columns::with_room(alloc, 2)?;
    columns.push(first.column.copy()?)?;
    columns.push(second.column.copy()?)?;
    Ok(Page {
        run: first.run,
        wide: first.wide.copy()?,
        columns,
    })
}

// A page for each column.
fn singles(alloc: Global, moves: &[PageMove]) -> Result<Pages, AllocError>
    ensures { IfOk result (λ pages. pages ≡ paged 1 moves.now) }
{
    let mut pages = Pages::new(alloc);
    for first in moves {
        pages.push(single(alloc, first)?)?;
    }
    Ok(pages)
}

// A page for each two columns, and one for the last where they are odd.
fn doubles(alloc: Global, moves: &[PageMove]) -> Result<Pages, AllocError>
    ensures { IfOk result (λ pages. pages ≡ paged 2 moves.now) }
{
    let mut pages = Pages::new(alloc);
    let mut rest = moves;
    'pages: while let [first, second, after @ ..] = rest {
        pages.push(double(alloc, first, second)?)?;
        rest = after;
    }
    if let [last] = rest {
        pages.push(single(alloc, last)?)?;
    }
    Ok(pages)
}

/// The pages that columns in order fill, with so many on each.
pub fn pages_of(alloc: Global, columns: u8, moves: &[PageMove]) -> Result<Pages, AllocError>
    ensures { IfOk result (λ pages. pages ≡ paged columns moves.now) }
{
    if columns == 2 {
        doubles(alloc, moves)
    } else {
        singles(alloc, moves)
    }
}
