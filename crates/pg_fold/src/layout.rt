//! Which page stands in which cell, and the sheets that are made of it.
ghost use Rattle.std.specs.Prelude.{◌≡◌, ◌≤◌, ◌<◌, ◌+◌, ◌*◌, ◌^◌, ◌++◌, IfOk, OnOk, OnErr};
ghost use Rattle.pg_fold.specs.Imposed.{page_at as the_page, signature_place, cell_page as the_cell_page, cells as the_cells, sheet_of, signature_from, imposed, signature_count, signature_pages};
ghost use Rattle.pg_fold.specs.Laws.{ReadsInOrder};

use crate::face::{Side, place_of};
use crate::sheets::{Cells, Sheet, Sheets};
use std::alloc::{AllocError, Global};

/// How sheets are folded and put into each other, and how many pages there are.
#[derive(Clone, Copy)]
pub struct Layout {
    pub folds: u32,
    pub nest: u32,
    pub pages: u32,
}

// A product of two small numbers.
pub fn times(a: u32, b: u32) -> u32
    requires few { a ≤ 2 ^ 22 }
    requires small { b ≤ 2 ^ 9 }
    ensures { result ≡ a * b }
{
    a * b
}

// The page at a place, or 0 for a blank behind the last.
fn page_at(pages: u32, place: u32) -> u32
    ensures { result ≡ the_page pages place }
{
    if place < pages { place + 1 } else { 0 }
}

// The place in the reading of a signature of what stands at a place in the reading of a sheet of it.
fn place_in_signature(half: u32, nest: u32, sheet: u32, place: u32) -> u32
    requires half { half ≤ 2 ^ 4 }
    requires nest { nest ≤ 2 ^ 4 }
    requires sheet { sheet < nest }
    requires place { place < 2 ^ 5 }
    ensures value { result ≡ signature_place half nest sheet place }
    ensures small { result < 2 ^ 10 }
{
    if place < half {
        times(sheet, half) + place
    } else {
        times(nest, half) + (times(nest - 1 - sheet, half) + (place - half))
    }
}

// The page of a cell of a sheet, whose signature stands behind as many pages.
fn cell_page(layout: &Layout, start: u32, sheet: u32, side: Side, cell: u32) -> u32
    requires folds { layout.now.folds ≤ 4 }
    requires nest { layout.now.nest ≤ 2 ^ 4 }
    requires start { start ≤ 2 ^ 22 }
    requires sheet { sheet < layout.now.nest }
    ensures { result ≡ the_cell_page layout.now start sheet side cell }
{
    let place = place_of(layout.folds, side, cell);
    let half = 2u32.pow(layout.folds);
    page_at(
        layout.pages,
        start + place_in_signature(half, layout.nest, sheet, place),
    )
}

// One side of a sheet.
fn cells(
    alloc: Global,
    layout: &Layout,
    start: u32,
    sheet: u32,
    side: Side,
) -> Result<Cells, AllocError>
    requires folds { layout.now.folds ≤ 4 }
    requires nest { layout.now.nest ≤ 2 ^ 4 }
    requires start { start ≤ 2 ^ 22 }
    requires sheet { sheet < layout.now.nest }
    ensures { IfOk result (λ cells. cells ≡ the_cells layout.now start sheet side) }
{
    let mut cells = Cells::new(alloc);
    for cell in 0..2u32.pow(layout.folds) {
        cells.push(cell_page(layout, start, sheet, side, cell))?;
    }
    Ok(cells)
}

// Adds the sheets of a signature, from the outermost in.
fn push_signature(
    alloc: Global,
    layout: &Layout,
    start: u32,
    sheets: &mut Sheets,
) -> Result<(), AllocError>
    requires folds { layout.now.folds ≤ 4 }
    requires nest { layout.now.nest ≤ 2 ^ 4 }
    requires start { start ≤ 2 ^ 22 }
    ensures { OnOk result (sheets.new ≡ sheets.old ++ signature_from layout.now start) }
{
    for sheet in 0..layout.nest {
        sheets.push(Sheet {
            front: cells(alloc, layout, start, sheet, Side::Front)?,
            back: cells(alloc, layout, start, sheet, Side::Back)?,
        })?;
    }
    Ok(())
}

/// The number of pages of a signature.
pub fn signature_size(folds: u8, nest: u8) -> u32
    requires folds { folds ≤ 4 }
    requires nest { nest ≤ 16 }
    ensures value { result ≡ signature_pages folds nest }
    ensures small { result ≤ 2 ^ 9 }
    ensures some { 1 ≤ nest → 1 ≤ result }
{
    times(u32::from(nest), 2u32.pow(u32::from(folds) + 1))
}

/// Lays pages on sheets that are folded so often and put into each other so many at a time. Folded,
/// the sheets are read from page 1 on, each page once, with blanks behind the last.
pub fn impose(alloc: Global, pages: u32, folds: u8, nest: u8) -> Result<Sheets, AllocError>
    requires some_folds { 1 ≤ folds }
    requires few_folds { folds ≤ 4 }
    requires some_nest { 1 ≤ nest }
    requires few_nest { nest ≤ 16 }
    requires few_pages { pages < 2 ^ 21 }
    ensures sheets { IfOk result (λ sheets. sheets ≡ imposed folds nest pages) }
    ensures reads { IfOk result (λ sheets. ReadsInOrder folds nest pages sheets) }
{
    let layout = Layout {
        folds: u32::from(folds),
        nest: u32::from(nest),
        pages,
    };
    let size = times(layout.nest, 2u32.pow(layout.folds + 1));
    let count = (pages + (size - 1)) / size;
    let mut sheets = Sheets::new(alloc);
    for signature in 0..count {
        push_signature(alloc, &layout, times(signature, size), &mut sheets)?;
    }
    Ok(sheets)
}
