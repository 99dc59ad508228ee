//! The text of sheets.
ghost use Rattle.std.specs.Prelude.{◌≡◌, ◌≤◌, ◌<◌, ◌+◌, ◌*◌, ◌^◌, ◌++◌, ◌∷◌, [], OnOk, OnErr, decimal, codes, List, ℕ, length};
ghost use Rattle.pg_scaled.specs.Scaled.{Grows};
ghost use Rattle.pg_fold.specs.SheetsText.{cell_word, cells_text, side_line, sheet_lines, sheets_text, head_front, head_line, fold_text};

use crate::layout::{signature_size, times};
use crate::sheets::{Sheet, Sheets};
use pg_words::print_decimal;
use std::alloc::AllocError;

// A number behind a word.
fn print_counted(name: &[u8], number: u128, out: &mut Vec<u8>) -> Result<(), AllocError>
    ensures ok { OnOk result (out.new.items ≡ out.old.items ++ (name.now ++ decimal number)) }
    ensures grows { Grows out.old.items out.new.items }
{
    out.extend_from_slice(name)?;
    print_decimal(number, out)
}

// Two numbers, each behind a word.
fn print_both(
    first: &[u8],
    one: u128,
    second: &[u8],
    other: u128,
    out: &mut Vec<u8>,
) -> Result<(), AllocError>
    ensures ok { OnOk result (out.new.items
        ≡ out.old.items ++ ((first.now ++ decimal one) ++ (second.now ++ decimal other))) }
    ensures grows { Grows out.old.items out.new.items }
{
    print_counted(first, one, out)?;
    print_counted(second, other, out)
}

// A page behind a blank, or `-`.
fn print_cell(page: u32, out: &mut Vec<u8>) -> Result<(), AllocError>
    ensures ok { OnOk result (out.new.items ≡ out.old.items ++ 32 ∷ cell_word page) }
    ensures grows { Grows out.old.items out.new.items }
{
    out.push(b' ')?;
    if page == 0 {
        out.push(b'-')?;
        Ok(())
    } else {
        print_decimal(u128::from(page), out)
    }
}

fn print_cells(cells: &[u32], out: &mut Vec<u8>) -> Result<(), AllocError>
    ensures ok { OnOk result (out.new.items ≡ out.old.items ++ cells_text cells.now) }
    ensures grows { Grows out.old.items out.new.items }
{
    for cell in cells {
        print_cell(*cell, out)?;
    }
    Ok(())
}

#[tactic(auto, unfolding(crate::specs::SheetsText::side_line))]
fn print_side(number: u128, name: &[u8], cells: &[u32], out: &mut Vec<u8>) -> Result<(), AllocError>
    ensures ok { OnOk result (out.new.items ≡ out.old.items ++ side_line number name.now cells.now) }
    ensures grows { Grows out.old.items out.new.items }
{
    print_counted(b"sheet ", number, out)?;
    out.extend_from_slice(name)?;
    print_cells(cells, out)?;
    out.push(b'\n')?;
    Ok(())
}

fn print_sheet(number: u128, sheet: &Sheet, out: &mut Vec<u8>) -> Result<(), AllocError>
    ensures ok { OnOk result (out.new.items ≡ out.old.items ++ sheet_lines number sheet.now) }
    ensures grows { Grows out.old.items out.new.items }
{
    print_side(number, b" front", sheet.front.as_slice(), out)?;
    print_side(number, b" back", sheet.back.as_slice(), out)
}

fn print_all_sheets(sheets: &[Sheet], out: &mut Vec<u8>) -> Result<(), AllocError>
    ensures ok { OnOk result (out.new.items ≡ out.old.items ++ sheets_text 1 sheets.now) }
    ensures grows { Grows out.old.items out.new.items }
{
    let mut number: u128 = 0;
    for sheet in sheets {
        number += 1;
        print_sheet(number, sheet, out)?;
    }
    Ok(())
}

#[tactic(auto, unfolding(crate::specs::SheetsText::head_front))]
fn print_front(signatures: u128, sheets: u128, out: &mut Vec<u8>) -> Result<(), AllocError>
    ensures ok { OnOk result (out.new.items ≡ out.old.items ++ head_front signatures sheets) }
    ensures grows { Grows out.old.items out.new.items }
{
    print_both(b"signatures ", signatures, b" sheets ", sheets, out)
}

#[tactic(auto, unfolding(crate::specs::SheetsText::head_line))]
fn print_head(
    signatures: u128,
    sheets: u128,
    pages: u128,
    blank: u128,
    out: &mut Vec<u8>,
) -> Result<(), AllocError>
    ensures ok { OnOk result (out.new.items ≡ out.old.items ++ head_line signatures sheets pages blank) }
    ensures grows { Grows out.old.items out.new.items }
{
    print_front(signatures, sheets, out)?;
    print_counted(b" pages ", pages, out)?;
    print_counted(b" blank ", blank, out)?;
    out.push(b'\n')?;
    Ok(())
}

// The text, without giving back what a refusal left.
fn print_all(
    sheets: &[Sheet],
    pages: u32,
    folds: u8,
    nest: u8,
    out: &mut Vec<u8>,
) -> Result<(), AllocError>
    requires some_folds { 1 ≤ folds }
    requires few_folds { folds ≤ 4 }
    requires some_nest { 1 ≤ nest }
    requires few_nest { nest ≤ 16 }
    requires few_pages { pages < 2 ^ 21 }
    ensures ok { OnOk result (out.new.items ≡ out.old.items ++ fold_text folds nest pages sheets.now) }
    ensures grows { Grows out.old.items out.new.items }
{
    let size = signature_size(folds, nest);
    let count = (pages + (size - 1)) / size;
    print_head(
        u128::from(count),
        sheets.len() as u128,
        u128::from(pages),
        u128::from(times(count, size) - pages),
        out,
    )?;
    print_all_sheets(sheets, out)
}

/// Appends the text of the sheets on which so many pages are laid. The only refusal is for want of
/// memory, and `out` is then as before.
pub fn print_sheets(
    sheets: &Sheets,
    pages: u32,
    folds: u8,
    nest: u8,
    out: &mut Vec<u8>,
) -> Result<(), AllocError>
    requires some_folds { 1 ≤ folds }
    requires few_folds { folds ≤ 4 }
    requires some_nest { 1 ≤ nest }
    requires few_nest { nest ≤ 16 }
    requires few_pages { pages < 2 ^ 21 }
    ensures ok { OnOk result (out.new.items ≡ out.old.items ++ fold_text folds nest pages sheets.now) }
    ensures err { OnErr result (out.new.items ≡ out.old.items) }
{
    let start = out.len();
    if let Err(refused) = print_all(sheets.as_slice(), pages, folds, nest, out) {
        out.truncate(start);
        return Err(refused);
    }
    Ok(())
}
