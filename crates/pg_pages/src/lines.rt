//! The lines of a page text: its first one, those of pages and of columns, and the line for none.
ghost use Rattle.std.specs.Prelude.{◌≡◌, ◌++◌, OnOk, OnErr, decimal};
ghost use Rattle.pg_scaled.specs.Scaled.{Grows, scaled_text};
ghost use Rattle.pg_words.specs.Written.{line, counts_text, place_text, side_text};
ghost use Rattle.pg_pages.specs.PageText.{none_text, head_counts, head_line, page_side, page_run, page_line, column_line, column_ends as ends_of, column_counts as counts_of};

use crate::number_line::print_length;
use crate::parts::{end_line, print_bytes};
use pg_list::Place;
use pg_plan::{Column, Page, Side};
use pg_words::{print_counts, print_decimal, print_picks, print_place, print_side, print_whole};
use std::alloc::AllocError;

// A name, and counts behind it.
fn print_counts_of(name: &[u8], counts: &[u16], out: &mut Vec<u8>) -> Result<(), AllocError>
    ensures ok { OnOk result (out.new.items ≡ out.old.items ++ (name.now ++ counts_text counts.now)) }
    ensures grows { Grows out.old.items out.new.items }
{
    print_bytes(name, out)?;
    print_counts(counts, out)
}

// A name, and picks behind it.
fn print_picks_of(name: &[u8], picks: &[u32], out: &mut Vec<u8>) -> Result<(), AllocError>
    ensures ok { OnOk result (out.new.items ≡ out.old.items ++ (name.now ++ counts_text picks.now)) }
    ensures grows { Grows out.old.items out.new.items }
{
    print_bytes(name, out)?;
    print_picks(picks, out)
}

// A name, and a number behind it.
pub fn print_numbered(name: &[u8], number: u128, out: &mut Vec<u8>) -> Result<(), AllocError>
    ensures ok { OnOk result (out.new.items ≡ out.old.items ++ (name.now ++ decimal number)) }
    ensures grows { Grows out.old.items out.new.items }
{
    print_bytes(name, out)?;
    print_decimal(number, out)
}

// A name, and a place behind it.
fn print_place_of(name: &[u8], place: Place, out: &mut Vec<u8>) -> Result<(), AllocError>
    ensures ok { OnOk result (out.new.items ≡ out.old.items ++ (name.now ++ place_text place)) }
    ensures grows { Grows out.old.items out.new.items }
{
    print_bytes(name, out)?;
    print_place(place, out)
}

// A page's run and its wide counts.
#[tactic(auto, unfolding(crate::specs::PageText::page_run))]
pub fn print_run(page: &Page, out: &mut Vec<u8>) -> Result<(), AllocError>
    ensures ok { OnOk result (out.new.items ≡ out.old.items ++ page_run page.now.run page.now.wide) }
    ensures grows { Grows out.old.items out.new.items }
{
    print_numbered(b" run ", u128::from(page.run), out)?;
    print_counts_of(b" wide ", page.wide.as_slice(), out)
}

// The number and the side of a page.
#[tactic(auto, unfolding(crate::specs::PageText::page_side))]
fn print_page_side(number: u128, side: Side, out: &mut Vec<u8>) -> Result<(), AllocError>
    ensures ok { OnOk result (out.new.items ≡ out.old.items ++ page_side number side) }
    ensures grows { Grows out.old.items out.new.items }
{
    print_numbered(b"page ", number, out)?;
    print_bytes(b" side ", out)?;
    print_side(side, out)
}

// The line of a page.
#[tactic(auto, unfolding(crate::specs::PageText::page_line))]
pub fn print_side_line(
    number: u128,
    side: Side,
    page: &Page,
    out: &mut Vec<u8>,
) -> Result<(), AllocError>
    ensures ok { OnOk result (out.new.items ≡ out.old.items ++ page_line number side page.now.run page.now.wide) }
    ensures grows { Grows out.old.items out.new.items }
{
    print_page_side(number, side, out)?;
    print_run(page, out)?;
    end_line(out)
}

// Where a column begins and ends.
#[tactic(auto, unfolding(crate::specs::PageText::column_ends))]
fn print_ends(number: u128, column: &Column, out: &mut Vec<u8>) -> Result<(), AllocError>
    ensures ok { OnOk result (out.new.items ≡ out.old.items ++ ends_of number column.now) }
    ensures grows { Grows out.old.items out.new.items }
{
    print_numbered(b"column ", number, out)?;
    print_place_of(b" from ", column.from, out)?;
    print_place_of(b" to ", column.to, out)
}

// The counts of a column, and its picks.
#[tactic(auto, unfolding(crate::specs::PageText::column_counts))]
fn print_column_counts(column: &Column, out: &mut Vec<u8>) -> Result<(), AllocError>
    ensures ok { OnOk result (out.new.items ≡ out.old.items ++ counts_of column.now) }
    ensures grows { Grows out.old.items out.new.items }
{
    print_counts_of(b" top ", column.top.as_slice(), out)?;
    print_counts_of(b" bottom ", column.bottom.as_slice(), out)?;
    print_picks_of(b" picks ", column.picks.as_slice(), out)
}

// The line of a column.
pub fn print_column_line(number: u128, column: &Column, out: &mut Vec<u8>) -> Result<(), AllocError>
    ensures ok { OnOk result (out.new.items ≡ out.old.items ++ column_line number column.now) }
    ensures grows { Grows out.old.items out.new.items }
{
    print_ends(number, column, out)?;
    print_column_counts(column, out)?;
    end_line(out)
}

// How many pages there are, and what they cost.
#[tactic(auto, unfolding(crate::specs::PageText::head_counts))]
fn print_head_counts(pages: u128, cost: i128, out: &mut Vec<u8>) -> Result<(), AllocError>
    ensures ok { OnOk result (out.new.items ≡ out.old.items ++ head_counts pages cost) }
    ensures grows { Grows out.old.items out.new.items }
{
    print_numbered(b"pages ", pages, out)?;
    print_bytes(b" cost ", out)?;
    print_whole(cost, out)
}

// A line of a name and a length.
pub fn print_length_line(name: &[u8], length: i64, out: &mut Vec<u8>) -> Result<(), AllocError>
    ensures ok { OnOk result (out.new.items ≡ out.old.items ++ line (name.now ++ scaled_text length)) }
    ensures grows { Grows out.old.items out.new.items }
{
    print_length(name, length, out)?;
    end_line(out)
}

// The first line.
#[tactic(auto, unfolding(crate::specs::PageText::head_line))]
pub fn print_head(pages: u128, cost: i128, width: i64, out: &mut Vec<u8>) -> Result<(), AllocError>
    ensures ok { OnOk result (out.new.items ≡ out.old.items ++ head_line pages cost width) }
    ensures grows { Grows out.old.items out.new.items }
{
    print_head_counts(pages, cost, out)?;
    print_length_line(b" width ", width, out)
}

/// Appends the line for a galley that has no legal pagination. The only refusal is for want of memory, and `out`
/// is then as before.
pub fn print_none(out: &mut Vec<u8>) -> Result<(), AllocError>
    ensures ok { OnOk result (out.new.items ≡ out.old.items ++ none_text) }
    ensures err { OnErr result (out.new.items ≡ out.old.items) }
{
    out.extend_from_slice(b"no legal pagination\n")
}
