//! Pages in reading order.
ghost use Rattle.std.specs.Prelude.{◌≡◌, ◌++◌, [], List, OnOk, OnErr, IfOk, length, true};
ghost use Rattle.std.specs.List.{AllByRecursion};
ghost use Rattle.pg_glue.specs.Widths.{IsPrintable};
ghost use Rattle.pg_rules.specs.Floats.{float_numbers, is_area_allowed, plus_counts, takes_wide};
ghost use Rattle.pg_list.specs.declared.blocks.Block.{Block as ABlock};
ghost use Rattle.pg_rules.specs.History.{made_wide as made_wide_of, placed_of, side_of as side_in};
ghost use Rattle.pg_rules.specs.Legal.{Legal, document};
ghost use Rattle.pg_floats.specs.AreFloats.{AreFloats};
ghost use Rattle.pg_scaled.specs.Scaled.{Grows};
ghost use Rattle.pg_pages.specs.PageText.{float_bodies as bodies_in, page_line, page_text};
ghost use Rattle.pg_pages.specs.Printed.{FitTogether, lent, wide_by, wide_set};
ghost use Rattle.pg_pages.specs.Sheets.{AreFilled, MayFrom, MaySheet, MaySheets, columns_from, is_any, placed_behind, placed_from, sheet_behind, sheet_text, sheets_text};

use crate::areas::{dealt_bodies, float_bodies};
use crate::column::{Dealt, print_column, print_hanging};
use crate::gaps::hung_gaps;
use crate::glue::own_sizes;
use crate::lines::{print_head, print_side_line};
use crate::matter::Matter;
use crate::seats::{Seat, added, wide_area};
use pg_column::blocks_of;
use pg_floats::FloatList;
use pg_list::Galley;
use pg_plan::{Column, Counts, Page, Pagination, Side};
use pg_style::{First, Style};
use std::alloc::{AllocError, Global};

// The side of a page by its number.
fn side_of(first: First, number: u128) -> Side
    ensures { result ≡ side_in first number }
{
    match first {
        First::Single => Side::S,
        First::Left => { if number % 2 == 1 { Side::L } else { Side::R } }
        First::Right => { if number % 2 == 1 { Side::R } else { Side::L } }
    }
}

// The floats placed behind a column.
fn placed_after(
    alloc: Global,
    style: &Style,
    slots: usize,
    before: &[u16],
    column: &Column,
) -> Result<Counts, AllocError>
    requires slots { slots ≡ length (float_numbers style.now) }
    requires tops { FitTogether before.now column.now.top }
    requires bottoms { FitTogether (plus_counts style.now before.now column.now.top) column.now.bottom }
    ensures { IfOk result (λ placed. placed ≡ placed_behind style.now before.now column.now) }
{
    // the clause alone speaks of the style
    let _ = style;
    let below = added(alloc, slots, before, column.top.as_slice())?;
    let placed = added(alloc, slots, below.as_slice(), column.bottom.as_slice())?;
    Ok(placed)
}

// The columns of a page, one behind the other; the seat is then behind them.
fn print_seats(
    matter: &Matter<'_, '_>,
    seat: &mut Seat,
    columns: &[Column],
    out: &mut Vec<u8>,
) -> Result<(), AllocError>
    requires floats { AreFloats matter.now.galley.now.blocks matter.now.style.now matter.now.floats.now }
    requires bodies { lent matter.now.bodies.now ≡ bodies_in (document matter.now.galley.now matter.now.style.now) }
    requires may { MayFrom (document matter.now.galley.now matter.now.style.now) seat.old.run seat.old.wide
        seat.old.before columns.now }
    ensures ok { OnOk result (out.new.items ≡ out.old.items
        ++ columns_from (document matter.now.galley.now matter.now.style.now) seat.old.run seat.old.wide 1
        seat.old.before columns.now) }
    ensures placed { OnOk result (seat.new.before ≡ placed_from matter.now.style.now seat.old.before columns.now) }
    ensures grows { Grows out.old.items out.new.items }
{
    let alloc = *out.allocator();
    let slots = matter.bodies.len();
    let mut number: u128 = 1;
    let mut rest = columns;
    'each: while let [column, after @ ..] = rest {
        print_column(matter, seat, number, column, out)?;
        seat.before = placed_after(alloc, matter.style, slots, seat.before.as_slice(), column)?;
        number += 1;
        rest = after;
    }
    Ok(())
}

// Whether some count is not 0.
fn deals_any(counts: &[u16]) -> bool
    ensures { result ≡ is_any counts.now }
{
    let mut rest = counts;
    'each: while let [count, after @ ..] = rest {
        if *count > 0 {
            return true;
        }
        rest = after;
    }
    false
}

// The height of a page's wide area, where it has a wide float.
fn made_wide(floats: &FloatList, style: &Style, placed: &Counts, counts: &Counts) -> Option<i64>
    requires { is_area_allowed style.now takes_wide style.now.wide.count counts.now ≡ true }
    ensures { (blocks : List ABlock) → AreFloats blocks style.now floats.now →
        result ≡ made_wide_of (record { blocks = blocks; style = style.now }) placed.now counts.now }
{
    if deals_any(counts.as_slice()) {
        Some(wide_area(floats, style, placed, counts))
    } else {
        None
    }
}

// The wide area of a page, behind so many placed floats, its gaps set to these widths.
#[tactic(auto, unfolding(crate::specs::Printed::wide_set))]
fn print_wide_set(
    style: &Style,
    bodies: &[Vec<&[u8]>],
    placed: &[u16],
    counts: &[u16],
    widths: &[i128],
    out: &mut Vec<u8>,
) -> Result<(), AllocError>
    requires { AllByRecursion IsPrintable widths.now }
    ensures ok { OnOk result (out.new.items
        ≡ out.old.items ++ wide_set style.now (lent bodies.now) placed.now counts.now widths.now) }
    ensures grows { Grows out.old.items out.new.items }
{
    let dealt = Dealt {
        bodies,
        before: placed,
        counts,
    };
    print_hanging(b"wide", style, &style.wide, &dealt, widths, out)
}

// The wide area of a page, its gaps as they are.
fn print_wide_area(
    style: &Style,
    bodies: &[Vec<&[u8]>],
    placed: &Counts,
    page: &Page,
    out: &mut Vec<u8>,
) -> Result<(), AllocError>
    ensures ok { OnOk result (out.new.items ≡ out.old.items ++ wide_by style.now (lent bodies.now) placed.now page.now.wide) }
    ensures grows { Grows out.old.items out.new.items }
{
    style.stays_in_range();
    let alloc = *out.allocator();
    let before = placed.as_slice();
    let counts = page.wide.as_slice();
    let dealt = dealt_bodies(alloc, bodies, before, counts)?;
    let gaps = hung_gaps(alloc, style, &style.wide, dealt.len())?;
    let sizes = own_sizes(alloc, gaps.as_slice())?;
    print_wide_set(style, bodies, before, counts, sizes.as_slice(), out)
}

// The line of a page and its wide area.
fn print_page_head(
    style: &Style,
    bodies: &[Vec<&[u8]>],
    number: u128,
    placed: &Counts,
    page: &Page,
    out: &mut Vec<u8>,
) -> Result<(), AllocError>
    ensures ok { OnOk result (out.new.items ≡ out.old.items
        ++ (page_line number (side_in style.now.first number) page.now.run page.now.wide
        ++ wide_by style.now (lent bodies.now) placed.now page.now.wide)) }
    ensures grows { Grows out.old.items out.new.items }
{
    print_side_line(number, side_of(style.first, number), page, out)?;
    print_wide_area(style, bodies, placed, page, out)
}

// Where the first column of a page stands.
fn first_seat(
    matter: &Matter<'_, '_>,
    alloc: Global,
    placed: &Counts,
    page: &Page,
) -> Result<Seat, AllocError>
    requires floats { AreFloats matter.now.galley.now.blocks matter.now.style.now matter.now.floats.now }
    requires bodies { lent matter.now.bodies.now ≡ bodies_in (document matter.now.galley.now matter.now.style.now) }
    requires wide { is_area_allowed matter.now.style.now takes_wide matter.now.style.now.wide.count page.now.wide
        ≡ true }
    requires fit { FitTogether placed.now page.now.wide }
    ensures run { IfOk result (λ seat. seat.run ≡ page.now.run) }
    ensures wide { IfOk result (λ seat. seat.wide
        ≡ made_wide_of (document matter.now.galley.now matter.now.style.now) placed.now page.now.wide) }
    ensures before { IfOk result (λ seat. seat.before ≡ plus_counts matter.now.style.now placed.now page.now.wide) }
{
    let slots = matter.bodies.len();
    let before = added(alloc, slots, placed.as_slice(), page.wide.as_slice())?;
    Ok(Seat {
        run: page.run,
        wide: made_wide(matter.floats, matter.style, placed, &page.wide),
        before,
    })
}

// A page of this number, behind so many placed floats; answers those placed behind it.
fn print_sheet(
    matter: &Matter<'_, '_>,
    number: u128,
    placed: &Counts,
    page: &Page,
    out: &mut Vec<u8>,
) -> Result<Counts, AllocError>
    requires floats { AreFloats matter.now.galley.now.blocks matter.now.style.now matter.now.floats.now }
    requires bodies { lent matter.now.bodies.now ≡ bodies_in (document matter.now.galley.now matter.now.style.now) }
    requires may { MaySheet (document matter.now.galley.now matter.now.style.now) placed.now page.now }
    ensures ok { OnOk result (out.new.items ≡ out.old.items
        ++ sheet_text (document matter.now.galley.now matter.now.style.now) number placed.now page.now) }
    ensures placed { IfOk result (λ behind. behind ≡ sheet_behind matter.now.style.now placed.now page.now) }
    ensures grows { Grows out.old.items out.new.items }
{
    let alloc = *out.allocator();
    print_page_head(matter.style, matter.bodies, number, placed, page, out)?;
    let mut seat = first_seat(matter, alloc, placed, page)?;
    let columns = page.columns.as_slice();
    print_seats(matter, &mut seat, columns, out)?;
    let Seat { before, .. } = seat;
    Ok(before)
}

// Pages one behind the other, from the first on.
fn print_sheets(
    matter: &Matter<'_, '_>,
    pages: &[Page],
    out: &mut Vec<u8>,
) -> Result<(), AllocError>
    requires floats { AreFloats matter.now.galley.now.blocks matter.now.style.now matter.now.floats.now }
    requires bodies { lent matter.now.bodies.now ≡ bodies_in (document matter.now.galley.now matter.now.style.now) }
    requires may { MaySheets (document matter.now.galley.now matter.now.style.now) (placed_of matter.now.style.now [])
        pages.now }
    ensures ok { OnOk result (out.new.items ≡ out.old.items
        ++ sheets_text (document matter.now.galley.now matter.now.style.now) 1 (placed_of matter.now.style.now [])
        pages.now) }
    ensures grows { Grows out.old.items out.new.items }
{
    let alloc = *out.allocator();
    let mut placed = added(alloc, matter.bodies.len(), &[], &[])?;
    let mut number: u128 = 1;
    let mut rest = pages;
    'each: while let [page, after @ ..] = rest {
        placed = print_sheet(matter, number, &placed, page, out)?;
        number += 1;
        rest = after;
    }
    Ok(())
}

// The pages of a galley with their head, without giving back what a refusal left.
fn print_whole(
    galley: &Galley,
    style: &Style,
    floats: &FloatList,
    plan: &Pagination,
    cost: i128,
    out: &mut Vec<u8>,
) -> Result<(), AllocError>
    requires floats { AreFloats galley.now.blocks style.now floats.now }
    requires may { MaySheets (document galley.now style.now) (placed_of style.now []) plan.now.pages }
    requires filled { AreFilled style.now.columns plan.now.pages }
    ensures ok { OnOk result (out.new.items ≡ out.old.items ++ page_text galley.now style.now plan.now cost) }
    ensures grows { Grows out.old.items out.new.items }
{
    style.stays_in_range();
    let alloc = *out.allocator();
    let pages = plan.pages.as_slice();
    let bodies = float_bodies(alloc, blocks_of(galley), style.classes.as_slice())?;
    print_head(pages.len() as u128, cost, i64::from(galley.width()), out)?;
    let matter = Matter {
        galley,
        style,
        floats,
        bodies: bodies.as_slice(),
    };
    print_sheets(&matter, pages, out)
}

/// Appends the text of a legal pagination with its cost, in demerits; lengths are written in points.
///
/// Conditions: the list is that of the galley's floats, as `FloatList::of` makes it, and the pagination breaks no rule.
/// The only refusal is for want of memory, and `out` is then as before.
pub fn print_pages(
    galley: &Galley,
    style: &Style,
    floats: &FloatList,
    plan: &Pagination,
    cost: i128,
    out: &mut Vec<u8>,
) -> Result<(), AllocError>
    requires floats { AreFloats galley.now.blocks style.now floats.now }
    requires legal { Legal galley.now style.now plan.now }
    ensures ok { OnOk result (out.new.items ≡ out.old.items ++ page_text galley.now style.now plan.now cost) }
    ensures err { OnErr result (out.new.items ≡ out.old.items) }
{
    style.stays_in_range();
    floats.stays_few();
    let start = out.len();
    if let Err(refused) = print_whole(galley, style, floats, plan, cost, out) {
        out.truncate(start);
        return Err(refused);
    }
    Ok(())
}
