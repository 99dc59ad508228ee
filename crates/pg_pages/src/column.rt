//! A column: its numbers and its areas.
ghost use Rattle.std.specs.Prelude.{◌≡◌, ◌<◌, ◌≤◌, ◌+◌, ◌^◌, ◌++◌, [], List, OnOk, IfOk, drop, length, nat_abs, ◌-ℤ◌, true, Some, decimal};
ghost use Rattle.std.specs.List.{flat_map, AllByRecursion};
ghost use Rattle.pg_list.specs.Counts.{item_limit};
ghost use Rattle.pg_list.specs.Ranges.{IsItemInRange};
ghost use Rattle.pg_list.specs.Flat.{end_of, flat_items_at, is_same_place};
ghost use Rattle.std.specs.Option.{option_map_or};
ghost use Rattle.pg_rules.specs.Legal.{document};
ghost use Rattle.pg_rules.specs.Room.{is_text, size_of};
ghost use Rattle.pg_rules.specs.Floats.{dealt_from};
ghost use Rattle.pg_floats.specs.AreFloats.{AreFloats};
ghost use Rattle.pg_column.specs.Fits.{are_named};
ghost use Rattle.pg_scaled.specs.Scaled.{Grows};
ghost use Rattle.pg_pages.specs.PageText.{area, column_body, column_line, float_bodies, float_column, text_column};
ghost use Rattle.pg_pages.specs.Seated.{MayPrint, seated};
ghost use Rattle.pg_words.specs.Written.{line};
ghost use Rattle.pg_pages.specs.Printed.{bare_text, bottom_by, hanging_by, hung_by, lent, notes_area, notes_set, read_text, set_column, standing_by, stood_by, text_by, top_by};
ghost use Rattle.pg_pages.specs.SetGlue.{own_width};
ghost use Rattle.pg_glue.specs.Widths.{IsPrintable};
ghost use Rattle.pg_column.specs.Between.{behind, items_to};

use crate::areas::{close_area, dealt_bodies, open_area, print_dealt, print_notes};
use crate::column_numbers::numbers_of;
use crate::gaps::{
    hung_gaps, note_gaps, print_hung, print_skipped_notes, print_standing, shows_gaps,
    standing_gaps,
};
use crate::glue::{Glues, own_sizes, widths_of};
use crate::lines::{print_column_line, print_numbered};
use crate::matter::Matter;
use crate::number_line::print_numbers;
use crate::parts::{end_line, print_bytes};
use crate::seats::{Seat, added, room_of};
use crate::segment::trimmed;
use crate::text::print_items_set;
use pg_breaks::is_spent;
use pg_column::{TextCost, blocks_of, is_same_place, push_between};
use pg_list::{Galley, Item, Place};
use pg_plan::Column;
use pg_style::{AreaRule, Gap, Style};
use std::alloc::{AllocError, Global};

/// The floats that counts deal out after others, of the bodies of each class.
#[derive(Clone, Copy)]
pub struct Dealt<'a, 'b> {
    pub bodies: &'a [Vec<&'b [u8]>],
    pub before: &'a [u16],
    pub counts: &'a [u16],
}

// Floats that hang, their gaps set to these widths.
#[tactic(auto, unfolding(crate::specs::Printed::hanging_by))]
fn print_hanging_floats(
    style: &Style,
    rule: &AreaRule,
    dealt: &Dealt<'_, '_>,
    widths: &[i128],
    out: &mut Vec<u8>,
) -> Result<(), AllocError>
    requires { AllByRecursion IsPrintable widths.now }
    ensures ok { OnOk result (out.new.items ≡ out.old.items
        ++ hanging_by style.now rule.now (lent dealt.now.bodies.now) dealt.now.before.now dealt.now.counts.now
        widths.now) }
    ensures grows { Grows out.old.items out.new.items }
{
    if !shows_gaps(style) {
        return print_dealt(dealt.bodies, dealt.before, dealt.counts, out);
    }
    let alloc = *out.allocator();
    let bodies = dealt_bodies(alloc, dealt.bodies, dealt.before, dealt.counts)?;
    print_hung(rule, bodies.as_slice(), widths, out)
}

/// An area whose floats hang.
pub fn print_hanging(
    name: &[u8],
    style: &Style,
    rule: &AreaRule,
    dealt: &Dealt<'_, '_>,
    widths: &[i128],
    out: &mut Vec<u8>,
) -> Result<(), AllocError>
    requires { AllByRecursion IsPrintable widths.now }
    ensures ok { OnOk result (out.new.items ≡ out.old.items
        ++ area name.now (hanging_by style.now rule.now (lent dealt.now.bodies.now) dealt.now.before.now
        dealt.now.counts.now widths.now)) }
    ensures grows { Grows out.old.items out.new.items }
{
    let start = open_area(name, out)?;
    let filled = out.len();
    print_hanging_floats(style, rule, dealt, widths, out)?;
    close_area(start, filled, out);
    Ok(())
}

// Floats that stand.
#[tactic(auto, unfolding(crate::specs::Printed::standing_by))]
fn print_standing_floats(
    style: &Style,
    rule: &AreaRule,
    dealt: &Dealt<'_, '_>,
    widths: &[i128],
    out: &mut Vec<u8>,
) -> Result<(), AllocError>
    requires { AllByRecursion IsPrintable widths.now }
    ensures ok { OnOk result (out.new.items ≡ out.old.items
        ++ standing_by style.now rule.now (lent dealt.now.bodies.now) dealt.now.before.now dealt.now.counts.now
        widths.now) }
    ensures grows { Grows out.old.items out.new.items }
{
    if !shows_gaps(style) {
        return print_dealt(dealt.bodies, dealt.before, dealt.counts, out);
    }
    let alloc = *out.allocator();
    let bodies = dealt_bodies(alloc, dealt.bodies, dealt.before, dealt.counts)?;
    print_standing(rule, bodies.as_slice(), widths, out)
}

// An area whose floats stand.
fn print_standing_area(
    name: &[u8],
    style: &Style,
    rule: &AreaRule,
    dealt: &Dealt<'_, '_>,
    widths: &[i128],
    out: &mut Vec<u8>,
) -> Result<(), AllocError>
    requires { AllByRecursion IsPrintable widths.now }
    ensures ok { OnOk result (out.new.items ≡ out.old.items
        ++ area name.now (standing_by style.now rule.now (lent dealt.now.bodies.now) dealt.now.before.now
        dealt.now.counts.now widths.now)) }
    ensures grows { Grows out.old.items out.new.items }
{
    let start = open_area(name, out)?;
    let filled = out.len();
    print_standing_floats(style, rule, dealt, widths, out)?;
    close_area(start, filled, out);
    Ok(())
}

// The notes, their skips set to these widths.
#[tactic(auto, unfolding(crate::specs::Printed::notes_set))]
fn print_set_notes(
    style: &Style,
    items: &[&Item],
    widths: &[i128],
    out: &mut Vec<u8>,
) -> Result<(), AllocError>
    requires { AllByRecursion IsPrintable widths.now }
    ensures ok { OnOk result (out.new.items ≡ out.old.items ++ notes_set style.now (behind items.now) widths.now) }
    ensures grows { Grows out.old.items out.new.items }
{
    let classes = style.classes.as_slice();
    if shows_gaps(style) {
        print_skipped_notes(classes, items, widths, out)
    } else {
        print_notes(classes, items, out)
    }
}

// The area of notes.
#[tactic(auto, unfolding(crate::specs::Printed::notes_area))]
fn print_note_area(
    style: &Style,
    items: &[&Item],
    widths: &[i128],
    out: &mut Vec<u8>,
) -> Result<(), AllocError>
    requires { AllByRecursion IsPrintable widths.now }
    ensures ok { OnOk result (out.new.items ≡ out.old.items ++ notes_area style.now (behind items.now) widths.now) }
    ensures grows { Grows out.old.items out.new.items }
{
    let start = open_area(b"notes", out)?;
    let filled = out.len();
    print_set_notes(style, items, widths, out)?;
    close_area(start, filled, out);
    Ok(())
}

// The text area with these set widths.
#[tactic(auto, unfolding(crate::specs::Printed::text_by))]
fn print_text_area(
    style: &Style,
    items: &[&Item],
    widths: &[i128],
    out: &mut Vec<u8>,
) -> Result<(), AllocError>
    requires { AllByRecursion IsPrintable widths.now }
    ensures ok { OnOk result (out.new.items ≡ out.old.items ++ text_by style.now (behind items.now) widths.now) }
    ensures grows { Grows out.old.items out.new.items }
{
    print_bytes(b"area text\n", out)?;
    print_items_set(style.topskip, items, widths, out)
}

// How many blocks begin from a place on, before another; each has an item.
fn blocks_between(start: Place, to: Place) -> usize {
    if start.block < to.block {
        (to.block - start.block) as usize
    } else {
        0
    }
}

// The items of a column's text, those before its first box or rule included.
fn text_between<'a>(
    alloc: Global,
    galley: &'a Galley,
    column: &Column,
) -> Result<Vec<&'a Item>, AllocError>
    requires { are_named galley.now.blocks column.now.from column.now.picks ≡ true }
    ensures { IfOk result (λ items. behind items.items
        ≡ items_to (is_same_place column.now.to (end_of galley.now.blocks)) column.now.to
        (flat_items_at galley.now.blocks column.now.from column.now.picks)) }
{
    let mut items = Vec::with_capacity(alloc, blocks_between(column.from, column.to))?;
    push_between(
        galley,
        column.from,
        column.picks.as_slice(),
        column.to,
        &mut items,
    )?;
    Ok(items)
}

// The bodies of the floats, and how many are placed before the top area and before the bottom area of a column.
#[derive(Clone, Copy)]
struct Placed<'a, 'b> {
    bodies: &'a [Vec<&'b [u8]>],
    before: &'a [u16],
    below: &'a [u16],
}

// The top area of a column, its gaps set to these widths.
#[tactic(auto, unfolding(crate::specs::Printed::top_by))]
fn print_top_area(
    style: &Style,
    placed: &Placed<'_, '_>,
    column: &Column,
    widths: &[i128],
    out: &mut Vec<u8>,
) -> Result<(), AllocError>
    requires { AllByRecursion IsPrintable widths.now }
    ensures ok { OnOk result (out.new.items ≡ out.old.items
        ++ top_by style.now (lent placed.now.bodies.now) placed.now.before.now column.now widths.now) }
    ensures grows { Grows out.old.items out.new.items }
{
    let dealt = Dealt {
        bodies: placed.bodies,
        before: placed.before,
        counts: column.top.as_slice(),
    };
    print_hanging(b"top", style, &style.top, &dealt, widths, out)
}

// The bottom area of a column, its gaps set to these widths.
#[tactic(auto, unfolding(crate::specs::Printed::bottom_by))]
fn print_bottom_area(
    style: &Style,
    placed: &Placed<'_, '_>,
    column: &Column,
    widths: &[i128],
    out: &mut Vec<u8>,
) -> Result<(), AllocError>
    requires { AllByRecursion IsPrintable widths.now }
    ensures ok { OnOk result (out.new.items ≡ out.old.items
        ++ bottom_by style.now (lent placed.now.bodies.now) placed.now.below.now column.now widths.now) }
    ensures grows { Grows out.old.items out.new.items }
{
    let dealt = Dealt {
        bodies: placed.bodies,
        before: placed.below,
        counts: column.bottom.as_slice(),
    };
    print_standing_area(b"bottom", style, &style.bottom, &dealt, widths, out)
}

// The gaps of the top area of a column.
fn top_gaps(
    alloc: Global,
    style: &Style,
    placed: &Placed<'_, '_>,
    column: &Column,
) -> Result<Vec<Gap>, AllocError>
    ensures { IfOk result (λ gaps. gaps.items
        ≡ hung_by style.now style.now.top (lent placed.now.bodies.now) placed.now.before.now column.now.top) }
{
    let dealt = dealt_bodies(alloc, placed.bodies, placed.before, column.top.as_slice())?;
    hung_gaps(alloc, style, &style.top, dealt.len())
}

// The gaps of its bottom area.
fn bottom_gaps(
    alloc: Global,
    style: &Style,
    placed: &Placed<'_, '_>,
    column: &Column,
) -> Result<Vec<Gap>, AllocError>
    ensures { IfOk result (λ gaps. gaps.items
        ≡ stood_by style.now style.now.bottom (lent placed.now.bodies.now) placed.now.below.now column.now.bottom) }
{
    let dealt = dealt_bodies(alloc, placed.bodies, placed.below, column.bottom.as_slice())?;
    standing_gaps(alloc, style, &style.bottom, dealt.len())
}

// How many glues are among items.
fn count_glue(items: &[&Item]) -> usize
    ensures { result ≡ length (flat_map own_width (behind items.now)) }
{
    let mut count = 0;
    let mut rest = items;
    'items: while let [item, after @ ..] = rest {
        if let Item::Glue { .. } = item {
            count += 1;
        }
        rest = after;
    }
    count
}

// The widths from one on.
fn widths_from(widths: &[i128], first: usize) -> &[i128]
    requires { AllByRecursion IsPrintable widths.now }
    ensures value { result.now ≡ drop first widths.now }
    ensures printable { AllByRecursion IsPrintable result.now }
{
    match widths.get(first..) {
        Some(rest) => rest,
        None => &[],
    }
}

// The text of a column: its items, its numbers, and whether its end is spent.
#[derive(Clone, Copy)]
struct Text<'a, 'b> {
    items: &'a [&'b Item],
    numbers: &'a TextCost,
    is_spent: bool,
}

// The set widths of a column, and how many are those of the gaps above its text, of the text, and of the skips of its
// notes.
#[derive(Clone, Copy)]
struct SetWidths<'a> {
    widths: &'a [i128],
    above: usize,
    inside: usize,
    noted: usize,
}

// A column with this text, its glue and gaps set to these widths.
#[tactic(auto, unfolding(crate::specs::Printed::set_column))]
fn print_set_column(
    style: &Style,
    placed: &Placed<'_, '_>,
    column: &Column,
    text: &Text<'_, '_>,
    set: &SetWidths<'_>,
    out: &mut Vec<u8>,
) -> Result<(), AllocError>
    requires { AllByRecursion IsPrintable set.now.widths.now }
    ensures ok { OnOk result (out.new.items ≡ out.old.items
        ++ set_column style.now (lent placed.now.bodies.now) placed.now.before.now placed.now.below.now column.now
        (behind text.now.items.now) text.now.numbers.now set.now.widths.now set.now.above set.now.inside
        set.now.noted) }
    ensures grows { Grows out.old.items out.new.items }
{
    let inner = widths_from(set.widths, set.above);
    let noted = widths_from(inner, set.inside);
    let below = widths_from(noted, set.noted);
    print_numbers(text.numbers, out)?;
    print_top_area(style, placed, column, set.widths, out)?;
    print_text_area(style, text.items, inner, out)?;
    print_bottom_area(style, placed, column, below, out)?;
    print_note_area(style, text.items, noted, out)
}

// A column with this text.
#[tactic(auto, unfolding(crate::specs::Printed::read_text))]
fn print_read(
    style: &Style,
    placed: &Placed<'_, '_>,
    column: &Column,
    text: &Text<'_, '_>,
    out: &mut Vec<u8>,
) -> Result<(), AllocError>
    requires few { length text.now.items.now ≤ item_limit }
    requires top { length (dealt_from 0 (lent placed.now.bodies.now) placed.now.before.now column.now.top) ≤ 4 }
    requires bottom { length (dealt_from 0 (lent placed.now.bodies.now) placed.now.below.now column.now.bottom) ≤ 4 }
    requires ranges { AllByRecursion IsItemInRange (behind text.now.items.now) }
    requires excess { nat_abs (text.now.numbers.now.goal -ℤ text.now.numbers.now.total) < 2 ^ 52 }
    ensures ok { OnOk result (out.new.items ≡ out.old.items
        ++ read_text style.now (lent placed.now.bodies.now) placed.now.before.now placed.now.below.now column.now
        (behind text.now.items.now) text.now.numbers.now text.now.is_spent) }
    ensures grows { Grows out.old.items out.new.items }
{
    style.stays_in_range();
    let alloc = *out.allocator();
    let items = text.items;
    let numbers = text.numbers;
    let above = top_gaps(alloc, style, placed, column)?;
    let mut below = note_gaps(alloc, style, items)?;
    let noted = below.len();
    below.extend_from_slice(bottom_gaps(alloc, style, placed, column)?.as_slice())?;
    let glues = Glues {
        above: above.as_slice(),
        items,
        below: below.as_slice(),
    };
    let widths = widths_of(
        alloc,
        style,
        &glues,
        numbers.goal,
        numbers.total,
        text.is_spent,
    )?;
    let set = SetWidths {
        widths: widths.as_slice(),
        above: above.len(),
        inside: count_glue(items),
        noted,
    };
    print_set_column(style, placed, column, text, &set, out)
}

// A column of text.
fn print_text_column(
    matter: &Matter<'_, '_>,
    seat: &Seat,
    column: &Column,
    out: &mut Vec<u8>,
) -> Result<(), AllocError>
    requires floats { AreFloats matter.now.galley.now.blocks matter.now.style.now matter.now.floats.now }
    requires bodies { lent matter.now.bodies.now ≡ float_bodies (document matter.now.galley.now matter.now.style.now) }
    requires may { MayPrint (seated (document matter.now.galley.now matter.now.style.now) seat.now column.now) }
    requires text { is_text (seated (document matter.now.galley.now matter.now.style.now) seat.now column.now) ≡ true }
    ensures ok { OnOk result (out.new.items ≡ out.old.items
        ++ option_map_or (text_column (seated (document matter.now.galley.now matter.now.style.now) seat.now
        column.now))
        (size_of (seated (document matter.now.galley.now matter.now.style.now) seat.now column.now)) []) }
    ensures grows { Grows out.old.items out.new.items }
{
    let galley = matter.galley;
    let style = matter.style;
    style.stays_in_range();
    let _blocks = blocks_of(galley);
    let alloc = *out.allocator();
    let below = added(
        alloc,
        matter.bodies.len(),
        seat.before.as_slice(),
        column.top.as_slice(),
    )?;
    let room = room_of(galley, style, matter.floats, seat, &below, column);
    let gathered = text_between(alloc, galley, column)?;
    let text = gathered.as_slice();
    let numbers = numbers_of(galley, style, seat, column, &room, text);
    let items = trimmed(alloc, text)?;
    let placed = Placed {
        bodies: matter.bodies,
        before: seat.before.as_slice(),
        below: below.as_slice(),
    };
    let read = Text {
        items: items.as_slice(),
        numbers: &numbers,
        is_spent: is_spent(galley, column.to),
    };
    print_read(style, &placed, column, &read, out)
}

// A line of a name and a number.
fn print_number_line(name: &[u8], number: u128, out: &mut Vec<u8>) -> Result<(), AllocError>
    ensures ok { OnOk result (out.new.items ≡ out.old.items ++ line (name.now ++ decimal number)) }
    ensures grows { Grows out.old.items out.new.items }
{
    print_numbered(name, number, out)?;
    end_line(out)
}

// What a column without text costs.
fn float_demerits(style: &Style) -> u128
    ensures { result ≡ style.now.float_column.demerits }
{
    u128::from(style.float_column.demerits)
}

// A column without text; its gaps are as they are.
#[tactic(auto, unfolding(crate::specs::Printed::bare_text))]
fn print_float_column(
    style: &Style,
    placed: &Placed<'_, '_>,
    column: &Column,
    out: &mut Vec<u8>,
) -> Result<(), AllocError>
    ensures ok { OnOk result (out.new.items ≡ out.old.items
        ++ bare_text style.now (lent placed.now.bodies.now) placed.now.before.now placed.now.below.now column.now) }
    ensures grows { Grows out.old.items out.new.items }
{
    style.stays_in_range();
    let alloc = *out.allocator();
    let above = top_gaps(alloc, style, placed, column)?;
    let below = bottom_gaps(alloc, style, placed, column)?;
    let top = own_sizes(alloc, above.as_slice())?;
    let bottom = own_sizes(alloc, below.as_slice())?;
    print_number_line(b"without text demerits ", float_demerits(style), out)?;
    print_top_area(style, placed, column, top.as_slice(), out)?;
    print_bottom_area(style, placed, column, bottom.as_slice(), out)
}

// The numbers and the areas of a column.
fn print_column_body(
    matter: &Matter<'_, '_>,
    seat: &Seat,
    column: &Column,
    out: &mut Vec<u8>,
) -> Result<(), AllocError>
    requires floats { AreFloats matter.now.galley.now.blocks matter.now.style.now matter.now.floats.now }
    requires bodies { lent matter.now.bodies.now ≡ float_bodies (document matter.now.galley.now matter.now.style.now) }
    requires may { MayPrint (seated (document matter.now.galley.now matter.now.style.now) seat.now column.now) }
    ensures ok { OnOk result (out.new.items ≡ out.old.items
        ++ column_body (seated (document matter.now.galley.now matter.now.style.now) seat.now column.now)) }
    ensures grows { Grows out.old.items out.new.items }
{
    if is_same_place(column.from, column.to) {
        let alloc = *out.allocator();
        let below = added(
            alloc,
            matter.bodies.len(),
            seat.before.as_slice(),
            column.top.as_slice(),
        )?;
        let placed = Placed {
            bodies: matter.bodies,
            before: seat.before.as_slice(),
            below: below.as_slice(),
        };
        print_float_column(matter.style, &placed, column, out)
    } else {
        print_text_column(matter, seat, column, out)
    }
}

// A column, of this number in its page.
pub fn print_column(
    matter: &Matter<'_, '_>,
    seat: &Seat,
    number: u128,
    column: &Column,
    out: &mut Vec<u8>,
) -> Result<(), AllocError>
    requires floats { AreFloats matter.now.galley.now.blocks matter.now.style.now matter.now.floats.now }
    requires bodies { lent matter.now.bodies.now ≡ float_bodies (document matter.now.galley.now matter.now.style.now) }
    requires may { MayPrint (seated (document matter.now.galley.now matter.now.style.now) seat.now column.now) }
    ensures ok { OnOk result (out.new.items ≡ out.old.items ++ (column_line number column.now
        ++ column_body (seated (document matter.now.galley.now matter.now.style.now) seat.now column.now))) }
    ensures grows { Grows out.old.items out.new.items }
{
    print_column_line(number, column, out)?;
    print_column_body(matter, seat, column, out)
}
