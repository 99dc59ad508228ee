//! The set widths of the glue of a text.
ghost use Rattle.std.specs.Prelude.{◌≡◌, ◌<◌, ◌≤◌, ◌+◌, ◌^◌, ◌++◌, OnOk, IfOk, length, map, nat_abs, not, unsigned_abs, ◌-ℤ◌, ◌==◌};
ghost use Rattle.std.specs.List.{flat_map};
ghost use Rattle.pg_glue.specs.Widths.{entry_limit, set_widths as set_widths_of};
ghost use Rattle.pg_list.specs.Totals.{stretch as stretch_of, stretch_of as own_stretch};
ghost use Rattle.pg_pages.specs.SetGlue.{elastic, gap_elastic as gap_elastic_of, glue_between, own_sizes as own_sizes_of, own_width, stays_short as stays_short_of, widths_by};
ghost use Rattle.pg_column.specs.Between.{behind};

use pg_glue::{Elastic, Sense, set_widths};
use pg_list::{Item, Order};
use pg_scaled::large_plus;
use pg_style::{Gap, Style};
use std::alloc::{AllocError, Global};

// Adds the glue of an item.
fn push_elastic(sense: Sense, item: &Item, list: &mut Vec<Elastic>) -> Result<(), AllocError>
    ensures { OnOk result (list.new.items ≡ list.old.items ++ elastic sense item.now) }
{
    if let Item::Glue {
        width,
        stretch,
        order,
        shrink,
        ..
    } = item
    {
        list.push(Elastic::of(sense, *width, *stretch, *order, *shrink))?;
    }
    Ok(())
}

// A gap as it grows or gives way.
fn gap_elastic(sense: Sense, gap: &Gap) -> Elastic
    ensures { result ≡ gap_elastic_of sense gap.now }
{
    Elastic::of(sense, gap.size, gap.stretch, Order::Finite, gap.shrink)
}

// Adds gaps.
fn push_gaps(sense: Sense, gaps: &[Gap], list: &mut Vec<Elastic>) -> Result<(), AllocError>
    ensures { OnOk result (list.new.items ≡ list.old.items ++ map (gap_elastic_of sense) gaps.now) }
{
    let mut rest = gaps;
    'gaps: while let [gap, after @ ..] = rest {
        list.push(gap_elastic(sense, gap))?;
        rest = after;
    }
    Ok(())
}

// Adds the glue of items.
fn push_items(sense: Sense, items: &[&Item], list: &mut Vec<Elastic>) -> Result<(), AllocError>
    ensures { OnOk result (list.new.items ≡ list.old.items ++ flat_map (elastic sense) (behind items.now)) }
{
    let mut rest = items;
    'items: while let [item, after @ ..] = rest {
        push_elastic(sense, item, list)?;
        rest = after;
    }
    Ok(())
}

/// The glue of a text, between the gaps above it and those below it.
#[derive(Clone, Copy)]
pub struct Glues<'a, 'b> {
    pub above: &'a [Gap],
    pub items: &'a [&'b Item],
    pub below: &'a [Gap],
}

// The widths of glue that grows or gives way by an excess.
fn widths_in(
    alloc: Global,
    sense: Sense,
    glues: &Glues<'_, '_>,
    excess: i64,
) -> Result<Vec<i128>, AllocError>
    requires few { length glues.now.above.now + length glues.now.items.now + length glues.now.below.now ≤ entry_limit }
    requires excess { nat_abs excess < 2 ^ 52 }
    ensures { IfOk result (λ widths. widths.items ≡ set_widths_of
        (glue_between sense glues.now.above.now (behind glues.now.items.now) glues.now.below.now) excess sense) }
{
    let mut list = Vec::with_capacity(alloc, glues.items.len())?;
    push_gaps(sense, glues.above, &mut list)?;
    push_items(sense, glues.items, &mut list)?;
    push_gaps(sense, glues.below, &mut list)?;
    let mut widths = Vec::with_capacity(alloc, list.len())?;
    set_widths(list.as_slice(), excess, sense, &mut widths)?;
    Ok(widths)
}

// Adds the sizes of gaps.
fn push_sizes(gaps: &[Gap], widths: &mut Vec<i128>) -> Result<(), AllocError>
    ensures { OnOk result (widths.new.items ≡ widths.old.items ++ own_sizes_of gaps.now) }
{
    let mut rest = gaps;
    'gaps: while let [gap, after @ ..] = rest {
        widths.push(i128::from(gap.size))?;
        rest = after;
    }
    Ok(())
}

/// The sizes of gaps.
pub fn own_sizes(alloc: Global, gaps: &[Gap]) -> Result<Vec<i128>, AllocError>
    ensures { IfOk result (λ widths. widths.items ≡ own_sizes_of gaps.now) }
{
    let mut widths = Vec::new(alloc);
    push_sizes(gaps, &mut widths)?;
    Ok(widths)
}

// Adds the own width of an item, where it is glue.
fn push_own(item: &Item, widths: &mut Vec<i128>) -> Result<(), AllocError>
    ensures { OnOk result (widths.new.items ≡ widths.old.items ++ own_width item.now) }
{
    if let Item::Glue { width, .. } = item {
        widths.push(i128::from(*width))?;
    }
    Ok(())
}

// Adds the own widths of the glue of items.
fn push_widths(items: &[&Item], widths: &mut Vec<i128>) -> Result<(), AllocError>
    ensures { OnOk result (widths.new.items ≡ widths.old.items ++ flat_map own_width (behind items.now)) }
{
    let mut rest = items;
    'items: while let [item, after @ ..] = rest {
        push_own(item, widths)?;
        rest = after;
    }
    Ok(())
}

// The own widths of all glue.
fn own_widths(alloc: Global, glues: &Glues<'_, '_>) -> Result<Vec<i128>, AllocError>
    ensures { IfOk result (λ widths. widths.items ≡ own_sizes_of glues.now.above.now
        ++ flat_map own_width (behind glues.now.items.now) ++ own_sizes_of glues.now.below.now) }
{
    let mut widths = Vec::with_capacity(alloc, glues.items.len())?;
    push_sizes(glues.above, &mut widths)?;
    push_widths(glues.items, &mut widths)?;
    push_sizes(glues.below, &mut widths)?;
    Ok(widths)
}

// The stretch of an item, where it is glue of this order.
fn stretch_in(order: Order, item: &Item) -> i128
    ensures value { result ≡ own_stretch order item.now }
    ensures size { nat_abs result ≤ 2 ^ 31 }
{
    if let Item::Glue {
        stretch,
        order: own,
        ..
    } = item
    {
        if order == *own {
            return i128::from(*stretch);
        }
    }
    0
}

// Whether some infinite stretch of an order does not sum to 0.
fn has_order(order: Order, items: &[&Item]) -> bool
    requires { length items.now ≤ entry_limit }
    ensures { result ≡ not (unsigned_abs (stretch_of order (behind items.now)) == 0) }
{
    let mut sum = 0i128;
    let mut rest = items;
    'items: while let [item, after @ ..] = rest {
        sum = large_plus(sum, stretch_in(order, item));
        rest = after;
    }
    sum != 0
}

// Whether a short text is not stretched: its end is spent, or the style is ragged and nothing infinite stretches it.
fn stays_short(style: &Style, items: &[&Item], is_spent: bool) -> bool
    requires { length items.now ≤ entry_limit }
    ensures { result ≡ stays_short_of style.now (behind items.now) is_spent }
{
    is_spent
        || (style.ragged.is_some()
            && !(has_order(Order::Fil, items)
                || has_order(Order::Fill, items)
                || has_order(Order::Filll, items)))
}

// The set widths of the gaps above a text, of its glue and of the gaps below it: stretched to its goal, shrunk to it, or as
// they are.
pub fn widths_of(
    alloc: Global,
    style: &Style,
    glues: &Glues<'_, '_>,
    goal: i64,
    total: i64,
    is_spent: bool,
) -> Result<Vec<i128>, AllocError>
    requires few { length glues.now.above.now + length glues.now.items.now + length glues.now.below.now ≤ entry_limit }
    requires excess { nat_abs (goal -ℤ total) < 2 ^ 52 }
    ensures { IfOk result (λ widths. widths.items ≡ widths_by style.now glues.now.above.now (behind glues.now.items.now)
        glues.now.below.now goal total is_spent) }
{
    if total < goal && !stays_short(style, glues.items, is_spent) {
        widths_in(alloc, Sense::Stretch, glues, goal - total)
    } else if goal < total {
        widths_in(alloc, Sense::Shrink, glues, total - goal)
    } else {
        own_widths(alloc, glues)
    }
}
