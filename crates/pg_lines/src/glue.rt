//! The set widths of the glue of a line.
ghost use Rattle.std.specs.Prelude.{◌≡◌, ◌<◌, ◌≤◌, ◌^◌, ◌++◌, OnOk, IfOk, length, nat_abs, ◌-ℤ◌};
ghost use Rattle.std.specs.List.{flat_map};
ghost use Rattle.pg_glue.specs.Widths.{set_widths as set_widths_of};
ghost use Rattle.law_lines.specs.Boxes.{elastic, own_width};
ghost use Rattle.pg_lines.specs.Printed.{widths_by};

use pg_glue::{Elastic, Sense, set_widths};
use pg_hlist::HItem;
use pg_scaled::minus;
use std::alloc::{AllocError, Global};

// Adds the glue of an item.
fn push_elastic(sense: Sense, item: &HItem, list: &mut Vec<Elastic>) -> Result<(), AllocError>
    ensures { OnOk result (list.new.items ≡ list.old.items ++ elastic sense item.now) }
{
    if let HItem::Glue {
        width,
        stretch,
        order,
        shrink,
        ..
    } = item
    {
        list.push(Elastic::of(sense, *width, *stretch, *order, *shrink))?;
    }
    Ok(())
}

// The glue of a line.
fn elastics(alloc: Global, sense: Sense, items: &[HItem]) -> Result<Vec<Elastic>, AllocError>
    ensures { IfOk result (λ list. list.items ≡ flat_map (elastic sense) items.now) }
{
    let mut list = Vec::new(alloc);
    let mut rest = items;
    'items: while let [item, after @ ..] = rest {
        push_elastic(sense, item, &mut list)?;
        rest = after;
    }
    Ok(list)
}

// The widths of glue that grows or gives way by an excess.
fn widths_in(
    alloc: Global,
    sense: Sense,
    items: &[HItem],
    excess: i64,
) -> Result<Vec<i128>, AllocError>
    requires few { length items.now ≤ 2 ^ 11 }
    requires excess { nat_abs excess < 2 ^ 52 }
    ensures { IfOk result (λ widths. widths.items
        ≡ set_widths_of (flat_map (elastic sense) items.now) excess sense) }
{
    let list = elastics(alloc, sense, items)?;
    let mut widths = Vec::new(alloc);
    set_widths(list.as_slice(), excess, sense, &mut widths)?;
    Ok(widths)
}

// Adds the own width of an item, where it is glue.
fn push_own(item: &HItem, widths: &mut Vec<i128>) -> Result<(), AllocError>
    ensures { OnOk result (widths.new.items ≡ widths.old.items ++ own_width item.now) }
{
    if let HItem::Glue { width, .. } = item {
        widths.push(i128::from(*width))?;
    }
    Ok(())
}

// The own widths of the glue of a line.
fn own_widths(alloc: Global, items: &[HItem]) -> Result<Vec<i128>, AllocError>
    ensures { IfOk result (λ widths. widths.items ≡ flat_map own_width items.now) }
{
    let mut widths = Vec::new(alloc);
    let mut rest = items;
    'items: while let [item, after @ ..] = rest {
        push_own(item, &mut widths)?;
        rest = after;
    }
    Ok(widths)
}

// The set widths of the glue of a line, whose widths have this total: stretched or shrunk to a width, or as the glue is.
pub fn widths_of(
    alloc: Global,
    items: &[HItem],
    width: i64,
    total: i64,
) -> Result<Vec<i128>, AllocError>
    requires few { length items.now ≤ 2 ^ 11 }
    requires width { nat_abs width < 2 ^ 42 }
    requires total { nat_abs total < 2 ^ 42 }
    ensures { IfOk result (λ widths. widths.items ≡ widths_by items.now width total) }
{
    if total < width {
        widths_in(alloc, Sense::Stretch, items, minus(width, total))
    } else if width < total {
        widths_in(alloc, Sense::Shrink, items, minus(total, width))
    } else {
        own_widths(alloc, items)
    }
}
