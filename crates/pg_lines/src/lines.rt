//! The items of a paragraph that is set in a way.
ghost use Rattle.std.specs.Prelude.{◌≡◌, ◌≤◌, ◌++◌, ◌∷◌, [], ◌==◌, if◌then◌else◌, nat_lt, take, drop, IfOk, OnOk};
ghost use Rattle.pg_list.specs.Ranges.{IsItemInRange};
ghost use Rattle.pg_hlist.specs.Items.{IsPara};
ghost use Rattle.law_lines.specs.Boxes.{line_box as line_box_of};
ghost use Rattle.law_lines.specs.ParagraphsLaws.{IsRule};
ghost use Rattle.law_lines.specs.Lines.{from_box as from_box_of, line_items};
ghost use Rattle.law_lines.specs.Variants.{between_item, way_items as way_items_of};
ghost use Rattle.pg_lines.specs.Set.{gap, set_line};

use crate::line_box;
use itoa::Buffer;
use law_lines::LineRule;
use pg_hlist::HItem;
use pg_list::{Bytes, Item, Items};
use std::alloc::{AllocError, Global};

// The items up to a place.
fn up_to(items: &[HItem], end: usize) -> &[HItem]
    ensures { result.now ≡ take end items.now }
{
    if end < items.len() {
        &items[..end]
    } else {
        items
    }
}

// The items from a place on.
fn from(items: &[HItem], start: usize) -> &[HItem]
    ensures { result.now ≡ drop start items.now }
{
    if start < items.len() {
        &items[start..]
    } else {
        &[]
    }
}

// The items from the first box on.
fn from_box(items: &[HItem]) -> &[HItem]
    ensures { result.now ≡ from_box_of items.now }
{
    let mut rest = items;
    'items: while let [item, after @ ..] = rest {
        if let HItem::BoxItem { .. } = item {
            return rest;
        }
        rest = after;
    }
    rest
}

// The items of the line from a place up to another.
fn line_between(items: &[HItem], start: usize, end: usize) -> &[HItem]
    requires { IsPara items.now }
    ensures line { result.now ≡ line_items items.now start end }
    ensures para { IsPara result.now }
{
    from_box(from(up_to(items, end), start))
}

// What a break costs between two lines: 150 behind the first, and 150 before the last.
fn gap_penalty(is_first: bool, is_last: bool) -> u16
    ensures value { result ≡ gap is_first is_last }
    ensures few { result ≤ 300 }
{
    let first = if is_first { 150 } else { 0 };
    let last = if is_last { 150 } else { 0 };
    first + last
}

// The penalty of this cost.
fn penalty_of(alloc: Global, penalty: u16) -> Result<Item, AllocError>
    ensures value { IfOk result (λ item. item ≡ between_item penalty) }
    ensures range { IfOk result IsItemInRange }
{
    let mut buffer = Buffer::new();
    let mut text = Vec::new(alloc);
    text.extend_from_slice(b"\\penalty ")?;
    text.extend_from_slice(buffer.format(penalty).as_bytes())?;
    Ok(Item::Penalty {
        value: i32::from(penalty),
        body: Bytes::new(text),
    })
}

// The box of a line, within the ranges of items.
fn box_of(alloc: Global, rule: &LineRule, line: &[HItem]) -> Result<Item, AllocError>
    requires rule { IsRule rule.now }
    requires para { IsPara line.now }
    ensures value { IfOk result (λ item. item ≡ line_box_of rule.now line.now) }
    ensures range { IfOk result IsItemInRange }
{
    line_box(alloc, rule, line)
}

// Adds the penalty behind a line, where so many lines follow it.
fn push_penalty(
    out: &mut Items,
    alloc: Global,
    is_first: bool,
    left: usize,
) -> Result<(), AllocError>
    ensures { OnOk result (out.new ≡ out.old
        ++ (if nat_lt 0 left then between_item (gap is_first (left == 1)) ∷ [] else [])) }
{
    if left > 0 {
        out.push(penalty_of(alloc, gap_penalty(is_first, left == 1))?)?;
    }
    Ok(())
}

// Adds the box of a line, and where so many lines follow it, the penalty behind it.
fn push_line(
    out: &mut Items,
    alloc: Global,
    rule: &LineRule,
    line: &[HItem],
    is_first: bool,
    left: usize,
) -> Result<(), AllocError>
    requires rule { IsRule rule.now }
    requires para { IsPara line.now }
    ensures { OnOk result (out.new ≡ out.old ++ set_line rule.now line.now is_first left) }
{
    out.push(box_of(alloc, rule, line)?)?;
    push_penalty(out, alloc, is_first, left)?;
    Ok(())
}

/// The items of a paragraph that is set in a way, whose lines end at these places, the last line's first: a box for
/// each line, and between two of them a penalty. The one refusal is want of memory.
pub fn way_items(
    alloc: Global,
    rule: &LineRule,
    items: &[HItem],
    ends: &[u32],
) -> Result<Items, AllocError>
    requires rule { IsRule rule.now }
    requires para { IsPara items.now }
    ensures { IfOk result (λ set. set ≡ way_items_of rule.now items.now ends.now) }
{
    let mut out = Items::new(alloc);
    let mut start = 0usize;
    let mut is_first = true;
    let mut rest = ends;
    'lines: while let [before @ .., end] = rest {
        let line = line_between(items, start, *end as usize);
        push_line(&mut out, alloc, rule, line, is_first, before.len())?;
        start = *end as usize;
        is_first = false;
        rest = before;
    }
    Ok(out)
}
