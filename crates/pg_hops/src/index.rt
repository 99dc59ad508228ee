//! The hops and leaps of a whole galley.
ghost use Rattle.std.specs.Prelude.{◌≡◌, ℤ, ℕ, if◌then◌else◌, List, Some, None, IfOk, IfSome, slice_get, take};
ghost use Rattle.std.specs.Option.{option_copied};
ghost use Rattle.pg_list.specs.declared.blocks.Block.{Block as ABlock};
ghost use Rattle.pg_hops.specs.Ahead.{before};
ghost use Rattle.pg_hops.specs.Hop.{IsHop};
ghost use Rattle.pg_hops.specs.Leap.{IsLeap};
ghost use Rattle.pg_hops.specs.Index.{AreHops, AreHopsInside, AreRowHops, AreVariantHops, hop_at, hop_in as hop_in_of, hop_in_rare as hop_in_rare_of, leap_at, leap_in as leap_in_of, leap_in_rare as leap_in_rare_of, leap_here as leap_here_of, within};

use crate::Cursor;
use crate::finding::{FARTHEST, hop_from, is_insert, leap_from};
use crate::hop::Hop;
use crate::leap::Leap;
use pg_list::{Block, Galley, Item, Variant};
use pg_style::Style;
use std::alloc::{AllocError, Global};
use std::marker::Model;

/// The leap from an item of a variant.
#[derive(Clone, Copy)]
pub(crate) struct LeapAt {
    index: u32,
    leap: Leap,
}

/// The hops from each item of a variant, and the leap from its first break behind all inserts.
#[derive(Drop)]
pub(crate) struct VariantHops {
    hops: Vec<Option<Hop>>,
    leap: Option<LeapAt>,
}

/// The hop and the leap from a single item.
#[derive(Drop)]
pub(crate) struct FarRow {
    hop: Hop,
    leap: Leap,
}

/// What few blocks keep: the hop and the leap from a single item, or the hops from each item of each variant.
#[derive(Drop)]
pub(crate) enum RareRow {
    Far(Box<FarRow>),
    Variants(Vec<VariantHops>),
}

/// What is kept of the places of a block. Most have the hop of a single item or none, which one test tells.
#[derive(Drop)]
pub(crate) enum Row {
    Single(Option<Hop>),
    Rare(RareRow),
}

/// The hops and leaps of a galley, block by block. What is not kept is found item by item.
#[derive(Drop)]
pub struct BreakIndex {
    rows: Vec<Row>,
}

impl Model for BreakIndex {
    ghost use Rattle.std.specs.Prelude.{List};
    ghost use Rattle.pg_hops.specs.declared.index.Row.{Row};

    ghost Value = { List Row };

    ghost view = { λ a. a.rows.items };
}

// How far behind a block the last item may be that tells where its leaps lead: two more than the items of the longest
// leap, each of which may be a block.
const REACH: usize = 258;

// How many items a leap from a single item passes before it ends at the next break. With few a walk comes to the next
// leap soon, and the greatest room lets most leaps pass.
const NEAR: u32 = 10;

// No galley has more items.
const MOST: u32 = 1 << 20;

// The hops from the items of a variant, of which there are so many.
fn hops_inside(
    alloc: Global,
    galley: &Galley,
    style: &Style,
    block: u32,
    variant: u32,
    count: usize,
) -> Result<Vec<Option<Hop>>, AllocError>
    ensures { IfOk result (λ hops. AreHopsInside galley.now.blocks style.now.maxdepth block variant hops.items) }
{
    let mut hops = Vec::new(alloc);
    hops.reserve(count)?;
    let mut index = 0;
    'items: while (index as usize) < count && index < MOST {
        let from = Cursor {
            block,
            variant,
            index,
            is_inner: true,
        };
        hops.push(hop_from(galley, style, from))?;
        index += 1;
    }
    Ok(hops)
}

// How many items stand up to the last insert.
fn behind_inserts(items: &[Item]) -> usize {
    let mut rest = items;
    'items: while let [before @ .., last] = rest {
        if is_insert(last) {
            break;
        }
        rest = before;
    }
    rest.len()
}

// The first index from one on at which a hop is kept.
fn first_hop(hops: &[Option<Hop>], from: usize) -> Option<u32> {
    let mut index = from;
    'hops: while index < MOST as usize {
        if hops.get(index)?.is_some() {
            return Some(index as u32);
        }
        index += 1;
    }
    None
}

// The leap from an item of a variant.
fn leap_inside(
    galley: &Galley,
    style: &Style,
    block: u32,
    variant: u32,
    index: u32,
) -> Option<LeapAt>
    ensures { IfSome result (λ it.
        IsLeap galley.now.blocks style.now.maxdepth (within block variant it.index) it.leap) }
{
    let from = Cursor {
        block,
        variant,
        index,
        is_inner: true,
    };
    Some(LeapAt {
        index,
        leap: leap_from(galley, style, from, FARTHEST)?,
    })
}

// The hops from the items of a variant, and the leap from its first break behind all inserts.
fn variant_hops(
    alloc: Global,
    galley: &Galley,
    style: &Style,
    block: u32,
    variant: u32,
    items: &[Item],
) -> Result<VariantHops, AllocError>
    ensures { IfOk result (λ it. AreVariantHops galley.now.blocks style.now.maxdepth block variant (Some it)) }
{
    let hops = hops_inside(alloc, galley, style, block, variant, items.len())?;
    let leap = match first_hop(hops.as_slice(), behind_inserts(items)) {
        Some(index) => leap_inside(galley, style, block, variant, index),
        None => None,
    };
    Ok(VariantHops { hops, leap })
}

// The hops from the items of each variant of a choice.
fn choice_hops(
    alloc: Global,
    galley: &Galley,
    style: &Style,
    block: u32,
    variants: &[Variant],
) -> Result<Vec<VariantHops>, AllocError>
    ensures { IfOk result (λ all. (variant : ℕ) →
        AreVariantHops galley.now.blocks style.now.maxdepth block variant (slice_get all.items variant)) }
{
    let mut all = Vec::new(alloc);
    let mut variant = 0;
    'variants: while variant < MOST {
        let Some(it) = variants.get(variant as usize) else {
            break;
        };
        all.push(variant_hops(alloc, galley, style, block, variant, it.items.as_slice())?)?;
        variant += 1;
    }
    Ok(all)
}

// Before a single item.
fn single_at(block: u32) -> Cursor
    ensures { result ≡ before block }
{
    Cursor {
        block,
        variant: 0,
        index: 0,
        is_inner: false,
    }
}

// The hops from the places of a block.
fn row_of(alloc: Global, galley: &Galley, style: &Style, block: u32) -> Result<Row, AllocError>
    ensures { IfOk result (AreRowHops galley.now.blocks style.now.maxdepth block) }
{
    match galley.blocks().as_slice().get(block as usize) {
        Some(Block::Choice(choice)) => {
            let variants = choice_hops(alloc, galley, style, block, choice.variants())?;
            Ok(Row::Rare(RareRow::Variants(variants)))
        }
        _ => Ok(Row::Single(hop_from(galley, style, single_at(block)))),
    }
}

// The row of a single item with its hop, and with the leap from it where there is one and memory for it.
fn far_row(alloc: Global, galley: &Galley, style: &Style, block: u32, hop: Hop) -> Row
    requires { IsHop galley.now.blocks style.now.maxdepth (before block) hop }
    ensures { AreRowHops galley.now.blocks style.now.maxdepth block result }
{
    let Some(leap) = leap_from(galley, style, single_at(block), NEAR) else {
        return Row::Single(Some(hop));
    };
    match Box::new(alloc, FarRow { hop, leap }) {
        Ok(far) => Row::Rare(RareRow::Far(far)),
        Err(_) => Row::Single(Some(hop)),
    }
}

// The row of a block, with the leap from it too, if it is a single item's and one is due there.
fn with_leap(alloc: Global, galley: &Galley, style: &Style, block: u32, due: u32, row: Row) -> Row
    requires { AreRowHops galley.now.blocks style.now.maxdepth block row }
    ensures { AreRowHops galley.now.blocks style.now.maxdepth block result }
{
    if block < due {
        return row;
    }
    match row {
        Row::Single(Some(hop)) => far_row(alloc, galley, style, block, hop),
        _ => row,
    }
}

// The block from which on the next leap is due: where the last one leads.
fn due_behind(row: &Row, due: u32) -> u32 {
    match row {
        Row::Rare(RareRow::Far(far)) => far.leap.way().to().block,
        _ => due,
    }
}

// The block from which on a first leap from a single item is due. Under a style without classes no walk is repeated
// without notes, and these leaps would not pay.
fn first_due(style: &Style) -> u32 {
    if style.classes.as_slice().is_empty() {
        MOST
    } else {
        0
    }
}

// The rows of the blocks that have none yet, as far as there is memory.
fn extend(
    alloc: Global,
    galley: &Galley,
    style: &Style,
    rows: &mut Vec<Row>,
) -> Result<(), AllocError>
    ensures { AreHops galley.now.blocks style.now.maxdepth rows.old.items →
        AreHops galley.now.blocks style.now.maxdepth rows.new.items }
{
    let count = galley.blocks().len();
    let wanted = count.min(MOST as usize).saturating_sub(rows.len());
    let _taken = rows.reserve(wanted);
    let mut due = first_due(style);
    'more: while rows.len() < count && rows.len() < MOST as usize {
        let row = row_of(alloc, galley, style, rows.len() as u32)?;
        let kept = with_leap(alloc, galley, style, rows.len() as u32, due, row);
        due = due_behind(&kept, due);
        rows.push(kept)?;
    }
    Ok(())
}

// Drops the rows that blocks from this one on may have told.
fn cut(rows: &mut Vec<Row>, from: u32)
    ensures { (blocks others : List ABlock) (maxdepth : ℤ) → take from blocks ≡ take from others →
        AreHops blocks maxdepth rows.old.items → AreHops others maxdepth rows.new.items }
{
    rows.truncate((from as usize).saturating_sub(REACH));
}

// The hop from a cursor at a single item with a leap. Few steps come here: a call keeps the way of all others short.
#[cold]
#[inline(never)]
fn far_hop(far: &FarRow, is_inner: bool) -> Option<&Hop>
    ensures { option_copied result ≡ (if is_inner then None else Some far.now.hop) }
{
    if is_inner { None } else { Some(&far.hop) }
}

// The hop from a cursor at the block of a row of which there are few.
fn hop_in_rare(row: &RareRow, at: Cursor) -> Option<&Hop>
    ensures { option_copied result ≡ hop_in_rare_of row.now at.is_inner at.variant at.index }
{
    match row {
        RareRow::Far(far) => far_hop(far, at.is_inner),
        RareRow::Variants(variants) => {
            if at.is_inner {
                variants
                    .get(at.variant as usize)?
                    .hops
                    .get(at.index as usize)?
                    .as_ref()
            } else {
                None
            }
        }
    }
}

// The hop from a cursor at the block of a row.
fn hop_in(row: &Row, at: Cursor) -> Option<&Hop>
    ensures { option_copied result ≡ hop_in_of (Some row.now) at.is_inner at.variant at.index }
{
    match row {
        Row::Single(hop) => { if at.is_inner { None } else { hop.as_ref() } }
        Row::Rare(rare) => hop_in_rare(rare, at),
    }
}

// The leap of a variant, if it is the one from this index.
fn leap_here(leap: &Option<LeapAt>, index: u32) -> Option<&Leap>
    ensures { option_copied result ≡ leap_here_of leap.now index }
{
    match leap {
        Some(it) => {
            if it.index == index {
                Some(&it.leap)
            } else {
                None
            }
        }
        None => None,
    }
}

// The leap from a cursor at the block of a row of which there are few.
fn leap_in_rare(row: &RareRow, at: Cursor) -> Option<&Leap>
    ensures { option_copied result ≡ leap_in_rare_of row.now at.is_inner at.variant at.index }
{
    match row {
        RareRow::Far(far) => { if at.is_inner { None } else { Some(&far.leap) } }
        RareRow::Variants(variants) => {
            if at.is_inner {
                leap_here(&variants.get(at.variant as usize)?.leap, at.index)
            } else {
                None
            }
        }
    }
}

// The leap from a cursor at the block of a row.
fn leap_in(row: &Row, at: Cursor) -> Option<&Leap>
    ensures { option_copied result ≡ leap_in_of (Some row.now) at.is_inner at.variant at.index }
{
    match row {
        Row::Single(_) => None,
        Row::Rare(rare) => leap_in_rare(rare, at),
    }
}

impl BreakIndex {
    /// No hops. No memory is taken.
    pub fn empty(alloc: Global) -> BreakIndex
        ensures { (blocks : List ABlock) (maxdepth : ℤ) → AreHops blocks maxdepth result }
    {
        BreakIndex {
            rows: Vec::new(alloc),
        }
    }

    /// The hops of a galley under a style. Where memory is wanting, those of its first blocks.
    pub fn of(alloc: Global, galley: &Galley, style: &Style) -> BreakIndex
        ensures { AreHops galley.now.blocks style.now.maxdepth result }
    {
        let mut rows = Vec::new(alloc);
        let _ = extend(alloc, galley, style, &mut rows);
        BreakIndex { rows }
    }

    /// Makes the hops those of a galley that is the same below a block: those that the blocks from it on may tell are found
    /// anew. Where memory is wanting, the last ones are not kept.
    pub fn mend(&mut self, galley: &Galley, style: &Style, from: u32)
        ensures { (blocks : List ABlock) → take from blocks ≡ take from galley.now.blocks →
            AreHops blocks style.now.maxdepth self.old → AreHops galley.now.blocks style.now.maxdepth self.new }
    {
        cut(&mut self.rows, from);
        let alloc = *self.rows.allocator();
        let _ = extend(alloc, galley, style, &mut self.rows);
    }

    /// The hop from a cursor, where one is kept.
    pub fn hop(&self, at: Cursor) -> Option<&Hop>
        ensures { option_copied result ≡ hop_at self.now at }
    {
        hop_in(self.rows.get(at.block as usize)?, at)
    }

    /// The leap from a cursor, where one is kept.
    pub fn leap(&self, at: Cursor) -> Option<&Leap>
        ensures { option_copied result ≡ leap_at self.now at }
    {
        leap_in(self.rows.get(at.block as usize)?, at)
    }
}
