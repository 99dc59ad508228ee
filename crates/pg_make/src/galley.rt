//! The generated galleys.
ghost use Rattle.std.specs.Prelude.{◌≡◌, ◌≤◌, ◌<◌, ◌≤ℤ◌, ◌++◌, ◌∷◌, ◌+◌, ◌*◌, ◌*ℤ◌, ◌%◌, [], IfOk, OnOk, length, pos};
ghost use Rattle.pg_list.specs.Ranges.{IsItemInRange};
ghost use Rattle.pg_list.specs.Shapes.{HasItemsInRange};
ghost use Rattle.pg_list.specs.declared.item.Item.TheVariants.{Glue, Insert, Penalty};
ghost use Rattle.pg_list.specs.declared.item.Order.TheVariants.{Finite};
ghost use Rattle.pg_make.specs.Made.{points};
ghost use Rattle.pg_make.specs.Generated.{MakesGalley, made_blocks, made_box, made_float, made_gap, made_inserts};
ghost use Rattle.pg_make.specs.Generated.{made_items, made_line, made_note, made_paragraph};
ghost use Rattle.pg_make.specs.Generated.{made_break, made_variants, skip_before};

use crate::style::POINT;
use pg_list::{Block, Blocks, Bytes, Choice, Galley, Item, Items, Order, Variant};
use std::alloc::{AllocError, Global};

/// Why no galley is made.
#[derive(Clone, Copy, PartialEq, Eq)]
pub enum MakeFault {
    /// More than 2000 paragraphs.
    Limit { count: u32 },
    Memory,
}

fn type_line(alloc: Global) -> Result<Item, AllocError>
    ensures value { IfOk result (λ item. item ≡ made_box) }
    ensures range { IfOk result IsItemInRange }
{
    Ok(Item::BoxItem {
        height: 7 * POINT,
        depth: 2 * POINT,
        body: Bytes::from_slice(alloc, b"\\hbox(7.0+2.0)x345.0")?,
    })
}

fn note(alloc: Global) -> Result<Item, AllocError>
    ensures value { IfOk result (λ item. item ≡ made_note) }
    ensures range { IfOk result IsItemInRange }
{
    let body = b"\\insert200, natural size 9.0; split(0.0,0.0); float cost 0";
    Ok(Item::Insert {
        class: 200,
        size: 9 * POINT,
        body: Bytes::from_slice(alloc, body)?,
    })
}

// A float of so many points.
fn float_of(alloc: Global, size: i32, body: &[u8]) -> Result<Item, AllocError>
    requires from { pos 0 ≤ℤ size }
    requires to { size ≤ℤ pos 100 }
    ensures value { IfOk result (λ item. item ≡ Insert 100 (size *ℤ pos 65536) body.now) }
    ensures range { IfOk result IsItemInRange }
{
    Ok(Item::Insert {
        class: 100,
        size: size * POINT,
        body: Bytes::from_slice(alloc, body)?,
    })
}

// Floats of 40, 50 and 60 points in turn.
fn float(alloc: Global, turn: u32) -> Result<Item, AllocError>
    ensures value { IfOk result (λ item. item ≡ made_float turn) }
    ensures range { IfOk result IsItemInRange }
{
    match turn {
        0 => float_of(
            alloc,
            40,
            b"\\insert100, natural size 40.0; split(0.0,0.0); float cost 0",
        ),
        1 => float_of(
            alloc,
            50,
            b"\\insert100, natural size 50.0; split(0.0,0.0); float cost 0",
        ),
        _ => float_of(
            alloc,
            60,
            b"\\insert100, natural size 60.0; split(0.0,0.0); float cost 0",
        ),
    }
}

// Adds the inserts of a paragraph.
fn push_inserts(items: &mut Items, alloc: Global, paragraph: u32) -> Result<(), AllocError>
    ensures { OnOk result (items.new ≡ items.old ++ made_inserts paragraph) }
{
    if paragraph % 5 == 4 {
        items.push(note(alloc)?)?;
    }
    if paragraph % 7 == 3 {
        items.push(float(alloc, paragraph % 3)?)?;
    }
    Ok(())
}

fn penalty_of(alloc: Global, value: i32, body: &[u8]) -> Result<Item, AllocError>
    ensures value { IfOk result (λ item. item ≡ Penalty value body.now) }
    ensures range { IfOk result IsItemInRange }
{
    Ok(Item::Penalty {
        value,
        body: Bytes::from_slice(alloc, body)?,
    })
}

// The penalty behind the first line of a paragraph, or one before the last, or both.
fn penalty(alloc: Global, is_first: bool, is_last: bool) -> Result<Item, AllocError>
    ensures value { IfOk result (λ item. item ≡ made_break is_first is_last) }
    ensures range { IfOk result IsItemInRange }
{
    match (is_first, is_last) {
        (true, true) => penalty_of(alloc, 300, b"\\penalty 300"),
        (true, false) => penalty_of(alloc, 150, b"\\penalty 150"),
        (false, true) => penalty_of(alloc, 150, b"\\penalty 150"),
        (false, false) => penalty_of(alloc, 0, b"\\penalty 0"),
    }
}

// Glue of 3 points with this stretch in points.
fn glue(alloc: Global, stretch: i32, body: &[u8]) -> Result<Item, AllocError>
    requires from { pos 0 ≤ℤ stretch }
    requires to { stretch ≤ℤ pos 1 }
    ensures value { IfOk result (λ item. item ≡ Glue (points 3) (stretch *ℤ pos 65536) Finite (pos 0) body.now) }
    ensures range { IfOk result IsItemInRange }
{
    Ok(Item::Glue {
        width: 3 * POINT,
        stretch: stretch * POINT,
        order: Order::Finite,
        shrink: 0,
        body: Bytes::from_slice(alloc, body)?,
    })
}

// Adds what stands between a line, of so many, and the next.
fn push_gap(items: &mut Items, alloc: Global, count: u32, line: u32) -> Result<(), AllocError>
    requires { line < 100 }
    ensures { OnOk result (items.new ≡ items.old ++ made_gap count line) }
{
    items.push(penalty(alloc, line == 1, line + 1 == count)?)?;
    items.push(glue(alloc, 0, b"\\glue(\\baselineskip) 3.0")?)?;
    Ok(())
}

// Adds a line of a paragraph, of so many, with what stands behind it.
fn push_line(
    items: &mut Items,
    alloc: Global,
    paragraph: u32,
    count: u32,
    line: u32,
) -> Result<(), AllocError>
    requires { line < 100 }
    ensures { OnOk result (items.new ≡ items.old ++ made_line paragraph count line) }
{
    items.push(type_line(alloc)?)?;
    if line == 1 {
        push_inserts(items, alloc, paragraph)?;
    }
    if line < count {
        push_gap(items, alloc, count, line)?;
    }
    Ok(())
}

// A paragraph in so many lines.
fn items_of(alloc: Global, paragraph: u32, count: u32) -> Result<Items, AllocError>
    requires { count < 100 }
    ensures { IfOk result (λ items. items ≡ made_items paragraph count) }
{
    let mut items = Items::new(alloc);
    'lines: for line in 0..count {
        push_line(&mut items, alloc, paragraph, count, line + 1)?;
    }
    Ok(items)
}

// A paragraph set in so many lines.
fn variant_of(
    alloc: Global,
    paragraph: u32,
    count: u32,
    looseness: i32,
    demerits: u32,
) -> Result<Variant, AllocError>
    requires { count < 100 }
    ensures value { IfOk result (λ variant. variant
        ≡ record { looseness = looseness; demerits = demerits; items = made_items paragraph count }) }
    ensures range { IfOk result HasItemsInRange }
{
    let variant = Variant {
        looseness,
        demerits,
        items: items_of(alloc, paragraph, count)?,
    };
    variant.keeps_ranges();
    Ok(variant)
}

// A paragraph in its three lengths.
fn choice_of(alloc: Global, paragraph: u32) -> Result<Choice, AllocError>
    requires { paragraph < 2000 }
    ensures { IfOk result (λ choice. choice ≡ made_variants paragraph) }
{
    let count = 4 + 5 * paragraph % 9;
    let mut variants = Vec::new(alloc);
    variants.push(variant_of(alloc, paragraph, count, 0, 0)?)?;
    variants.push(variant_of(alloc, paragraph, count - 1, -1, 400)?)?;
    variants.push(variant_of(alloc, paragraph, count + 1, 1, 400)?)?;
    Ok(Choice::of(variants))
}

// Adds the glue in front of a paragraph.
fn push_skip(blocks: &mut Blocks, alloc: Global, paragraph: u32) -> Result<(), AllocError>
    ensures { OnOk result (blocks.new ≡ blocks.old ++ skip_before paragraph) }
{
    if paragraph > 0 {
        let skip = glue(alloc, 1, b"\\glue(\\parskip) 3.0 plus 1.0")?;
        blocks.push(Block::One(skip))?;
    }
    Ok(())
}

// Adds a paragraph, with glue in front of all but the first.
fn push_paragraph(blocks: &mut Blocks, alloc: Global, paragraph: u32) -> Result<(), AllocError>
    requires { paragraph < 2000 }
    ensures { OnOk result (blocks.new ≡ blocks.old ++ made_paragraph paragraph) }
{
    push_skip(blocks, alloc, paragraph)?;
    let variants = choice_of(alloc, paragraph)?;
    blocks.push(Block::Choice(variants))?;
    Ok(())
}

// So many paragraphs.
fn blocks_of(alloc: Global, count: u32) -> Result<Blocks, AllocError>
    requires { count ≤ 2000 }
    ensures { IfOk result (λ blocks. blocks ≡ made_blocks count) }
{
    let mut blocks = Blocks::new(alloc);
    'paragraphs: for paragraph in 0..count {
        push_paragraph(&mut blocks, alloc, paragraph)?;
    }
    Ok(blocks)
}

/// The generator's galley of so many paragraphs, each in three lengths, with notes and floats.
///
/// `Limit` comes exactly where there are more than 2000 paragraphs, with their number; `Memory` only where there are not.
pub fn make_galley(alloc: Global, count: u32) -> Result<Galley, MakeFault>
    ensures { MakesGalley count result }
{
    if count > 2000 {
        return Err(MakeFault::Limit { count });
    }
    match blocks_of(alloc, count) {
        Ok(blocks) => Ok(Galley::of(345 * POINT, blocks)),
        Err(_) => Err(MakeFault::Memory),
    }
}
