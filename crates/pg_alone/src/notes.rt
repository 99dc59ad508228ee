//! Notes above the limit of their class.
ghost use Rattle.std.specs.Prelude.{◌≡◌};
ghost use Rattle.std.specs.List.{AllByRecursion};
ghost use Rattle.pg_list.specs.Shapes.{IsBlock};
ghost use Rattle.pg_alone.specs.Notes.{first_high as first_high_of, high_blocks, high_in as high_in_of};
ghost use Rattle.pg_alone.specs.Notes.{high_note as high_note_of, high_of as high_of_item};

use pg_floats::first_items_of;
use pg_list::{Block, Galley, Item};
use pg_style::{Kind, Style};

/// A note above the limit of its class: the number of that, the note's size and the limit in scaled points.
#[derive(Clone, Copy)]
pub struct HighNote {
    pub class: u8,
    pub size: i32,
    pub limit: i32,
}

// An insert of this kind, number and size, where it is a note above the limit.
fn high_in(kind: &Kind, class: u8, size: i32) -> Option<HighNote>
    ensures { result ≡ high_in_of kind.now class size }
{
    match kind {
        Kind::Note { limit, .. } => {
            if *limit < size {
                Some(HighNote {
                    class,
                    size,
                    limit: *limit,
                })
            } else {
                None
            }
        }
        Kind::Float { .. } => None,
    }
}

// The item, where it is a note above the limit of its class.
fn high_of(style: &Style, item: &Item) -> Option<HighNote>
    ensures { result ≡ high_of_item style.now item.now }
{
    let Item::Insert { class, size, .. } = item else {
        return None;
    };
    match style.class_of(*class) {
        Some(it) => high_in(&it.kind, *class, *size),
        None => None,
    }
}

// The first of these items that is one.
fn first_high(style: &Style, items: &[Item]) -> Option<HighNote>
    ensures { result ≡ first_high_of style.now items.now }
{
    let mut rest = items;
    'items: while let [item, after @ ..] = rest {
        if let Some(note) = high_of(style, item) {
            return Some(note);
        }
        rest = after;
    }
    None
}

// The first of these blocks' items, with the first version of each choice.
fn high_among(style: &Style, blocks: &[Block]) -> Option<HighNote>
    requires { AllByRecursion IsBlock blocks.now }
    ensures { result ≡ high_blocks style.now blocks.now }
{
    let mut rest = blocks;
    'each: while let [block, after @ ..] = rest {
        if let Some(note) = first_high(style, first_items_of(block)) {
            return Some(note);
        }
        rest = after;
    }
    None
}

// The blocks of a galley keep their shape.
fn blocks_of(galley: &Galley) -> &[Block]
    ensures blocks { result.now ≡ galley.now.blocks }
    ensures shape { AllByRecursion IsBlock galley.now.blocks }
{
    galley.blocks().as_slice()
}

/// The first note that is above the limit of its class: where there is one, nothing is legal (`high_notes_forbid`). None
/// exactly where there is none. No memory is taken.
pub fn high_note(galley: &Galley, style: &Style) -> Option<HighNote>
    ensures { result ≡ high_note_of galley.now style.now }
{
    high_among(style, blocks_of(galley))
}
