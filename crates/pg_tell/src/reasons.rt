//! Why beginnings come no further.
use crate::ends::print_ends;
use crate::findings::Findings;
use crate::letters::words_from;
use pg_alone::{Alone, HighNote};
use pg_furthest::Search;
use pg_list::{Block, Galley, Item, Place};
use pg_pieces::{Form, Piece, print};
use pg_style::{Kind, Style};
use std::alloc::{AllocError, Global};

// The number of the float class in a slot.
fn class_number(style: &Style, slot: usize) -> Option<u8> {
    let mut left = slot;
    for class in style.classes.as_slice() {
        if let Kind::Float { .. } = &class.kind {
            if left == 0 {
                return Some(class.number);
            }
            left -= 1;
        }
    }
    None
}

// How many inserts of a class stand among items.
fn count_inserts(items: &[Item], number: u8) -> u32 {
    let mut count = 0u32;
    for item in items {
        if let Item::Insert { class, .. } = item {
            if *class == number {
                count = count.saturating_add(1);
            }
        }
    }
    count
}

// The same of a block, whose versions all have the same inserts.
fn count_in(block: &Block, number: u8) -> u32 {
    match block {
        Block::One(item) => match item {
            Item::Insert { class, .. } => { if *class == number { 1 } else { 0 } }
            _ => 0,
        },
        Block::Choice(choice) => match choice.variants().first() {
            Some(variant) => count_inserts(variant.items.as_slice(), number),
            None => 0,
        },
    }
}

// The block in which a float of a class is called.
fn block_of(galley: &Galley, class: u8, number: u32) -> u32 {
    let mut left = number;
    let mut index = 0u32;
    for block in galley.blocks().as_slice() {
        let count = count_in(block, class);
        if left < count {
            return index;
        }
        left -= count;
        index = index.saturating_add(1);
    }
    index
}

// Which float it is, for a reader.
fn print_float_line(
    class: u8,
    number: u32,
    block: u32,
    out: &mut Vec<u8>,
) -> Result<(), AllocError> {
    print(
        Form::Plain,
        out,
        &[
            Piece::Mark("The float is number "),
            Piece::Count(u64::from(number).saturating_add(1)),
            Piece::Mark(" of class "),
            Piece::Count(u64::from(class)),
            Piece::Mark(", called in block "),
            Piece::Count(u64::from(block)),
            Piece::Mark(".\n"),
        ],
    )
}

// The words where it is called, for a reader.
fn print_float_words(words: &[u8], out: &mut Vec<u8>) -> Result<(), AllocError> {
    if words.is_empty() {
        return Ok(());
    }
    print(
        Form::Plain,
        out,
        &[Piece::Mark("    "), Piece::Text(words), Piece::Mark("..\n")],
    )
}

// Where the float is called, for a reader.
fn print_plain_float(
    class: u8,
    number: u32,
    block: u32,
    words: &[u8],
    out: &mut Vec<u8>,
) -> Result<(), AllocError> {
    print_float_line(class, number, block, out)?;
    print_float_words(words, out)
}

// The same as a key of the object.
fn print_json_float(
    class: u8,
    number: u32,
    block: u32,
    words: &[u8],
    out: &mut Vec<u8>,
) -> Result<(), AllocError> {
    print(
        Form::Json,
        out,
        &[
            Piece::Mark(",\"float\":{\"class\":"),
            Piece::Count(u64::from(class)),
            Piece::Mark(",\"number\":"),
            Piece::Count(u64::from(number).saturating_add(1)),
            Piece::Mark(",\"block\":"),
            Piece::Count(u64::from(block)),
            Piece::Mark(",\"text\":\""),
            Piece::Text(words),
            Piece::Mark("\"}"),
        ],
    )
}

// Where a float is called that no column can hold.
fn print_float(
    alloc: Global,
    form: Form,
    search: &Search,
    alone: &Alone,
    out: &mut Vec<u8>,
) -> Result<(), AllocError> {
    let Some(class) = class_number(search.style(), alone.slot) else {
        return Ok(());
    };
    let block = block_of(search.galley(), class, alone.number);
    let at = Place {
        block,
        variant: 0,
        index: 0,
    };
    let words = words_from(alloc, search.galley(), at)?;
    match form {
        Form::Plain => print_plain_float(class, alone.number, block, &words, out),
        Form::Json => print_json_float(class, alone.number, block, &words, out),
    }
}

// Whether an item is an insert of a class above a size.
fn is_above(item: &Item, number: u8, limit: i32) -> bool {
    match item {
        Item::Insert { class, size, .. } => *class == number && limit < *size,
        _ => false,
    }
}

// Whether some item is one.
fn has_above(items: &[Item], number: u8, limit: i32) -> bool {
    for item in items {
        if is_above(item, number, limit) {
            return true;
        }
    }
    false
}

// The first block with an insert of a class above a size.
fn block_above(galley: &Galley, number: u8, limit: i32) -> u32 {
    let mut index = 0u32;
    for block in galley.blocks().as_slice() {
        let is_there = match block {
            Block::One(item) => is_above(item, number, limit),
            Block::Choice(choice) => match choice.variants().first() {
                Some(variant) => has_above(variant.items.as_slice(), number, limit),
                None => false,
            },
        };
        if is_there {
            return index;
        }
        index = index.saturating_add(1);
    }
    index
}

// Where a note stands that is above the limit of its class.
fn print_note(
    form: Form,
    search: &Search,
    note: &HighNote,
    out: &mut Vec<u8>,
) -> Result<(), AllocError> {
    let block = block_above(search.galley(), note.class, note.limit);
    match form {
        Form::Plain => print(
            form,
            out,
            &[
                Piece::Mark("The note stands in block "),
                Piece::Count(u64::from(block)),
                Piece::Mark(".\n"),
            ],
        ),
        Form::Json => print(
            form,
            out,
            &[
                Piece::Mark(",\"note block\":"),
                Piece::Count(u64::from(block)),
            ],
        ),
    }
}

/// Why beginnings come no further: where the next column could end, and what is wrong there; and where the float and the
/// note stand that forbid all, if there are some.
pub fn print_reasons(
    alloc: Global,
    form: Form,
    search: &Search,
    found: &Findings,
    out: &mut Vec<u8>,
) -> Result<(), AllocError> {
    print_ends(alloc, form, search, out)?;
    if let Some(alone) = &found.alone {
        print_float(alloc, form, search, alone, out)?;
    }
    if let Some(note) = &found.note {
        print_note(form, search, note, out)?;
    }
    match form {
        Form::Plain => Ok(()),
        Form::Json => print(form, out, &[Piece::Mark("}\n")]),
    }
}
