//! The first words that a galley shows behind a place.
use pg_drawing::read_letters;
use pg_list::{Galley, Item, Place};
use std::alloc::{AllocError, Global};

/// The most items that are looked through, and the most letters that are told.
const ITEMS: usize = 16;

const LETTERS: usize = 72;

// The body of an item as a listing shows it, with a point in front of each line.
fn listed(alloc: Global, body: &[u8]) -> Result<Vec<u8>, AllocError> {
    let mut out = Vec::new(alloc);
    out.push(b'.')?;
    for byte in body {
        out.push(*byte)?;
        if *byte == b'\n' {
            out.push(b'.')?;
        }
    }
    Ok(out)
}

// The letters of an item, row by row, with a blank between rows.
fn push_letters(alloc: Global, item: &Item, out: &mut Vec<u8>) -> Result<(), AllocError> {
    let shown = listed(alloc, item.body())?;
    let mut lines = Vec::new(alloc);
    for line in shown.split(|byte| *byte == b'\n') {
        lines.push(line)?;
    }
    let [head, rest @ ..] = lines.as_slice() else {
        return Ok(());
    };
    let letters = read_letters(alloc, *head, rest)?;
    if !out.is_empty() {
        out.push(b' ')?;
    }
    for byte in letters.as_slice() {
        out.push(if *byte == b'\n' { b' ' } else { *byte })?;
    }
    Ok(())
}

/// The first words from a place on, where the galley shows letters.
pub fn words_from(alloc: Global, galley: &Galley, at: Place) -> Result<Vec<u8>, AllocError> {
    let mut out = Vec::new(alloc);
    let mut place = at;
    for _ in 0..ITEMS {
        let Some(item) = galley.item_at(place) else {
            break;
        };
        push_letters(alloc, item, &mut out)?;
        if out.len() > LETTERS {
            break;
        }
        place = galley.next_place(place);
    }
    out.truncate(LETTERS);
    Ok(out)
}
