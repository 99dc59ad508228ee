//! What is printed of a galley, read and printed once more.
use pg_list::Galley;
use pg_showbox::{print_galley, read_galley};
use std::alloc::{AllocError, Global};

/// The most bytes of a text that is read back.
const ROOM: usize = 67108864;

/// How many items a galley's text has, and whether it reads back to the same text.
#[derive(Clone, Copy)]
pub struct Again {
    pub items: usize,
    pub is_same: bool,
}

// A line that begins an item begins with one point.
fn begins_item(line: &[u8]) -> bool {
    match line {
        [b'.', b'.', ..] => false,
        [b'.', ..] => true,
        _ => false,
    }
}

fn count_items(text: &[u8]) -> usize {
    text.split(|byte| *byte == b'\n')
        .filter(|line| begins_item(line))
        .count()
}

// Whether a text reads back to a galley of which the same text is printed.
fn reads_back(alloc: Global, text: &[u8]) -> Result<bool, AllocError> {
    if text.len() > ROOM {
        return Ok(false);
    }
    let Ok(galley) = read_galley(alloc, text, None) else {
        return Ok(false);
    };
    let mut again = Vec::new(alloc);
    print_galley(&galley, &mut again)?;
    Ok(again.as_slice() == text)
}

/// What is printed of a galley, read and printed once more.
pub fn printed_again(alloc: Global, galley: &Galley) -> Result<Again, AllocError> {
    let mut text = Vec::new(alloc);
    print_galley(galley, &mut text)?;
    let is_same = reads_back(alloc, &text)?;
    Ok(Again {
        items: count_items(&text),
        is_same,
    })
}
