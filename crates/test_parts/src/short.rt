//! Galleys and texts that are none, in a few letters, and what is read of each.
use crate::say::{say_word, unless_memory};
use pg_command::Ending;
use pg_outside::Shelf;
use pg_showbox::{ListFault, ListKind, print_galley, read_galley};
use std::alloc::{AllocError, Global};
use test_files::{fetch_file, lines_of};

/// The most bytes of a text.
const ROOM: usize = 67108864;

fn say_fault(fault: ListFault, out: &mut Vec<u8>) -> Result<(), AllocError> {
    if let ListKind::Memory = fault.kind {
        return Err(AllocError);
    }
    say_word(b"line ", u64::from(fault.line), out)?;
    say_word(b" fault ", u64::from(fault.kind.number()), out)
}

// Adds a text in one line, with `~` for each line feed.
fn say_lines(text: &[u8], out: &mut Vec<u8>) -> Result<(), AllocError> {
    for byte in text {
        out.push(if *byte == b'\n' { b'~' } else { *byte })?;
    }
    Ok(())
}

// Adds what is printed of a text's galley, or its fault.
fn say_read(
    alloc: Global,
    text: &[u8],
    wrap: Option<u32>,
    out: &mut Vec<u8>,
) -> Result<(), AllocError> {
    if text.len() > ROOM {
        return Ok(());
    }
    match read_galley(alloc, text, wrap) {
        Err(fault) => say_fault(fault, out),
        Ok(galley) => {
            let mut printed = Vec::new(alloc);
            print_galley(&galley, &mut printed)?;
            say_lines(&printed, out)
        }
    }
}

// Adds the line of a case: the width at which lines are joined or `-`, `|`, and a text.
fn say_case(alloc: Global, row: &str, out: &mut Vec<u8>) -> Result<(), AllocError> {
    let (wrap, short) = match row.split_once('|') {
        Some(parts) => parts,
        None => (row, ""),
    };
    out.extend_from_slice(row.as_bytes())?;
    out.extend_from_slice(b" = ")?;
    let text = lines_of(alloc, short)?;
    say_read(alloc, &text, wrap.parse::<u32>().ok(), out)?;
    out.push(b'\n')?;
    Ok(())
}

// The lines of all cases; lines that begin with `#` are passed over.
fn said_of(alloc: Global, table: &str) -> Result<Vec<u8>, AllocError> {
    let mut out = Vec::new(alloc);
    for row in table.lines() {
        if !row.starts_with('#') {
            say_case(alloc, row, &mut out)?;
        }
    }
    Ok(out)
}

/// The lines of all cases of a table. The texts are in the letters of `lines_of`.
pub fn say_table<'a, H: Shelf>(
    alloc: Global,
    name: &'a str,
    shelf: &mut H,
) -> Result<Vec<u8>, Ending<'a>> {
    let bytes = fetch_file(alloc, name, shelf)?;
    match str::from_utf8(&bytes) {
        Ok(table) => unless_memory(said_of(alloc, table)),
        Err(_) => Err(Ending::Unread(name)),
    }
}
