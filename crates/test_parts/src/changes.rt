//! A style, and texts that are made of it by changes.
//!
//! A style is told in one line, with a line for each class; a text that is none by the number of its first fault and
//! its key. Each line of the file of changes is one text more: the style with changes, parted by `|`, each of them what
//! stands there first, `>`, and what comes in its place; `~` is a line feed. It is told with its line behind it.
use crate::say::unless_memory;
use crate::told::{say_style, say_verdict};
use pg_command::Ending;
use pg_outside::Shelf;
use std::alloc::{AllocError, Global};
use test_files::{changed_by, fetch_file};

fn say_line(alloc: Global, style: &str, line: &str, out: &mut Vec<u8>) -> Result<(), AllocError> {
    match changed_by(alloc, style, line)? {
        Some(text) => say_verdict(alloc, text.as_bytes(), out)?,
        None => out.extend_from_slice(b"not there")?,
    }
    out.extend_from_slice(b": ")?;
    out.extend_from_slice(line.as_bytes())?;
    out.push(b'\n')?;
    Ok(())
}

// Adds what is said of each text that the lines of changes make of a style. Empty lines and those that begin with `#`
// are passed over.
fn say_changes(
    alloc: Global,
    style: &str,
    changes: &str,
    out: &mut Vec<u8>,
) -> Result<(), AllocError> {
    for line in changes.lines() {
        if !line.is_empty() && !line.starts_with('#') {
            say_line(alloc, style, line, out)?;
        }
    }
    Ok(())
}

// What is said of a style and of its changes.
fn said_of(alloc: Global, name: &str, style: &[u8], changes: &[u8]) -> Result<Vec<u8>, AllocError> {
    let mut out = Vec::new(alloc);
    say_style(alloc, name, style, &mut out)?;
    if let (Ok(style), Ok(changes)) = (str::from_utf8(style), str::from_utf8(changes)) {
        say_changes(alloc, style, changes, &mut out)?;
    }
    Ok(out)
}

// The changes of a file; none for the name `-`.
fn fetch_changes<'a, H: Shelf>(
    alloc: Global,
    name: &'a str,
    shelf: &mut H,
) -> Result<Vec<u8>, Ending<'a>> {
    if name == "-" {
        return Ok(Vec::new(alloc));
    }
    fetch_file(alloc, name, shelf)
}

/// What is said of a style and of its changes, in these files.
pub fn say_styles<'a, H: Shelf>(
    alloc: Global,
    style: &'a str,
    changes: &'a str,
    shelf: &mut H,
) -> Result<Vec<u8>, Ending<'a>> {
    let text = fetch_file(alloc, style, shelf)?;
    let lines = fetch_changes(alloc, changes, shelf)?;
    unless_memory(said_of(alloc, style, &text, &lines))
}
