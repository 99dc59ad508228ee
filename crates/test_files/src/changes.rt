//! Texts that are changed.
use std::alloc::{AllocError, Global};

// Adds a text to another, with a line feed for each `~`.
fn push_lines(text: &mut String, short: &str) -> Result<(), AllocError> {
    let mut is_first = true;
    for line in short.split('~') {
        if !is_first {
            text.push('\n')?;
        }
        text.push_str(line)?;
        is_first = false;
    }
    Ok(())
}

fn unfolded(alloc: Global, short: &str) -> Result<String, AllocError> {
    let mut text = String::new(alloc);
    push_lines(&mut text, short)?;
    Ok(text)
}

// The text with one change. None where what is changed is not there.
fn changed(alloc: Global, text: &str, change: &str) -> Result<Option<String>, AllocError> {
    let Some((old, new)) = change.split_once('>') else {
        return Ok(None);
    };
    let old = unfolded(alloc, old)?;
    let Some((before, after)) = text.split_once(old.as_str()) else {
        return Ok(None);
    };
    let mut text = String::from_str(alloc, before)?;
    push_lines(&mut text, new)?;
    text.push_str(after)?;
    Ok(Some(text))
}

/// The text with all changes of a line. None where one of them is not there.
///
/// Changes are parted by `|`. Each is what stands there first, `>`, and what comes in its place; `~` is a line feed.
pub fn changed_by(alloc: Global, text: &str, line: &str) -> Result<Option<String>, AllocError> {
    let mut text = String::from_str(alloc, text)?;
    for change in line.split('|') {
        match changed(alloc, text.as_str(), change)? {
            Some(next) => text = next,
            None => return Ok(None),
        }
    }
    Ok(Some(text))
}
