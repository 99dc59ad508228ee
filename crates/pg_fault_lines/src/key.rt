//! The line of a key of a style.
ghost use Rattle.std.specs.Prelude.{◌≡◌, ◌<◌, ◌^◌, ◌∷◌, [], true, length, IfOk, IfSome};
ghost use Rattle.std.specs.List.{prefix_len};
ghost use Rattle.pg_fault_lines.specs.Spots.{behind_blanks, begins_with, is_about, is_blank, tells_of};

use crate::line::line_text;
use pg_scan::{take_line, whole_word};
use std::alloc::{AllocError, Global};

/// A key of a style: its table, which is empty for the root, the place of the table among those of its name, from 0,
/// and its name.
#[derive(Clone, Copy)]
pub struct Spot<'a> {
    pub table: &'a [u8],
    pub position: u32,
    pub key: &'a [u8],
}

// The number between brackets behind a name.
fn position_in(rest: &[u8]) -> u32 {
    match rest.split_last() {
        Some((_, digits)) => whole_word(0, 9, digits).unwrap_or(0),
        None => 0,
    }
}

// The table of this name, which may have a position, and the key.
fn spot_in<'a>(name: &'a [u8], key: &'a [u8]) -> Spot<'a> {
    match name.iter().position(|byte| *byte == b'[') {
        Some(at) => Spot {
            table: name.get(..at).unwrap_or(name),
            position: position_in(name.get(at.saturating_add(1)..).unwrap_or(b"")),
            key,
        },
        None => Spot {
            table: name,
            position: 0,
            key,
        },
    }
}

/// The key of a path, as `runs[0].extra`, `top.count` or `tolerance`.
pub fn spot_of(path: &[u8]) -> Spot<'_> {
    match path.iter().rposition(|byte| *byte == b'.') {
        Some(at) => spot_in(
            path.get(..at).unwrap_or(path),
            path.get(at.saturating_add(1)..).unwrap_or(path),
        ),
        None => Spot {
            table: b"",
            position: 0,
            key: path,
        },
    }
}

// How many blanks stand in front.
fn blanks(line: &[u8]) -> usize
    ensures { result ≡ prefix_len is_blank line.now }
{
    line.iter()
        .take_while(|byte| **byte == b' ' || **byte == b'\t')
        .count()
}

// A line without the blanks in front.
fn without_blanks(line: &[u8]) -> &[u8]
    ensures { result.now ≡ behind_blanks line.now }
{
    let len = blanks(line);
    if len >= line.len() {
        return b"";
    }
    &line[len..]
}

// Whether a byte may stand in the name of a key.
fn is_name_byte(byte: u8) -> bool {
    byte.is_ascii_alphanumeric() || byte == b'_' || byte == b'-'
}

// Whether a line begins with this word, behind its blanks.
fn has_front(line: &[u8], word: &[u8]) -> bool
    ensures { result ≡ begins_with word.now line.now }
{
    without_blanks(line).starts_with(word)
}

// Whether the word ends there, too.
fn names(line: &[u8], word: &[u8]) -> bool {
    let rest = without_blanks(line);
    rest.starts_with(word)
        && match rest.get(word.len()) {
            Some(byte) => !is_name_byte(*byte),
            None => true,
        }
}

// Whether a line is the head of a table.
fn is_head(line: &[u8]) -> bool
    ensures { result ≡ begins_with (91 ∷ []) line.now }
{
    has_front(line, b"[")
}

// Whether the head of a table names this one.
fn is_head_of(line: &[u8], table: &[u8]) -> bool {
    let name = match without_blanks(line) {
        [b'[', b'[', name @ ..] => name,
        [b'[', name @ ..] => name,
        _ => return false,
    };
    !table.is_empty() && names(name, table)
}

// Whether a head is that of a key of the root which is a table.
fn is_root_table(spot: &Spot<'_>, line: &[u8]) -> bool {
    spot.table.is_empty() && is_head_of(line, spot.key)
}

// What the lines so far say of a key: how many heads of its table there were, whether its table is open, and the line
// that is told where the key itself stands in none.
#[derive(Drop)]
struct Scan {
    heads: u32,
    is_open: bool,
    told: Option<u32>,
}

impl Scan {
    // Passes the head of a table.
    fn pass_head(&mut self, spot: &Spot<'_>, line: &[u8], number: u32) {
        self.is_open = false;
        if is_head_of(line, spot.table) {
            if self.heads == spot.position {
                self.is_open = true;
                self.told = Some(number);
            }
            self.heads = self.heads.saturating_add(1);
        } else if self.told.is_none() && is_root_table(spot, line) {
            self.told = Some(number);
        }
    }

    // Passes a line, and answers whether it is that of the key.
    fn pass(&mut self, spot: &Spot<'_>, line: &[u8], number: u32) -> bool {
        if is_head(line) {
            self.pass_head(spot, line, number);
            return false;
        }
        if self.is_open && names(line, spot.key) {
            return true;
        }
        if self.told.is_none() && names(line, spot.table) && !spot.table.is_empty() {
            self.told = Some(number);
        }
        false
    }
}

// The line that seems to be that of a key, or of its table.
fn find_line(alloc: Global, spot: &Spot<'_>, text: &[u8]) -> Result<Option<u32>, AllocError>
    requires { length text.now < 2 ^ 31 }
{
    let mut scan = Scan {
        heads: 0,
        is_open: spot.table.is_empty(),
        told: None,
    };
    let mut line = Vec::new(alloc);
    let mut rest = text;
    let mut at = 1;
    'lines: while let Some((after, next)) = take_line(None, at, rest, &mut line)? {
        if scan.pass(spot, &line, at) {
            return Ok(Some(at));
        }
        rest = after;
        at = next;
    }
    Ok(scan.told)
}

// Whether a line is about a key.
fn tells(spot: &Spot<'_>, line: &[u8]) -> bool
    ensures { result ≡ is_about spot.now.table.now spot.now.key.now line.now }
{
    has_front(line, spot.key) || has_front(line, spot.table) || is_head(line)
}

/// The line of a style that is told for a key: that of the key, or else of its table, and where neither stands at the
/// front of a line, none.
#[tactic(auto, unfolding(crate::specs::Spots::tells_of))]
pub fn key_line(alloc: Global, spot: &Spot<'_>, text: &[u8]) -> Result<Option<u32>, AllocError>
    requires { length text.now < 2 ^ 31 }
    ensures { IfOk result (λ found. IfSome found (λ number.
        tells_of spot.now.table.now spot.now.key.now text.now number ≡ true)) }
{
    let Some(number) = find_line(alloc, spot, text)? else {
        return Ok(None);
    };
    match line_text(alloc, None, number, text)? {
        Some(line) if tells(spot, &line) => Ok(Some(number)),
        _ => Ok(None),
    }
}
