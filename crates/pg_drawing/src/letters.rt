//! The letters that an item shows.
ghost use Rattle.std.specs.Prelude.{◌≡◌, ◌≤◌, ◌++◌, ◌-◌, take, length, IfOk, OnOk};
ghost use Rattle.std.specs.List.{prefix_len};
ghost use Rattle.std.specs.Option.{option_map};
ghost use Rattle.pg_words.specs.InOrder.{words_of};
ghost use Rattle.pg_drawing.specs.Letters.{behind_points, either as either_of, is_point, has_name as has_name_so, hyphen_behind as hyphen_behind_so, is_within as is_within_so, letter as letter_in, letters, letters_at, ligature as ligature_in, line_letters as line_letters_so, open_behind as open_behind_so, row_behind as row_behind_so, rows_in, seen_letters as seen_letters_so};
ghost use Rattle.pg_drawing.specs.Pieces.{texts, told};

use crate::signs::{in_print, sign_of};
use pg_list::Bytes;
use pg_scan::{named, skip};
use pg_words::Words;
use std::alloc::{AllocError, Global};

// The letter behind a font.
#[tactic(auto, unfolding(crate::specs::Letters::letter))]
fn letter(bytes: &[u8]) -> Option<&[u8]>
    ensures { option_map (λ letter. letter.now) result ≡ letter_in (words_of bytes.now) }
{
    let mut words = Words::of(bytes);
    let font = words.word()?;
    let sign = words.word()?;
    words.ended()?;
    if font == b"\\penalty".as_slice() {
        None
    } else {
        sign_of(font, sign)
    }
}

// A text without its last byte.
fn without_last(text: &[u8]) -> &[u8]
    ensures { result.now ≡ take (length text.now - 1) text.now }
{
    match text {
        [before @ .., _] => before,
        [] => text,
    }
}

// What a ligature was made of.
#[tactic(auto, unfolding(crate::specs::Letters::ligature))]
fn ligature(bytes: &[u8]) -> Option<&[u8]>
    ensures { option_map (λ letters. letters.now) result ≡ ligature_in (words_of bytes.now) }
{
    let mut words = Words::of(bytes);
    words.word()?;
    words.word()?;
    words.due(b"(ligature")?;
    let whole = words.word()?;
    words.ended()?;
    Some(without_last(whole))
}

// One of two, or nothing.
fn either<'a>(one: Option<&'a [u8]>, other: Option<&'a [u8]>) -> &'a [u8]
    ensures { result.now ≡ either_of (option_map (λ a. a.now) one.entry) (option_map (λ a. a.now) other.entry) }
{
    match (one, other) {
        (Some(letters), _) => letters,
        (None, Some(letters)) => letters,
        (None, None) => &[],
    }
}

// What a line shows behind its points.
#[tactic(auto, unfolding(crate::specs::Letters::letters_at))]
fn letters_behind(bytes: &[u8]) -> &[u8]
    ensures { result.now ≡ letters_at bytes.now }
{
    if named(b"\\glue", bytes).is_some() {
        b" "
    } else {
        in_print(either(letter(bytes), ligature(bytes)))
    }
}

// How many points stand in front of a line.
fn point_count(line: &[u8]) -> usize
    ensures count { result ≡ prefix_len is_point line.now }
    ensures bound { result ≤ length line.now }
{
    line.iter().take_while(|b| **b == b'.').count()
}

// What stands behind the points of a line.
fn name_of(line: &[u8]) -> &[u8]
    ensures { result.now ≡ behind_points line.now }
{
    let (_, name) = line.split_at(point_count(line));
    name
}

// Whether a line is within a box whose own line has so many points, of which there is none at 0.
fn is_within(outer: usize, points: usize) -> bool
    ensures { result ≡ is_within_so outer points }
{
    0 < outer && outer < points
}

// Whether a line begins with this name behind its points.
fn has_name(name: &[u8], line: &[u8]) -> bool
    ensures { result ≡ has_name_so name.now line.now }
{
    named(name, name_of(line)).is_some()
}

// How many points the line has that is open behind a line, where lines of this name open, or 0.
fn open_behind(name: &[u8], outer: usize, line: &[u8]) -> usize
    ensures { result ≡ open_behind_so name.now outer line.now }
{
    if is_within(outer, point_count(line)) {
        outer
    } else if has_name(name, line) {
        point_count(line)
    } else {
        0
    }
}

// The box of a row that is open behind a line.
fn row_behind(row: usize, line: &[u8]) -> usize
    ensures { result ≡ row_behind_so row line.now }
{
    open_behind(b"\\hbox", row, line)
}

// The place for a hyphen that is open behind a line.
fn hyphen_behind(hyphen: usize, line: &[u8]) -> usize
    ensures { result ≡ hyphen_behind_so hyphen line.now }
{
    open_behind(b"\\discretionary", hyphen, line)
}

// What a line shows that is seen: a new row where a box begins that is within no other, else its letters.
fn seen_letters(row: usize, line: &[u8]) -> &[u8]
    ensures { result.now ≡ seen_letters_so row line.now }
{
    if !is_within(row, point_count(line)) && has_name(b"\\hbox", line) {
        b"\n"
    } else if skip(b"\\", name_of(line)).is_some() {
        letters_behind(name_of(line))
    } else {
        &[]
    }
}

// What a line shows.
fn line_letters(row: usize, hyphen: usize, line: &[u8]) -> &[u8]
    ensures { result.now ≡ line_letters_so row hyphen line.now }
{
    if is_within(hyphen, point_count(line)) {
        &[]
    } else {
        seen_letters(row, line)
    }
}

// All letters that lines show, where the box of a row is open.
fn push_letters(first: usize, lines: &[&[u8]], out: &mut Vec<u8>) -> Result<(), AllocError>
    ensures { OnOk result (out.new.items ≡ out.old.items ++ rows_in first 0 (texts lines.now)) }
{
    let mut row = first;
    let mut hyphen: usize = 0;
    let mut rest = lines;
    'lines: while let [line, after @ ..] = rest {
        out.extend_from_slice(line_letters(row, hyphen, *line))?;
        row = row_behind(row, *line);
        hyphen = hyphen_behind(hyphen, *line);
        rest = after;
    }
    Ok(())
}

/// The letters that an item shows, of its first line and those behind it.
pub fn read_letters(alloc: Global, head: &[u8], lines: &[&[u8]]) -> Result<Bytes, AllocError>
    ensures { IfOk result (λ words. words ≡ letters (told head.now lines.now)) }
{
    let mut out = Vec::new(alloc);
    push_letters(row_behind(0, head), lines, &mut out)?;
    Ok(Bytes::new(out))
}
