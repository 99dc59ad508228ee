//! The letters of boxes and inserts: one size for all lines, rows of letters, and how many have room.
ghost use Rattle.std.specs.Prelude.{◌<◌, ◌≤◌, length, IfSome};

use crate::frame::{larger, quotient, units};
use crate::gaps::is_text;
use pg_drawing::{Drawing, DrawnArea, Shape};
use std::alloc::{AllocError, Global};

// Of how many lines the most usual height is looked for.
const SAMPLE: usize = 400;

/// The size of letters where no line tells it, in units.
const USUAL: i128 = 1000;

/// The least size of letters, in units.
const LEAST: i128 = 300;

/// How a row of letters stands in its room: as it is, spread out or pressed to fill it, or cut at its end too.
#[derive(Clone, Copy, PartialEq, Eq)]
pub enum Row {
    Loose,
    Spread,
    Pressed,
    Cut(usize),
}

/// The usual line of a text: the size of its letters in units, and how far it is below the line before, in scaled points,
/// or 0 where no two lines tell it.
#[derive(Clone, Copy)]
pub struct Lines {
    pub size: i128,
    pub pitch: i128,
}

// A walk over the lines of a text: their heights, how far each is below the one before with glue at its own width, and
// how far the walk is below the last.
#[derive(Drop)]
struct Walk {
    heights: Vec<i128>,
    pitches: Vec<i128>,
    below: Option<i128>,
}

// How far a line of this height is below the last, where there is one.
fn pitch_of(below: Option<i128>, height: i128) -> Option<i128> {
    match below {
        Some(below) => Some(below.saturating_add(height)),
        None => None,
    }
}

impl Walk {
    // A line of this height and depth.
    fn add_line(&mut self, height: i128, depth: i128) -> Result<(), AllocError> {
        self.heights.push(height.saturating_add(depth))?;
        match pitch_of(self.below, height) {
            Some(pitch) => self.pitches.push(pitch)?,
            None => {}
        }
        self.below = Some(depth);
        Ok(())
    }

    // What stands between lines.
    fn add_space(&mut self, own: i128) {
        self.below = match self.below {
            Some(below) => Some(below.saturating_add(own)),
            None => None,
        };
    }

    // A mark more.
    fn add(&mut self, shape: Shape) -> Result<(), AllocError> {
        match shape {
            Shape::Box { height, depth, .. } => {
                self.add_line(i128::from(height), i128::from(depth))?;
            }
            Shape::Glue { own, .. } => self.add_space(i128::from(own)),
            Shape::Kern { width } => self.add_space(i128::from(width)),
            Shape::Rule { .. } => self.below = None,
            _ => {}
        }
        Ok(())
    }

    // The lines of an area of text.
    fn add_area(&mut self, area: &DrawnArea) -> Result<(), AllocError> {
        self.below = None;
        for mark in area.marks.as_slice() {
            if self.heights.len() >= SAMPLE {
                return Ok(());
            }
            self.add(mark.shape)?;
        }
        Ok(())
    }
}

// How often a number is among numbers.
fn count_of(number: i128, numbers: &[i128]) -> usize {
    let mut count: usize = 0;
    for other in numbers {
        if *other == number {
            count = count.saturating_add(1);
        }
    }
    count
}

// The most usual of numbers.
fn most_usual(numbers: &[i128]) -> Option<i128> {
    let mut best: Option<i128> = None;
    let mut most: usize = 0;
    for number in numbers {
        let count = count_of(*number, numbers);
        if count > most {
            most = count;
            best = Some(*number);
        }
    }
    best
}

// The lines of a column.
fn walk_column(walk: &mut Walk, areas: &[DrawnArea]) -> Result<(), AllocError> {
    for area in areas {
        if is_text(area.name) {
            walk.add_area(area)?;
        }
    }
    Ok(())
}

/// The usual line of a drawing: its letters fill the most usual height of a line.
pub fn usual_lines(alloc: Global, drawing: &Drawing) -> Result<Lines, AllocError> {
    let mut walk = Walk {
        heights: Vec::new(alloc),
        pitches: Vec::new(alloc),
        below: None,
    };
    for page in drawing.pages.as_slice() {
        for column in page.columns.as_slice() {
            walk_column(&mut walk, column.areas.as_slice())?;
        }
    }
    let size = match most_usual(walk.heights.as_slice()) {
        Some(height) => larger(units(height).saturating_mul(112) / 100, LEAST),
        None => USUAL,
    };
    let pitch = match most_usual(walk.pitches.as_slice()) {
        Some(pitch) => pitch,
        None => 0,
    };
    Ok(Lines { size, pitch })
}

/// How a row of so many letters of this size stands in a room so wide. A letter is taken to be 46 hundredths of the size
/// wide; up to a quarter more is pressed in.
pub fn row_of(letters: usize, size: i128, width: i128) -> Row {
    let wide = (letters as i128).saturating_mul(size).saturating_mul(46) / 100;
    if wide.saturating_mul(100) <= width.saturating_mul(88) {
        Row::Loose
    } else if wide <= width {
        Row::Spread
    } else if wide.saturating_mul(4) <= width.saturating_mul(5) {
        Row::Pressed
    } else {
        Row::Cut(room_for(size, width))
    }
}

// How many letters of a size have room beside an ellipsis.
fn room_for(size: i128, width: i128) -> usize {
    let most = quotient(width.saturating_mul(125), size.saturating_mul(46)).saturating_sub(1);
    if most <= 0 {
        0
    } else if most > 1000000 {
        1000000
    } else {
        most as usize
    }
}

// Whether a byte begins a letter, and is not one of those of UTF-8 behind the first.
fn begins_letter(byte: u8) -> bool {
    byte < 128 || byte > 191
}

/// How many letters there are.
pub fn letter_count(words: &[u8]) -> usize {
    let mut count: usize = 0;
    for byte in words {
        if begins_letter(*byte) {
            count = count.saturating_add(1);
        }
    }
    count
}

/// The first letters, so many at most.
pub fn first_letters(words: &[u8], most: usize) -> &[u8] {
    let mut count: usize = 0;
    let mut end: usize = 0;
    for byte in words {
        if begins_letter(*byte) {
            if count >= most {
                return &words[..words.len().min(end)];
            }
            count = count.saturating_add(1);
        }
        end = end.saturating_add(1);
    }
    words
}

// How many bytes stand before the first line feed.
fn row_end(words: &[u8]) -> usize
    ensures { result ≤ length words.now }
{
    words.iter().take_while(|b| **b != b'\n').count()
}

/// The first row of letters that is not blank, and what stands behind it.
pub fn next_row(words: &[u8]) -> Option<(&[u8], &[u8])>
    ensures { IfSome result (λ rows. length rows.1.now < length words.now) }
{
    let mut rest = words;
    'rows: while let [first, after @ ..] = rest {
        if *first == b'\n' || *first == b' ' {
            rest = after;
        } else {
            return Some(rest.split_at(1 + row_end(after)));
        }
    }
    None
}

/// How many rows there are.
pub fn row_count(words: &[u8]) -> i128 {
    let mut count: i128 = 0;
    let mut rest = words;
    'rows: while let Some((_, after)) = next_row(rest) {
        count = count.saturating_add(1);
        rest = after;
    }
    count
}
