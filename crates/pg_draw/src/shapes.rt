//! Shapes of a picture, and what stands on its lines.
use crate::pieces::{Piece, print};
use pg_draw_page::{
    Row, first_letters, larger, letter_count, next_row, quotient, row_count, row_of,
};
use std::alloc::AllocError;

/// Where an area stands: its left and its width in units, its top in scaled points.
#[derive(Clone, Copy)]
pub struct Spot {
    pub left: i128,
    pub width: i128,
    pub top: i128,
}

/// From one height to another, in units.
#[derive(Clone, Copy)]
pub struct Span {
    pub from: i128,
    pub to: i128,
}

/// A strip from one height to another, in units, without the end of its tag. What is thinner than a hair is as thick.
pub fn print_strip(
    class: &'static str,
    left: i128,
    width: i128,
    from: i128,
    to: i128,
    out: &mut Vec<u8>,
) -> Result<(), AllocError> {
    let top = if from < to { from } else { to };
    let height = from.saturating_sub(to).saturating_abs();
    print(
        out,
        &[
            Piece::Markup("<path class=\""),
            Piece::Markup(class),
            Piece::Markup("\" d=\"M"),
            Piece::Number(left),
            Piece::Markup(" "),
            Piece::Number(top),
            Piece::Markup("h"),
            Piece::Number(width),
            Piece::Markup("v"),
            Piece::Number(height),
            Piece::Markup("H"),
            Piece::Number(left),
            Piece::Markup("z\""),
        ],
    )
}

/// A strip that says nothing.
pub fn print_bare(
    class: &'static str,
    left: i128,
    width: i128,
    from: i128,
    to: i128,
    out: &mut Vec<u8>,
) -> Result<(), AllocError> {
    print_strip(class, left, width, from, to, out)?;
    print(out, &[Piece::Markup("/>")])
}

/// A line across, in units, without the end of its tag.
pub fn print_line(
    class: &'static str,
    left: i128,
    width: i128,
    at: i128,
    out: &mut Vec<u8>,
) -> Result<(), AllocError> {
    print(
        out,
        &[
            Piece::Markup("<path class=\""),
            Piece::Markup(class),
            Piece::Markup("\" d=\"M"),
            Piece::Number(left),
            Piece::Markup(" "),
            Piece::Number(at),
            Piece::Markup("h"),
            Piece::Number(width),
            Piece::Markup("\""),
        ],
    )
}

/// How rows of letters stand: their left and the room for them, the baseline of the first, how far each is below the one
/// before, and the size of the letters, all in units. `usual` is the size that the picture has of itself.
#[derive(Clone, Copy)]
pub struct Rows {
    pub left: i128,
    pub width: i128,
    pub base: i128,
    pub pitch: i128,
    pub size: i128,
    pub usual: i128,
}

// The room that a row is spread or pressed to.
fn print_room(pressed: bool, width: i128, out: &mut Vec<u8>) -> Result<(), AllocError> {
    print(
        out,
        &[
            Piece::Markup("\" textLength=\""),
            Piece::Number(width),
            Piece::Markup(if pressed {
                "\" lengthAdjust=\"spacingAndGlyphs"
            } else {
                ""
            }),
        ],
    )
}

// The beginning of a row, up to its letters.
fn print_opening(rows: &Rows, row: Row, out: &mut Vec<u8>) -> Result<(), AllocError> {
    print(
        out,
        &[
            Piece::Markup("<text x=\""),
            Piece::Number(rows.left),
            Piece::Markup("\" y=\""),
            Piece::Number(rows.base),
        ],
    )?;
    if rows.size != rows.usual {
        print(
            out,
            &[Piece::Markup("\" font-size=\""), Piece::Number(rows.size)],
        )?;
    }
    match row {
        Row::Loose => {}
        Row::Spread => print_room(false, rows.width, out)?,
        Row::Pressed | Row::Cut(_) => print_room(true, rows.width, out)?,
    }
    print(out, &[Piece::Markup("\">")])
}

/// One row of letters; where it is cut, or where more rows come that have no room, an ellipsis ends it.
pub fn print_row(
    rows: &Rows,
    words: &[u8],
    more: bool,
    out: &mut Vec<u8>,
) -> Result<(), AllocError> {
    let row = row_of(letter_count(words), rows.size, rows.width);
    print_opening(rows, row, out)?;
    let (shown, is_cut) = match row {
        Row::Cut(count) => (first_letters(words, count), true),
        _ => (words, more),
    };
    let end = if is_cut { "…</text>" } else { "</text>" };
    print(out, &[Piece::Text(shown), Piece::Markup(end)])
}

// Rows one below the other, so many at most.
fn print_rows(rows: &Rows, words: &[u8], most: i128, out: &mut Vec<u8>) -> Result<(), AllocError> {
    let mut here = *rows;
    let mut left = most;
    let mut rest = words;
    'rows: while let Some((row, after)) = next_row(rest) {
        let more = left <= 1 && next_row(after).is_some();
        print_row(&here, row, more, out)?;
        if left <= 1 {
            return Ok(());
        }
        left = left.saturating_sub(1);
        here.base = here.base.saturating_add(here.pitch);
        rest = after;
    }
    Ok(())
}

// The lesser of two numbers.
fn lesser(one: i128, other: i128) -> i128 {
    if one < other { one } else { other }
}

/// All rows of letters between two heights: from the first height on, or down to the second.
pub fn print_block(
    spot: &Spot,
    words: &[u8],
    span: Span,
    usual: i128,
    at_end: bool,
    out: &mut Vec<u8>,
) -> Result<(), AllocError> {
    let count = row_count(words);
    if count <= 0 {
        return Ok(());
    }
    let height = span.to.saturating_sub(span.from);
    let most = usual.saturating_mul(6) / 5;
    let pitch = larger(
        lesser(quotient(height, count), most),
        usual.saturating_mul(7) / 10,
    );
    let shown = larger(lesser(count, quotient(height, pitch)), 1);
    let top = if at_end {
        span.to.saturating_sub(shown.saturating_mul(pitch))
    } else {
        span.from
    };
    let rows = Rows {
        left: spot.left,
        width: spot.width,
        base: top.saturating_add(pitch.saturating_mul(8) / 10),
        pitch,
        size: lesser(usual, pitch.saturating_mul(10) / 11),
        usual,
    };
    print_rows(&rows, words, shown, out)
}
