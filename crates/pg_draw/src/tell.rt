//! What is said of pages, in words for people.
use crate::pieces::{Piece, print};
use pg_draw_page::{
    Fill, Foot, Length, View, column_fill, column_foot, count_floats, count_notes, page_badness,
    page_length, shorter,
};
use pg_drawing::{DrawnColumn, DrawnPage};
use pg_list::Place;
use pg_plan::Side;
use pg_style::{Area, Kind};
use std::alloc::AllocError;

// What the style says of a class of inserts.
fn kind_words(kind: Kind) -> &'static str {
    match kind {
        Kind::Note { .. } => "note, ",
        Kind::Float { area, .. } => match area {
            Area::Top => "top float, ",
            Area::Bottom => "bottom float, ",
            Area::Both => "float, ",
            Area::Wide => "wide float, ",
        },
    }
}

// What a class of inserts is, where there is a style that has it.
fn class_words(view: &View<'_>, class: u32) -> &'static str {
    let Some(style) = view.style else {
        return "";
    };
    for known in style.classes.as_slice() {
        if u32::from(known.number) == class {
            return kind_words(known.kind);
        }
    }
    ""
}

/// A class of inserts: what it is, where a style says it, and its number.
pub fn print_class(view: &View<'_>, class: u32, out: &mut Vec<u8>) -> Result<(), AllocError> {
    print(
        out,
        &[
            Piece::Markup(class_words(view, class)),
            Piece::Markup("class "),
            Piece::Count(class as usize),
        ],
    )
}

// A small number as a word.
fn number_word(number: i128) -> Option<&'static str> {
    match number {
        1 => Some("one"),
        2 => Some("two"),
        3 => Some("three"),
        4 => Some("four"),
        5 => Some("five"),
        6 => Some("six"),
        7 => Some("seven"),
        8 => Some("eight"),
        9 => Some("nine"),
        _ => None,
    }
}

/// So many of something.
pub fn print_count(
    number: i128,
    one: &'static str,
    many: &'static str,
    out: &mut Vec<u8>,
) -> Result<(), AllocError> {
    match number_word(number) {
        Some(word) => print(out, &[Piece::Markup(word)])?,
        None => print(out, &[Piece::Number(number)])?,
    }
    print(out, &[Piece::Markup(if number == 1 { one } else { many })])
}

// How a column fills its goal.
fn print_fill(fill: Fill, out: &mut Vec<u8>) -> Result<(), AllocError> {
    match fill {
        Fill::Full => print(out, &[Piece::Markup("full")]),
        Fill::Short(by) => print(
            out,
            &[Piece::Points(shorter(by)), Piece::Markup(" points short")],
        ),
        Fill::Long(by) => print(
            out,
            &[Piece::Points(shorter(by)), Piece::Markup(" points long")],
        ),
        Fill::Without => print(out, &[Piece::Markup("without text")]),
    }
}

// What is said of the foot of a short column.
fn foot_words(foot: Foot) -> &'static str {
    match foot {
        Foot::Set => "",
        Foot::Unstretched => " and not stretched",
        Foot::Ragged => " and ragged",
    }
}

/// How a column fills its goal, and how its foot comes about.
pub fn print_column_fill(
    view: &View<'_>,
    column: &DrawnColumn,
    out: &mut Vec<u8>,
) -> Result<(), AllocError> {
    print_fill(column_fill(column), out)?;
    print(out, &[Piece::Markup(foot_words(column_foot(view, column)))])
}

// How the columns of a page fill their goals.
fn print_fills(
    view: &View<'_>,
    columns: &[DrawnColumn],
    out: &mut Vec<u8>,
) -> Result<(), AllocError> {
    if let [column] = columns {
        return print_column_fill(view, column, out);
    }
    let mut number: usize = 0;
    for column in columns {
        number = number.saturating_add(1);
        print(
            out,
            &[
                Piece::Markup(if number == 1 { "column " } else { ", column " }),
                Piece::Count(number),
                Piece::Markup(" is "),
            ],
        )?;
        print_column_fill(view, column, out)?;
    }
    Ok(())
}

// So many of something behind a comma, unless there is none.
fn print_some(
    number: usize,
    one: &'static str,
    many: &'static str,
    out: &mut Vec<u8>,
) -> Result<(), AllocError> {
    if number == 0 {
        return Ok(());
    }
    print(out, &[Piece::Markup(", ")])?;
    print_count(number as i128, one, many, out)
}

/// What a page is, in one sentence without its point: how it fills its goals, its badness, its floats and notes.
pub fn print_says(
    view: &View<'_>,
    number: usize,
    page: &DrawnPage,
    out: &mut Vec<u8>,
) -> Result<(), AllocError> {
    print(
        out,
        &[
            Piece::Markup("page "),
            Piece::Count(number),
            Piece::Markup(": "),
        ],
    )?;
    print_fills(view, page.columns.as_slice(), out)?;
    print(
        out,
        &[
            Piece::Markup(", badness "),
            Piece::Number(page_badness(page)),
        ],
    )?;
    print_some(count_floats(page), " float", " floats", out)?;
    print_some(count_notes(page), " note", " notes", out)
}

// The side of a page that is on one.
fn side_words(page: &DrawnPage) -> &'static str {
    match page.head {
        Some(head) => match head.side {
            Side::L => "left",
            Side::R => "right",
            Side::S => "",
        },
        None => "",
    }
}

// How much longer or shorter a page is, behind its side.
fn print_page_length(length: Length, out: &mut Vec<u8>) -> Result<(), AllocError> {
    match length {
        Length::Usual => Ok(()),
        Length::Lines(lines) => {
            print_count(lines.saturating_abs(), " line ", " lines ", out)?;
            print(
                out,
                &[Piece::Markup(if lines > 0 { "long" } else { "short" })],
            )
        }
        Length::Points(points) => print(
            out,
            &[
                Piece::Points(shorter(points.saturating_abs())),
                Piece::Markup(if points > 0 {
                    " points long"
                } else {
                    " points short"
                }),
            ],
        ),
        Length::Run(run) => print(
            out,
            &[Piece::Markup("run "), Piece::Count(usize::from(run))],
        ),
    }
}

// Whether a page is as long as others.
fn is_usual(length: Length) -> bool {
    match length {
        Length::Usual => true,
        _ => false,
    }
}

/// The side of a page, and how much longer or shorter it is than others.
pub fn print_side(view: &View<'_>, page: &DrawnPage, out: &mut Vec<u8>) -> Result<(), AllocError> {
    let side = side_words(page);
    let length = page_length(view, page);
    print(out, &[Piece::Markup(side)])?;
    if !side.is_empty() && !is_usual(length) {
        print(out, &[Piece::Markup(", ")])?;
    }
    print_page_length(length, out)
}

/// A place of a galley.
pub fn print_place(place: Place, out: &mut Vec<u8>) -> Result<(), AllocError> {
    print(
        out,
        &[Piece::Markup("block "), Piece::Count(place.block as usize)],
    )?;
    if place.variant == 0 && place.index == 0 {
        return Ok(());
    }
    print(
        out,
        &[
            Piece::Markup(", item "),
            Piece::Count(place.index as usize),
            Piece::Markup(" of version "),
            Piece::Count(place.variant as usize),
        ],
    )
}
