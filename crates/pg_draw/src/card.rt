//! A page, drawn, with its numbers below.
use crate::marks::print_marks;
use crate::pieces::{Piece, print};
use crate::shapes::{Spot, print_bare, print_line};
use crate::tell::{print_column_fill, print_count, print_place, print_says, print_side};
use pg_draw_page::{
    Frame, Stack, TextEnds, View, area_room, areas_height, column_picks, column_stack, full_width,
    is_text, left_of, page_badness, page_height, units, wide_stack,
};
use pg_drawing::{DrawnArea, DrawnColumn, DrawnPage, Ends, Numbers, adds_up};
use std::alloc::AllocError;

// Room around a picture, in units.
const MARGIN: i128 = 1150;

// The goal of a text, and its total where that is another.
fn print_goal(spot: &Spot, ends: TextEnds, out: &mut Vec<u8>) -> Result<(), AllocError> {
    let left = spot.left.saturating_sub(250);
    let across = spot.width.saturating_add(500);
    let goal = units(spot.top.saturating_add(ends.goal));
    print_line("goal", left, across, goal, out)?;
    print(out, &[Piece::Markup("/>")])?;
    if ends.total != ends.goal {
        let total = units(spot.top.saturating_add(ends.total));
        print_line("total", left, across, total, out)?;
        print(out, &[Piece::Markup("/>")])?;
    }
    Ok(())
}

// The frame of a text, which is as high as its room, and its goal.
fn print_ground(
    spot: &Spot,
    area: &DrawnArea,
    stack: Stack,
    out: &mut Vec<u8>,
) -> Result<(), AllocError> {
    let end = units(spot.top.saturating_add(area_room(area, stack)));
    print_bare("f", spot.left, spot.width, units(spot.top), end, out)?;
    if let Some(ends) = stack.ends {
        print_goal(spot, ends, out)?;
    }
    print(out, &[Piece::Markup("\n")])
}

// An area in its place. What a text is to come to is drawn behind its letters.
fn print_area(
    view: &View<'_>,
    spot: &Spot,
    area: &DrawnArea,
    stack: Stack,
    out: &mut Vec<u8>,
) -> Result<(), AllocError> {
    if is_text(area.name) {
        print_ground(spot, area, stack, out)?;
    }
    print_marks(view, spot, area.name, area.marks.as_slice(), out)
}

// Areas one below the other.
fn print_areas(
    view: &View<'_>,
    spot: &Spot,
    areas: &[DrawnArea],
    stack: Stack,
    out: &mut Vec<u8>,
) -> Result<(), AllocError> {
    let mut top = spot.top;
    for area in areas {
        let here = Spot {
            left: spot.left,
            width: spot.width,
            top,
        };
        print_area(view, &here, area, stack, out)?;
        top = top
            .saturating_add(area_room(area, stack))
            .saturating_add(stack.apart);
    }
    Ok(())
}

// The columns of a page, side by side below its wide area.
fn print_columns(
    view: &View<'_>,
    frame: Frame,
    top: i128,
    columns: &[DrawnColumn],
    out: &mut Vec<u8>,
) -> Result<(), AllocError> {
    let mut index: i128 = 0;
    for column in columns {
        let spot = Spot {
            left: left_of(frame, index),
            width: frame.width,
            top,
        };
        let stack = column_stack(view.apart, column);
        print_areas(view, &spot, column.areas.as_slice(), stack, out)?;
        index = index.saturating_add(1);
    }
    Ok(())
}

// The beginning of the picture of a page, with what it says.
fn print_picture_head(
    view: &View<'_>,
    frame: Frame,
    number: usize,
    page: &DrawnPage,
    out: &mut Vec<u8>,
) -> Result<(), AllocError> {
    let width = full_width(frame).saturating_add(2 * MARGIN);
    let height = units(page_height(page, view.apart)).saturating_add(MARGIN);
    print(
        out,
        &[
            Piece::Markup("<svg viewBox=\""),
            Piece::Number(-MARGIN),
            Piece::Markup(" -600 "),
            Piece::Number(width),
            Piece::Markup(" "),
            Piece::Number(height),
            Piece::Markup("\" font-size=\""),
            Piece::Number(view.lines.size),
            Piece::Markup("\" role=\"group\" aria-label=\""),
        ],
    )?;
    print_says(view, number, page, out)?;
    print(out, &[Piece::Markup("\">\n")])
}

// The picture of a page.
fn print_picture(
    view: &View<'_>,
    frame: Frame,
    number: usize,
    page: &DrawnPage,
    out: &mut Vec<u8>,
) -> Result<(), AllocError> {
    print_picture_head(view, frame, number, page, out)?;
    let spot = Spot {
        left: 0,
        width: full_width(frame),
        top: 0,
    };
    let stack = wide_stack(view.apart);
    print_areas(view, &spot, page.wide.as_slice(), stack, out)?;
    let below = areas_height(page.wide.as_slice(), stack);
    print_columns(view, frame, below, page.columns.as_slice(), out)?;
    print(out, &[Piece::Markup("</svg>\n")])
}

// The name of a fact.
fn print_name(name: &'static str, out: &mut Vec<u8>) -> Result<(), AllocError> {
    print(
        out,
        &[
            Piece::Markup("<div><dt>"),
            Piece::Markup(name),
            Piece::Markup("</dt><dd>"),
        ],
    )
}

// The end of a fact.
fn print_fact_end(out: &mut Vec<u8>) -> Result<(), AllocError> {
    print(out, &[Piece::Markup("</dd></div>\n")])
}

// A name and a number.
fn print_fact(name: &'static str, number: i128, out: &mut Vec<u8>) -> Result<(), AllocError> {
    print_name(name, out)?;
    print(out, &[Piece::Number(number)])?;
    print_fact_end(out)
}

// A name and a length.
fn print_length(name: &'static str, length: i64, out: &mut Vec<u8>) -> Result<(), AllocError> {
    print_name(name, out)?;
    print(out, &[Piece::Points(length), Piece::Markup(" points")])?;
    print_fact_end(out)
}

// How high a text is, and its goal.
fn print_height(
    view: &View<'_>,
    column: &DrawnColumn,
    out: &mut Vec<u8>,
) -> Result<(), AllocError> {
    match column.numbers {
        Some(Numbers::Set { goal, total, .. }) => {
            print_length("goal", goal, out)?;
            print_length("text", total, out)?;
        }
        _ => {}
    }
    print_name("it is", out)?;
    print_column_fill(view, column, out)?;
    print_fact_end(out)
}

// The numbers of a column.
fn print_numbers(numbers: Option<Numbers>, out: &mut Vec<u8>) -> Result<(), AllocError> {
    match numbers {
        Some(
            Numbers::Set {
                badness,
                penalty,
                demerits,
                ..
            },
        ) => {
            print_fact("badness", badness, out)?;
            if penalty != 0 {
                print_fact("penalty at its end", penalty, out)?;
            }
            print_fact("demerits", demerits, out)
        }
        Some(Numbers::Without { demerits }) => print_fact("demerits", demerits, out),
        None => Ok(()),
    }
}

// Where a column begins and ends.
fn print_ends(ends: Option<Ends>, out: &mut Vec<u8>) -> Result<(), AllocError> {
    let Some(ends) = ends else {
        return Ok(());
    };
    print_name("from", out)?;
    print_place(ends.from, out)?;
    print(
        out,
        &[Piece::Markup("</dd></div>\n<div class=\"to\"><dt>to</dt><dd>")],
    )?;
    print_place(ends.to, out)?;
    print_fact_end(out)
}

// Which paragraphs are in another version than their first.
fn print_versions(picks: &[u32], out: &mut Vec<u8>) -> Result<usize, AllocError> {
    let mut count: usize = 0;
    let mut number: usize = 0;
    for pick in picks {
        number = number.saturating_add(1);
        if *pick != 0 {
            let mark = if count == 0 { "no. " } else { ", no. " };
            count = count.saturating_add(1);
            print(
                out,
                &[
                    Piece::Markup(mark),
                    Piece::Count(number),
                    Piece::Markup(" in version "),
                    Piece::Count(*pick as usize),
                ],
            )?;
        }
    }
    Ok(count)
}

// Which paragraphs of a column are not in their natural length.
fn print_picks(picks: &[u32], out: &mut Vec<u8>) -> Result<(), AllocError> {
    if picks.is_empty() {
        return Ok(());
    }
    print_name("not in their natural length", out)?;
    let count = print_versions(picks, out)?;
    if count == 0 {
        print(out, &[Piece::Markup("none")])?;
    }
    print(
        out,
        &[
            Piece::Markup(" (of "),
            Piece::Count(picks.len()),
            Piece::Markup(")"),
        ],
    )?;
    print_fact_end(out)
}

// Whether the texts among areas add up to this total.
fn have_total(areas: &[DrawnArea], total: i64) -> bool {
    for area in areas {
        if is_text(area.name) && !adds_up(area.marks.as_slice(), &total) {
            return false;
        }
    }
    true
}

// That the item lines of a column do not add up to its total, where they do not.
fn print_odd(column: &DrawnColumn, out: &mut Vec<u8>) -> Result<(), AllocError> {
    match column.numbers {
        Some(Numbers::Set { total, .. }) => {
            if have_total(column.areas.as_slice(), total) {
                Ok(())
            } else {
                print(
                    out,
                    &[
                        Piece::Markup("<div class=\"odd\"><dt>item lines</dt>"),
                        Piece::Markup("<dd>add up to another total</dd></div>\n"),
                    ],
                )
            }
        }
        _ => Ok(()),
    }
}

// What is said of one column.
fn print_column(
    view: &View<'_>,
    column: &DrawnColumn,
    picks: &[u32],
    out: &mut Vec<u8>,
) -> Result<(), AllocError> {
    print(out, &[Piece::Markup("<dl>\n")])?;
    print_height(view, column, out)?;
    print_numbers(column.numbers, out)?;
    print_ends(column.ends, out)?;
    print_picks(picks, out)?;
    print_odd(column, out)?;
    print(out, &[Piece::Markup("</dl>\n")])
}

// What is said of all columns of the page of this index.
fn print_sums(
    view: &View<'_>,
    index: usize,
    columns: &[DrawnColumn],
    out: &mut Vec<u8>,
) -> Result<(), AllocError> {
    print(out, &[Piece::Markup("<div class=\"sums\">\n")])?;
    let mut place: usize = 0;
    for column in columns {
        print_column(view, column, column_picks(view.output, index, place), out)?;
        place = place.saturating_add(1);
    }
    print(out, &[Piece::Markup("</div>\n")])
}

// How many floats wait behind the page of this index, as far as is known.
fn waiting_behind(view: &View<'_>, index: usize) -> usize {
    match view.waiting.get(index) {
        Some(Some(count)) => *count,
        _ => 0,
    }
}

// How many floats wait behind the page of this index, where some do.
fn print_waiting(view: &View<'_>, index: usize, out: &mut Vec<u8>) -> Result<(), AllocError> {
    let count = waiting_behind(view, index);
    if count == 0 {
        return Ok(());
    }
    print(out, &[Piece::Markup("<p class=\"wait\">Behind this page ")])?;
    print_count(count as i128, " float waits", " floats wait", out)?;
    print(out, &[Piece::Markup(" for a place.</p>\n")])
}

// The head of a page: a link to it, whose it is where two are drawn, its side and length, its badness.
fn print_head(
    view: &View<'_>,
    whose: bool,
    number: usize,
    page: &DrawnPage,
    out: &mut Vec<u8>,
) -> Result<(), AllocError> {
    print(
        out,
        &[
            Piece::Markup("<h3><a href=\"#"),
            Piece::Markup(view.letter),
            Piece::Count(number),
            Piece::Markup("\">Page "),
            Piece::Count(number),
            Piece::Markup("</a> <span>"),
        ],
    )?;
    if whose {
        print(
            out,
            &[
                Piece::Markup("of <b>"),
                Piece::Text(view.name),
                Piece::Markup("</b> "),
            ],
        )?;
    }
    print_side(view, page, out)?;
    print(
        out,
        &[
            Piece::Markup("</span> <b>badness "),
            Piece::Number(page_badness(page)),
            Piece::Markup("</b></h3>\n"),
        ],
    )
}

/// A page with its head, its picture and its numbers. `whose` tells whether its head names the text that it is of.
pub fn print_card(
    frame: Frame,
    view: &View<'_>,
    whose: bool,
    index: usize,
    page: &DrawnPage,
    out: &mut Vec<u8>,
) -> Result<(), AllocError> {
    let number = index.saturating_add(1);
    print(
        out,
        &[
            Piece::Markup("<article class=\"page\" id=\""),
            Piece::Markup(view.letter),
            Piece::Count(number),
            Piece::Markup("\">\n"),
        ],
    )?;
    print_head(view, whose, number, page, out)?;
    print_picture(view, frame, number, page, out)?;
    print_sums(view, index, page.columns.as_slice(), out)?;
    print_waiting(view, index, out)?;
    print(out, &[Piece::Markup("</article>\n")])
}
