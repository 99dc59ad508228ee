//! What a text says of all its pages: their cost, the worst of them in words, and a small picture of each, which is a
//! link to it, with a bar of its badness.
use crate::pieces::{Piece, print};
use crate::shapes::{Spot, print_bare};
use crate::tell::print_says;
use pg_draw_page::{
    Frame, Stack, View, all_cost, area_room, areas_height, badness_step, column_stack, full_width,
    is_side, is_text, larger, left_of, page_badness, page_height, units, wide_stack, worst_pages,
};
use pg_drawing::{AreaName, DrawnArea, DrawnColumn, DrawnPage, Mark, Shape};
use std::alloc::AllocError;

// What the pages cost, and how much of it their columns do.
fn print_cost(view: &View<'_>, out: &mut Vec<u8>) -> Result<(), AllocError> {
    let pages = view.drawing.pages.as_slice();
    let columns = all_cost(pages);
    let Some(head) = view.drawing.head else {
        return print(
            out,
            &[Piece::Markup("<p>There is no legal pagination.</p>\n")],
        );
    };
    print(
        out,
        &[
            Piece::Markup("<p><b>"),
            Piece::Count(pages.len()),
            Piece::Markup("</b> pages, cost <b>"),
            Piece::Number(head.cost),
            Piece::Markup("</b>: "),
            Piece::Number(columns),
            Piece::Markup(" for columns, "),
            Piece::Number(head.cost.saturating_sub(columns)),
            Piece::Markup(
                " for late floats, longer or shorter pages and paragraphs, and the like.</p>\n",
            ),
        ],
    )
}

// A page that is among the worst, as a link, where there is one.
fn print_worst_page(
    view: &View<'_>,
    worst: Option<usize>,
    mark: &'static str,
    out: &mut Vec<u8>,
) -> Result<(), AllocError> {
    let Some(index) = worst else {
        return Ok(());
    };
    let Some(page) = view.drawing.pages.as_slice().get(index) else {
        return Ok(());
    };
    let number = index.saturating_add(1);
    print(
        out,
        &[
            Piece::Markup(mark),
            Piece::Markup("<a href=\"#"),
            Piece::Markup(view.letter),
            Piece::Count(number),
            Piece::Markup("\">"),
        ],
    )?;
    print_says(view, number, page, out)?;
    print(out, &[Piece::Markup("</a>")])
}

// The worst pages, in words.
fn print_worst(view: &View<'_>, out: &mut Vec<u8>) -> Result<(), AllocError> {
    let worst = worst_pages(view.drawing.pages.as_slice());
    if worst.first.is_none() {
        return print(out, &[Piece::Markup("<p>No column has any badness.</p>\n")]);
    }
    print_worst_page(view, worst.first, "<p>Worst is ", out)?;
    print_worst_page(view, worst.second, "; then ", out)?;
    print_worst_page(view, worst.third, "; then ", out)?;
    print(out, &[Piece::Markup(".</p>\n")])
}

// The class of an area.
fn area_class(name: AreaName) -> &'static str {
    match name {
        AreaName::Wide => "wide",
        AreaName::Top => "top",
        AreaName::Text => "text",
        AreaName::Bottom => "bottom",
        AreaName::Notes => "notes",
        AreaName::Other => "other",
    }
}

// How much of the room of a text is filled, in scaled points.
fn filled(area: &DrawnArea, stack: Stack) -> i128 {
    let height = larger(area.height, 0);
    match stack.ends {
        Some(ends) => lesser(height, larger(ends.total, 0)),
        None => height,
    }
}

// The lesser of two numbers.
fn lesser(one: i128, other: i128) -> i128 {
    if one < other { one } else { other }
}

// The inserts of an area, small, and not the gaps around them.
fn print_small_inserts(
    spot: &Spot,
    class: &'static str,
    marks: &[Mark],
    out: &mut Vec<u8>,
) -> Result<(), AllocError> {
    for mark in marks {
        match mark.shape {
            Shape::Insert { size, .. } => {
                let top = spot.top.saturating_add(mark.top);
                let end = units(top.saturating_add(i128::from(size)));
                print_bare(class, spot.left, spot.width, units(top), end, out)?;
            }
            _ => {}
        }
    }
    Ok(())
}

// An area, small: how far a text goes, or the inserts of another.
fn print_small_area(
    spot: &Spot,
    area: &DrawnArea,
    stack: Stack,
    out: &mut Vec<u8>,
) -> Result<(), AllocError> {
    let class = area_class(area.name);
    if is_text(area.name) {
        let end = units(spot.top.saturating_add(filled(area, stack)));
        return print_bare(class, spot.left, spot.width, units(spot.top), end, out);
    }
    print_small_inserts(spot, class, area.marks.as_slice(), out)
}

// Areas, small, one below the other.
fn print_small_areas(
    spot: &Spot,
    areas: &[DrawnArea],
    stack: Stack,
    out: &mut Vec<u8>,
) -> Result<(), AllocError> {
    let mut top = spot.top;
    for area in areas {
        let here = Spot {
            left: spot.left,
            width: spot.width,
            top,
        };
        print_small_area(&here, area, stack, out)?;
        top = top
            .saturating_add(area_room(area, stack))
            .saturating_add(stack.apart);
    }
    Ok(())
}

// The columns of a page, small, below its wide areas.
fn print_small_columns(
    frame: Frame,
    apart: i128,
    top: i128,
    columns: &[DrawnColumn],
    out: &mut Vec<u8>,
) -> Result<(), AllocError> {
    let mut index: i128 = 0;
    for column in columns {
        let spot = Spot {
            left: left_of(frame, index),
            width: frame.width,
            top,
        };
        let stack = column_stack(apart, column);
        print_small_areas(&spot, column.areas.as_slice(), stack, out)?;
        index = index.saturating_add(1);
    }
    Ok(())
}

// A page, small.
fn print_small(
    frame: Frame,
    apart: i128,
    page: &DrawnPage,
    out: &mut Vec<u8>,
) -> Result<(), AllocError> {
    let across = full_width(frame);
    print(
        out,
        &[
            Piece::Markup("<svg viewBox=\"-1500 -1500 "),
            Piece::Number(across.saturating_add(3000)),
            Piece::Markup(" "),
            Piece::Number(units(page_height(page, apart)).saturating_add(3000)),
            Piece::Markup("\" aria-hidden=\"true\">"),
        ],
    )?;
    let spot = Spot {
        left: 0,
        width: across,
        top: 0,
    };
    let stack = wide_stack(apart);
    print_small_areas(&spot, page.wide.as_slice(), stack, out)?;
    let below = areas_height(page.wide.as_slice(), stack);
    print_small_columns(frame, apart, below, page.columns.as_slice(), out)?;
    print(out, &[Piece::Markup("</svg>")])
}

// A small page as a link, with the bar of its badness and its number below.
fn print_small_link(
    view: &View<'_>,
    frame: Frame,
    number: usize,
    page: &DrawnPage,
    out: &mut Vec<u8>,
) -> Result<(), AllocError> {
    print(
        out,
        &[
            Piece::Markup("<a href=\"#"),
            Piece::Markup(view.letter),
            Piece::Count(number),
            Piece::Markup("\" title=\""),
        ],
    )?;
    print_says(view, number, page, out)?;
    print(out, &[Piece::Markup("\">")])?;
    print_small(frame, view.apart, page, out)?;
    print(
        out,
        &[
            Piece::Markup("<i style=\"--b:"),
            Piece::Number(badness_step(page_badness(page))),
            Piece::Markup("\"></i>"),
            Piece::Count(number),
            Piece::Markup("</a>"),
        ],
    )
}

/// Whether a page and the one behind it are a spread.
pub fn is_spread(page: &DrawnPage, after: &[DrawnPage]) -> bool {
    match after {
        [next, ..] => is_side(page, true) && is_side(next, false),
        [] => false,
    }
}

// The beginning of a spread: one whose only page is a right one leaves room for a left one.
fn print_small_opening(page: &DrawnPage, out: &mut Vec<u8>) -> Result<(), AllocError> {
    print(
        out,
        &[Piece::Markup(if is_side(page, false) {
            "<li class=\"right\">"
        } else {
            "<li>"
        })],
    )
}

// All pages, small, in spreads.
fn print_all(view: &View<'_>, frame: Frame, out: &mut Vec<u8>) -> Result<(), AllocError> {
    print(
        out,
        &[
            Piece::Markup("<nav aria-label=\"All pages of "),
            Piece::Text(view.name),
            Piece::Markup("\"><ol class=\"all\">\n"),
        ],
    )?;
    let mut number: usize = 0;
    let mut is_open = false;
    let mut rest = view.drawing.pages.as_slice();
    'pages: while let [page, after @ ..] = rest {
        number = number.saturating_add(1);
        let opens = !is_open && is_spread(page, after);
        if !is_open {
            print_small_opening(page, out)?;
        }
        print_small_link(view, frame, number, page, out)?;
        is_open = opens;
        if !is_open {
            print(out, &[Piece::Markup("</li>\n")])?;
        }
        rest = after;
    }
    print(out, &[Piece::Markup("</ol></nav>\n")])
}

/// What a text says of all its pages.
pub fn print_overview(view: &View<'_>, frame: Frame, out: &mut Vec<u8>) -> Result<(), AllocError> {
    print_cost(view, out)?;
    print_worst(view, out)?;
    print_all(view, frame, out)
}
