//! The page of two output texts side by side: the pages that differ first.
use crate::card::print_card;
use crate::overview::print_overview;
use crate::page::{print_end, print_front, print_key, print_styled};
use crate::pieces::{Piece, print};
use pg_draw_page::{Frame, View, both, frame_of};
use pg_drawing::{DrawnColumn, DrawnPage, Ends};
use std::alloc::AllocError;

/// Two texts side by side, in one frame.
#[derive(Clone, Copy)]
struct Pair<'a> {
    one: &'a View<'a>,
    other: &'a View<'a>,
    frame: Frame,
}

// Whether two columns begin and end at the same places.
fn has_same_ends(one: Option<Ends>, other: Option<Ends>) -> bool {
    match (one, other) {
        (Some(one), Some(other)) => one.from == other.from && one.to == other.to,
        (None, None) => true,
        _ => false,
    }
}

// Whether all columns do.
fn have_same_ends(one: &[DrawnColumn], other: &[DrawnColumn]) -> bool {
    if one.len() != other.len() {
        return false;
    }
    for (left, right) in one.iter().zip(other) {
        if !has_same_ends(left.ends, right.ends) {
            return false;
        }
    }
    true
}

// Whether two pages are broken at the same places.
fn is_same(one: Option<&DrawnPage>, other: Option<&DrawnPage>) -> bool {
    match (one, other) {
        (Some(one), Some(other)) => {
            have_same_ends(one.columns.as_slice(), other.columns.as_slice())
        }
        _ => false,
    }
}

// For each number whether the pages of it are broken at the same places in both.
fn compare(pair: &Pair<'_>, out: &mut Vec<bool>) -> Result<(), AllocError> {
    let left = pair.one.drawing.pages.as_slice();
    let right = pair.other.drawing.pages.as_slice();
    let count = if left.len() < right.len() {
        right.len()
    } else {
        left.len()
    };
    for index in 0..count {
        out.push(is_same(left.get(index), right.get(index)))?;
    }
    Ok(())
}

// The page of this index, or that there is none.
fn print_side_of(
    frame: Frame,
    view: &View<'_>,
    index: usize,
    out: &mut Vec<u8>,
) -> Result<(), AllocError> {
    match view.drawing.pages.as_slice().get(index) {
        Some(page) => print_card(frame, view, true, index, page, out),
        None => print(
            out,
            &[
                Piece::Markup("<p class=\"none\"><b>"),
                Piece::Text(view.name),
                Piece::Markup("</b> has no such page.</p>\n"),
            ],
        ),
    }
}

// The first of this kind behind an index.
fn next_of(same: &[bool], kind: bool, index: usize) -> Option<usize> {
    let mut at: usize = 0;
    for is_same in same {
        if at > index && *is_same == kind {
            return Some(at);
        }
        at = at.saturating_add(1);
    }
    None
}

// The last of this kind before an index.
fn last_of(same: &[bool], kind: bool, index: usize) -> Option<usize> {
    let mut found: Option<usize> = None;
    let mut at: usize = 0;
    for is_same in same {
        if at < index && *is_same == kind {
            found = Some(at);
        }
        at = at.saturating_add(1);
    }
    found
}

// A link to the pages of an index.
fn print_step(
    before: &'static str,
    index: usize,
    behind: &'static str,
    out: &mut Vec<u8>,
) -> Result<(), AllocError> {
    let number = index.saturating_add(1);
    print(
        out,
        &[
            Piece::Markup("<a href=\"#d"),
            Piece::Count(number),
            Piece::Markup("\">"),
            Piece::Markup(before),
            Piece::Markup("page "),
            Piece::Count(number),
            Piece::Markup(behind),
            Piece::Markup("</a>"),
        ],
    )
}

// Links to the pages before and behind that are of the same kind.
fn print_steps(
    same: &[bool],
    kind: bool,
    index: usize,
    out: &mut Vec<u8>,
) -> Result<(), AllocError> {
    print(out, &[Piece::Markup("<p class=\"step\">")])?;
    if let Some(last) = last_of(same, kind, index) {
        print_step("← ", last, "", out)?;
    }
    print(
        out,
        &[
            Piece::Markup("<b>Page "),
            Piece::Count(index.saturating_add(1)),
            Piece::Markup("</b>"),
        ],
    )?;
    if let Some(next) = next_of(same, kind, index) {
        print_step("", next, " →", out)?;
    }
    print(out, &[Piece::Markup("</p>\n")])
}

// The pages of one index of both.
fn print_both(
    pair: &Pair<'_>,
    same: &[bool],
    kind: bool,
    index: usize,
    out: &mut Vec<u8>,
) -> Result<(), AllocError> {
    print(
        out,
        &[
            Piece::Markup(if kind {
                "<section class=\"pair\" id=\"d"
            } else {
                "<section class=\"pair parted\" id=\"d"
            }),
            Piece::Count(index.saturating_add(1)),
            Piece::Markup("\">\n"),
        ],
    )?;
    print_steps(same, kind, index, out)?;
    print_side_of(pair.frame, pair.one, index, out)?;
    print_side_of(pair.frame, pair.other, index, out)?;
    print(out, &[Piece::Markup("</section>\n")])
}

// How many are of this kind.
fn count_of(same: &[bool], kind: bool) -> usize {
    let mut count: usize = 0;
    for is_same in same {
        if *is_same == kind {
            count = count.saturating_add(1);
        }
    }
    count
}

// All pages of this kind, behind a heading, unless there is none.
fn print_kind(
    pair: &Pair<'_>,
    same: &[bool],
    kind: bool,
    title: &'static str,
    out: &mut Vec<u8>,
) -> Result<(), AllocError> {
    if count_of(same, kind) == 0 {
        return Ok(());
    }
    print(
        out,
        &[
            Piece::Markup("<h2>"),
            Piece::Markup(title),
            Piece::Markup("</h2>\n"),
        ],
    )?;
    let mut index: usize = 0;
    for is_same in same {
        if *is_same == kind {
            print_both(pair, same, kind, index, out)?;
        }
        index = index.saturating_add(1);
    }
    Ok(())
}

// What one of both says of all its pages.
fn print_one(
    view: &View<'_>,
    frame: Frame,
    place: &'static str,
    out: &mut Vec<u8>,
) -> Result<(), AllocError> {
    print(
        out,
        &[
            Piece::Markup("<section>\n<h2>"),
            Piece::Text(view.name),
            Piece::Markup(place),
            Piece::Markup("</h2>\n"),
        ],
    )?;
    print_overview(view, frame, out)?;
    print(out, &[Piece::Markup("</section>\n")])
}

// On which pages the breaks of both differ.
fn print_parted(same: &[bool], out: &mut Vec<u8>) -> Result<(), AllocError> {
    let count = count_of(same, false);
    if count == 0 {
        return print(out, &[Piece::Markup("<p>Both are broken alike.</p>\n")]);
    }
    print(
        out,
        &[
            Piece::Markup("<p class=\"parts\">Breaks differ on "),
            Piece::Count(count),
            Piece::Markup(" of "),
            Piece::Count(same.len()),
            Piece::Markup(" pages:"),
        ],
    )?;
    let mut index: usize = 0;
    for is_same in same {
        if !*is_same {
            let number = index.saturating_add(1);
            print(
                out,
                &[
                    Piece::Markup(" <a href=\"#d"),
                    Piece::Count(number),
                    Piece::Markup("\">"),
                    Piece::Count(number),
                    Piece::Markup("</a>"),
                ],
            )?;
        }
        index = index.saturating_add(1);
    }
    print(out, &[Piece::Markup(".</p>\n")])
}

// The names of both.
fn print_names(pair: &Pair<'_>, out: &mut Vec<u8>) -> Result<(), AllocError> {
    print(
        out,
        &[
            Piece::Text(pair.one.name),
            Piece::Markup(" and "),
            Piece::Text(pair.other.name),
        ],
    )
}

// The head of the page.
fn print_head(pair: &Pair<'_>, same: &[bool], out: &mut Vec<u8>) -> Result<(), AllocError> {
    print_front(out)?;
    print_names(pair, out)?;
    print_styled(out)?;
    print_names(pair, out)?;
    print(out, &[Piece::Markup("</h1>\n")])?;
    print_parted(same, out)?;
    print_one(pair.one, pair.frame, ", on the left", out)?;
    print_one(pair.other, pair.frame, ", on the right", out)?;
    print_key(out)?;
    print(out, &[Piece::Markup("</header>\n<main id=\"pages\">\n")])
}

/// The page of two output texts side by side.
pub fn print_pair(
    one: &View<'_>,
    other: &View<'_>,
    same: &mut Vec<bool>,
    out: &mut Vec<u8>,
) -> Result<(), AllocError> {
    let pair = Pair {
        one,
        other,
        frame: both(frame_of(one.drawing), frame_of(other.drawing)),
    };
    compare(&pair, same)?;
    print_head(&pair, same.as_slice(), out)?;
    print_kind(&pair, same.as_slice(), false, "Pages that differ", out)?;
    print_kind(
        &pair,
        same.as_slice(),
        true,
        "Pages that are broken alike",
        out,
    )?;
    print_end(out)
}
