//! The page of one output text.
use crate::card::print_card;
use crate::overview::{is_spread, print_overview};
use crate::pieces::{Piece, print};
use crate::styles::print_styles;
use pg_draw_page::{Frame, View, frame_of, is_side};
use pg_drawing::DrawnPage;
use std::alloc::AllocError;

/// The head of the page, up to its title.
pub fn print_front(out: &mut Vec<u8>) -> Result<(), AllocError> {
    print(
        out,
        &[
            Piece::Markup(
                "<!DOCTYPE html>\n<html lang=\"en\">\n<head>\n<meta charset=\"utf-8\">\n",
            ),
            Piece::Markup(
                "<meta name=\"viewport\" content=\"width=device-width, initial-scale=1\">\n<title>",
            ),
        ],
    )
}

/// The end of the title, the styles, and the beginning of the page.
pub fn print_styled(out: &mut Vec<u8>) -> Result<(), AllocError> {
    print(out, &[Piece::Markup(", page by page</title>\n")])?;
    print_styles(out)?;
    print(
        out,
        &[
            Piece::Markup("</head>\n<body>\n<a class=\"skip\" href=\"#pages\">To the pages</a>\n"),
            Piece::Markup(
                "<svg class=\"defs\" aria-hidden=\"true\"><pattern id=\"hatch\" width=\"140\"",
            ),
            Piece::Markup(
                " height=\"140\" patternUnits=\"userSpaceOnUse\"><path class=\"h\" d=\"M0 70h140\"/>",
            ),
            Piece::Markup("</pattern></svg>\n<header>\n<h1>"),
        ],
    )
}

/// What the marks of the pictures say.
pub fn print_key(out: &mut Vec<u8>) -> Result<(), AllocError> {
    print(
        out,
        &[
            Piece::Markup(
                "<ul class=\"key\"><li><svg viewBox=\"0 0 600 600\" aria-hidden=\"true\">",
            ),
            Piece::Markup(
                "<path class=\"s\" d=\"M20 20h560v560h-560z\"/></svg>glue stretched, the wider the more</li>",
            ),
            Piece::Markup("<li><svg viewBox=\"0 0 600 600\" aria-hidden=\"true\">"),
            Piece::Markup(
                "<path class=\"k\" d=\"M0 0h600v600h-600z\"/></svg>glue shrunk, the wider the more</li>",
            ),
            Piece::Markup("<li class=\"kw\">wide floats</li><li class=\"kt\">floats above</li>"),
            Piece::Markup("<li class=\"ko\">floats below</li><li class=\"kn\">notes</li>"),
            Piece::Markup(
                "<li class=\"kg\">goal</li><li class=\"kl\">height before glue is set</li>",
            ),
            Piece::Markup("<li class=\"kp\">penalty</li><li class=\"kd\">badness</li></ul>\n"),
        ],
    )
}

/// The end of the page.
pub fn print_end(out: &mut Vec<u8>) -> Result<(), AllocError> {
    print(out, &[Piece::Markup("</main>\n</body>\n</html>\n")])
}

// The beginning of a spread: of two pages, of a right page alone, or of a page by itself.
fn print_opening(two: bool, right: bool, out: &mut Vec<u8>) -> Result<(), AllocError> {
    let class = if two {
        "two"
    } else if right {
        "lone"
    } else {
        "one"
    };
    print(
        out,
        &[
            Piece::Markup("<section class=\"spread "),
            Piece::Markup(class),
            Piece::Markup("\">\n"),
        ],
    )
}

// Pages, each left one with the right one behind it.
fn print_spreads(
    frame: Frame,
    view: &View<'_>,
    pages: &[DrawnPage],
    out: &mut Vec<u8>,
) -> Result<(), AllocError> {
    let mut index: usize = 0;
    let mut is_open = false;
    let mut rest = pages;
    'pages: while let [page, after @ ..] = rest {
        let opens = !is_open && is_spread(page, after);
        if !is_open {
            print_opening(opens, is_side(page, false), out)?;
        }
        print_card(frame, view, false, index, page, out)?;
        is_open = opens;
        if !is_open {
            print(out, &[Piece::Markup("</section>\n")])?;
        }
        index = index.saturating_add(1);
        rest = after;
    }
    Ok(())
}

/// The page of one output text.
pub fn print_page(view: &View<'_>, out: &mut Vec<u8>) -> Result<(), AllocError> {
    let frame = frame_of(view.drawing);
    print_front(out)?;
    print(out, &[Piece::Text(view.name)])?;
    print_styled(out)?;
    print(out, &[Piece::Text(view.name), Piece::Markup("</h1>\n")])?;
    print_overview(view, frame, out)?;
    print_key(out)?;
    print(out, &[Piece::Markup("</header>\n<main id=\"pages\">\n")])?;
    print_spreads(frame, view, view.drawing.pages.as_slice(), out)?;
    print_end(out)
}
