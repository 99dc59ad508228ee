//! The marks of an area, drawn.
use crate::pieces::{Piece, print};
use crate::shapes::{
    Rows, Span, Spot, print_bare, print_block, print_line, print_row, print_strip,
};
use crate::tell::print_class;
use pg_draw_page::{
    Gap, Space, View, change_step, gap_of, next_row, row_count, shorter, space_len, space_of, units,
};
use pg_drawing::{AreaName, Mark, Shape};
use std::alloc::AllocError;

// How far beside a column the marks of glue begin, and how wide one step of them is, in units.
const BESIDE: i128 = 250;

const STEP: i128 = 260;

// How wide the line at the left of an insert is, in units.
const EDGE: i128 = 120;

// How high a box is above its baseline, how deep below it, and how wide, in scaled points.
#[derive(Clone, Copy)]
struct BoxSize {
    height: i32,
    depth: i32,
    width: i32,
}

// What the pointer tells of a box.
fn print_box_title(size: BoxSize, out: &mut Vec<u8>) -> Result<(), AllocError> {
    print(
        out,
        &[
            Piece::Markup("><title>box "),
            Piece::Length(i64::from(size.height)),
            Piece::Markup(" + "),
            Piece::Length(i64::from(size.depth)),
            Piece::Markup(", "),
            Piece::Length(i64::from(size.width)),
            Piece::Markup(" wide</title></path>"),
        ],
    )
}

// The letters of a box: one row on its baseline, or rows from its top on.
fn print_letters(
    view: &View<'_>,
    spot: &Spot,
    words: &[u8],
    span: Span,
    base: i128,
    out: &mut Vec<u8>,
) -> Result<(), AllocError> {
    let size = view.lines.size;
    if row_count(words) > 1 {
        return print_block(spot, words, span, size, false, out);
    }
    let rows = Rows {
        left: spot.left,
        width: spot.width,
        base,
        pitch: 0,
        size,
        usual: size,
    };
    match next_row(words) {
        Some((row, _)) => print_row(&rows, row, false, out),
        None => Ok(()),
    }
}

// A box: its letters before a tint, or a bar in the place of its letters where there are none.
fn print_box(
    view: &View<'_>,
    spot: &Spot,
    mark: &Mark,
    size: BoxSize,
    out: &mut Vec<u8>,
) -> Result<(), AllocError> {
    let top = spot.top.saturating_add(mark.top);
    let foot = top.saturating_add(i128::from(size.height));
    let base = units(foot);
    let span = Span {
        from: units(top),
        to: units(foot.saturating_add(i128::from(size.depth))),
    };
    let across = units(i128::from(size.width)).saturating_abs();
    let words = mark.words.as_slice();
    if row_count(words) == 0 {
        let half = base.saturating_sub(span.from) / 2;
        print_strip("n", spot.left, across, base.saturating_sub(half), base, out)?;
        return print_box_title(size, out);
    }
    print_strip("b", spot.left, across, span.from, span.to, out)?;
    print_box_title(size, out)?;
    let room = Spot {
        left: spot.left,
        width: across,
        top,
    };
    print_letters(view, &room, words, span, base, out)
}

// One of the parts of a space.
fn print_part(shape: Shape, out: &mut Vec<u8>) -> Result<(), AllocError> {
    match shape {
        Shape::Glue { own, .. } => print(out, &[Piece::Markup("glue "), Piece::Length(own)]),
        Shape::Kern { width } => print(
            out,
            &[Piece::Markup("kern "), Piece::Length(i64::from(width))],
        ),
        Shape::Penalty { value } => print(
            out,
            &[Piece::Markup("penalty "), Piece::Number(i128::from(value))],
        ),
        _ => Ok(()),
    }
}

// Whether the pointer tells of a shape.
fn is_told(shape: Shape) -> bool {
    match shape {
        Shape::Glue { .. } | Shape::Kern { .. } | Shape::Penalty { .. } => true,
        _ => false,
    }
}

// What the pointer tells of a space: its parts, and how wide they are together.
fn print_space_title(marks: &[Mark], space: Space, out: &mut Vec<u8>) -> Result<(), AllocError> {
    print(out, &[Piece::Markup("><title>")])?;
    let mut is_first = true;
    for mark in marks {
        if is_told(mark.shape) {
            print(out, &[Piece::Markup(if is_first { "" } else { ", " })])?;
            print_part(mark.shape, out)?;
            is_first = false;
        }
    }
    print(
        out,
        &[
            Piece::Markup("; here "),
            Piece::Length(shorter(space.set)),
            Piece::Markup("</title></path>"),
        ],
    )
}

// Whether a shape is that of a penalty.
fn is_penalty(shape: Shape) -> bool {
    match shape {
        Shape::Penalty { .. } => true,
        _ => false,
    }
}

// The ticks of penalties.
fn print_ticks(spot: &Spot, marks: &[Mark], out: &mut Vec<u8>) -> Result<(), AllocError> {
    for mark in marks {
        if is_penalty(mark.shape) {
            let at = units(spot.top.saturating_add(mark.top));
            let left = spot.left.saturating_sub(600);
            print_line("p", left, 350, at, out)?;
            print(out, &[Piece::Markup("/>")])?;
        }
    }
    Ok(())
}

// Whether a mark is glue or a kern.
fn is_space(shape: Shape) -> bool {
    match shape {
        Shape::Glue { .. } | Shape::Kern { .. } => true,
        _ => false,
    }
}

// Whether there is glue or a kern among marks.
fn has_space(marks: &[Mark]) -> bool {
    for mark in marks {
        if is_space(mark.shape) {
            return true;
        }
    }
    false
}

// A space within a column, which is not seen, without the end of its tag.
fn print_free(spot: &Spot, space: Space, from: i128, out: &mut Vec<u8>) -> Result<(), AllocError> {
    let end = units(from.saturating_add(space.set));
    print_strip("g", spot.left, spot.width, units(from), end, out)
}

// The band beside a space that is stretched or shrunk, without the end of its tag.
fn print_band(spot: &Spot, space: Space, from: i128, out: &mut Vec<u8>) -> Result<(), AllocError> {
    let class = if space.set > space.own { "s" } else { "k" };
    let left = spot.left.saturating_add(spot.width).saturating_add(BESIDE);
    let width = STEP.saturating_mul(change_step(space));
    let end = units(from.saturating_add(space.set));
    print_strip(class, left, width, units(from), end, out)
}

// What a gap stands between, in words.
fn gap_words(gap: Gap) -> &'static str {
    match gap {
        Gap::Text => "gap between floats and text",
        Gap::Floats => "gap between floats",
        Gap::Notes => "gap above notes",
    }
}

// A gap, with what it is and how high of itself and here, and its band where it is stretched or shrunk.
fn print_gap(
    spot: &Spot,
    gap: Gap,
    space: Space,
    from: i128,
    out: &mut Vec<u8>,
) -> Result<(), AllocError> {
    print(
        out,
        &[
            Piece::Markup("<g><title>"),
            Piece::Markup(gap_words(gap)),
            Piece::Markup(", natural size "),
            Piece::Length(shorter(space.own)),
            Piece::Markup(", here "),
            Piece::Length(shorter(space.set)),
            Piece::Markup("</title>"),
        ],
    )?;
    print_free(spot, space, from, out)?;
    print(out, &[Piece::Markup("/>")])?;
    if change_step(space) > 0 {
        print_band(spot, space, from, out)?;
        print(out, &[Piece::Markup("/>")])?;
    }
    print(out, &[Piece::Markup("</g>\n")])
}

// Glue and kerns between two boxes, with their parts where the pointer rests on them.
fn print_glue(
    spot: &Spot,
    marks: &[Mark],
    space: Space,
    from: i128,
    out: &mut Vec<u8>,
) -> Result<(), AllocError> {
    if change_step(space) == 0 {
        print_free(spot, space, from, out)?;
    } else {
        print_band(spot, space, from, out)?;
    }
    print_space_title(marks, space, out)
}

// What stands between two boxes, or a gap.
fn print_space(
    spot: &Spot,
    gap: Option<Gap>,
    marks: &[Mark],
    out: &mut Vec<u8>,
) -> Result<(), AllocError> {
    let Some(first) = marks.first() else {
        return Ok(());
    };
    if has_space(marks) {
        let space = space_of(marks);
        let from = spot.top.saturating_add(first.top);
        match gap {
            Some(gap) => print_gap(spot, gap, space, from, out)?,
            None => print_glue(spot, marks, space, from, out)?,
        }
    }
    print_ticks(spot, marks, out)
}

// The classes of the tint of an insert, and of the line at its left.
fn insert_classes(name: AreaName) -> (&'static str, &'static str) {
    match name {
        AreaName::Wide => ("i wide", "e wide"),
        AreaName::Top => ("i top", "e top"),
        AreaName::Bottom => ("i bottom", "e bottom"),
        AreaName::Notes => ("i notes", "e notes"),
        AreaName::Text | AreaName::Other => ("i", "e"),
    }
}

// An insert: the area that it stands in, its class, and how high it is, in scaled points.
#[derive(Clone, Copy)]
struct Insert {
    area: AreaName,
    class: u32,
    size: i32,
}

// The tint of an insert, with its outline, what the pointer tells of it, and the line at its left.
fn print_tint(
    view: &View<'_>,
    spot: &Spot,
    insert: Insert,
    out: &mut Vec<u8>,
) -> Result<(), AllocError> {
    let top = units(spot.top);
    let end = units(spot.top.saturating_add(i128::from(insert.size)));
    let (tint, edge) = insert_classes(insert.area);
    print_strip(tint, spot.left, spot.width, top, end, out)?;
    print(out, &[Piece::Markup("><title>")])?;
    print_class(view, insert.class, out)?;
    print(
        out,
        &[
            Piece::Markup(", "),
            Piece::Length(i64::from(insert.size)),
            Piece::Markup(" high</title></path>"),
        ],
    )?;
    print_bare(edge, spot.left, EDGE, top, end, out)
}

// An insert: a note with all its lines, or a float with its class and the letters of its caption.
fn print_insert(
    view: &View<'_>,
    spot: &Spot,
    mark: &Mark,
    insert: Insert,
    out: &mut Vec<u8>,
) -> Result<(), AllocError> {
    let here = Spot {
        left: spot.left,
        width: spot.width,
        top: spot.top.saturating_add(mark.top),
    };
    print_tint(view, &here, insert, out)?;
    let top = units(here.top);
    let end = units(here.top.saturating_add(i128::from(insert.size)));
    let room = Spot {
        left: spot.left.saturating_add(300),
        width: spot.width.saturating_sub(600),
        top: here.top,
    };
    let words = mark.words.as_slice();
    if is_notes(insert.area) {
        let whole = Span { from: top, to: end };
        return print_block(&room, words, whole, view.lines.size, false, out);
    }
    print_class_label(view, room.left, top, insert, out)?;
    let below = Span {
        from: top.saturating_add(1000),
        to: end,
    };
    print_block(&room, words, below, view.lines.size, true, out)
}

// The class of a float, in its picture.
fn print_class_label(
    view: &View<'_>,
    left: i128,
    top: i128,
    insert: Insert,
    out: &mut Vec<u8>,
) -> Result<(), AllocError> {
    print(
        out,
        &[
            Piece::Markup("<text class=\"c\" x=\""),
            Piece::Number(left),
            Piece::Markup("\" y=\""),
            Piece::Number(top.saturating_add(900)),
            Piece::Markup("\">"),
        ],
    )?;
    print_class(view, insert.class, out)?;
    print(
        out,
        &[
            Piece::Markup(", "),
            Piece::Points(i64::from(insert.size)),
            Piece::Markup(" points</text>"),
        ],
    )
}

// A rule.
fn print_rule(
    spot: &Spot,
    mark: &Mark,
    height: i32,
    depth: i32,
    out: &mut Vec<u8>,
) -> Result<(), AllocError> {
    let top = spot.top.saturating_add(mark.top);
    let size = i128::from(height) + i128::from(depth);
    let end = units(top.saturating_add(size));
    print_strip("r", spot.left, spot.width, units(top), end, out)?;
    print(
        out,
        &[
            Piece::Markup("><title>rule "),
            Piece::Length(i64::from(height)),
            Piece::Markup(" + "),
            Piece::Length(i64::from(depth)),
            Piece::Markup("</title></path>"),
        ],
    )
}

// A box, a rule or an insert.
fn print_mark(
    view: &View<'_>,
    spot: &Spot,
    mark: &Mark,
    area: AreaName,
    out: &mut Vec<u8>,
) -> Result<(), AllocError> {
    match mark.shape {
        Shape::Box {
            height,
            depth,
            width,
        } => {
            let size = BoxSize {
                height,
                depth,
                width,
            };
            print_box(view, spot, mark, size, out)
        }
        Shape::Rule { height, depth } => print_rule(spot, mark, height, depth, out),
        Shape::Insert { class, size } => {
            let insert = Insert { area, class, size };
            print_insert(view, spot, mark, insert, out)
        }
        _ => Ok(()),
    }
}

/// The marks of an area, one below the other, with what stands between them.
pub fn print_marks(
    view: &View<'_>,
    spot: &Spot,
    name: AreaName,
    marks: &[Mark],
    out: &mut Vec<u8>,
) -> Result<(), AllocError> {
    let mut rest = marks;
    let mut above = false;
    'marks: while !rest.is_empty() {
        let (between, behind) = rest.split_at(space_len(rest));
        print_space(spot, gap_of(name, above, !behind.is_empty()), between, out)?;
        match behind {
            [mark, after @ ..] => {
                print_mark(view, spot, mark, name, out)?;
                print(out, &[Piece::Markup("\n")])?;
                above = true;
                rest = after;
            }
            [] => return Ok(()),
        }
    }
    Ok(())
}

// Whether an area has notes.
fn is_notes(name: AreaName) -> bool {
    match name {
        AreaName::Notes => true,
        _ => false,
    }
}
