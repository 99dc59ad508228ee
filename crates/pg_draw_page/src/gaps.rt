//! The gaps around floats and notes, which a text has that was made by a style of version 3.
use crate::spaces::space_of;
use pg_drawing::{AreaName, Drawing, DrawnArea, DrawnColumn, Mark, Numbers, Shape};

/// Between two areas whose text has no gaps, in scaled points: they are drawn this far apart.
const AREA_GAP: i128 = 393216;

/// What a gap stands between.
#[derive(Clone, Copy)]
pub enum Gap {
    /// Floats and the text.
    Text,
    /// Two floats.
    Floats,
    /// The notes of a class and what is above them.
    Notes,
}

/// What a space in this area stands between, where it is a gap: with a float above it, and with one below it.
pub fn gap_of(name: AreaName, above: bool, below: bool) -> Option<Gap> {
    match name {
        AreaName::Wide | AreaName::Top | AreaName::Bottom => {
            Some(if above && below {
                Gap::Floats
            } else {
                Gap::Text
            })
        }
        AreaName::Notes => Some(Gap::Notes),
        AreaName::Text | AreaName::Other => None,
    }
}

/// Whether an area is that of the text.
pub fn is_text(name: AreaName) -> bool {
    match name {
        AreaName::Text => true,
        _ => false,
    }
}

// Whether a shape is that of glue.
fn is_glue(shape: Shape) -> bool {
    match shape {
        Shape::Glue { .. } => true,
        _ => false,
    }
}

// Whether there is glue among marks.
fn has_glue(marks: &[Mark]) -> bool {
    for mark in marks {
        if is_glue(mark.shape) {
            return true;
        }
    }
    false
}

// Whether areas have gaps.
fn have_gaps(areas: &[DrawnArea]) -> bool {
    for area in areas {
        if !is_text(area.name) && has_glue(area.marks.as_slice()) {
            return true;
        }
    }
    false
}

/// How far apart the areas of a drawing are drawn, in scaled points: not at all where the text has its gaps.
pub fn areas_apart(drawing: &Drawing) -> i128 {
    for page in drawing.pages.as_slice() {
        if have_gaps(page.wide.as_slice()) {
            return 0;
        }
        for column in page.columns.as_slice() {
            if have_gaps(column.areas.as_slice()) {
                return 0;
            }
        }
    }
    AREA_GAP
}

// How much wider the glue of an area is than of itself, in scaled points.
fn area_change(area: &DrawnArea) -> i128 {
    let space = space_of(area.marks.as_slice());
    space.set.saturating_sub(space.own)
}

// How much wider the gaps around a text are than of themselves, in scaled points.
fn gap_change(areas: &[DrawnArea]) -> i128 {
    let mut change: i128 = 0;
    for area in areas {
        if !is_text(area.name) {
            change = change.saturating_add(area_change(area));
        }
    }
    change
}

/// Whether the glue of a text and the gaps around it are as wide as of themselves.
pub fn is_unstretched(areas: &[DrawnArea]) -> bool {
    for area in areas {
        if area_change(area) != 0 {
            return false;
        }
    }
    true
}

/// How areas stand one below the other: how far apart, and where the text is to end and where it ends before its glue is
/// set, below its top and in scaled points.
#[derive(Clone, Copy)]
pub struct Stack {
    pub apart: i128,
    pub ends: Option<TextEnds>,
}

/// The goal and the total of a text, less what the gaps around it are wider than of themselves.
#[derive(Clone, Copy)]
pub struct TextEnds {
    pub goal: i128,
    pub total: i128,
}

/// How the wide areas of a page stand.
pub fn wide_stack(apart: i128) -> Stack {
    Stack { apart, ends: None }
}

/// How the areas of a column stand.
pub fn column_stack(apart: i128, column: &DrawnColumn) -> Stack {
    let change = gap_change(column.areas.as_slice());
    let ends = match column.numbers {
        Some(Numbers::Set { goal, total, .. }) => Some(TextEnds {
            goal: i128::from(goal).saturating_sub(change),
            total: i128::from(total).saturating_sub(change),
        }),
        _ => None,
    };
    Stack { apart, ends }
}
