//! The scale of a picture, and what stands where in it.
use crate::gaps::{Stack, column_stack, wide_stack};
use pg_drawing::{AreaName, Drawing, DrawnArea, DrawnColumn, DrawnPage, Numbers};

/// Between two columns, in units: room for the marks beside them.
const COLUMN_GAP: i128 = 2200;

/// The least width of a column, in units.
const LEAST_WIDTH: i128 = 1000;

/// How wide a column is, in units, and how many stand side by side.
#[derive(Clone, Copy)]
pub struct Frame {
    pub width: i128,
    pub columns: i128,
}

/// Scaled points in units of a hundredth of a point. Each place is scaled once, so that nothing drifts.
pub fn units(length: i128) -> i128 {
    length.saturating_mul(100).div_euclid(65536)
}

/// The larger of two numbers.
pub fn larger(one: i128, other: i128) -> i128 {
    if one < other { other } else { one }
}

/// A number divided by another, or 0 where that is 0.
pub fn quotient(number: i128, by: i128) -> i128 {
    match number.checked_div(by) {
        Some(quotient) => quotient,
        None => 0,
    }
}

/// A number that is cut to 64 bits.
pub fn shorter(number: i128) -> i64 {
    if number > 9223372036854775807 {
        9223372036854775807
    } else if number < -9223372036854775807 {
        -9223372036854775807
    } else {
        number as i64
    }
}

/// What a column costs, as its numbers say.
pub fn column_cost(column: &DrawnColumn) -> i128 {
    match column.numbers {
        Some(Numbers::Set { demerits, .. }) => demerits,
        Some(Numbers::Without { demerits }) => demerits,
        None => 0,
    }
}

/// What the columns of a page cost.
pub fn page_cost(page: &DrawnPage) -> i128 {
    let mut cost: i128 = 0;
    for column in page.columns.as_slice() {
        cost = cost.saturating_add(column_cost(column));
    }
    cost
}

/// What the columns of all pages cost.
pub fn all_cost(pages: &[DrawnPage]) -> i128 {
    let mut cost: i128 = 0;
    for page in pages {
        cost = cost.saturating_add(page_cost(page));
    }
    cost
}

// The most columns that a page has.
fn most_columns(pages: &[DrawnPage]) -> i128 {
    let mut most: i128 = 1;
    for page in pages {
        most = larger(most, page.columns.as_slice().len() as i128);
    }
    most
}

/// The frame in which all pages of a drawing have room.
pub fn frame_of(drawing: &Drawing) -> Frame {
    let width = match drawing.head {
        Some(head) => units(i128::from(head.width)),
        None => 0,
    };
    Frame {
        width: larger(width, LEAST_WIDTH),
        columns: most_columns(drawing.pages.as_slice()),
    }
}

/// The frame that has room for both.
pub fn both(one: Frame, other: Frame) -> Frame {
    Frame {
        width: larger(one.width, other.width),
        columns: larger(one.columns, other.columns),
    }
}

/// Where the column of this index begins, in units.
pub fn left_of(frame: Frame, index: i128) -> i128 {
    frame.width.saturating_add(COLUMN_GAP).saturating_mul(index)
}

/// How wide all columns are, in units.
pub fn full_width(frame: Frame) -> i128 {
    left_of(frame, frame.columns).saturating_sub(COLUMN_GAP)
}

/// How much of a column an area takes, in scaled points: a text down to where it is to end, or more where it is longer.
pub fn area_room(area: &DrawnArea, stack: Stack) -> i128 {
    match (area.name, stack.ends) {
        (AreaName::Text, Some(ends)) => larger(area.height, ends.goal),
        _ => larger(area.height, 0),
    }
}

/// How high areas are one below the other, in scaled points, each with what is left free behind it.
pub fn areas_height(areas: &[DrawnArea], stack: Stack) -> i128 {
    let mut height: i128 = 0;
    for area in areas {
        height = height
            .saturating_add(area_room(area, stack))
            .saturating_add(stack.apart);
    }
    height
}

/// How high a page is, in scaled points, with areas so far apart.
pub fn page_height(page: &DrawnPage, apart: i128) -> i128 {
    let mut height: i128 = 0;
    for column in page.columns.as_slice() {
        let stack = column_stack(apart, column);
        height = larger(height, areas_height(column.areas.as_slice(), stack));
    }
    height.saturating_add(areas_height(page.wide.as_slice(), wide_stack(apart)))
}
