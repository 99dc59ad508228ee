//! Whether a page is longer or shorter than others, and how a short column ends.
use crate::fill::{Fill, column_fill};
use crate::gaps::{is_text, is_unstretched};
use crate::view::View;
use pg_drawing::{DrawnArea, DrawnColumn, DrawnPage, Numbers};

/// How much longer or shorter a page is than one of the first run.
#[derive(Clone, Copy)]
pub enum Length {
    /// As long as one of the first run.
    Usual,
    /// So many lines longer, or shorter where it is below 0.
    Lines(i128),
    /// So many scaled points longer, or shorter where it is below 0.
    Points(i128),
    /// It is of this run, and nothing tells how long that is.
    Run(u8),
}

/// How the foot of a column comes about.
#[derive(Clone, Copy)]
pub enum Foot {
    /// Its glue is set, or it needs not be.
    Set,
    /// It is short, and its glue is as wide as of itself.
    Unstretched,
    /// The same in a style that leaves columns ragged.
    Ragged,
}

// Whether a style leaves columns ragged.
fn is_ragged(view: &View<'_>) -> bool {
    match view.style {
        Some(style) => style.ragged.is_some(),
        None => false,
    }
}

/// How the foot of a column comes about.
pub fn column_foot(view: &View<'_>, column: &DrawnColumn) -> Foot {
    match column_fill(column) {
        Fill::Short(_) => {
            if !is_unstretched(column.areas.as_slice()) {
                Foot::Set
            } else if is_ragged(view) {
                Foot::Ragged
            } else {
                Foot::Unstretched
            }
        }
        _ => Foot::Set,
    }
}

// Whether areas are a text alone.
fn is_text_alone(areas: &[DrawnArea]) -> bool {
    match areas {
        [area] => is_text(area.name),
        _ => false,
    }
}

// The goal of a column that has text alone.
fn plain_goal(column: &DrawnColumn) -> Option<i64> {
    if !is_text_alone(column.areas.as_slice()) {
        return None;
    }
    match column.numbers {
        Some(Numbers::Set { goal, .. }) => Some(goal),
        _ => None,
    }
}

// Whether a page is of this run and has no wide floats.
fn is_plain(page: &DrawnPage, run: u8) -> bool {
    match page.head {
        Some(head) => head.run == run && page.wide.as_slice().is_empty(),
        None => false,
    }
}

// The goal of a column with text alone on a page.
fn page_goal(page: &DrawnPage) -> Option<i64> {
    for column in page.columns.as_slice() {
        if let Some(goal) = plain_goal(column) {
            return Some(goal);
        }
    }
    None
}

// The goal of a column with text alone on the pages of a run.
fn run_goal(pages: &[DrawnPage], run: u8) -> Option<i64> {
    for page in pages {
        if is_plain(page, run) {
            if let Some(goal) = page_goal(page) {
                return Some(goal);
            }
        }
    }
    None
}

// How much longer the pages of a run are, as the style says, or as columns with text alone tell.
fn run_extra(view: &View<'_>, run: u8) -> Option<i128> {
    match view.style {
        Some(style) => match style.runs.as_slice().get(usize::from(run)) {
            Some(rule) => Some(i128::from(rule.extra)),
            None => None,
        },
        None => {
            let pages = view.drawing.pages.as_slice();
            let usual = run_goal(pages, 0)?;
            let goal = run_goal(pages, run)?;
            Some(i128::from(goal) - i128::from(usual))
        }
    }
}

// A length in lines, where it is so many lines but for a tenth of one.
fn in_lines(extra: i128, pitch: i128) -> Length {
    if pitch <= 0 {
        return Length::Points(extra);
    }
    let half = pitch / 2;
    let lines = extra.saturating_add(half).div_euclid(pitch);
    let rest = extra.saturating_sub(lines.saturating_mul(pitch));
    if lines != 0 && rest.saturating_abs().saturating_mul(10) <= pitch {
        Length::Lines(lines)
    } else {
        Length::Points(extra)
    }
}

/// How much longer or shorter a page is than one of the first run.
pub fn page_length(view: &View<'_>, page: &DrawnPage) -> Length {
    match page.head {
        None => Length::Usual,
        Some(head) => match run_extra(view, head.run) {
            Some(extra) => {
                if extra == 0 {
                    Length::Usual
                } else {
                    in_lines(extra, view.lines.pitch)
                }
            }
            None => {
                if head.run == 0 {
                    Length::Usual
                } else {
                    Length::Run(head.run)
                }
            }
        },
    }
}
