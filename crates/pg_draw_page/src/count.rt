//! What is counted on a page: floats, notes, paragraphs that are not in their first length, and floats that wait.
use pg_drawing::{AreaName, DrawnArea, DrawnPage, Mark, Shape};
use pg_labels::{Output, Shown};
use pg_list::Place;
use pg_plan::{Label, Page, compare_places};
use std::alloc::{AllocError, Global};
use std::cmp::Ordering;

// Whether a shape is that of an insert.
fn is_insert(shape: Shape) -> bool {
    match shape {
        Shape::Insert { .. } => true,
        _ => false,
    }
}

// How many of the marks are inserts.
fn count_inserts(marks: &[Mark]) -> usize {
    let mut count: usize = 0;
    for mark in marks {
        if is_insert(mark.shape) {
            count = count.saturating_add(1);
        }
    }
    count
}

// Whether an area is one of floats.
fn has_floats(name: AreaName) -> bool {
    match name {
        AreaName::Wide | AreaName::Top | AreaName::Bottom => true,
        _ => false,
    }
}

// Whether an area is one of notes.
fn has_notes(name: AreaName) -> bool {
    match name {
        AreaName::Notes => true,
        _ => false,
    }
}

// How many floats stand in areas.
fn floats_in(areas: &[DrawnArea]) -> usize {
    let mut count: usize = 0;
    for area in areas {
        if has_floats(area.name) {
            count = count.saturating_add(count_inserts(area.marks.as_slice()));
        }
    }
    count
}

// How many notes stand in areas.
fn notes_in(areas: &[DrawnArea]) -> usize {
    let mut count: usize = 0;
    for area in areas {
        if has_notes(area.name) {
            count = count.saturating_add(count_inserts(area.marks.as_slice()));
        }
    }
    count
}

/// How many floats stand on a page.
pub fn count_floats(page: &DrawnPage) -> usize {
    let mut count = floats_in(page.wide.as_slice());
    for column in page.columns.as_slice() {
        count = count.saturating_add(floats_in(column.areas.as_slice()));
    }
    count
}

/// How many notes stand on a page.
pub fn count_notes(page: &DrawnPage) -> usize {
    let mut count: usize = 0;
    for column in page.columns.as_slice() {
        count = count.saturating_add(notes_in(column.areas.as_slice()));
    }
    count
}

// The pages that a text shows.
fn shown_pages(shown: &Shown) -> &[Page] {
    match shown {
        Shown::Pages(plan, _) => plan.pages.as_slice(),
        Shown::NoLegal => &[],
    }
}

// Adds counts by class.
fn add_counts(placed: &mut Vec<u32>, counts: &[u16]) -> Result<(), AllocError> {
    let mut slot: usize = 0;
    for count in counts {
        if slot < placed.len() {
            placed[slot] = placed[slot].saturating_add(u32::from(*count));
        } else {
            placed.push(u32::from(*count))?;
        }
        slot = slot.saturating_add(1);
    }
    Ok(())
}

// Adds the floats of a page.
fn add_page(placed: &mut Vec<u32>, page: &Page) -> Result<(), AllocError> {
    add_counts(placed, page.wide.as_slice())?;
    for column in page.columns.as_slice() {
        add_counts(placed, column.top.as_slice())?;
        add_counts(placed, column.bottom.as_slice())?;
    }
    Ok(())
}

// Whether two lists of counts are equal.
fn are_placed(counts: &[u16], placed: &[u32]) -> bool {
    if counts.len() != placed.len() {
        return false;
    }
    for (count, number) in counts.iter().zip(placed) {
        if u32::from(*count) != *number {
            return false;
        }
    }
    true
}

// Where a page ends.
fn page_end(page: &Page) -> Option<Place> {
    match page.columns.as_slice() {
        [.., last] => Some(last.to),
        [] => None,
    }
}

// How many floats wait at a place where so many are placed, as the labels tell.
fn waiting_at(place: Place, placed: &[u32], labels: &[Label]) -> Option<usize> {
    let first = labels.partition_point(|label| compare_places(&label.state.place, &place)
        == Ordering::Less);
    for label in &labels[first..] {
        if label.state.place != place {
            return None;
        }
        if label.state.column == 1 && are_placed(label.state.placed.as_slice(), placed) {
            return Some(label.state.ages.as_slice().len());
        }
    }
    None
}

/// For each page how many floats wait behind it, where the labels of the text tell it.
pub fn waiting_of(alloc: Global, output: &Output) -> Result<Vec<Option<usize>>, AllocError> {
    let mut found = Vec::new(alloc);
    let mut placed = Vec::new(alloc);
    for page in shown_pages(&output.shown) {
        add_page(&mut placed, page)?;
        let waiting = match page_end(page) {
            Some(place) => waiting_at(place, placed.as_slice(), output.labels.as_slice()),
            None => None,
        };
        found.push(waiting)?;
    }
    Ok(found)
}

/// The versions that were picked in a column of a page, by their indices.
pub fn column_picks<'a>(output: &'a Output, page: usize, column: usize) -> &'a [u32] {
    match shown_pages(&output.shown).get(page) {
        Some(page) => match page.columns.as_slice().get(column) {
            Some(column) => column.picks.as_slice(),
            None => &[],
        },
        None => &[],
    }
}
