//! How well columns and pages fill their goals.
ghost use Rattle.std.specs.Prelude.{◌≡◌, pos};
ghost use Rattle.pg_draw_page.specs.Fills.{badness_of as badness_of_so, fill_between as fill_between_so, fill_of as fill_of_so, greater, greatest as greatest_so};

use pg_drawing::{DrawnColumn, DrawnPage, Numbers};

/// How a column fills its goal, in scaled points.
#[derive(Clone, Copy)]
pub enum Fill {
    Full,
    Short(i128),
    Long(i128),
    /// It has no text.
    Without,
}

// How a text of this height fills this goal.
fn fill_between(goal: &i64, total: &i64) -> Fill
    ensures { result ≡ fill_between_so goal.now total.now }
{
    let goal = i128::from(*goal);
    let total = i128::from(*total);
    if total < goal {
        Fill::Short(goal - total)
    } else if goal < total {
        Fill::Long(total - goal)
    } else {
        Fill::Full
    }
}

// How a column with these numbers fills its goal.
fn fill_of(numbers: &Option<Numbers>) -> Fill
    ensures { result ≡ fill_of_so numbers.now }
{
    match numbers {
        Some(Numbers::Set { goal, total, .. }) => fill_between(goal, total),
        Some(Numbers::Without { .. }) => Fill::Without,
        None => Fill::Without,
    }
}

/// How a column fills its goal.
pub fn column_fill(column: &DrawnColumn) -> Fill
    ensures { result ≡ fill_of_so column.now.numbers }
{
    fill_of(&column.numbers)
}

// The badness of a column with these numbers; one without text has none.
fn badness_of(numbers: &Option<Numbers>) -> i128
    ensures { result ≡ badness_of_so numbers.now }
{
    match numbers {
        Some(Numbers::Set { badness, .. }) => *badness,
        Some(Numbers::Without { .. }) => 0,
        None => 0,
    }
}

// The greatest of badnesses so far.
#[derive(Clone, Copy)]
struct Most {
    badness: i128,
}

impl Most {
    // One column more.
    fn add(&mut self, column: &DrawnColumn)
        ensures { self.new.badness ≡ greater self.old.badness (badness_of_so column.now.numbers) }
    {
        let badness = badness_of(&column.numbers);
        if self.badness < badness {
            self.badness = badness;
        }
    }
}

// The greatest badness of columns.
fn greatest(columns: &[DrawnColumn]) -> i128
    ensures { result ≡ greatest_so (pos 0) columns.now }
{
    let mut most = Most { badness: 0 };
    let mut rest = columns;
    'columns: while let [column, after @ ..] = rest {
        most.add(column);
        rest = after;
    }
    most.badness
}

/// The greatest badness among the columns of a page.
pub fn page_badness(page: &DrawnPage) -> i128
    ensures { result ≡ greatest_so (pos 0) page.now.columns }
{
    greatest(page.columns.as_slice())
}

/// How high the bar of a badness is, in a hundred.
pub fn badness_step(badness: i128) -> i128 {
    if badness <= 0 {
        0
    } else if badness <= 12 {
        12
    } else if badness <= 50 {
        24
    } else if badness <= 100 {
        36
    } else if badness <= 200 {
        48
    } else if badness <= 1000 {
        64
    } else if badness <= 4000 {
        80
    } else if badness < 10000 {
        90
    } else {
        100
    }
}

// The first page that is worse than all before it and behind it, of those that are better than a limit or behind a page.
fn worst_below(pages: &[DrawnPage], limit: i128, after: usize) -> Option<(usize, i128)> {
    let mut found: Option<(usize, i128)> = None;
    let mut most: i128 = 0;
    let mut index: usize = 0;
    for page in pages {
        let badness = page_badness(page);
        let is_open = badness < limit || (badness == limit && index > after);
        if is_open && badness > most {
            most = badness;
            found = Some((index, badness));
        }
        index = index.saturating_add(1);
    }
    found
}

/// The worst pages, by their indices, the worst first.
#[derive(Clone, Copy)]
pub struct Worst {
    pub first: Option<usize>,
    pub second: Option<usize>,
    pub third: Option<usize>,
}

// The worst page behind one of this badness, and its badness.
fn worst_behind(pages: &[DrawnPage], before: Option<(usize, i128)>) -> Option<(usize, i128)> {
    match before {
        Some((index, badness)) => worst_below(pages, badness, index),
        None => None,
    }
}

// The index of a page.
fn index_of(page: Option<(usize, i128)>) -> Option<usize> {
    match page {
        Some((index, _)) => Some(index),
        None => None,
    }
}

/// The three worst pages that have some badness.
pub fn worst_pages(pages: &[DrawnPage]) -> Worst {
    let first = worst_below(pages, i128::MAX, 0);
    let second = worst_behind(pages, first);
    let third = worst_behind(pages, second);
    Worst {
        first: index_of(first),
        second: index_of(second),
        third: index_of(third),
    }
}
