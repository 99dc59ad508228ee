//! The lines of a page and of a column.
use crate::words::{Words, Wrong};
use pg_plan::{Column, Columns, Page};
use std::alloc::Global;

/// A page without columns, as `run 0 wide -`.
pub fn page_of(alloc: Global, line: &str) -> Result<Page, Wrong> {
    let mut words = Words { rest: line };
    words.must("run")?;
    let run = words.run()?;
    words.must("wide")?;
    let wide = words.counts(alloc)?;
    words.end()?;
    Ok(Page {
        run,
        wide,
        columns: Columns::new(alloc),
    })
}

/// A column, as `from 0 0 0 to 9 0 0 top 0,1 bottom 0,0 picks -`.
pub fn column_of(alloc: Global, line: &str) -> Result<Column, Wrong> {
    let mut words = Words { rest: line };
    words.must("from")?;
    let from = words.place()?;
    words.must("to")?;
    let to = words.place()?;
    words.must("top")?;
    let top = words.counts(alloc)?;
    words.must("bottom")?;
    let bottom = words.counts(alloc)?;
    words.must("picks")?;
    let picks = words.picks(alloc)?;
    words.end()?;
    Ok(Column {
        from,
        to,
        top,
        bottom,
        picks,
    })
}
