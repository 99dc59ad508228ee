//! The order of paginations, at its least telling places.
use pg_list::Place;
use pg_plan::{Column, Columns, Counts, Page, Pages, Pagination, Picks, compare};
use std::alloc::{AllocError, Global};
use std::cmp::Ordering;
use std::test::Fail;

fn place(block: u32) -> Place {
    Place {
        block,
        variant: 0,
        index: 0,
    }
}

fn counts(alloc: Global, count: u16) -> Result<Counts, AllocError> {
    let mut counts = Counts::new(alloc);
    counts.push(count)?;
    Ok(counts)
}

fn column(alloc: Global, from: u32, to: u32, top: u16, bottom: u16) -> Result<Column, AllocError> {
    let mut picks = Picks::new(alloc);
    picks.push(0)?;
    Ok(Column {
        from: place(from),
        to: place(to),
        top: counts(alloc, top)?,
        bottom: counts(alloc, bottom)?,
        picks,
    })
}

// One page of two columns. The wide counts and the floats of the second are the arguments.
fn plan(alloc: Global, wide: u16, top: u16, bottom: u16) -> Result<Pagination, AllocError> {
    let mut columns = Columns::new(alloc);
    columns.push(column(alloc, 0, 3, 0, 0)?)?;
    columns.push(column(alloc, 3, 8, top, bottom)?)?;
    let mut pages = Pages::new(alloc);
    pages.push(Page {
        run: 0,
        wide: counts(alloc, wide)?,
        columns,
    })?;
    Ok(Pagination { pages })
}

#[test]
fn top_floats_come_first(rt: HostRuntime) -> Result<(), Fail> {
    let alloc = rt.alloc();
    let top = plan(alloc, 0, 1, 0)?;
    let bottom = plan(alloc, 0, 0, 1)?;
    let told = (
        compare(&top, &bottom),
        compare(&bottom, &top),
        compare(&top, &top),
    );
    assert_eq!(rt; told, (Ordering::Less, Ordering::Greater, Ordering::Equal));
    Ok(())
}

#[test]
fn a_second_column_has_no_wide_floats(rt: HostRuntime) -> Result<(), Fail> {
    let alloc = rt.alloc();
    let wide = plan(alloc, 1, 0, 0)?;
    let tall = plan(alloc, 0, 1, 0)?;
    let empty = Pagination {
        pages: Pages::new(alloc),
    };
    let told = (compare(&wide, &tall), compare(&empty, &wide));
    assert_eq!(rt; told, (Ordering::Less, Ordering::Less));
    Ok(())
}
