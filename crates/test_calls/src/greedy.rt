//! First fit of a small galley: that memory suffices.
ghost use Rattle.std.specs.Prelude.{◌≤ℤ◌, ◌<ℤ◌, ◌^◌, pos};

use crate::galleys::{POINT, lines};
use pg_greedy::first_fit;
use pg_list::{Edit, Galley};
use pg_plan::Page;
use pg_style::plain_style;
use std::alloc::{AllocError, Global};
use std::test::Fail;

// Where the column of a page ends; 0 where it has none.
fn end_of(page: &Page) -> u32 {
    match page.columns.as_slice() {
        [column, ..] => column.to.block,
        [] => 0,
    }
}

// Where the pages of a first fit end; none where it is refused.
fn ends(alloc: Global, galley: &Galley, height: i32) -> Result<Vec<u32>, AllocError>
    requires some { pos 1 ≤ℤ height }
    requires limit { height <ℤ pos (2 ^ 30) }
{
    let mut ends = Vec::new(alloc);
    if let Ok(plan) = first_fit(alloc, galley, &plain_style(alloc, height)) {
        for page in plan.pages.as_slice() {
            ends.push(end_of(page))?;
        }
    }
    Ok(ends)
}

#[test]
fn of_equal_breaks_the_last(rt: HostRuntime) -> Result<(), Fail> {
    let alloc = rt.alloc();
    let mut galley = Galley::new(alloc, 100 * POINT);
    let edit = Edit {
        at: 0,
        gone: 0,
        fresh: lines(alloc, 3)?,
    };
    assert!(rt; galley.splice(&edit).is_ok());
    assert_eq!(rt;
        ends(alloc, &galley, 22 * POINT)?.as_slice(),
        &[3u32, 7][..]
    );
    Ok(())
}
