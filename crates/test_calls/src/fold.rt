//! Sheets as text: that memory suffices.
ghost use Rattle.std.specs.Prelude.{◌≤◌, ◌<◌, ◌^◌};

use pg_fold::{impose, print_sheets};
use std::alloc::{AllocError, Global};
use std::test::Fail;

fn folded(alloc: Global, pages: u32, folds: u8, nest: u8) -> Result<Vec<u8>, AllocError>
    requires some_folds { 1 ≤ folds }
    requires few_folds { folds ≤ 4 }
    requires some_nest { 1 ≤ nest }
    requires few_nest { nest ≤ 16 }
    requires few_pages { pages < 2 ^ 21 }
{
    let sheets = impose(alloc, pages, folds, nest)?;
    let mut text = Vec::new(alloc);
    print_sheets(&sheets, pages, folds, nest, &mut text)?;
    Ok(text)
}

#[test]
fn pages_on_sheets(rt: HostRuntime) -> Result<(), Fail> {
    let alloc = rt.alloc();
    assert_eq!(rt;
        folded(alloc, 8, 2, 1)?.as_slice(),
        &b"signatures 1 sheets 1 pages 8 blank 0\nsheet 1 front 2 3 7 6\nsheet 1 back 1 4 8 5\n"[..]
    );
    assert_eq!(rt;
        folded(alloc, 2, 1, 1)?.as_slice(),
        &b"signatures 1 sheets 1 pages 2 blank 2\nsheet 1 front 2 -\nsheet 1 back 1 -\n"[..]
    );
    Ok(())
}
