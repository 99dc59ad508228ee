//! A pagination of any number of columns, judged.
ghost use Rattle.std.specs.Prelude.{◌≡◌, ◌<◌, ◌^◌, length, reverse, IfOk};
ghost use Rattle.std.specs.Bool.{OnTrue};
ghost use Rattle.pg_plan.specs.Order.{columns_of, columns};
ghost use Rattle.pg_floats.specs.AreFloats.{AreFloats};
ghost use Rattle.pg_judge.specs.Settled.{JudgesPlan};

use pg_command::Ending;
use pg_floats::{FloatFault, FloatList};
use pg_judge::{JudgeFault, judge};
use pg_list::Galley;
use pg_plan::{Page, Pagination};
use pg_style::Style;
use std::alloc::Global;

/// The most columns of a pagination.
const MOST_COLUMNS: usize = 2147483647;

/// The list of the floats of a galley, or what ends the run.
pub fn floats_of<'a>(alloc: Global, galley: &Galley, style: &Style) -> Result<FloatList, Ending<'a>>
    ensures { IfOk result (λ list. AreFloats galley.now.blocks style.now list) }
{
    match FloatList::of(alloc, galley, style) {
        Ok(list) => Ok(list),
        Err(FloatFault::Class { number }) => Err(Ending::UnknownClass(number)),
        Err(FloatFault::Limit { count }) => Err(Ending::TooManyFloats(count)),
        Err(FloatFault::Memory) => Err(Ending::Memory),
    }
}

// Whether pages have as few columns as can be judged; a file has no room for more.
fn are_few(pages: &[Page]) -> bool
    ensures { OnTrue result (length (columns_of (reverse pages.now)) < 2 ^ 31) }
{
    let mut count = 0usize;
    for page in pages {
        let len = page.columns.as_slice().len();
        if len > MOST_COLUMNS - count {
            return false;
        }
        count += len;
    }
    true
}

/// What a pagination costs, or the rule that it breaks. `Memory` comes for more than 2^31 columns too.
pub fn judged(
    alloc: Global,
    galley: &Galley,
    style: &Style,
    floats: &FloatList,
    plan: &Pagination,
) -> Result<i128, JudgeFault>
    requires { AreFloats galley.now.blocks style.now floats.now }
    ensures { JudgesPlan galley.now style.now plan.now result }
{
    if are_few(plan.pages.as_slice()) {
        judge(alloc, galley, style, floats, plan)
    } else {
        Err(JudgeFault::Memory)
    }
}
