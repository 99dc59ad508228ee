//! The style of a page height alone.
ghost use Rattle.std.specs.Prelude.{◌≡◌, pos, ◌≤ℤ◌, ◌<ℤ◌, ◌^◌};
ghost use Rattle.pg_style.specs.Plain.{no_area, plain};

use crate::classes::Classes;
use crate::runs::Runs;
use crate::style::{AreaRule, ColumnRule, First, Gap, Run, Style};
use std::alloc::Global;

fn no_area() -> AreaRule
    ensures { result ≡ no_area }
{
    AreaRule {
        count: 0,
        sep: Gap::rigid(0),
        gap: Gap::rigid(0),
    }
}

/// The style of one column of this height, a topskip of 10 points and a maxdepth of 4 points,
/// without floats and notes, in which any badness is tolerable. No memory is taken.
pub fn plain_style(alloc: Global, height: i32) -> Style
    requires some { pos 1 ≤ℤ height }
    requires limit { height <ℤ pos (2 ^ 30) }
    ensures { result ≡ plain height }
{
    Style {
        version: 1,
        columns: 1,
        first: First::Single,
        height,
        topskip: 10 * 65536,
        maxdepth: 4 * 65536,
        min_text: 0,
        tolerance: 10000,
        line: 10,
        max_looseness: 0,
        runs: Runs::new(
            alloc,
            Run {
                extra: 0,
                demerits: 0,
            },
        ),
        top: no_area(),
        bottom: no_area(),
        wide: no_area(),
        float_column: ColumnRule {
            count: 0,
            demerits: 1,
        },
        classes: Classes::new(alloc),
        fitness: 0,
        ragged: None,
    }
}
