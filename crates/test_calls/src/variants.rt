//! What no clause says: that memory suffices for a paragraph of four words.
ghost use Rattle.std.specs.Prelude.{◌≡◌};

use law_lines::{LineFault, LineRule};
use pg_hlist::{Paras, read_paras};
use pg_lines::break_lines;
use pg_list::{Block, Galley, Variant};
use pg_table::Steps;
use std::alloc::Global;
use std::marker::Brand;
use std::sync::ledger::{Blank, Ledger};
use std::test::Fail;

const POINT: i32 = 65536;

// Four words, and what fills the last line.
const FOUR_WORDS: &str = r"\hbox(0.0+0.0)x0.0
.\hbox(7.0+2.0)x10.0
.\glue 2.0 plus 1.0 minus 1.0
.\hbox(7.0+2.0)x10.0
.\glue 2.0 plus 1.0 minus 1.0
.\hbox(7.0+2.0)x10.0
.\glue 2.0 plus 1.0 minus 1.0
.\hbox(7.0+2.0)x10.0
.\penalty 10000
.\glue 0.0 plus 1.0fil
";

// A box that is wider than the line.
const TOO_WIDE: &str = r"\hbox(0.0+0.0)x0.0
.\hbox(7.0+2.0)x30.0
";

// A variant's looseness, its demerits and the number of its items.
type Shown = (i32, u32, usize);

fn shown(variant: &Variant) -> Shown {
    (variant.looseness, variant.demerits, variant.items.len())
}

// The first two variants of a galley of one paragraph.
fn first_two(galley: &Galley) -> Option<(Shown, Shown)> {
    match galley.blocks().as_slice() {
        [Block::Choice(choice)] => match choice.variants() {
            [first, second] => Some((shown(first), shown(second))),
            _ => None,
        },
        _ => None,
    }
}

// The galley of paragraphs, in lines of 22 points.
fn broken<L: Ledger>(alloc: Global, paras: &Paras, blank: Blank) -> Result<Galley, LineFault>
    requires name { blank.name ≡ L.name }
    requires parts { blank.parts ≡ L.parts }
    requires one { blank.parts ≡ 1 }
{
    let rule = LineRule {
        width: 22 * POINT,
        tolerance: 10000,
        around: 1,
    };
    let mut steps = Steps::<L>::new(blank);
    break_lines(alloc, paras, &rule, &mut steps)
}

// What is shown of the galley of a short text.
fn told(alloc: Global, text: &str) -> Result<Option<(Shown, Shown)>, LineFault> {
    if text.len() > 1000 {
        return Ok(None);
    }
    let Ok(paras) = read_paras(alloc, text.as_bytes()) else {
        return Ok(None);
    };
    let galley = broken::<Brand>(alloc, &paras, Blank::new(1))?;
    Ok(first_two(&galley))
}

#[test]
fn four_words_make_two_lines_or_three(rt: HostRuntime) -> Result<(), Fail> {
    let variants = ((0, 0, 3), (1, 100_000_000, 5));
    assert_eq!(rt; told(rt.alloc(), FOUR_WORDS), Ok(Some(variants)));
    Ok(())
}

#[test]
fn a_box_that_is_too_wide_is_refused(rt: HostRuntime) -> Result<(), Fail> {
    let fault = LineFault::NoBreak { paragraph: 1 };
    assert_eq!(rt; told(rt.alloc(), TOO_WIDE), Err(fault));
    Ok(())
}
