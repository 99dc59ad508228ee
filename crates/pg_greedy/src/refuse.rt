//! Galleys that have no first fit.
ghost use Rattle.std.specs.Prelude.{◌≡◌, ◌<◌, ◌≤◌, ◌^◌, ◌+◌, length, List, ℕ};
ghost use Rattle.pg_greedy.specs.Faults.{is_float as is_float_of, item_fault as the_item_fault, block_fault, greedy_fault};

use crate::fault::GreedyFault;
use pg_column::blocks_of;
use pg_list::{Block, Galley, Item};
use pg_style::{Kind, Style};

// Whether the style has a float class of this number.
fn is_float(style: &Style, class: u8) -> bool
    ensures { result ≡ is_float_of style.now class }
{
    match style.class_of(class) {
        Some(class) => matches!(class.kind, Kind::Float { .. }),
        None => false,
    }
}

// Why an item has no place in a first fit.
fn item_fault(style: &Style, block: u32, item: &Item) -> Option<GreedyFault>
    ensures { result ≡ the_item_fault style.now block item.now }
{
    match item {
        Item::Insert { class, .. } => {
            if is_float(style, *class) {
                Some(GreedyFault::Float { block })
            } else {
                None
            }
        }
        _ => None,
    }
}

// The first fault of blocks, of which the first has this number.
fn first_fault(style: &Style, blocks: &[Block]) -> Option<GreedyFault>
    requires { length blocks.now ≤ 2 ^ 20 }
    ensures { result ≡ block_fault style.now 0 blocks.now }
{
    let mut rest = blocks;
    let mut number: u32 = 0;
    while let [block, after @ ..] = rest {
        match block {
            Block::Choice(_) => return Some(GreedyFault::Choice { block: number }),
            Block::One(item) => {
                if let Some(fault) = item_fault(style, number, item) {
                    return Some(fault);
                }
            }
        }
        number += 1;
        rest = after;
    }
    None
}

/// Why a galley has no first fit under a style; none exactly where it has one. No memory is taken.
pub fn find_fault(galley: &Galley, style: &Style) -> Option<GreedyFault>
    ensures { result ≡ greedy_fault style.now galley.now.blocks }
{
    if style.columns == 2 {
        Some(GreedyFault::Columns)
    } else {
        first_fault(style, blocks_of(galley))
    }
}
