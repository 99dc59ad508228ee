//! The choice at a block.
ghost use Rattle.std.specs.Prelude.{◌≡◌, ◌≤◌, length};
ghost use Rattle.pg_column.specs.Judged.{is_loose_enough as is_loose_enough_of};
ghost use Rattle.law_walk.specs.Walk.{variants_at as variants_at_of};

use pg_list::{Block, Galley, Variant};
use pg_style::Style;

/// The variants of the choice at a block; none where no choice is there.
pub fn variants_at(galley: &Galley, block: u32) -> &[Variant]
    ensures variants { result.now ≡ variants_at_of galley.now.blocks block }
    ensures few { length result.now ≤ 5 }
{
    variants_in(galley.blocks().as_slice(), block as usize)
}

// The variants of a block.
fn variants_in(blocks: &[Block], block: usize) -> &[Variant]
    ensures variants { result.now ≡ variants_at_of blocks.now block }
    ensures few { length result.now ≤ 5 }
{
    match blocks.get(block) {
        Some(block) => match block {
            Block::Choice(choice) => choice.variants(),
            Block::One(_) => &[],
        },
        None => &[],
    }
}

/// Whether the looseness of a variant is within the style's.
pub fn is_loose_enough(style: &Style, variant: &Variant) -> bool
    ensures { result ≡ is_loose_enough_of style.now variant.now }
{
    variant.looseness.unsigned_abs() <= u32::from(style.max_looseness)
}
