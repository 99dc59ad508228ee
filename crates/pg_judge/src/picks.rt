//! What picked variants cost.
ghost use Rattle.std.specs.Prelude.{◌≡◌, ◌≤◌, ◌<◌, ◌^◌, drop, length, pos};
ghost use Rattle.std.specs.Option.{option_map_or};
ghost use Rattle.pg_list.specs.declared.variants.Variant.{Variant as AVariant};
ghost use Rattle.pg_list.specs.Flat.{blocks_at, picked_variants};
ghost use Rattle.pg_list.specs.Whole.{whole_sum_by};
ghost use Rattle.pg_column.specs.Ahead.{first_variant, picks_after as picks_after_of};
ghost use Rattle.std.specs.List.{AllByRecursion};
ghost use Rattle.pg_list.specs.Shapes.{IsBlock};
ghost use Rattle.pg_judge.specs.Picks.{pick_cost};

use pg_list::{Block, Galley, Place};

// The demerits of the variant of a block that the first pick names; 0 where it names none.
fn first_demerits(block: &Block, picks: &[u32]) -> u32
    ensures { result ≡ option_map_or (λ variant. variant.demerits) (first_variant block.now picks.now) 0 }
{
    match block {
        Block::One(_) => 0,
        Block::Choice(choice) => match picks {
            [] => 0,
            [pick, ..] => match choice.variants().get(*pick as usize) {
                Some(variant) => variant.demerits,
                None => 0,
            },
        },
    }
}

// The picks left behind a block.
fn picks_after<'a>(block: &Block, picks: &'a [u32]) -> &'a [u32]
    ensures { result.now ≡ picks_after_of block.now picks.now }
{
    match block {
        Block::One(_) => picks,
        Block::Choice(_) => match picks {
            [_, rest @ ..] => rest,
            [] => picks,
        },
    }
}

// What the picks cost along blocks.
fn cost_along(blocks: &[Block], picks: &[u32]) -> u64
    requires { length blocks.now ≤ 2 ^ 20 }
    ensures value { result ≡ pick_cost blocks.now picks.now }
    ensures few { result < 2 ^ 53 }
{
    let mut sum = 0;
    let mut rest = blocks;
    let mut left = picks;
    'choices: while let [block, after @ ..] = rest {
        if left.is_empty() {
            return sum;
        }
        sum += u64::from(first_demerits(block, left));
        left = picks_after(block, left);
        rest = after;
    }
    sum
}

// The blocks of a galley, which keep their shape and are few.
fn all_blocks(galley: &Galley) -> &[Block]
    ensures blocks { result.now ≡ galley.now.blocks }
    ensures shape { AllByRecursion IsBlock galley.now.blocks }
    ensures few { length galley.now.blocks ≤ 2 ^ 20 }
{
    galley.blocks().as_slice()
}

// The elements from an index on.
fn from_index(blocks: &[Block], start: usize) -> &[Block]
    ensures blocks { result.now ≡ drop start blocks.now }
    ensures few { length result.now ≤ length blocks.now }
{
    match blocks.get(start..) {
        Some(rest) => rest,
        None => &[],
    }
}

// The blocks whose choices begin at a place or behind it.
fn blocks_from(galley: &Galley, from: Place) -> &[Block]
    ensures blocks { result.now ≡ blocks_at galley.now.blocks from }
    ensures few { length result.now ≤ 2 ^ 20 }
{
    let start = if from.index == 0 {
        from.block as usize
    } else {
        from.block as usize + 1
    };
    from_index(all_blocks(galley), start)
}

/// What the variants cost that picks name from a place on.
pub fn pick_demerits(galley: &Galley, from: Place, picks: &[u32]) -> u64
    ensures value { pos result ≡ whole_sum_by (λ (variant : AVariant). pos variant.demerits)
        (picked_variants (blocks_at galley.now.blocks from) picks.now) }
    ensures few { result < 2 ^ 53 }
{
    cost_along(blocks_from(galley, from), picks)
}
