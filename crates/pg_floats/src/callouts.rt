//! The callouts of the floats of one class.
ghost use Rattle.pg_list.specs.Counts.{item_limit};
ghost use Rattle.std.specs.Prelude.{◌≡◌, ◌<◌, ◌≤◌, ◌+◌, ◌^◌, ◌++◌, ◌∷◌, [], OnOk, OnErr, IfOk, IfSome, length};
ghost use Rattle.std.specs.Prelude.{slice_get};
ghost use Rattle.std.specs.List.{AllByRecursion};
ghost use Rattle.pg_list.specs.Ranges.{IsItemInRange};
ghost use Rattle.pg_list.specs.Shapes.{IsBlock};
ghost use Rattle.pg_list.specs.Places.{picked_items};
ghost use Rattle.pg_floats.specs.FloatsValue.{IsInRange};
ghost use Rattle.pg_floats.specs.Callouts.{callout_of as callout_of_item, callouts_in, callouts_from, next_barrier as next_barrier_of, no_barrier};

use pg_list::{Block, Item, block_is_barrier};
use std::alloc::{AllocError, Global};
use std::marker::Model;
use std::slice;

// What stands for the block of a barrier where there is none.
const NO_BARRIER: u32 = u32::MAX;

/// Where a float is called, the block of the first barrier behind it, and its size in scaled points.
#[derive(Clone, Copy, PartialEq, Eq)]
pub struct Callout {
    pub block: u32,
    pub barrier: u32,
    pub size: u32,
}

/// Callouts in order.
#[derive(Drop)]
pub struct Callouts {
    items: Vec<Callout>,
}

impl Model for Callouts {
    ghost use Rattle.std.specs.Prelude.{List};
    ghost use Rattle.std.specs.List.{AllByRecursion};
    ghost use Rattle.pg_floats.specs.declared.callouts.Callout.{Callout};

    ghost Value = { List Callout };

    ghost use Rattle.pg_floats.specs.FloatsValue.{IsInRange};

    ghost view = { λ a. a.items.items };

    ghost invariant = { λ a. AllByRecursion IsInRange a.items.items };
}

impl Callouts {
    pub fn new(alloc: Global) -> Callouts
        ensures { result ≡ [] }
    {
        Callouts {
            items: Vec::new(alloc),
        }
    }

    pub fn push(&mut self, callout: Callout) -> Result<(), AllocError>
        requires { IsInRange callout }
        ensures ok { OnOk result (self.new ≡ self.old ++ callout ∷ []) }
    {
        self.items.push(callout)?;
        Ok(())
    }

    pub fn at(&self, index: usize) -> Option<Callout>
        ensures value { result ≡ slice_get self.now index }
        ensures range { IfSome result IsInRange }
    {
        self.items.get(index).copied()
    }

    pub fn as_slice(&self) -> &[Callout]
        ensures items { result.now ≡ self.now }
        ensures range { AllByRecursion IsInRange self.now }
    {
        self.items.as_slice()
    }
}

fn callout_of(item: &Item, number: u8, block: u32, barrier: u32) -> Option<Callout>
    requires { IsItemInRange item.now }
    ensures value { result ≡ callout_of_item number block barrier item.now }
    ensures range { IfSome result IsInRange }
{
    match item {
        Item::Insert { class, size, .. } => {
            if *class == number {
                Some(Callout {
                    block,
                    barrier,
                    size: size.unsigned_abs(),
                })
            } else {
                None
            }
        }
        _ => None,
    }
}

// Adds the callouts of a block's items.
fn push_callouts(
    out: &mut Callouts,
    items: &[Item],
    number: u8,
    block: u32,
    barrier: u32,
) -> Result<(), AllocError>
    requires { AllByRecursion IsItemInRange items.now }
    ensures { OnOk result (out.new ≡ out.old ++ callouts_in number block barrier items.now) }
{
    let mut rest = items;
    'items: while let [item, after @ ..] = rest {
        if let Some(callout) = callout_of(item, number, block, barrier) {
            out.push(callout)?;
        }
        rest = after;
    }
    Ok(())
}

/// The items of a block's first variant.
pub fn first_items_of(block: &Block) -> &[Item]
    requires { IsBlock block.now }
    ensures items { result.now ≡ picked_items block.now 0 }
    ensures range { AllByRecursion IsItemInRange (picked_items block.now 0) }
{
    match block {
        Block::One(item) => slice::from_ref(item),
        Block::Choice(choice) => match choice.variants().first() {
            Some(variant) => variant.items.as_slice(),
            None => &[],
        },
    }
}

// The number of the first barrier among blocks, the first of which has this number; where there is none, that behind them.
fn next_barrier(blocks: &[Block], first: u32, past: u32) -> u32
    requires { first + length blocks.now ≤ item_limit }
    ensures { result ≡ next_barrier_of past first blocks.now }
{
    let mut rest = blocks;
    let mut index = first;
    'each: while let [block, after @ ..] = rest {
        if block_is_barrier(block) {
            return index;
        }
        rest = after;
        index += 1;
    }
    past
}

// Adds the callouts of a class in blocks, the first of which has this number, where this is the first barrier behind them.
fn push_blocks(
    out: &mut Callouts,
    blocks: &[Block],
    number: u8,
    first: u32,
    past: u32,
) -> Result<(), AllocError>
    requires shape { AllByRecursion IsBlock blocks.now }
    requires few { first + length blocks.now ≤ item_limit }
    ensures { OnOk result (out.new ≡ out.old ++ callouts_from number past first blocks.now) }
{
    let mut rest = blocks;
    let mut index = first;
    let mut barrier = next_barrier(blocks, first, past);
    'each: while let [block, after @ ..] = rest {
        push_callouts(out, first_items_of(block), number, index, barrier)?;
        rest = after;
        index += 1;
        if block_is_barrier(block) {
            barrier = next_barrier(rest, index, past);
        }
    }
    Ok(())
}

/// The callouts of a class in a galley that stands in three parts, one behind the other.
pub fn callouts_of(
    alloc: Global,
    before: &[Block],
    fresh: &[Block],
    behind: &[Block],
    number: u8,
) -> Result<Callouts, AllocError>
    requires before { AllByRecursion IsBlock before.now }
    requires fresh { AllByRecursion IsBlock fresh.now }
    requires behind { AllByRecursion IsBlock behind.now }
    requires few { length before.now + length fresh.now + length behind.now ≤ item_limit }
    ensures { IfOk result (λ callouts.
        callouts ≡ callouts_from number no_barrier 0 (before.now ++ fresh.now ++ behind.now)) }
{
    let middle = before.len() as u32;
    let last = middle + fresh.len() as u32;
    let past_fresh = next_barrier(behind, last, NO_BARRIER);
    let past_before = next_barrier(fresh, middle, past_fresh);
    let mut callouts = Callouts::new(alloc);
    push_blocks(&mut callouts, before, number, 0, past_before)?;
    push_blocks(&mut callouts, fresh, number, middle, past_fresh)?;
    push_blocks(&mut callouts, behind, number, last, NO_BARRIER)?;
    Ok(callouts)
}
