//! The items along a stretch, one after another.
ghost use Rattle.std.specs.Prelude.{◌≡◌, ◌<◌, ◌≤◌, ◌+◌, ◌^◌, true, false, Some, is_some, slice_get};
ghost use Rattle.std.specs.List.{AllByRecursion};
ghost use Rattle.std.specs.Option.{option_copied};
ghost use Rattle.pg_list.specs.Places.{item_at as item_at_of, place as place_of};
ghost use Rattle.pg_list.specs.Ranges.{IsItemInRange};
ghost use Rattle.pg_list.specs.Shapes.{IsBlock};
ghost use Rattle.pg_list.specs.declared.item.Item.{Item as AnItem};
ghost use Rattle.pg_breaks.specs.Near.{place_penalty};
ghost use Rattle.law_walk.specs.Walk.{first_front, first_items, picked_front, picked_stretch};
ghost use Rattle.pg_hops.specs.Ahead.{IsSettled, begun as begun_of, front_ahead, item_ahead, items_ahead, place_ahead, settled as settled_of, single_in, stepped as stepped_of};
ghost use Rattle.pg_hops.specs.Told.{told as told_of};

use pg_breaks::break_cost;
use pg_list::{Block, Galley, Item, Place, items_around};

/// Where the next item of a stretch stands: in a variant of a choice, or behind it among the blocks of one item.
#[derive(Clone, Copy)]
pub struct Cursor {
    pub block: u32,
    pub variant: u32,
    pub index: u32,
    pub is_inner: bool,
}

// The item of a block that is one item.
fn single(blocks: &[Block], block: usize) -> Option<&Item>
    ensures { option_copied result ≡ single_in (slice_get blocks.now block) }
{
    match blocks.get(block) {
        Some(block) => match block {
            Block::One(item) => Some(item),
            Block::Choice(_) => None,
        },
        None => None,
    }
}

// The item at a place.
fn item_at(blocks: &[Block], at: Place) -> Option<&Item>
    ensures { option_copied result ≡ item_at_of blocks.now at }
{
    items_around(blocks, at).get(at.index as usize)
}

// Whether an item is a break, where it alone tells.
fn told(item: &Item) -> Option<bool>
    ensures { result ≡ told_of item.now }
{
    match item {
        Item::Glue { .. } => None,
        Item::Kern { .. } => None,
        Item::Penalty { value, .. } => Some(*value < 10000),
        _ => Some(false),
    }
}

// The blocks of a galley keep their shape.
fn shaped(galley: &Galley)
    ensures { AllByRecursion IsBlock galley.now.blocks }
{
    let _blocks = galley.blocks().as_slice();
}

impl Cursor {
    // The place in its variant.
    fn inner(&self) -> Place
        ensures { result ≡ place_of self.now.block self.now.variant self.now.index }
    {
        Place {
            block: self.block,
            variant: self.variant,
            index: self.index,
        }
    }

    // Before a block of one item.
    fn before(block: u32) -> Cursor
        ensures { result ≡ record { block = block; variant = 0; index = 0; is_inner = false } }
    {
        Cursor {
            block,
            variant: 0,
            index: 0,
            is_inner: false,
        }
    }

    // Before the items from a place on.
    fn begun(from: Place) -> Cursor
        ensures { result ≡ begun_of from }
    {
        if from.index == 0 {
            Cursor::before(from.block)
        } else {
            Cursor {
                block: from.block,
                variant: from.variant,
                index: from.index,
                is_inner: true,
            }
        }
    }

    // Behind a variant's last item come the blocks of one item behind it.
    fn settled(&self, blocks: &[Block]) -> Cursor
        requires { self.now.block ≤ 2 ^ 20 }
        ensures { result ≡ settled_of blocks.now self.now }
    {
        if self.is_inner && item_at(blocks, self.inner()).is_none() {
            Cursor::before(self.block + 1)
        } else {
            *self
        }
    }

    // One item on.
    fn stepped(&self) -> Cursor
        requires block { self.now.block < 2 ^ 20 }
        requires index { self.now.is_inner ≡ true → self.now.index < 2 ^ 20 }
        ensures { result ≡ stepped_of self.now }
    {
        if self.is_inner {
            Cursor {
                block: self.block,
                variant: self.variant,
                index: self.index + 1,
                is_inner: true,
            }
        } else {
            Cursor::before(self.block + 1)
        }
    }

    // The next item, in the variant or behind it.
    fn item_in<'a>(&self, blocks: &'a [Block]) -> Option<&'a Item>
        ensures { option_copied result ≡ item_ahead blocks.now self.now }
    {
        if self.is_inner {
            item_at(blocks, self.inner())
        } else {
            single(blocks, self.block as usize)
        }
    }

    /// Before the first item from a place on.
    pub fn first(galley: &Galley, from: Place) -> Cursor
        requires { from.block ≤ 2 ^ 20 }
        ensures settled { IsSettled galley.now.blocks result }
        ensures items { items_ahead galley.now.blocks result ≡ first_items galley.now.blocks from }
        ensures front { front_ahead galley.now.blocks result ≡ first_front galley.now.blocks from }
    {
        Cursor::begun(from).settled(galley.blocks().as_slice())
    }

    /// Before the first item of a variant of the choice at a block.
    pub fn picked(galley: &Galley, block: u32, variant: u32) -> Cursor
        requires { block ≤ 2 ^ 20 }
        ensures settled { IsSettled galley.now.blocks result }
        ensures items { items_ahead galley.now.blocks result ≡ picked_stretch galley.now.blocks block variant }
        ensures front { front_ahead galley.now.blocks result ≡ picked_front galley.now.blocks block }
    {
        let cursor = Cursor {
            block,
            variant,
            index: 0,
            is_inner: true,
        };
        cursor.settled(galley.blocks().as_slice())
    }

    /// The next item, where one is left.
    pub fn item<'a>(&self, galley: &'a Galley) -> Option<&'a Item>
        ensures item { option_copied result ≡ item_ahead galley.now.blocks self.now }
        ensures range { (item : AnItem) → item_ahead galley.now.blocks self.now ≡ Some item → IsItemInRange item }
        ensures few { (item : AnItem) → item_ahead galley.now.blocks self.now ≡ Some item →
            (self.now.block < 2 ^ 20) × (self.now.is_inner ≡ true → self.now.index < 2 ^ 20) }
    {
        self.item_in(galley.blocks().as_slice())
    }

    /// Its place.
    pub fn place(&self) -> Place
        ensures { result ≡ place_ahead self.now }
    {
        if self.is_inner && self.index != 0 {
            self.inner()
        } else {
            Place {
                block: self.block,
                variant: 0,
                index: 0,
            }
        }
    }

    /// Whether its place is a break. Most items tell it alone; only glue and kerns are looked at where they stand.
    ///
    /// Conditions: the item is the next one.
    pub fn is_break(&self, galley: &Galley, item: &Item) -> bool
        requires { item_ahead galley.now.blocks self.now ≡ Some item.now }
        ensures { result ≡ is_some (place_penalty galley.now.blocks (place_ahead self.now)) }
    {
        shaped(galley);
        match told(item) {
            Some(is_break) => is_break,
            None => break_cost(galley, self.place()).is_some(),
        }
    }

    /// Before the item behind it.
    pub fn next(&self, galley: &Galley) -> Cursor
        requires block { self.now.block < 2 ^ 20 }
        requires index { self.now.is_inner ≡ true → self.now.index < 2 ^ 20 }
        ensures { result ≡ settled_of galley.now.blocks (stepped_of self.now) }
    {
        self.stepped().settled(galley.blocks().as_slice())
    }
}
