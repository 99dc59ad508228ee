//! What was read so far.
ghost use Rattle.std.specs.Prelude.{◌≡◌, ◌<◌, ◌≤◌, ◌++◌, ◌∷◌, [], OnOk, length, nat_abs, nat_lt};
ghost use Rattle.pg_list.specs.Shapes.{IsWithinLimits};
ghost use Rattle.pg_list.specs.Counts.{item_limit};
ghost use Rattle.pg_list.specs.declared.blocks.Block.TheVariants as block;
ghost use Rattle.pg_showbox.specs.Nodes.{IsNodeInRange, node_item};
ghost use Rattle.pg_showbox.specs.ParsedLine.{IsParsedInRange};
ghost use Rattle.pg_showbox.specs.State.{Steps, Sound, WithinSound, placed, placed_barrier, placed_block, placed_item, begun_listing, longer_last, closed, ended, begun_choice, begun_variant, ended_choice, next_variant, whole_choice, step, started};

use crate::kinds::ListKind;
use crate::node::{Node, item_from};
use crate::parsed::ParsedLine;
use pg_list::{Block, Blocks, Bytes, ITEM_LIMIT, Item, Items, Variant, Variants, is_shaped};
use pg_scan::skip_if;
use std::alloc::{AllocError, Global};
use std::mem;

/// Where the next line stands: in no listing, in a listing, in a choice before its first variant, or
/// in a variant with this looseness and these demerits.
#[derive(Clone, Copy, PartialEq, Eq)]
pub enum Within {
    Outside,
    Listing,
    InChoice,
    InVariant { looseness: i32, demerits: u32 },
}

/// What was read so far: the blocks, the width of the first root, the variants and items of the
/// choice that is open, whether an item stands before the next line, and the number of items.
#[derive(Drop)]
pub struct ReaderState {
    pub blocks: Blocks,
    pub width: Option<i32>,
    pub within: Within,
    pub variants: Variants,
    pub items: Items,
    pub has_item: bool,
    pub count: u32,
}

// Adds the item with these numbers and this body, as a block. Each kind is put together where it goes, since an item
// that is handed on is copied number by number.
fn push_one(blocks: &mut Blocks, node: Node, body: Bytes) -> Result<(), AllocError>
    requires { IsNodeInRange node }
    ensures { OnOk result (blocks.new ≡ blocks.old ++ block.One (node_item node body) ∷ []) }
{
    match node {
        Node::Box { height, depth } => {
            blocks.push(Block::One(Item::BoxItem {
                height,
                depth,
                body,
            }))
        }
        Node::Rule { height, depth } => {
            blocks.push(Block::One(Item::Rule {
                height,
                depth,
                body,
            }))
        }
        Node::Glue {
            width,
            stretch,
            order,
            shrink,
        } => {
            blocks.push(Block::One(Item::Glue {
                width,
                stretch,
                order,
                shrink,
                body,
            }))
        }
        Node::Kern { width } => blocks.push(Block::One(Item::Kern { width, body })),
        Node::Penalty { value } => blocks.push(Block::One(Item::Penalty { value, body })),
        Node::Insert { class, size } => {
            blocks.push(Block::One(Item::Insert { class, size, body }))
        }
        Node::Carry => blocks.push(Block::One(Item::Carry { body })),
    }
}

impl ReaderState {
    /// Nothing was read, and the next line stands here.
    pub fn new(alloc: Global, within: Within) -> ReaderState
        ensures { result ≡ started within }
    {
        ReaderState {
            blocks: Blocks::new(alloc),
            width: None,
            within,
            variants: Variants::new(alloc),
            items: Items::new(alloc),
            has_item: false,
            count: 0,
        }
    }

    // One more item is within the limit.
    fn has_room(&self) -> bool
        ensures { result ≡ nat_lt self.now.count item_limit }
    {
        self.count < ITEM_LIMIT
    }

    // An item stands next, as a block.
    #[tactic(auto, unfolding(crate::specs::State::placed_block))]
    fn push_block(&mut self, alloc: Global, node: Node, body: &[u8]) -> Result<(), ListKind>
        requires { IsNodeInRange node }
        ensures { Steps result (placed_block self.old (node_item node body.now)) self.new }
    {
        if !self.has_room() {
            return Err(ListKind::Limit);
        }
        let Ok(body) = Bytes::from_slice(alloc, body) else {
            return Err(ListKind::Memory);
        };
        let Ok(()) = push_one(&mut self.blocks, node, body) else {
            return Err(ListKind::Memory);
        };
        self.has_item = true;
        self.count += 1;
        Ok(())
    }

    // An item stands next, in the variant that is open.
    #[tactic(auto, unfolding(crate::specs::State::placed_item))]
    fn push_item(&mut self, alloc: Global, node: Node, body: &[u8]) -> Result<(), ListKind>
        requires { IsNodeInRange node }
        ensures { Steps result (placed_item self.old (node_item node body.now)) self.new }
    {
        if !self.has_room() {
            return Err(ListKind::Limit);
        }
        let Ok(body) = Bytes::from_slice(alloc, body) else {
            return Err(ListKind::Memory);
        };
        let Ok(()) = self.items.push(item_from(node, body)) else {
            return Err(ListKind::Memory);
        };
        self.has_item = true;
        self.count += 1;
        Ok(())
    }

    // An item stands next.
    #[tactic(auto, unfolding(crate::specs::State::placed))]
    fn place(&mut self, alloc: Global, node: Node, body: &[u8]) -> Result<(), ListKind>
        requires { IsNodeInRange node }
        ensures { Steps result (placed self.old self.old.within (node_item node body.now)) self.new }
    {
        match self.within {
            Within::Outside => Err(ListKind::BadLine),
            Within::Listing => self.push_block(alloc, node, body),
            Within::InChoice => Err(ListKind::ChoiceShape),
            Within::InVariant { .. } => self.push_item(alloc, node, body),
        }
    }

    // A barrier stands next.
    #[tactic(auto, unfolding(crate::specs::State::placed_barrier, pg_list::specs::Barrier::barrier_body))]
    fn place_barrier(&mut self, alloc: Global) -> Result<(), ListKind>
        ensures { Steps result (placed_barrier self.old self.old.within) self.new }
    {
        match self.within {
            Within::Listing => self.push_block(alloc, Node::Carry, b"\\special{pg:flush}"),
            _ => Err(ListKind::ChoiceShape),
        }
    }

    // A deeper line stands next.
    #[tactic(auto, unfolding(crate::specs::State::longer_last))]
    fn extend(&mut self, body: &[u8]) -> Result<(), ListKind>
        ensures { Steps result (longer_last self.old self.old.within body.now) self.new }
    {
        if !self.has_item {
            return Err(ListKind::BadLine);
        }
        let extended = match self.within {
            Within::InVariant { .. } => self.items.extend_last(body),
            _ => self.blocks.extend_last(body),
        };
        match extended {
            Ok(()) => Ok(()),
            Err(_) => Err(ListKind::Memory),
        }
    }

    // The variant that is open ends.
    #[tactic(auto, unfolding(crate::specs::State::closed))]
    fn close(&mut self, alloc: Global, looseness: i32, demerits: u32) -> Result<(), ListKind>
        requires few { length self.old.variants < 5 }
        requires looseness { nat_abs looseness ≤ 100 }
        requires demerits { demerits ≤ 100000000 }
        ensures step { Steps result (closed self.old looseness demerits) self.new }
        ensures some { OnOk result (0 < length self.new.variants) }
    {
        if !is_shaped(self.items.as_slice()) {
            return Err(ListKind::ChoiceShape);
        }
        if !self.variants.fits(self.items.as_slice()) {
            return Err(ListKind::ChoiceInserts);
        }
        let items = mem::replace(&mut self.items, Items::new(alloc));
        let Ok(()) = self.variants.push(Variant {
            looseness,
            demerits,
            items,
        })
        else {
            return Err(ListKind::Memory);
        };
        Ok(())
    }

    /// The listing ends, if one is open. `ChoiceShape` comes exactly where a choice is open.
    #[tactic(auto, unfolding(crate::specs::State::ended))]
    pub fn end_listing(&mut self) -> Result<(), ListKind>
        ensures { Steps result (ended self.old self.old.within) self.new }
    {
        match self.within {
            Within::Outside => Ok(()),
            Within::Listing => {
                self.within = Within::Outside;
                self.has_item = false;
                Ok(())
            }
            Within::InChoice | Within::InVariant { .. } => Err(ListKind::ChoiceShape),
        }
    }

    // A listing of this width begins.
    #[tactic(auto, unfolding(crate::specs::State::begun_listing))]
    fn begin_listing(&mut self, width: i32) -> Result<(), ListKind>
        ensures { Steps result (begun_listing self.old width) self.new }
    {
        self.end_listing()?;
        self.within = Within::Listing;
        self.has_item = false;
        if self.width.is_none() {
            self.width = Some(width);
        }
        Ok(())
    }

    // A choice begins.
    #[tactic(auto, unfolding(crate::specs::State::begun_choice))]
    fn begin_choice(&mut self, alloc: Global) -> Result<(), ListKind>
        ensures { Steps result (begun_choice self.old self.old.within) self.new }
    {
        match self.within {
            Within::Listing => {
                self.within = Within::InChoice;
                self.variants = Variants::new(alloc);
                self.items = Items::new(alloc);
                self.has_item = false;
                Ok(())
            }
            _ => Err(ListKind::ChoiceShape),
        }
    }

    // A variant begins, if there are not too many.
    #[tactic(auto, unfolding(crate::specs::State::next_variant))]
    fn open_variant(&mut self, looseness: i32, demerits: u32) -> Result<(), ListKind>
        ensures { Steps result (next_variant self.old looseness demerits) self.new }
    {
        if self.variants.len() >= 5 {
            return Err(ListKind::Limit);
        }
        self.within = Within::InVariant {
            looseness,
            demerits,
        };
        self.has_item = false;
        Ok(())
    }

    // A variant begins, and the one that is open ends.
    #[tactic(auto, unfolding(crate::specs::State::begun_variant))]
    fn begin_variant(
        &mut self,
        alloc: Global,
        looseness: i32,
        demerits: u32,
    ) -> Result<(), ListKind>
        requires { WithinSound self.old.within self.old.variants }
        ensures { Steps result (begun_variant self.old self.old.within looseness demerits) self.new }
    {
        match self.within {
            Within::Outside | Within::Listing => Err(ListKind::ChoiceShape),
            Within::InChoice => self.open_variant(looseness, demerits),
            Within::InVariant {
                looseness: last_looseness,
                demerits: last_demerits,
            } => {
                self.close(alloc, last_looseness, last_demerits)?;
                self.open_variant(looseness, demerits)
            }
        }
    }

    // The variants so far are a choice.
    #[tactic(auto, unfolding(crate::specs::State::whole_choice))]
    fn take_choice(&mut self, alloc: Global) -> Result<(), ListKind>
        requires { 0 < length self.old.variants }
        ensures { Steps result (whole_choice self.old) self.new }
    {
        let variants = mem::replace(&mut self.variants, Variants::new(alloc));
        let Ok(()) = self.blocks.push(Block::Choice(variants.into_choice())) else {
            return Err(ListKind::Memory);
        };
        self.within = Within::Listing;
        self.has_item = false;
        Ok(())
    }

    // The choice ends.
    #[tactic(auto, unfolding(crate::specs::State::ended_choice))]
    fn end_choice(&mut self, alloc: Global) -> Result<(), ListKind>
        requires { WithinSound self.old.within self.old.variants }
        ensures { Steps result (ended_choice self.old self.old.within) self.new }
    {
        match self.within {
            Within::InVariant {
                looseness,
                demerits,
            } => {
                self.close(alloc, looseness, demerits)?;
                self.take_choice(alloc)
            }
            _ => Err(ListKind::ChoiceShape),
        }
    }

    /// What a line that says this does to what was read so far.
    #[tactic(auto, unfolding(crate::specs::State::step))]
    pub fn step(&mut self, alloc: Global, said: ParsedLine, line: &[u8]) -> Result<(), ListKind>
        requires sound { WithinSound self.old.within self.old.variants }
        requires range { IsParsedInRange said }
        ensures { Steps result (step self.old said line.now) self.new }
    {
        match said {
            ParsedLine::Nothing => Ok(()),
            ParsedLine::Blank => self.end_listing(),
            ParsedLine::Root { width } => self.begin_listing(width),
            ParsedLine::Item { node } => self.place(alloc, node, skip_if(b".", line)),
            ParsedLine::Barrier => self.place_barrier(alloc),
            ParsedLine::Deeper => self.extend(skip_if(b".", line)),
            ParsedLine::ChoiceMark => self.begin_choice(alloc),
            ParsedLine::VariantMark {
                looseness,
                demerits,
            } => self.begin_variant(alloc, looseness, demerits),
            ParsedLine::EndMark => self.end_choice(alloc),
        }
    }
}
