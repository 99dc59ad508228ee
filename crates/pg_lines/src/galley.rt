//! The galley of paragraphs in variants.
ghost use Rattle.std.specs.Prelude.{◌≡◌, ◌≤◌, IfErr, IfOk, OnOk};
ghost use Rattle.pg_list.specs.Counts.{block_size, item_count, item_limit};
ghost use Rattle.pg_list.specs.Ranges.{IsItemInRange};
ghost use Rattle.pg_list.specs.Shapes.{IsChoice};
ghost use Rattle.pg_list.specs.declared.blocks.Block.TheVariants.{Choice as AChoice, One};
ghost use Rattle.pg_hlist.specs.Items.{IsPara};
ghost use Rattle.law_lines.specs.Galleys.{parskip, with_choice};
ghost use Rattle.law_lines.specs.ParagraphsLaws.{IsRule};
ghost use Rattle.pg_lines.specs.Answers.{AnswersLines, EndsIn, IsMade, LeadsOn};

use crate::choice::variants_of;
use law_lines::{LineFault, LineRule};
use pg_hlist::{HItem, Paras};
use pg_list::{Block, Blocks, Bytes, Choice, Galley, ITEM_LIMIT, Item, Order, Variant};
use pg_table::Steps;
use std::alloc::{AllocError, Global};
use std::sync::ledger::Ledger;

// The glue between paragraphs.
fn skip(alloc: Global) -> Result<Item, AllocError>
    ensures value { IfOk result (λ item. One item ≡ parskip) }
    ensures range { IfOk result IsItemInRange }
{
    Ok(Item::Glue {
        width: 0,
        stretch: 65536,
        order: Order::Finite,
        shrink: 0,
        body: Bytes::from_slice(alloc, b"\\glue(\\parskip) 0.0 plus 1.0")?,
    })
}

// Adds a paragraph, with glue in front of it where it is not the first.
fn push_paragraph(
    blocks: &mut Blocks,
    alloc: Global,
    variants: Vec<Variant>,
) -> Result<(), AllocError>
    requires { IsChoice variants.items }
    ensures { OnOk result (blocks.new ≡ with_choice blocks.old variants.items) }
{
    if blocks.len() > 0 {
        blocks.push(Block::One(skip(alloc)?))?;
    }
    blocks.push(Block::Choice(Choice::of(variants)))?;
    Ok(())
}

// How many items these variants have.
fn count_of(variants: &[Variant]) -> u32
    requires { block_size (AChoice variants.now) ≤ item_limit }
    ensures { result ≡ block_size (AChoice variants.now) }
{
    let mut count = 0u32;
    let mut rest = variants;
    'variants: while let [variant, after @ ..] = rest {
        count += variant.items.len() as u32;
        rest = after;
    }
    count
}

// How many items there are with a paragraph more.
fn count_with(blocks: &Blocks, count: u32, variants: &[Variant]) -> u32
    requires count { count ≡ item_count blocks.now }
    requires few { count ≤ item_limit }
    requires more { block_size (AChoice variants.now) ≤ item_limit }
    ensures { result ≡ item_count (with_choice blocks.now variants.now) }
{
    let glue = u32::from(blocks.len() > 0);
    count + glue + count_of(variants)
}

/// The blocks so far, with the number of their items, and of how many paragraphs they are.
#[derive(Drop)]
pub struct Made {
    pub blocks: Blocks,
    pub count: u32,
    pub paragraphs: u32,
}

impl Made {
    // Adds a paragraph, or answers what ends it all.
    fn add<L: Ledger>(
        &mut self,
        alloc: Global,
        rule: &LineRule,
        items: &[HItem],
        steps: &mut Steps<L>,
    ) -> Result<(), LineFault>
        requires rule { IsRule rule.now }
        requires para { IsPara items.now }
        requires made { IsMade self.old }
        ensures made { OnOk result (IsMade self.new) }
        ensures ok { OnOk result (LeadsOn rule.now self.old items.now self.new) }
        ensures err { IfErr result (EndsIn rule.now self.old items.now) }
    {
        let number = self.paragraphs + 1;
        let Ok(found) = variants_of(alloc, rule, items, steps) else {
            return Err(LineFault::Memory);
        };
        let Some(variants) = found else {
            return Err(LineFault::NoBreak { paragraph: number });
        };
        let count = count_with(&self.blocks, self.count, variants.as_slice());
        if count > ITEM_LIMIT {
            return Err(LineFault::Limit { count });
        }
        let Ok(()) = push_paragraph(&mut self.blocks, alloc, variants) else {
            return Err(LineFault::Memory);
        };
        self.count = count;
        self.paragraphs = number;
        Ok(())
    }
}

/// The galley of these paragraphs, each a choice between its best number of lines and others around it.
///
/// `NoBreak` comes exactly where a paragraph has no legal way, `Limit` exactly where the galley up to a paragraph has
/// more than 2^20 items, with their number; the first paragraph with a fault decides, and in it `NoBreak` comes first.
/// Of `Memory` nothing is said.
pub fn break_lines<L: Ledger>(
    alloc: Global,
    paras: &Paras,
    rule: &LineRule,
    steps: &mut Steps<L>,
) -> Result<Galley, LineFault>
    requires { IsRule rule.now }
    ensures { AnswersLines rule.now paras.now result }
{
    let mut made = Made {
        blocks: Blocks::new(alloc),
        count: 0,
        paragraphs: 0,
    };
    let mut rest = paras.as_slice();
    'paragraphs: while let [para, after @ ..] = rest {
        made.add(alloc, rule, para.as_slice(), steps)?;
        rest = after;
    }
    Ok(Galley::of(rule.width, made.blocks))
}
