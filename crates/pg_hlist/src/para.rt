//! Paragraphs as lists of items.
ghost use Rattle.std.specs.Prelude.{◌≡◌, ◌≤◌, ◌<◌, ◌++◌, ◌∷◌, [], length, OnOk, OnErr};
ghost use Rattle.pg_hlist.specs.Items.{IsInRange, IsPara, extended, para_limit, with_line as longer_item};

use crate::item::HItem;
use std::alloc::{AllocError, Global};
use std::marker::Model;

impl HItem {
    /// Puts one more line behind the body.
    pub fn add_line(&mut self, line: &[u8]) -> Result<(), AllocError>
        ensures ok { OnOk result (self.new ≡ longer_item line.now self.old) }
        ensures err { OnErr result (self.new ≡ self.old) }
    {
        match self {
            HItem::BoxItem { body, .. } => body.add_line(line),
            HItem::Glue { body, .. } => body.add_line(line),
            HItem::Kern { body, .. } => body.add_line(line),
            HItem::Penalty { body, .. } => body.add_line(line),
        }
    }
}

/// The items of a paragraph, at most 2^11, each within the ranges of a list.
#[derive(Drop)]
pub struct Para {
    items: Vec<HItem>,
}

impl Model for Para {
    ghost use Rattle.std.specs.Prelude.{List};
    ghost use Rattle.pg_hlist.specs.declared.item.HItem.{HItem};
    ghost use Rattle.pg_hlist.specs.Items.{IsPara};

    ghost Value = { List HItem };

    ghost view = { λ a. a.items.items };

    ghost invariant = { λ a. IsPara a.items.items };
}

impl Para {
    /// No items.
    pub fn new(alloc: Global) -> Para
        ensures { result ≡ [] }
    {
        Para {
            items: Vec::new(alloc),
        }
    }

    /// How many items there are.
    pub fn len(&self) -> usize
        ensures { result ≡ length self.now }
    {
        self.items.len()
    }

    /// The items, which keep their ranges.
    pub fn as_slice(&self) -> &[HItem]
        ensures items { result.now ≡ self.now }
        ensures para { IsPara self.now }
    {
        self.items.as_slice()
    }

    /// Adds an item behind the others.
    #[tactic(auto, using(crate::proofs::Growing::para_lemmas))]
    pub fn push(&mut self, item: HItem) -> Result<(), AllocError>
        requires range { IsInRange item }
        requires room { length self.old < para_limit }
        ensures ok { OnOk result (self.new ≡ self.old ++ item ∷ []) }
        ensures err { OnErr result (self.new ≡ self.old) }
    {
        self.items.push(item)?;
        Ok(())
    }

    /// Puts one more line behind the body of the last item.
    #[tactic(auto, using(crate::proofs::Growing::para_lemmas))]
    pub fn extend_last(&mut self, line: &[u8]) -> Result<(), AllocError>
        ensures ok { OnOk result (self.new ≡ extended line.now self.old) }
        ensures err { OnErr result (self.new ≡ self.old) }
    {
        let Some(item) = self.items.last_mut() else {
            return Ok(());
        };
        item.add_line(line)
    }
}

/// Paragraphs in order.
#[derive(Drop)]
pub struct Paras {
    items: Vec<Para>,
}

impl Model for Paras {
    ghost use Rattle.std.specs.Prelude.{List};
    ghost use Rattle.pg_hlist.specs.declared.item.HItem.{HItem};

    ghost Value = { List (List HItem) };

    ghost view = { λ a. a.items.items };
}

impl Paras {
    /// No paragraphs.
    pub fn new(alloc: Global) -> Paras
        ensures { result ≡ [] }
    {
        Paras {
            items: Vec::new(alloc),
        }
    }

    /// The paragraphs.
    pub fn as_slice(&self) -> &[Para]
        ensures { result.now ≡ self.now }
    {
        self.items.as_slice()
    }

    /// Adds a paragraph behind the others.
    pub fn push(&mut self, para: Para) -> Result<(), AllocError>
        ensures ok { OnOk result (self.new ≡ self.old ++ para ∷ []) }
        ensures err { OnErr result (self.new ≡ self.old) }
    {
        self.items.push(para)?;
        Ok(())
    }
}
