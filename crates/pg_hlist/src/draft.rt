//! What was read so far.
ghost use Rattle.std.specs.Prelude.{◌≡◌, OnOk};
ghost use Rattle.pg_hlist.specs.Items.{IsNodeInRange, node_item};
ghost use Rattle.pg_showbox.specs.State.{Steps};
ghost use Rattle.pg_hlist.specs.Reading.{closed, empty, longer_last, placed, step};
ghost use Rattle.pg_hlist.specs.ParsedLine.{IsParsedInRange};

use crate::item::{HNode, ParaLine};
use crate::node::item_from;
use crate::para::{Para, Paras};
use pg_list::Bytes;
use pg_scan::skip_if;
use pg_showbox::ListKind;
use std::alloc::{AllocError, Global};

/// What was read so far: the paragraphs that have ended, and the items of the one that has not.
#[derive(Drop)]
pub struct Draft {
    pub paras: Paras,
    pub current: Option<Para>,
}

impl Draft {
    /// Nothing was read.
    pub fn new(alloc: Global) -> Draft
        ensures { result ≡ empty }
    {
        Draft {
            paras: Paras::new(alloc),
            current: None,
        }
    }

    // An item stands next.
    #[tactic(auto, unfolding(crate::specs::Reading::placed))]
    fn place(&mut self, alloc: Global, node: HNode, body: &[u8]) -> Result<(), ListKind>
        requires { IsNodeInRange node }
        ensures { Steps result (placed self.old self.old.current (node_item node body.now)) self.new }
    {
        let Some(items) = &mut self.current else {
            return Err(ListKind::BadLine);
        };
        if items.len() >= 2048 {
            return Err(ListKind::Limit);
        }
        let Ok(body) = Bytes::from_slice(alloc, body) else {
            return Err(ListKind::Memory);
        };
        match items.push(item_from(node, body)) {
            Ok(()) => Ok(()),
            Err(_) => Err(ListKind::Memory),
        }
    }

    // A deeper line stands next.
    #[tactic(auto, unfolding(crate::specs::Reading::longer_last))]
    fn extend(&mut self, line: &[u8]) -> Result<(), ListKind>
        ensures { Steps result (longer_last self.old self.old.current line.now) self.new }
    {
        let Some(items) = &mut self.current else {
            return Err(ListKind::BadLine);
        };
        if items.len() == 0 {
            return Err(ListKind::BadLine);
        }
        match items.extend_last(line) {
            Ok(()) => Ok(()),
            Err(_) => Err(ListKind::Memory),
        }
    }

    /// The paragraph that is open, if there is one, ends.
    pub fn end(&mut self) -> Result<(), AllocError>
        ensures { OnOk result (self.new ≡ closed self.old) }
    {
        if let Some(items) = self.current.take() {
            self.paras.push(items)?;
        }
        Ok(())
    }

    /// Does what a line that says this does.
    #[tactic(auto, unfolding(crate::specs::Reading::step))]
    pub fn step(&mut self, alloc: Global, parsed: ParaLine, line: &[u8]) -> Result<(), ListKind>
        requires { IsParsedInRange parsed }
        ensures { Steps result (step self.old parsed line.now) self.new }
    {
        match parsed {
            ParaLine::Nothing => Ok(()),
            ParaLine::Blank => match self.end() {
                Ok(()) => Ok(()),
                Err(_) => Err(ListKind::Memory),
            },
            ParaLine::Root => {
                self.current = Some(Para::new(alloc));
                Ok(())
            }
            ParaLine::Item { node } => self.place(alloc, node, skip_if(b".", line)),
            ParaLine::Deeper => self.extend(skip_if(b".", line)),
        }
    }
}
