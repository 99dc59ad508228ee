//! The heads and the references of pages.
ghost use Rattle.std.specs.Prelude.{◌≡◌, ◌++◌, OnOk, OnErr, ◌∷◌, []};

use pg_list::Bytes;
use std::alloc::{AllocError, Global};
use std::marker::Model;

/// The marks of a page: the last of the pages before it, its first, and its last.
#[derive(Drop)]
pub struct Head {
    pub top: Bytes,
    pub first: Bytes,
    pub bottom: Bytes,
}

/// A reference: the name that it has, the page of its use, and the page of its label, if there is one.
#[derive(Drop)]
pub struct Reference {
    pub name: Bytes,
    pub on: u32,
    pub page: Option<u32>,
}

/// Heads in the order of their pages.
#[derive(Drop)]
pub struct HeadList {
    heads: Vec<Head>,
}

impl Model for HeadList {
    ghost use Rattle.std.specs.Prelude.{List};
    ghost use Rattle.pg_marks.specs.declared.lists.Head.{Head};

    ghost Value = { List Head };

    ghost view = { λ a. a.heads.items };
}

impl HeadList {
    /// No heads. No memory is taken.
    pub fn new(alloc: Global) -> HeadList
        ensures { result ≡ [] }
    {
        HeadList {
            heads: Vec::new(alloc),
        }
    }

    /// Adds a head behind the others.
    pub fn push(&mut self, head: Head) -> Result<(), AllocError>
        ensures ok { OnOk result (self.new ≡ self.old ++ head ∷ []) }
        ensures err { OnErr result (self.new ≡ self.old) }
    {
        self.heads.push(head)?;
        Ok(())
    }

    pub fn as_slice(&self) -> &[Head]
        ensures { result.now ≡ self.now }
    {
        self.heads.as_slice()
    }
}

/// References in the order of their uses.
#[derive(Drop)]
pub struct ReferenceList {
    references: Vec<Reference>,
}

impl Model for ReferenceList {
    ghost use Rattle.std.specs.Prelude.{List};
    ghost use Rattle.pg_marks.specs.declared.lists.Reference.{Reference};

    ghost Value = { List Reference };

    ghost view = { λ a. a.references.items };
}

impl ReferenceList {
    /// No references. No memory is taken.
    pub fn new(alloc: Global) -> ReferenceList
        ensures { result ≡ [] }
    {
        ReferenceList {
            references: Vec::new(alloc),
        }
    }

    /// Adds a reference behind the others.
    pub fn push(&mut self, reference: Reference) -> Result<(), AllocError>
        ensures ok { OnOk result (self.new ≡ self.old ++ reference ∷ []) }
        ensures err { OnErr result (self.new ≡ self.old) }
    {
        self.references.push(reference)?;
        Ok(())
    }

    pub fn as_slice(&self) -> &[Reference]
        ensures { result.now ≡ self.now }
    {
        self.references.as_slice()
    }
}
