//! An end of a column of text, with its numbers.
ghost use Rattle.std.specs.Prelude.{◌≡◌, ◌<◌, ◌≤◌, IfOk, OnOk, OnErr, ◌++◌, ◌∷◌, [], length};
ghost use Rattle.std.specs.List.{insert};

use crate::TextCost;
use pg_list::Place;
use pg_plan::Picks;
use std::alloc::{AllocError, Global};
use std::marker::Model;

/// An end of a column: its place, the picks of the choices that begin in it, its numbers, and the demerits of the
/// variants picked.
#[derive(Drop)]
pub struct End {
    pub to: Place,
    pub picks: Picks,
    pub cost: TextCost,
    pub pick_demerits: i64,
}

/// Ends in order.
#[derive(Drop)]
pub struct EndList {
    ends: Vec<End>,
}

impl Model for EndList {
    ghost use Rattle.std.specs.Prelude.{List};
    ghost use Rattle.pg_column.specs.declared.end.End.{End};

    ghost Value = { List End };

    ghost view = { λ a. a.ends.items };
}

impl EndList {
    /// No ends, with room for so many. The one refusal is want of memory.
    pub fn with_room(alloc: Global, count: usize) -> Result<EndList, AllocError>
        ensures { IfOk result (λ list. list ≡ []) }
    {
        Ok(EndList {
            ends: Vec::with_capacity(alloc, count)?,
        })
    }

    /// Adds an end behind the others.
    pub fn push(&mut self, end: End) -> Result<(), AllocError>
        ensures ok { OnOk result (self.new ≡ self.old ++ end ∷ []) }
        ensures err { OnErr result (self.new ≡ self.old) }
    {
        self.ends.push(end)?;
        Ok(())
    }

    /// Puts an end in at an index.
    pub fn insert(&mut self, at: usize, end: End) -> Result<(), AllocError>
        requires { at ≤ length self.old }
        ensures ok { OnOk result (self.new ≡ insert self.old at end) }
        ensures err { OnErr result (self.new ≡ self.old) }
    {
        self.ends.insert(at, end)?;
        Ok(())
    }

    pub fn as_slice(&self) -> &[End]
        ensures { result.now ≡ self.now }
    {
        self.ends.as_slice()
    }
}

/// A list of ends for each of several rooms.
#[derive(Drop)]
pub struct EndLists {
    lists: Vec<EndList>,
}

impl Model for EndLists {
    ghost use Rattle.std.specs.Prelude.{List};
    ghost use Rattle.pg_column.specs.declared.end.End.{End};

    ghost Value = { List (List End) };

    ghost view = { λ a. a.lists.items };
}

impl EndLists {
    /// No lists. No memory is taken.
    pub fn new(alloc: Global) -> EndLists
        ensures { result ≡ [] }
    {
        EndLists {
            lists: Vec::new(alloc),
        }
    }

    /// Adds a list behind the others.
    pub fn push(&mut self, ends: EndList) -> Result<(), AllocError>
        ensures ok { OnOk result (self.new ≡ self.old ++ ends ∷ []) }
        ensures err { OnErr result (self.new ≡ self.old) }
    {
        self.lists.push(ends)?;
        Ok(())
    }

    pub fn as_slice(&self) -> &[EndList]
        ensures { result.now ≡ self.now }
    {
        self.lists.as_slice()
    }
}
