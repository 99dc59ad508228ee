//! Lists of counts.
ghost use Rattle.std.specs.Prelude.{◌≡◌, ◌∷◌, []};

use pg_plan::Counts;
use std::marker::Model;
use std::slice;

#[derive(Drop)]
pub(crate) enum KeptLists {
    One(Counts),
    Many(Vec<Counts>),
}

/// Lists of counts. One alone stands in place.
#[derive(Drop)]
pub struct ListedCounts {
    pub(crate) kept: KeptLists,
}

impl Model for ListedCounts {
    ghost use Rattle.std.specs.Prelude.{List, ℕ};
    ghost use Rattle.pg_layouts.specs.ListsKept.{lists_kept};

    ghost Value = { List (List ℕ) };

    ghost view = { λ a. lists_kept a.kept };
}

impl ListedCounts {
    /// One list alone. No memory is taken.
    pub fn one(counts: Counts) -> ListedCounts
        ensures { result ≡ counts ∷ [] }
    {
        ListedCounts {
            kept: KeptLists::One(counts),
        }
    }

    pub(crate) fn many(lists: Vec<Counts>) -> ListedCounts
        ensures { result ≡ lists.items }
    {
        ListedCounts {
            kept: KeptLists::Many(lists),
        }
    }

    pub fn as_slice(&self) -> &[Counts]
        ensures value { result.now ≡ self.now }
    {
        match &self.kept {
            KeptLists::One(counts) => slice::from_ref(counts),
            KeptLists::Many(lists) => lists.as_slice(),
        }
    }
}
