//! The entries of a distance table while they are read.
ghost use Rattle.std.specs.Prelude.{◌≡◌, ◌<◌, ◌≤◌, ◌++◌, ◌∷◌, [], length};

use std::marker::Model;

/// Up to 9 entries.
#[derive(Drop)]
pub struct Entries {
    // the first `count` are meant
    entries: [u32; 9],
    count: usize,
}

impl Model for Entries {
    ghost use Rattle.std.specs.Prelude.{List, ℕ, ◌≤◌, take};

    ghost Value = { List ℕ };

    ghost view = { λ a. take a.count a.entries };

    ghost invariant = { λ a. a.count ≤ 9 };
}

impl Entries {
    /// No entries.
    pub fn new() -> Entries
        ensures { result ≡ [] }
    {
        Entries {
            entries: [0; 9],
            count: 0,
        }
    }

    /// Adds an entry behind the others.
    #[tactic(auto, using(std::proofs::lemmas::List::take_more_set))]
    pub fn push(&mut self, entry: u32)
        requires { length self.old < 9 }
        ensures { self.new ≡ self.old ++ entry ∷ [] }
    {
        self.entries[self.count] = entry;
        self.count += 1;
    }

    pub fn as_slice(&self) -> &[u32]
        ensures { result.now ≡ self.now }
    {
        &self.entries[..self.count]
    }
}
