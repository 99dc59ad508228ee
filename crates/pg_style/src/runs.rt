//! The runs of a style.
ghost use Rattle.std.specs.Prelude.{◌≡◌, ◌<◌, ◌++◌, ◌∷◌, [], length};

use crate::style::Run;
use std::alloc::Global;
use std::marker::Model;

/// The runs of pages, 1 to 5.
#[derive(Drop)]
pub struct Runs {
    // the first `count` are meant
    runs: [Run; 5],
    count: usize,
}

impl Model for Runs {
    ghost use Rattle.std.specs.Prelude.{List, ◌≤◌, take};
    ghost use Rattle.pg_style.specs.declared.style.Run.{Run};

    ghost Value = { List Run };

    ghost use Rattle.pg_style.specs.Ranges.{AreRuns};

    ghost view = { λ a. take a.count a.runs };

    ghost invariant = { λ a. AreRuns (take a.count a.runs) × (a.count ≤ 5) };
}

impl Runs {
    ghost use Rattle.pg_style.specs.Ranges.{IsRun, AreRuns};

    /// The first run, alone. No memory is taken.
    pub fn new(alloc: Global, first: Run) -> Runs
        requires { IsRun first }
        ensures { result ≡ first ∷ [] }
    {
        Runs {
            runs: [first; 5],
            count: 1,
        }
    }

    /// Adds a run behind the others. No memory is taken.
    pub fn push(&mut self, run: Run)
        requires few { length self.old < 5 }
        requires range { IsRun run }
        ensures { self.new ≡ self.old ++ run ∷ [] }
    {
        self.runs[self.count] = run;
        self.count += 1;
    }

    pub fn as_slice(&self) -> &[Run]
        ensures runs { result.now ≡ self.now }
        ensures range { AreRuns self.now }
    {
        &self.runs[..self.count]
    }
}
