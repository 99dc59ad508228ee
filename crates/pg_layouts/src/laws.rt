//! The law is the contract of a function that does nothing.
ghost use Rattle.std.specs.Prelude.{ℕ, List};
ghost use Rattle.pg_layouts.specs.Counts.{count_lists};
ghost use Rattle.pg_layouts.specs.Laws.{AreAllCounts};

/// The lists of counts within limits and a sum are all that there are, each once.
pub fn counts_are_listed()
    ensures { (most : ℕ) (limits : List ℕ) → AreAllCounts most limits (count_lists most limits) }
{}
