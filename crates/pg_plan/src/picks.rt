//! Picks of variants.
ghost use Rattle.std.specs.Prelude.{◌≡◌, ◌<◌, IfOk, ◌++◌, OnOk, OnErr, ◌∷◌, [], length, nat_le};

use std::alloc::{AllocError, Global};
use std::marker::Model;

// Up to 12 picks, in place.
#[derive(Drop)]
pub(crate) struct FewPicks {
    len: usize,
    picks: [u32; 12],
}

impl Model for FewPicks {
    ghost use Rattle.std.specs.Prelude.{List, ℕ, ◌≤◌, take};

    ghost Value = { List ℕ };

    ghost view = { λ a. take a.len a.picks };

    ghost invariant = { λ a. a.len ≤ 12 };
}

impl FewPicks {
    fn new() -> FewPicks
        ensures { result ≡ [] }
    {
        FewPicks {
            len: 0,
            picks: [0; 12],
        }
    }

    fn copy(&self) -> FewPicks
        ensures { result ≡ self.now }
    {
        FewPicks {
            len: self.len,
            picks: self.picks,
        }
    }

    fn is_full(&self) -> bool
        ensures { result ≡ nat_le 12 (length self.now) }
    {
        self.len >= 12
    }

    fn as_slice(&self) -> &[u32]
        ensures { result.now ≡ self.now }
    {
        &self.picks[..self.len]
    }

    #[tactic(auto, using(std::proofs::lemmas::List::take_more_set))]
    fn push(&mut self, pick: u32)
        requires { length self.old < 12 }
        ensures { self.new ≡ self.old ++ pick ∷ [] }
    {
        self.picks[self.len] = pick;
        self.len += 1;
    }
}

#[derive(Drop)]
pub(crate) enum KeptPicks {
    Few(FewPicks),
    Many(Vec<u32>),
}

// As many on the heap, and one more behind them.
#[cold]
#[inline(never)]
fn spilled(alloc: Global, picks: &[u32], pick: u32) -> Result<Vec<u32>, AllocError>
    ensures { IfOk result (λ many. many.items ≡ picks.now ++ pick ∷ []) }
{
    let mut many = Vec::with_capacity(alloc, 24)?;
    many.extend_from_slice(picks)?;
    many.push(pick)?;
    Ok(many)
}

/// The variants picked, in the order of their choices. Up to 12 of them stand in place.
#[derive(Drop)]
pub struct Picks {
    alloc: Global,
    kept: KeptPicks,
}

impl Model for Picks {
    ghost use Rattle.std.specs.Prelude.{List, ℕ};
    ghost use Rattle.pg_plan.specs.PicksKept.{picks_kept};

    ghost Value = { List ℕ };

    ghost view = { λ a. picks_kept a.kept };
}

impl Picks {
    /// No picks. No memory is taken.
    pub fn new(alloc: Global) -> Picks
        ensures { result ≡ [] }
    {
        Picks {
            alloc,
            kept: KeptPicks::Few(FewPicks::new()),
        }
    }

    /// Adds a pick behind the others.
    pub fn push(&mut self, pick: u32) -> Result<(), AllocError>
        ensures ok { OnOk result (self.new ≡ self.old ++ pick ∷ []) }
        ensures err { OnErr result (self.new ≡ self.old) }
    {
        match &mut self.kept {
            KeptPicks::Few(few) => {
                if few.is_full() {
                    self.kept = KeptPicks::Many(spilled(self.alloc, few.as_slice(), pick)?);
                } else {
                    few.push(pick);
                }
            }
            KeptPicks::Many(many) => many.push(pick)?,
        }
        Ok(())
    }

    pub fn as_slice(&self) -> &[u32]
        ensures { result.now ≡ self.now }
    {
        match &self.kept {
            KeptPicks::Few(few) => few.as_slice(),
            KeptPicks::Many(many) => many.as_slice(),
        }
    }

    pub fn copy(&self) -> Result<Picks, AllocError>
        ensures { IfOk result (λ picks. picks ≡ self.now) }
    {
        let kept = match &self.kept {
            KeptPicks::Few(few) => KeptPicks::Few(few.copy()),
            KeptPicks::Many(many) => KeptPicks::Many(Vec::from_slice(self.alloc, many.as_slice())?),
        };
        Ok(Picks {
            alloc: self.alloc,
            kept,
        })
    }
}
