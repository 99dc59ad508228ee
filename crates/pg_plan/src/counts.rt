//! Counts of floats by class.
ghost use Rattle.std.specs.Prelude.{◌≡◌, ◌<◌, ◌≤◌, IfOk, ◌++◌, OnOk, OnErr, ◌∷◌, [], length, nat_le, slice_set, replicate};
ghost use Rattle.std.proofs.Common.{rules};
ghost use Rattle.std.specs.Bool.{nat_eq};
ghost use Rattle.std.specs.Cmp.{partial_equiv_from_equiv};
ghost use Rattle.std.specs.Cmp.Rules.{hashing};
ghost use Rattle.std.specs.Cmp.Lexicographic.{pointwise, nat_list_eq_equiv};
ghost use Rattle.std.specs.Hash as fed;
ghost use Rattle.std.specs.Hash.{items_Alike};

use std::alloc::{AllocError, Global};
use std::hash::{Hash, Hasher};
use std::marker::Model;

// Up to 8 counts, in place.
#[derive(Drop)]
pub(crate) struct FewCounts {
    len: usize,
    counts: [u16; 8],
}

impl Model for FewCounts {
    ghost use Rattle.std.specs.Prelude.{List, ℕ, ◌≤◌, take};

    ghost Value = { List ℕ };

    ghost view = { λ a. take a.len a.counts };

    ghost invariant = { λ a. a.len ≤ 8 };
}

impl FewCounts {
    fn new() -> FewCounts
        ensures { result ≡ [] }
    {
        FewCounts {
            len: 0,
            counts: [0; 8],
        }
    }

    fn copy(&self) -> FewCounts
        ensures { result ≡ self.now }
    {
        FewCounts {
            len: self.len,
            counts: self.counts,
        }
    }

    fn is_full(&self) -> bool
        ensures { result ≡ nat_le 8 (length self.now) }
    {
        self.len >= 8
    }

    fn as_slice(&self) -> &[u16]
        ensures { result.now ≡ self.now }
    {
        &self.counts[..self.len]
    }

    #[tactic(auto, using(std::proofs::lemmas::List::take_more_set))]
    fn push(&mut self, count: u16)
        requires { length self.old < 8 }
        ensures { self.new ≡ self.old ++ count ∷ [] }
    {
        self.counts[self.len] = count;
        self.len += 1;
    }

    fn zeros(slots: usize) -> FewCounts
        requires { slots ≤ 8 }
        ensures { result ≡ replicate slots 0 }
    {
        FewCounts {
            len: slots,
            counts: [0; 8],
        }
    }

    #[tactic(auto, using(pg_lemmas::proofs::InPlace::set_among))]
    fn set(&mut self, slot: usize, count: u16)
        requires { slot < length self.old }
        ensures { self.new ≡ slice_set self.old slot count }
    {
        let counts = &mut self.counts;
        counts[slot] = count;
    }
}

#[derive(Drop)]
pub(crate) enum KeptCounts {
    Few(FewCounts),
    Many(Vec<u16>),
}

// As many on the heap, and one more behind them.
#[cold]
#[inline(never)]
fn spilled(alloc: Global, counts: &[u16], count: u16) -> Result<Vec<u16>, AllocError>
    ensures { IfOk result (λ many. many.items ≡ counts.now ++ count ∷ []) }
{
    let mut many = Vec::with_capacity(alloc, 16)?;
    many.extend_from_slice(counts)?;
    many.push(count)?;
    Ok(many)
}

/// Counts of floats by class. Up to 8 of them stand in place.
#[derive(Drop)]
pub struct Counts {
    alloc: Global,
    kept: KeptCounts,
}

impl Model for Counts {
    ghost use Rattle.std.specs.Prelude.{List, ℕ};
    ghost use Rattle.pg_plan.specs.CountsKept.{counts_kept};

    ghost Value = { List ℕ };

    ghost view = { λ a. counts_kept a.kept };
}

impl Counts {
    /// No counts. No memory is taken.
    pub fn new(alloc: Global) -> Counts
        ensures { result ≡ [] }
    {
        Counts {
            alloc,
            kept: KeptCounts::Few(FewCounts::new()),
        }
    }

    /// As many counts of 0. No memory is taken.
    pub fn zeros(alloc: Global, slots: usize) -> Counts
        requires { slots ≤ 8 }
        ensures { result ≡ replicate slots 0 }
    {
        Counts {
            alloc,
            kept: KeptCounts::Few(FewCounts::zeros(slots)),
        }
    }

    pub fn as_slice(&self) -> &[u16]
        ensures { result.now ≡ self.now }
    {
        match &self.kept {
            KeptCounts::Few(few) => few.as_slice(),
            KeptCounts::Many(many) => many.as_slice(),
        }
    }

    /// Adds a count behind the others.
    pub fn push(&mut self, count: u16) -> Result<(), AllocError>
        ensures ok { OnOk result (self.new ≡ self.old ++ count ∷ []) }
        ensures err { OnErr result (self.new ≡ self.old) }
    {
        match &mut self.kept {
            KeptCounts::Few(few) => {
                if few.is_full() {
                    self.kept = KeptCounts::Many(spilled(self.alloc, few.as_slice(), count)?);
                } else {
                    few.push(count);
                }
            }
            KeptCounts::Many(many) => many.push(count)?,
        }
        Ok(())
    }

    /// Writes one count.
    pub fn set(&mut self, slot: usize, count: u16)
        requires { slot < length self.old }
        ensures { self.new ≡ slice_set self.old slot count }
    {
        match &mut self.kept {
            KeptCounts::Few(few) => few.set(slot, count),
            KeptCounts::Many(many) => many.as_mut_slice()[slot] = count,
        }
    }

    pub fn copy(&self) -> Result<Counts, AllocError>
        ensures { IfOk result (λ counts. counts ≡ self.now) }
    {
        let kept = match &self.kept {
            KeptCounts::Few(few) => KeptCounts::Few(few.copy()),
            KeptCounts::Many(many) => KeptCounts::Many(Vec::from_slice(
                self.alloc,
                many.as_slice(),
            )?),
        };
        Ok(Counts {
            alloc: self.alloc,
            kept,
        })
    }
}

impl PartialEq for Counts {
    ghost eq = { pointwise nat_eq };

    ghost laws = { partial_equiv_from_equiv nat_list_eq_equiv };

    fn eq(&self, other: &Counts) -> bool {
        self.as_slice() == other.as_slice()
    }
}

impl Eq for Counts {
    ghost laws = { nat_list_eq_equiv };
}

impl Hash for Counts {
    ghost hash_input = { λ counts. fed.slice fed.u16 counts };

    ghost respects_eq = { (items_Alike {F = fed.u16} (record { fed = Prim.search (hashing, rules) })).fed };

    fn hash<H: Hasher>(&self, state: &mut H) {
        self.as_slice().hash(state);
    }
}
