//! Ages of waiting floats.
ghost use Rattle.std.specs.Prelude.{◌≡◌, ◌<◌, ◌≤◌, ◌+◌, IfOk, ◌++◌, OnOk, OnErr, ◌∷◌, [], length, nat_le, slice_index, map};
ghost use Rattle.std.specs.List.{insert, remove, AllByRecursion};
ghost use Rattle.pg_plan.specs.AgesKept.{ages_kept};

use std::alloc::{AllocError, Global};
use std::marker::Model;

// Each of these ages rises by one.
fn raise(ages: &mut [u8])
    requires { AllByRecursion (λ age. age < 255) ages.old }
    ensures { ages.new ≡ map (λ age. age + 1) ages.old }
{
    for age in ages {
        *age += 1;
    }
}

// Up to 16 ages, in place.
#[derive(Drop)]
pub(crate) struct FewAges {
    len: usize,
    ages: [u8; 16],
}

impl Model for FewAges {
    ghost use Rattle.std.specs.Prelude.{List, ℕ, ◌≤◌, take};

    ghost Value = { List ℕ };

    ghost view = { λ a. take a.len a.ages };

    ghost invariant = { λ a. a.len ≤ 16 };
}

impl FewAges {
    fn new() -> FewAges
        ensures { result ≡ [] }
    {
        FewAges {
            len: 0,
            ages: [0; 16],
        }
    }

    #[tactic(auto, using(std::proofs::lemmas::List::take_at))]
    fn of(ages: &[u8]) -> FewAges
        requires { length ages.now ≤ 16 }
        ensures { result ≡ ages.now }
    {
        let len = ages.len();
        let mut places = [0; 16];
        places[..len].copy_from_slice(ages);
        FewAges { len, ages: places }
    }

    fn copy(&self) -> FewAges
        ensures { result ≡ self.now }
    {
        FewAges {
            len: self.len,
            ages: self.ages,
        }
    }

    fn is_full(&self) -> bool
        ensures { result ≡ nat_le 16 (length self.now) }
    {
        self.len >= 16
    }

    fn as_slice(&self) -> &[u8]
        ensures { result.now ≡ self.now }
    {
        &self.ages[..self.len]
    }

    #[tactic(auto, using(std::proofs::lemmas::List::take_more_set))]
    fn push(&mut self, age: u8)
        requires { length self.old < 16 }
        ensures { self.new ≡ self.old ++ age ∷ [] }
    {
        self.ages[self.len] = age;
        self.len += 1;
    }

    #[tactic(auto, using(pg_lemmas::proofs::InPlace::one_in))]
    fn insert(&mut self, index: usize, age: u8)
        requires room { length self.old < 16 }
        requires within { index ≤ length self.old }
        ensures { self.new ≡ insert self.old index age }
    {
        self.ages.copy_within(index..self.len, index + 1);
        self.ages[index] = age;
        self.len += 1;
    }

    fn remove(&mut self, index: usize) -> u8
        requires { index < length self.old }
        ensures ages { self.new ≡ remove self.old index }
        ensures age { result ≡ slice_index self.old index }
    {
        let age = self.ages[index];
        self.ages.copy_within(index + 1..self.len, index);
        self.len -= 1;
        age
    }

    fn rise(&mut self)
        requires { AllByRecursion (λ age. age < 255) self.old }
        ensures { self.new ≡ map (λ age. age + 1) self.old }
    {
        raise(&mut self.ages[..self.len]);
    }
}

#[derive(Drop)]
pub(crate) enum KeptAges {
    Few(FewAges),
    Many(Vec<u8>),
}

// As many on the heap, and one more behind them.
#[cold]
#[inline(never)]
fn spilled(alloc: Global, ages: &[u8], age: u8) -> Result<Vec<u8>, AllocError>
    ensures { IfOk result (λ many. many.items ≡ ages.now ++ age ∷ []) }
{
    let mut many = Vec::with_capacity(alloc, 32)?;
    many.extend_from_slice(ages)?;
    many.push(age)?;
    Ok(many)
}

// These in place if they fit, since a list on the heap may have grown short again.
fn kept_copy(alloc: Global, ages: &[u8]) -> Result<KeptAges, AllocError>
    ensures { IfOk result (λ kept. ages_kept kept ≡ ages.now) }
{
    if ages.len() <= 16 {
        return Ok(KeptAges::Few(FewAges::of(ages)));
    }
    Ok(KeptAges::Many(Vec::from_slice(alloc, ages)?))
}

/// The ages of waiting floats in pages, listed by class, then by number. Up to 16 of them stand in place.
#[derive(Drop)]
pub struct Ages {
    alloc: Global,
    kept: KeptAges,
}

impl Model for Ages {
    ghost use Rattle.std.specs.Prelude.{List, ℕ};
    ghost use Rattle.pg_plan.specs.AgesKept.{ages_kept};

    ghost Value = { List ℕ };

    ghost view = { λ a. ages_kept a.kept };
}

impl Ages {
    /// No ages. No memory is taken.
    pub fn new(alloc: Global) -> Ages
        ensures { result ≡ [] }
    {
        Ages {
            alloc,
            kept: KeptAges::Few(FewAges::new()),
        }
    }

    /// Adds an age behind the others.
    pub fn push(&mut self, age: u8) -> Result<(), AllocError>
        ensures ok { OnOk result (self.new ≡ self.old ++ age ∷ []) }
        ensures err { OnErr result (self.new ≡ self.old) }
    {
        match &mut self.kept {
            KeptAges::Few(few) => {
                if few.is_full() {
                    self.kept = KeptAges::Many(spilled(self.alloc, few.as_slice(), age)?);
                } else {
                    few.push(age);
                }
            }
            KeptAges::Many(many) => many.push(age)?,
        }
        Ok(())
    }

    /// Puts an age in at an index.
    pub fn insert(&mut self, index: usize, age: u8) -> Result<(), AllocError>
        requires { index ≤ length self.old }
        ensures ok { OnOk result (self.new ≡ insert self.old index age) }
        ensures err { OnErr result (self.new ≡ self.old) }
    {
        match &mut self.kept {
            KeptAges::Few(few) => {
                if few.is_full() {
                    let mut many = spilled(self.alloc, few.as_slice(), age)?;
                    many[index..].rotate_right(1);
                    self.kept = KeptAges::Many(many);
                } else {
                    few.insert(index, age);
                }
            }
            KeptAges::Many(many) => many.insert(index, age)?,
        }
        Ok(())
    }

    /// Takes the age at an index out.
    pub fn remove(&mut self, index: usize) -> u8
        requires { index < length self.old }
        ensures ages { self.new ≡ remove self.old index }
        ensures age { result ≡ slice_index self.old index }
    {
        match &mut self.kept {
            KeptAges::Few(few) => few.remove(index),
            KeptAges::Many(many) => many.remove(index),
        }
    }

    /// All ages rise by one.
    pub fn rise(&mut self)
        requires { AllByRecursion (λ age. age < 255) self.old }
        ensures { self.new ≡ map (λ age. age + 1) self.old }
    {
        match &mut self.kept {
            KeptAges::Few(few) => few.rise(),
            KeptAges::Many(many) => raise(many.as_mut_slice()),
        }
    }

    pub fn as_slice(&self) -> &[u8]
        ensures { result.now ≡ self.now }
    {
        match &self.kept {
            KeptAges::Few(few) => few.as_slice(),
            KeptAges::Many(many) => many.as_slice(),
        }
    }

    pub fn copy(&self) -> Result<Ages, AllocError>
        ensures { IfOk result (λ ages. ages ≡ self.now) }
    {
        let kept = match &self.kept {
            KeptAges::Few(few) => KeptAges::Few(few.copy()),
            KeptAges::Many(many) => kept_copy(self.alloc, many.as_slice())?,
        };
        Ok(Ages {
            alloc: self.alloc,
            kept,
        })
    }
}
