//! What a state holds beside numbers: a wide area, counts and ages.
ghost use Rattle.std.specs.Prelude.{◌≡◌, ◌<◌, ◌≤◌, ℕ, IfOk, IfSome, None, get_or, length, take, true};
ghost use Rattle.pg_small.specs.Seen.{wide_kept, placed_kept, ages_kept};

use crate::lists::{few_ages, few_counts, first_bytes, first_counts, first_of_three};
use pg_plan::{Ages, Counts};
use std::alloc::{AllocError, Global};

// No wide area, the first `count` counts and the first `waiting` ages.
#[derive(Clone, Copy)]
pub(crate) struct FewRest {
    placed: [u16; 3],
    count: u8,
    ages: [u8; 6],
    waiting: u8,
}

#[derive(Drop)]
pub(crate) struct ManyRest {
    wide: Option<i64>,
    placed: Counts,
    ages: Ages,
}

#[derive(Drop)]
pub(crate) enum Rest {
    Few(FewRest),
    Many(Box<ManyRest>),
}

// These in few bytes, if they fit.
fn few_rest(wide: Option<i64>, placed: &[u16], ages: &[u8]) -> Option<FewRest>
    ensures wide { IfSome result (λ few. wide ≡ None) }
    ensures placed { IfSome result (λ few. take few.count few.placed ≡ placed.now) }
    ensures ages { IfSome result (λ few. take few.waiting few.ages ≡ ages.now) }
{
    if wide.is_some() {
        return None;
    }
    let (count, placed) = few_counts(placed)?;
    let (waiting, ages) = few_ages(ages)?;
    Some(FewRest {
        placed,
        count,
        ages,
        waiting,
    })
}

#[cold]
#[inline(never)]
fn many_rest(
    alloc: Global,
    wide: Option<i64>,
    placed: Counts,
    ages: Ages,
) -> Result<Rest, AllocError>
    ensures wide { IfOk result (λ it. wide_kept it ≡ wide) }
    ensures placed { IfOk result (λ it. placed_kept it ≡ placed) }
    ensures ages { IfOk result (λ it. ages_kept it ≡ ages) }
{
    Ok(Rest::Many(Box::new(alloc, ManyRest { wide, placed, ages })?))
}

#[cold]
#[inline(never)]
fn copy_many(
    alloc: Global,
    wide: Option<i64>,
    placed: &Counts,
    ages: &Ages,
) -> Result<Rest, AllocError>
    ensures wide { IfOk result (λ it. wide_kept it ≡ wide) }
    ensures placed { IfOk result (λ it. placed_kept it ≡ placed.now) }
    ensures ages { IfOk result (λ it. ages_kept it ≡ ages.now) }
{
    many_rest(alloc, wide, placed.copy()?, ages.copy()?)
}

// Whether the counts are told to be the same by all bytes, those that are none of the list too.
fn has_same_bytes(a: &FewRest, b: &FewRest) -> bool
    ensures { result ≡ true → take a.now.count a.now.placed ≡ take b.now.count b.now.placed }
{
    a.count == b.count && a.placed == b.placed
}

// Whether the ages are told to be the same by all bytes, those that are none of the list too.
fn has_same_ages(a: &FewRest, b: &FewRest) -> bool
    ensures { result ≡ true → take a.now.waiting a.now.ages ≡ take b.now.waiting b.now.ages }
{
    a.waiting == b.waiting && a.ages == b.ages
}

// Whether no byte of these ages, those too that are none of the list, is greater than the other's.
fn are_no_greater(a: &[u8; 6], b: &[u8; 6]) -> bool
    ensures six { (length a.now ≡ 6) × (length b.now ≡ 6) }
    ensures each { result ≡ true → (i : ℕ) → i < 6 → get_or a.now i 0 ≤ get_or b.now i 0 }
{
    (a[0] <= b[0] && a[1] <= b[1] && a[2] <= b[2]) && (a[3] <= b[3] && a[4] <= b[4] && a[5] <= b[5])
}

// A number that equal counts have in common.
#[cold]
#[inline(never)]
fn mixed_counts(counts: &[u16]) -> u64 {
    let mut mixed = 0u64;
    for count in counts {
        mixed = mixed
            .wrapping_add(u64::from(*count) + 1)
            .wrapping_mul(0xC2B2_AE3D_27D4_EB4F);
    }
    mixed
}

// A number that equal ages have in common.
#[cold]
#[inline(never)]
fn mixed_ages(ages: &[u8]) -> u64 {
    let mut mixed = 0u64;
    for age in ages {
        mixed = mixed
            .wrapping_add(u64::from(*age) + 1)
            .wrapping_mul(0x1656_67B1_9E37_79F9);
    }
    mixed
}

impl FewRest {
    // The counts as one number.
    fn placed_number(&self) -> u64 {
        let [a, b, c] = self.placed;
        u64::from(a) | u64::from(b) << 16 | u64::from(c) << 32 | u64::from(self.count) << 48
    }

    // The ages as one number.
    fn ages_number(&self) -> u64 {
        let [a, b, c, d, e, f] = self.ages;
        let low = u32::from(a) | u32::from(b) << 8 | u32::from(c) << 16 | u32::from(d) << 24;
        let high = u16::from(e) | u16::from(f) << 8;
        u64::from(low) | u64::from(high) << 32 | u64::from(self.waiting) << 48
    }
}

impl Rest {
    #[inline(always)]
    pub(crate) fn of(
        alloc: Global,
        wide: Option<i64>,
        placed: &Counts,
        ages: &Ages,
    ) -> Result<Rest, AllocError>
        ensures wide { IfOk result (λ it. wide_kept it ≡ wide) }
        ensures placed { IfOk result (λ it. placed_kept it ≡ placed.now) }
        ensures ages { IfOk result (λ it. ages_kept it ≡ ages.now) }
    {
        match few_rest(wide, placed.as_slice(), ages.as_slice()) {
            Some(few) => Ok(Rest::Few(few)),
            None => copy_many(alloc, wide, placed, ages),
        }
    }

    pub(crate) fn copy(&self, alloc: Global) -> Result<Rest, AllocError>
        ensures wide { IfOk result (λ it. wide_kept it ≡ wide_kept self.now) }
        ensures placed { IfOk result (λ it. placed_kept it ≡ placed_kept self.now) }
        ensures ages { IfOk result (λ it. ages_kept it ≡ ages_kept self.now) }
    {
        match self {
            Rest::Few(few) => Ok(Rest::Few(*few)),
            Rest::Many(many) => copy_many(alloc, many.wide, &many.placed, &many.ages),
        }
    }

    pub(crate) fn wide(&self) -> Option<i64>
        ensures { result ≡ wide_kept self.now }
    {
        match self {
            Rest::Few(_) => None,
            Rest::Many(many) => many.wide,
        }
    }

    pub(crate) fn placed(&self) -> &[u16]
        ensures { result.now ≡ placed_kept self.now }
    {
        match self {
            Rest::Few(few) => first_counts(&few.placed, few.count),
            Rest::Many(many) => many.placed.as_slice(),
        }
    }

    // The counts as a list of their own. It fails where memory runs out, in the rare case alone that it needs some.
    pub(crate) fn placed_counts(&self, alloc: Global) -> Result<Counts, AllocError>
        ensures { IfOk result (λ it. it ≡ placed_kept self.now) }
    {
        match self {
            Rest::Few(few) => Ok(first_of_three(alloc, few.count, &few.placed)),
            Rest::Many(many) => many.placed.copy(),
        }
    }

    pub(crate) fn ages(&self) -> &[u8]
        ensures { result.now ≡ ages_kept self.now }
    {
        match self {
            Rest::Few(few) => first_bytes(&few.ages, few.waiting),
            Rest::Many(many) => many.ages.as_slice(),
        }
    }

    // Whether all is the same, as far as few bytes tell.
    pub(crate) fn is_surely_same(&self, other: &Rest) -> bool
        ensures wide { result ≡ true → wide_kept self.now ≡ wide_kept other.now }
        ensures placed { result ≡ true → placed_kept self.now ≡ placed_kept other.now }
        ensures ages { result ≡ true → ages_kept self.now ≡ ages_kept other.now }
    {
        match (self, other) {
            (Rest::Few(own), Rest::Few(its)) => has_same_bytes(own, its) && has_same_ages(own, its),
            _ => false,
        }
    }

    // A number that equal counts have in common.
    pub(crate) fn placed_hash(&self) -> u64 {
        match self {
            Rest::Few(few) => few.placed_number().wrapping_mul(0xC2B2_AE3D_27D4_EB4F),
            Rest::Many(many) => mixed_counts(many.placed.as_slice()),
        }
    }

    // A number that equal ages have in common.
    pub(crate) fn ages_hash(&self) -> u64 {
        match self {
            Rest::Few(few) => few.ages_number().wrapping_mul(0x1656_67B1_9E37_79F9),
            Rest::Many(many) => mixed_ages(many.ages.as_slice()),
        }
    }

    // Whether the counts are the same, as far as few bytes tell.
    pub(crate) fn has_surely_same_placed(&self, other: &Rest) -> bool
        ensures { result ≡ true → placed_kept self.now ≡ placed_kept other.now }
    {
        match (self, other) {
            (Rest::Few(own), Rest::Few(its)) => has_same_bytes(own, its),
            _ => false,
        }
    }

    // Whether there are as many ages and none is greater than the other's, as far as few bytes tell.
    pub(crate) fn has_surely_no_older(&self, other: &Rest) -> bool
        ensures long { result ≡ true → length (ages_kept self.now) ≡ length (ages_kept other.now) }
        ensures young { result ≡ true → (i : ℕ) → i < length (ages_kept self.now) →
            get_or (ages_kept self.now) i 0 ≤ get_or (ages_kept other.now) i 0 }
    {
        match (self, other) {
            (Rest::Few(own), Rest::Few(its)) => {
                own.waiting == its.waiting && are_no_greater(&own.ages, &its.ages)
            }
            _ => false,
        }
    }
}
