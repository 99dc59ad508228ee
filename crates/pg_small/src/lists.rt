//! Short lists in arrays, and lists made of slices.
ghost use Rattle.std.specs.Prelude.{◌≡◌, IfOk, IfSome, take};

use pg_plan::{Ages, Counts};
use std::alloc::{AllocError, Global};

// The first items, as many as told.
pub(crate) fn first_counts(items: &[u16], count: u8) -> &[u16]
    ensures { result.now ≡ take count items.now }
{
    match items.get(..count as usize) {
        Some(first) => first,
        None => items,
    }
}

// The first items, as many as told.
pub(crate) fn first_bytes(items: &[u8], count: u8) -> &[u8]
    ensures { result.now ≡ take count items.now }
{
    match items.get(..count as usize) {
        Some(first) => first,
        None => items,
    }
}

// How many these counts are, and they themselves, if there are three at most.
pub(crate) fn few_counts(counts: &[u16]) -> Option<(u8, [u16; 3])>
    ensures { IfSome result (λ few. take few.0 few.1 ≡ counts.now) }
{
    match counts {
        [] => Some((0, [0, 0, 0])),
        [a] => Some((1, [*a, 0, 0])),
        [a, b] => Some((2, [*a, *b, 0])),
        [a, b, c] => Some((3, [*a, *b, *c])),
        _ => None,
    }
}

// How many these ages are, and they themselves, if there are six at most.
pub(crate) fn few_ages(ages: &[u8]) -> Option<(u8, [u8; 6])>
    ensures { IfSome result (λ few. take few.0 few.1 ≡ ages.now) }
{
    match ages {
        [] => Some((0, [0, 0, 0, 0, 0, 0])),
        [a] => Some((1, [*a, 0, 0, 0, 0, 0])),
        [a, b] => Some((2, [*a, *b, 0, 0, 0, 0])),
        [a, b, c] => Some((3, [*a, *b, *c, 0, 0, 0])),
        [a, b, c, d] => Some((4, [*a, *b, *c, *d, 0, 0])),
        [a, b, c, d, e] => Some((5, [*a, *b, *c, *d, *e, 0])),
        [a, b, c, d, e, f] => Some((6, [*a, *b, *c, *d, *e, *f])),
        _ => None,
    }
}

// The first of three counts, as many as told.
pub(crate) fn first_of_three(alloc: Global, count: u8, counts: &[u16; 3]) -> Counts
    ensures { result ≡ take count counts.now }
{
    let [a, b, c] = *counts;
    match count {
        0 => Counts::zeros(alloc, 0),
        1 => {
            let mut one = Counts::zeros(alloc, 1);
            one.set(0, a);
            one
        }
        2 => {
            let mut two = Counts::zeros(alloc, 2);
            two.set(0, a);
            two.set(1, b);
            two
        }
        _ => {
            let mut three = Counts::zeros(alloc, 3);
            three.set(0, a);
            three.set(1, b);
            three.set(2, c);
            three
        }
    }
}

pub(crate) fn counts_from(alloc: Global, counts: &[u16]) -> Result<Counts, AllocError>
    ensures { IfOk result (λ it. it ≡ counts.now) }
{
    let mut made = Counts::new(alloc);
    for count in counts {
        made.push(*count)?;
    }
    Ok(made)
}

pub(crate) fn ages_from(alloc: Global, ages: &[u8]) -> Result<Ages, AllocError>
    ensures { IfOk result (λ it. it ≡ ages.now) }
{
    let mut made = Ages::new(alloc);
    for age in ages {
        made.push(*age)?;
    }
    Ok(made)
}
