//! The picks of a column, in bytes or as they are.
ghost use Rattle.std.specs.Prelude.{◌≡◌, ◌<◌, IfOk, IfSome, length, get_or, take};
ghost use Rattle.pg_plan.specs.Order.{picks_cmp};
ghost use Rattle.pg_small.specs.Columns.{picks_seen};

use pg_plan::Picks;
use std::alloc::{AllocError, Global};
use std::cmp::Ordering;

// A pick in a byte, if it fits.
fn byte_of(pick: u32) -> Option<u8>
    ensures { IfSome result (λ byte. byte ≡ pick) }
{
    u8::try_from(pick).ok()
}

// How many these picks are, and they themselves in bytes, if they fit.
pub(crate) fn few_picks(picks: &[u32]) -> Option<(u8, [u8; 18])>
    ensures { IfSome result (λ few. take few.0 few.1 ≡ picks.now) }
{
    if picks.len() > 18 {
        return None;
    }
    let mut few = [0; 18];
    let mut count = 0u8;
    for pick in picks {
        few[count as usize] = byte_of(*pick)?;
        count += 1;
    }
    Some((count, few))
}

fn picks_of_bytes(alloc: Global, picks: &[u8]) -> Result<Picks, AllocError>
    ensures { IfOk result (λ it. it ≡ picks.now) }
{
    let mut made = Picks::new(alloc);
    for pick in picks {
        made.push(u32::from(*pick))?;
    }
    Ok(made)
}

pub(crate) fn picks_from(alloc: Global, picks: &[u32]) -> Result<Picks, AllocError>
    ensures { IfOk result (λ it. it ≡ picks.now) }
{
    let mut made = Picks::new(alloc);
    for pick in picks {
        made.push(*pick)?;
    }
    Ok(made)
}

fn word_at(picks: &[u32], at: usize) -> u32
    requires { at < length picks.now }
    ensures { result ≡ get_or picks.now at 0 }
{
    picks[at]
}

// The picks of a column where they stand.
#[derive(Clone, Copy)]
pub(crate) enum PickView<'a> {
    Bytes(&'a [u8]),
    Words(&'a [u32]),
}

impl PickView<'_> {
    fn len(&self) -> usize
        ensures { result ≡ length (picks_seen self.now) }
    {
        match self {
            PickView::Bytes(picks) => picks.len(),
            PickView::Words(picks) => picks.len(),
        }
    }

    fn get(&self, at: usize) -> u32
        requires { at < length (picks_seen self.now) }
        ensures { result ≡ get_or (picks_seen self.now) at 0 }
    {
        match self {
            PickView::Bytes(picks) => u32::from(picks[at]),
            PickView::Words(picks) => word_at(picks, at),
        }
    }

    pub(crate) fn to_picks(&self, alloc: Global) -> Result<Picks, AllocError>
        ensures { IfOk result (λ it. it ≡ picks_seen self.now) }
    {
        match self {
            PickView::Bytes(picks) => picks_of_bytes(alloc, picks),
            PickView::Words(picks) => picks_from(alloc, picks),
        }
    }
}

// Compares picks entry by entry from the last; where one list ends first, it is first.
#[tactic(auto, using(crate::proofs::PickSteps::pick_steps))]
pub(crate) fn compare_picks(a: &PickView<'_>, b: &PickView<'_>) -> Ordering
    ensures { result ≡ picks_cmp (picks_seen a.now) (picks_seen b.now) }
{
    let mut left = a.len();
    let mut right = b.len();
    'picks: while left > 0 {
        if right == 0 {
            return Ordering::Greater;
        }
        left -= 1;
        right -= 1;
        match a.get(left).cmp(&b.get(right)) {
            Ordering::Equal => {}
            first => return first,
        }
    }
    if right == 0 {
        Ordering::Equal
    } else {
        Ordering::Less
    }
}
