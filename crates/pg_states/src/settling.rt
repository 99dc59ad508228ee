//! The floats at the end of a column: whether they are called, what is left of them, and what is paid.
ghost use Rattle.std.specs.Prelude.{ℕ, ◌≡◌, IfOk, ◌≤◌, ◌^◌, IfSome};
ghost use Rattle.pg_list.specs.declared.galley.Place.{Place as APlace};
ghost use Rattle.pg_plan.specs.declared.states.State.{State as AState};
ghost use Rattle.pg_rules.specs.Floats.{called, flushed as flushed_of};
ghost use Rattle.pg_rules.specs.Follow.{fills_page, turns as turns_of};
ghost use Rattle.law_moves.specs.Listed.{calls_all as calls_all_of, flushes_all as flushes_all_of, opens};
ghost use Rattle.pg_sources.specs.Document.{before_of, doc_of};
ghost use Rattle.pg_states.specs.Settling.{Settles, known_of};

use crate::classes::Classes;
use crate::counts::covers_all;
use pg_plan::{Ages, Counts, State};
use pg_sources::{Before, Sources};
use pg_style::Style;
use std::alloc::AllocError;

/// How many floats of each class are called before a state, how many of these wait, and whether a text may begin there:
/// all floats are placed that are called before a barrier behind which it would begin.
#[derive(Drop)]
pub struct Known {
    pub called: Counts,
    pub waits: Counts,
    pub may_begin: bool,
}

/// The ages of the floats that are left, and what those pay that are placed.
#[derive(Drop)]
pub struct Settled {
    pub ages: Ages,
    pub price: u128,
}

// Whether so many floats of each class are called before a place, before which `reached` are called.
fn calls_all(sources: &Sources<'_>, reached: &[u16], after: &[u16]) -> bool
    ensures { (to : APlace) → reached.now ≡ called sources.now.galley.now.blocks sources.now.style.now to →
        result ≡ calls_all_of (doc_of sources.now) to after.now }
{
    covers_all(sources.slots(), reached, after)
}

// Whether as many floats of each class are placed as are called before the last barrier in front of a block, which are
// `flushed`.
fn flushes_all(sources: &Sources<'_>, flushed: &[u16], placed: &[u16]) -> bool
    ensures { (block : ℕ) → flushed.now ≡ flushed_of sources.now.galley.now.blocks sources.now.style.now block →
        result ≡ flushes_all_of (doc_of sources.now) block placed.now }
{
    covers_all(sources.slots(), placed, flushed)
}

/// Whether a column of text with so many floats placed may end at a place, before which, and before whose barriers, these
/// are called.
pub fn may_end(sources: &Sources<'_>, known: &Known, before: &Before, after: &[u16]) -> bool
    ensures { (u : AState) (to : APlace) → known.now ≡ known_of (doc_of sources.now) u →
        before.now ≡ before_of (doc_of sources.now) to → result ≡ opens (doc_of sources.now) u to after.now }
{
    calls_all(sources, before.called.as_slice(), after)
        && (known.may_begin && flushes_all(sources, before.flushed.as_slice(), after))
}

// Whether a page ends with the next column.
fn ends_page(style: &Style, state: &State) -> bool
    ensures { result ≡ fills_page style.now state.now }
{
    state.column == style.columns
}

// How many pages end with the next column.
fn turns(style: &Style, state: &State) -> u8
    ensures { result ≡ turns_of style.now state.now }
{
    if ends_page(style, state) { 1 } else { 0 }
}

/// The floats at the end of a column, behind which so many of each class are placed, and before whose end `reached` are
/// called. None where one of those that are left is too old. It is made part of its callers, since a call would hand on what is
/// left twice.
#[inline(always)]
pub fn settle(
    sources: &Sources<'_>,
    state: &State,
    known: &Known,
    reached: &[u16],
    after: &Counts,
) -> Result<Option<Settled>, AllocError>
    requires { known.now ≡ known_of (doc_of sources.now) state.now }
    ensures settles { IfOk result (λ settled. (to : APlace) →
        reached.now ≡ called sources.now.galley.now.blocks sources.now.style.now to →
        Settles (doc_of sources.now) state.now to after.now settled) }
    ensures small { IfOk result (λ settled. IfSome settled (λ it. it.price ≤ 2 ^ 51)) }
{
    let classes = Classes {
        waits: known.waits.as_slice(),
        called: known.called.as_slice(),
        reached,
        placed: state.placed.as_slice(),
        after: after.as_slice(),
    };
    let slots = sources.slots();
    let ages = state.ages.as_slice();
    classes.settle(
        sources.alloc,
        sources.style,
        slots,
        ages,
        turns(sources.style, state),
    )
}
