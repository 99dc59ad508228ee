//! A walk through one stretch.
ghost use Rattle.std.specs.Prelude.{◌≡◌, ◌≤◌, ◌+◌, ◌^◌, true, IfSome, length, max};
ghost use Rattle.pg_rules.specs.Legal.{document};
ghost use Rattle.pg_column.specs.Passed.{fits};
ghost use Rattle.law_walk.specs.Reached.{reach_along};
ghost use Rattle.law_walk.specs.Walk.{past_stretch};
ghost use Rattle.pg_hops.specs.Ahead.{IsSettled, front_ahead, items_ahead};
ghost use Rattle.pg_hops.specs.View.{IsFor, view, views};
ghost use Rattle.pg_hops.specs.Index.{AreHops};

use crate::going::{go_by, hop_ahead};
use crate::index::BreakIndex;
use crate::leaping::leap_over;
use crate::{Cursor, Passed};
use pg_list::Galley;
use pg_style::Style;

/// What was passed along a stretch, if some room up to the greatest one lets pass, with the front behind it then, and
/// the greatest block on the way.
#[derive(Clone, Copy)]
pub struct Passing {
    pub passed: Option<Passed>,
    pub front: u32,
    pub greatest: u32,
}

// The greater of two numbers.
fn greater(a: u32, b: u32) -> u32
    ensures { result ≡ max a b }
{
    if a < b { b } else { a }
}

/// Goes through the items ahead, by leaps and hops where the index knows them, up to a break that is forced or that no room up to the
/// greatest one lets pass.
///
/// Conditions: the index is of the galley and style, what was passed before is of this style and lets some such room pass,
/// and with the items ahead it counts at most 2^20 items. Takes no memory.
pub fn pass_on(
    galley: &Galley,
    style: &Style,
    index: &BreakIndex,
    top: i64,
    start: Cursor,
    before: Passed,
) -> Passing
    requires hops { AreHops galley.now.blocks style.now.maxdepth index.now }
    requires settled { IsSettled galley.now.blocks start }
    requires style { IsFor style.now before }
    requires bound { fits before.bound top ≡ true }
    requires few { (before.sums.count + length (items_ahead galley.now.blocks start) ≤ 2 ^ 20)
        × (before.notes.count + length (items_ahead galley.now.blocks start) ≤ 2 ^ 20) }
    ensures past { views result.passed ≡ past_stretch (document galley.now style.now) top (view before)
        (items_ahead galley.now.blocks start) }
    ensures reach { result.greatest ≡ reach_along (document galley.now style.now) top
        (front_ahead galley.now.blocks start) (view before) (items_ahead galley.now.blocks start) }
    ensures front { IfSome result.passed (λ _. result.front ≡ front_ahead galley.now.blocks start) }
    ensures style { IfSome result.passed (λ p. IsFor style.now p) }
    ensures counts { IfSome result.passed (λ p.
        (p.sums.count ≡ before.sums.count + length (items_ahead galley.now.blocks start))
        × (p.notes.count ≡ before.notes.count + length (items_ahead galley.now.blocks start))) }
{
    let mut at = start;
    let mut passed = before;
    let mut greatest = 0;
    'ahead: while let Some(item) = at.item(galley) {
        if let Some(next) = leap_over(galley, style, index, top, at, &mut passed) {
            at = next;
            continue;
        }
        let here = at.place();
        greatest = greater(greatest, here.block);
        let hop = hop_ahead(index, &passed, at);
        let Some(next) = go_by(galley, style, at, item, hop, &mut passed) else {
            return Passing {
                passed: None,
                front: here.block,
                greatest,
            };
        };
        if !passed.fits(top) {
            return Passing {
                passed: None,
                front: here.block,
                greatest,
            };
        }
        at = next;
    }
    Passing {
        passed: Some(passed),
        front: at.block,
        greatest: greater(greatest, at.block),
    }
}
