//! The ends along a stretch.
ghost use Rattle.std.specs.Prelude.{◌≡◌, ◌≤◌, ◌+◌, ◌^◌, true, None, OnOk, IfOk, IfSome, Some, length, max};
ghost use Rattle.pg_list.specs.Places.{place as place_of};
ghost use Rattle.pg_list.specs.GalleyValue.{GalleyValue};
ghost use Rattle.pg_rules.specs.Legal.{document};
ghost use Rattle.pg_column.specs.Passed.{fits, is_end_here};
ghost use Rattle.law_walk.specs.Reached.{reach_along};
ghost use Rattle.law_walk.specs.Walk.{ends_along, past_stretch};
ghost use Rattle.pg_hops.specs.Ahead.{IsSettled, front_ahead, items_ahead};
ghost use Rattle.pg_hops.specs.Needs.{AreNeeds, AreNoted};
ghost use Rattle.pg_hops.specs.Quiet.{is_quiet, passed_along};
ghost use Rattle.pg_hops.specs.View.{IsFor, view};
ghost use Rattle.pg_hops.specs.Index.{AreHops};
ghost use Rattle.pg_candidates.specs.View.{end_of, ends_here, passed_of};

use crate::taking::{TakesEnds, WalkEnd};
use pg_hops::{BreakIndex, Cursor, Needs, Noted, Passed, State, go, hop_ahead, hop_on};
use pg_list::{Galley, Place};
use pg_plan::Picks;
use pg_style::Style;
use std::alloc::AllocError;

// Hands on an end at a break behind a box, of whose notes is told. Nearly all ends come from hops, and are taken without a
// call.
#[inline(always)]
fn hand_on<T: TakesEnds>(
    style: &Style,
    noted: &Noted,
    needs: &Needs,
    end: &WalkEnd,
    shared: &T::Shared,
    found: &mut T,
) -> Result<(), AllocError>
    requires shared { T.SharedOf shared.now end.now.picks.now }
    requires noted { AreNoted style.now end.now.passed.now.notes.sums noted.now }
    requires needs { AreNeeds style.now (view end.now.passed.now) needs.now }
    ensures { OnOk result ((g : GalleyValue) → true ≡ is_end_here g.blocks (view end.now.passed.now) end.now.to →
        T.Took style.now found.old found.new (ends_here (document g style.now) (end_of end.now))) }
{
    if !noted.is_within {
        return Ok(());
    }
    found.take(style, needs, end, shared)
}

// Hands on an end at a place where one may be, if it is a break behind a box.
#[inline(never)]
fn end_at<T: TakesEnds>(
    style: &Style,
    noted: &Noted,
    is_end: bool,
    end: &WalkEnd,
    shared: &T::Shared,
    found: &mut T,
) -> Result<(), AllocError>
    requires shared { T.SharedOf shared.now end.now.picks.now }
    requires noted { AreNoted style.now end.now.passed.now.notes.sums noted.now }
    ensures { OnOk result ((g : GalleyValue) → is_end ≡ is_end_here g.blocks (view end.now.passed.now) end.now.to →
        T.Took style.now found.old found.new (ends_here (document g style.now) (end_of end.now))) }
{
    if !is_end {
        return Ok(());
    }
    let needs = Needs::with(noted, end.passed);
    hand_on(style, noted, &needs, end, shared, found)
}

/// Where a walk along a stretch starts: before the cursor's item, behind what was passed, with the picks of the choices on
/// the way and their demerits.
#[derive(Clone, Copy)]
pub struct Start<'a> {
    pub at: Cursor,
    pub passed: Passed,
    pub picks: &'a Picks,
    pub demerits: i64,
}

/// What a walk along a stretch tells: what was passed with the front behind it, where some room up to the greatest one
/// lets pass, the greatest block on the way, and whether the notes passed take no room.
#[derive(Clone, Copy)]
pub struct Walked {
    pub state: Option<State>,
    pub greatest: u32,
    pub is_quiet: bool,
}

// A walk that ended at a break, with what was passed up to it.
fn stopped(style: &Style, passed: &Passed, greatest: u32) -> Walked
    ensures { result ≡ record {
      state = None;
      greatest = greatest;
      is_quiet = is_quiet style.now (view passed.now);
    } }
{
    Walked {
        state: None,
        greatest,
        is_quiet: passed.is_quiet(style),
    }
}

// A walk that came to the front of a choice at a block, or to the galley's end, with what was passed up to it.
fn at_front(style: &Style, block: u32, passed: &Passed, greatest: u32) -> Walked
    ensures { result ≡ record {
      state = Some (record { block = block; passed = passed.now });
      greatest = max greatest block;
      is_quiet = is_quiet style.now (view passed.now);
    } }
{
    Walked {
        state: Some(State {
            block,
            passed: *passed,
        }),
        greatest: greatest.max(block),
        is_quiet: passed.is_quiet(style),
    }
}

// The end of a walk from a start, at a place behind what was passed, with the picks of the start.
#[inline(always)]
fn end_to<'a>(start: &Start, picks: &'a Picks, to: Place, passed: &'a Passed) -> WalkEnd<'a>
    ensures { end_of result ≡ record {
      to = to;
      picks = picks.now;
      passed = view passed.now;
      pick_demerits = start.now.demerits;
    } }
{
    WalkEnd {
        to,
        passed,
        picks,
        demerits: start.demerits,
    }
}

/// Goes through the items ahead, by hops where the index knows them, and hands on the ends on the way, with its picks at
/// their demerits. Answers how far it came; where the notes passed take no room, a walk without notes comes as far.
///
/// Conditions: as for `pass_on` of pg_hops.
pub fn walk_on<T: TakesEnds>(
    galley: &Galley,
    style: &Style,
    index: &BreakIndex,
    top: i64,
    start: &Start,
    found: &mut T,
) -> Result<Walked, AllocError>
    requires hops { AreHops galley.now.blocks style.now.maxdepth index.now }
    requires settled { IsSettled galley.now.blocks start.now.at }
    requires style { IsFor style.now start.now.passed }
    requires bound { fits start.now.passed.bound top ≡ true }
    requires few { (start.now.passed.sums.count + length (items_ahead galley.now.blocks start.now.at) ≤ 2 ^ 20)
        × (start.now.passed.notes.count + length (items_ahead galley.now.blocks start.now.at) ≤ 2 ^ 20) }
    ensures ends { OnOk result (T.Took style.now found.old found.new
        (ends_along (document galley.now style.now) top start.now.picks.now start.now.demerits
        (place_of (front_ahead galley.now.blocks start.now.at) 0 0) (view start.now.passed)
        (items_ahead galley.now.blocks start.now.at))) }
    ensures past { IfOk result (λ w. passed_of w.state
        ≡ past_stretch (document galley.now style.now) top (view start.now.passed)
        (items_ahead galley.now.blocks start.now.at)) }
    ensures front { IfOk result (λ w. IfSome w.state (λ s. s.block ≡ front_ahead galley.now.blocks start.now.at)) }
    ensures style { IfOk result (λ w. IfSome w.state (λ s. IsFor style.now s.passed)) }
    ensures counts { IfOk result (λ w. IfSome w.state (λ s.
        (s.passed.sums.count ≡ start.now.passed.sums.count + length (items_ahead galley.now.blocks start.now.at))
        × (s.passed.notes.count ≡ start.now.passed.notes.count + length (items_ahead galley.now.blocks start.now.at)))) }
    ensures reach { IfOk result (λ w. w.greatest ≡ reach_along (document galley.now style.now) top
        (front_ahead galley.now.blocks start.now.at) (view start.now.passed)
        (items_ahead galley.now.blocks start.now.at)) }
    ensures quiet { IfOk result (λ w. w.is_quiet ≡ is_quiet style.now
        (passed_along (document galley.now style.now) top (view start.now.passed)
        (items_ahead galley.now.blocks start.now.at))) }
{
    let shared = found.share(start.picks)?;
    let mut at = start.at;
    let mut passed = start.passed;
    let mut noted = Noted::of(style, &passed);
    let mut greatest = 0u32;
    'ahead: loop {
        if let Some(hop) = hop_ahead(index, &passed, at) {
            let here = at.place();
            greatest = greatest.max(here.block);
            let needs = Needs::with(&noted, &passed);
            let end = end_to(start, start.picks, here, &passed);
            hand_on(style, &noted, &needs, &end, &shared, found)?;
            at = hop_on(galley, style, at, hop, &needs, &mut passed);
            if !passed.fits(top) {
                return Ok(stopped(style, &passed, greatest));
            }
            continue;
        }
        let Some(item) = at.item(galley) else {
            break;
        };
        let here = at.place();
        greatest = greatest.max(here.block);
        let is_end = passed.ends_at(galley, at, here, item);
        let end = end_to(start, start.picks, here, &passed);
        end_at(style, &noted, is_end, &end, &shared, found)?;
        let Some(next) = go(galley, style, at, is_end, item, &mut passed) else {
            return Ok(stopped(style, &passed, greatest));
        };
        noted = Noted::of(style, &passed);
        if !passed.fits(top) {
            return Ok(stopped(style, &passed, greatest));
        }
        at = next;
    }
    let front = at.place();
    let is_end = passed.is_end(galley, front);
    let last = end_to(start, start.picks, front, &passed);
    end_at(style, &noted, is_end, &last, &shared, found)?;
    Ok(at_front(style, at.block, &passed, greatest))
}
