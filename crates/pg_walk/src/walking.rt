//! The candidates of a place.
ghost use Rattle.std.specs.Prelude.{◌≡◌, [], if◌then◌else◌, None, Some, IfOk, IfSome, OnOk};
ghost use Rattle.std.specs.List.{AllByRecursion};
ghost use Rattle.pg_style.specs.Ranges.{IsClass};
ghost use Rattle.pg_rules.specs.IsState.{IsPlace};
ghost use Rattle.pg_rules.specs.Legal.{document};
ghost use Rattle.pg_column.specs.Passed.{nothing};
ghost use Rattle.law_walk.specs.Candidates.{AreCandidates};
ghost use Rattle.law_walk.specs.Reached.{quiet};
ghost use Rattle.law_walk.specs.Space.{first_ends};
ghost use Rattle.pg_walk.specs.Contexts.{IsContext, doc_of};
ghost use Rattle.pg_walk.specs.Blocks.{HasStart, HasWalked, IsAlone, TellsAlone};

use crate::{Context, collect, variants_at};
use law_walk::laws::walk_is_a_space;
use pg_candidates::{CandidateList, Start, TakesEnds, Walked, walk_on};
use pg_hops::{BreakIndex, Cursor, Passed, State};
use pg_list::{Galley, Place};
use pg_plan::Picks;
use pg_style::Style;
use std::alloc::{AllocError, Global};

// The classes of a style are in their ranges.
fn has_classes(style: &Style)
    ensures { AllByRecursion IsClass style.now.classes }
{
    style.stays_in_range();
}

/// Hands on the ends along the first stretch, and answers what the walk along it tells; where the notes passed take no room,
/// it tells of a walk without notes.
pub(crate) fn first_stretch<T: TakesEnds>(
    context: &Context,
    from: Place,
    found: &mut T,
) -> Result<Walked, AllocError>
    requires context { IsContext context.now }
    requires place { IsPlace context.now.galley.now.blocks from }
    ensures ends { OnOk result (T.Took context.now.style.now found.old found.new (first_ends (doc_of context.now) context.now.top from)) }
    ensures walked { IfOk result (HasWalked (doc_of context.now) context.now.top from) }
{
    has_classes(context.style);
    let _ = context.galley.blocks().as_slice();
    let ahead = Cursor::first(context.galley, from);
    let picks = Picks::new(context.alloc);
    let start = Start {
        at: ahead,
        passed: Passed::nothing(context.style),
        picks: &picks,
        demerits: 0,
    };
    walk_on(
        context.galley,
        context.style,
        context.index,
        context.top,
        &start,
        found,
    )
}

/// The greatest block of a walk in which the notes passed take no room.
pub(crate) fn quiet_greatest(walked: &Walked) -> Option<u32>
    ensures { result ≡ (if walked.now.is_quiet then Some walked.now.greatest else None) }
{
    if walked.is_quiet {
        Some(walked.greatest)
    } else {
        None
    }
}

/// The state behind the first stretch, where it is passed.
pub(crate) fn state_behind(walked: &Walked) -> Option<State>
    ensures { result ≡ walked.now.state }
{
    walked.state
}

// Adds the ends behind the first stretch to those along it, and answers the greatest block of columns without notes, where
// the first stretch is all there is and that block is told.
pub(crate) fn collect_behind(
    context: &Context,
    from: Place,
    start: Option<State>,
    told: Option<u32>,
    found: &mut CandidateList,
) -> Result<Option<u32>, AllocError>
    requires context { IsContext context.now }
    requires place { IsPlace context.now.galley.now.blocks from }
    requires ends { found.old ≡ first_ends (doc_of context.now) context.now.top from }
    requires start { HasStart (doc_of context.now) context.now.top from start }
    requires told { TellsAlone (doc_of context.now) context.now.top from start told }
    ensures found { OnOk result (AreCandidates (doc_of context.now) from context.now.top found.new) }
    ensures told { IfOk result (λ told. IfSome told (IsAlone (quiet (doc_of context.now)) context.now.top from)) }
{
    let _ = context.galley.blocks().as_slice();
    walk_is_a_space(context.galley, context.style);
    let Some(start) = start else {
        return Ok(told);
    };
    if variants_at(context.galley, start.block).is_empty() {
        return Ok(told);
    }
    collect(context, start, found)?;
    Ok(None)
}

// Finds the candidates of a place, and answers the greatest block of columns without notes, where the first stretch is
// all there is and tells it.
pub(crate) fn collect_from(
    context: &Context,
    from: Place,
    found: &mut CandidateList,
) -> Result<Option<u32>, AllocError>
    requires context { IsContext context.now }
    requires place { IsPlace context.now.galley.now.blocks from }
    requires none { found.old ≡ [] }
    ensures found { OnOk result (AreCandidates (doc_of context.now) from context.now.top found.new) }
    ensures told { IfOk result (λ told. IfSome told (IsAlone (quiet (doc_of context.now)) context.now.top from)) }
{
    let walked = first_stretch(context, from, found)?;
    let start = state_behind(&walked);
    let told = quiet_greatest(&walked);
    collect_behind(context, from, start, told, found)
}

/// Where columns of text from a place may end in some room up to a greatest one, in scaled points, with what they pass
/// on the way: as many as all rooms up to it need. One straight walk up to the first choice; where there are choices,
/// the table over their fronts, at which those with equal sums are one.
///
/// Condition: the place is the galley's. The one refusal is want of memory.
pub fn candidates(
    alloc: Global,
    galley: &Galley,
    style: &Style,
    from: Place,
    top: i64,
) -> Result<CandidateList, AllocError>
    requires { IsPlace galley.now.blocks from }
    ensures { IfOk result (AreCandidates (document galley.now style.now) from top) }
{
    let index = BreakIndex::empty(alloc);
    let context = Context {
        alloc,
        galley,
        style,
        index: &index,
        top,
    };
    let mut found = CandidateList::with_room(alloc)?;
    collect_from(&context, from, &mut found)?;
    Ok(found)
}
