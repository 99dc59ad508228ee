//! The steps of columns of text, layout by layout.
ghost use Rattle.std.specs.Prelude.{◌≡◌, [], Contains, IfOk, List, OnOk, Some};
ghost use Rattle.std.specs.List.{AllByRecursion, flat_map};
ghost use Rattle.pg_column.specs.Numbers.{IsRoom};
ghost use Rattle.law_moves.specs.Listed.{beyond};
ghost use Rattle.pg_rules.specs.Floats.{called};
ghost use Rattle.pg_rules.specs.IsState.{IsState};
ghost use Rattle.law_walk.specs.Candidates.{Candidate};
ghost use Rattle.pg_sources.specs.Document.{counts_of, doc_of};
ghost use Rattle.pg_rooms.specs.KeptLaid.{AreLayouts};
ghost use Rattle.pg_rooms.specs.Laid.{laid_of};
ghost use Rattle.pg_rooms.specs.PlaceEnds.{AreFrontEndsOf, ArePlaceEnds, AreRoomEnds, ends_in};
ghost use Rattle.pg_states.specs.Settling.{known_of};
ghost use Rattle.pg_moves.specs.Columns.{IsLaid, doc_at, steps_to};
ghost use Rattle.pg_moves.specs.Stepping.{AreTextSteps, all_steps_in, steps_behind};
ghost use Rattle.pg_moves.specs.Thinned.{Adds};
ghost use Rattle.pg_rooms.specs.declared.laid.Laid.{Laid as ALaid};

use crate::column::{Opening, TextColumn};
use crate::groups::add_groups;
use law_walk::laws::candidates_give_ends;
use pg_candidates::has_text;
use pg_column::TextRoom;
use pg_plan::State;
use pg_rooms::{Behind, Laid, Layouts, PlaceEnds, RoomEnds, room_in};
use pg_small::{SmallMove, SmallState};
use pg_sources::Sources;
use pg_states::{Known, PageMarks};
use pg_table::{StepList, Wants};
use std::alloc::AllocError;

// Adds the wanted steps to the ends among the candidates of a column in a room.
fn add_kept<W: Wants<State = SmallState, Marks = PageMarks>>(
    column: &TextColumn<'_>,
    rooms: &[RoomEnds],
    room: &TextRoom,
    wants: &W,
    steps: &mut StepList<SmallState, SmallMove>,
) -> Result<(), AllocError>
    requires own { IsState (doc_at column.now) column.now.state.now }
    requires known { column.now.known.now ≡ known_of (doc_at column.now) column.now.state.now }
    requires laid { IsLaid column.now }
    ensures { OnOk result ((all : List Candidate) →
        AllByRecursion (AreRoomEnds (doc_at column.now) all column.now.near.now.picks) rooms.now →
        Adds (W.spares wants.now) steps.old (steps_to column.now (ends_in rooms.now room.now)) steps.new) }
{
    let (groups, ends) = room_in(rooms, room);
    add_groups(column, groups, ends, wants, steps)
}

// Adds the wanted steps to the ends behind a front, in what the room of a layout leaves there.
fn add_behind<W: Wants<State = SmallState, Marks = PageMarks>>(
    opening: &Opening<'_>,
    laid: &Laid,
    behind: &Behind,
    wants: &W,
    steps: &mut StepList<SmallState, SmallMove>,
) -> Result<(), AllocError>
    requires own { IsState (doc_of opening.now.sources.now) opening.now.state.now }
    requires known { opening.now.known.now ≡ known_of (doc_of opening.now.sources.now) opening.now.state.now }
    requires laid { laid.now ≡ laid_of (doc_of opening.now.sources.now) opening.now.state.now laid.now.layout }
    requires room { IsRoom laid.now.room }
    ensures { OnOk result ((all : List Candidate) →
        AreFrontEndsOf (doc_of opening.now.sources.now) all behind.now.ends →
        Adds (W.spares wants.now) steps.old
        (steps_behind (doc_of opening.now.sources.now) opening.now.state.now (Some behind.now) laid.now) steps.new) }
{
    let Some(left) = behind.room_behind(&laid.room) else {
        return Ok(());
    };
    let column = TextColumn {
        sources: opening.sources,
        state: opening.state,
        known: opening.known,
        laid,
        near: &behind.ends.walk.near,
    };
    let rooms = behind.ends.rooms.as_slice();
    add_kept(&column, rooms, &left, wants, steps)
}

// Adds the wanted steps to all ends in the room of a layout.
fn add_laid<W: Wants<State = SmallState, Marks = PageMarks>>(
    opening: &Opening<'_>,
    laid: &Laid,
    kept: &PlaceEnds,
    wants: &W,
    steps: &mut StepList<SmallState, SmallMove>,
) -> Result<(), AllocError>
    requires own { IsState (doc_of opening.now.sources.now) opening.now.state.now }
    requires known { opening.now.known.now ≡ known_of (doc_of opening.now.sources.now) opening.now.state.now }
    requires laid { laid.now ≡ laid_of (doc_of opening.now.sources.now) opening.now.state.now laid.now.layout }
    requires room { IsRoom laid.now.room }
    ensures { OnOk result (ArePlaceEnds (doc_of opening.now.sources.now) opening.now.state.now.place kept.now →
        Adds (W.spares wants.now) steps.old
        (all_steps_in (doc_of opening.now.sources.now) opening.now.state.now kept.now laid.now) steps.new) }
{
    if !has_text(opening.sources.style, &laid.room) {
        return Ok(());
    }
    let column = TextColumn {
        sources: opening.sources,
        state: opening.state,
        known: opening.known,
        laid,
        near: &kept.walk.near,
    };
    let rooms = kept.rooms.as_slice();
    add_kept(&column, rooms, &laid.room, wants, steps)?;
    match &kept.behind {
        Some(behind) => add_behind(opening, laid, behind, wants, steps),
        None => Ok(()),
    }
}

/// Adds the wanted steps of columns of text in these layouts, by the ends in their rooms.
pub fn add_all<W: Wants<State = SmallState, Marks = PageMarks>>(
    opening: &Opening<'_>,
    laid: &[Laid],
    kept: &PlaceEnds,
    wants: &W,
    steps: &mut StepList<SmallState, SmallMove>,
) -> Result<(), AllocError>
    requires own { IsState (doc_of opening.now.sources.now) opening.now.state.now }
    requires known { opening.now.known.now ≡ known_of (doc_of opening.now.sources.now) opening.now.state.now }
    requires laid { (it : ALaid) → Contains laid.now it →
        it ≡ laid_of (doc_of opening.now.sources.now) opening.now.state.now it.layout }
    requires rooms { AllByRecursion (λ (it : ALaid). IsRoom it.room) laid.now }
    ensures { OnOk result (ArePlaceEnds (doc_of opening.now.sources.now) opening.now.state.now.place kept.now →
        Adds (W.spares wants.now) steps.old
        (flat_map (all_steps_in (doc_of opening.now.sources.now) opening.now.state.now kept.now) laid.now) steps.new) }
{
    for it in laid {
        add_laid(opening, it, kept, wants, steps)?;
    }
    Ok(())
}

/// The wanted steps of the columns of text, from the layouts that are kept and from what is kept of the state's place: with
/// floats that are called before all blocks that a column does not reach. They stand in a list that has no steps yet.
pub fn text_steps<W: Wants<State = SmallState, Marks = PageMarks>>(
    opening: &Opening<'_>,
    layouts: &mut Layouts,
    kept: &mut PlaceEnds,
    wants: &W,
    emptied: StepList<SmallState, SmallMove>,
) -> Result<StepList<SmallState, SmallMove>, AllocError>
    requires own { IsState (doc_of opening.now.sources.now) opening.now.state.now }
    requires known { opening.now.known.now ≡ known_of (doc_of opening.now.sources.now) opening.now.state.now }
    requires counts { kept.old.counts ≡ counts_of (doc_of opening.now.sources.now) opening.now.state.now.place }
    requires layouts { AreLayouts (doc_of opening.now.sources.now) layouts.old }
    requires emptied { emptied ≡ [] }
    ensures steps { IfOk result (λ steps. ArePlaceEnds (doc_of opening.now.sources.now) opening.now.state.now.place
        kept.old → AreTextSteps (doc_of opening.now.sources.now) opening.now.state.now
        (called opening.now.sources.now.galley.now.blocks opening.now.sources.now.style.now
        (beyond (doc_of opening.now.sources.now) opening.now.state.now.place)) (W.spares wants.now) steps) }
    ensures kept { OnOk result (ArePlaceEnds (doc_of opening.now.sources.now) opening.now.state.now.place kept.old →
        ArePlaceEnds (doc_of opening.now.sources.now) opening.now.state.now.place kept.new) }
    ensures walk { OnOk result (kept.new.walk ≡ kept.old.walk) }
    ensures counts { OnOk result (kept.new.counts ≡ kept.old.counts) }
    ensures layouts { OnOk result (AreLayouts (doc_of opening.now.sources.now) layouts.new) }
{
    let sources = opening.sources;
    let state = opening.state;
    candidates_give_ends(sources.galley, sources.style);
    let at = layouts.find_texts(sources, state, &kept.counts.most)?;
    let laid = layouts.texts(at);
    kept.ask_all(sources, state.place, laid)?;
    let mut steps = emptied;
    add_all(opening, laid, kept, wants, &mut steps)?;
    Ok(steps)
}
