//! The layouts of a state, each with what it makes of its page.
ghost use Rattle.std.specs.Prelude.{◌≡◌, map, IfOk};
ghost use Rattle.std.specs.List.{AllByRecursion};
ghost use Rattle.pg_rules.specs.IsState.{IsState};
ghost use Rattle.pg_layouts.specs.Layouts.{float_layouts as the_float_layouts, text_layouts as the_text_layouts};
ghost use Rattle.pg_column.specs.Numbers.{IsRoom};
ghost use Rattle.pg_sources.specs.Document.{doc_of};
ghost use Rattle.pg_rooms.specs.Laid.{HasSoMany, laid_of};
ghost use Rattle.pg_rooms.specs.PlaceEnds.{IsPageRoom};
ghost use Rattle.pg_rooms.specs.declared.laid.Laid.{Laid as ALaid};

use crate::laid::{Laid, lay_all};
use crate::runs::{first_run, on_runs};
use pg_layouts::{float_layouts, text_layouts};
use pg_plan::State;
use pg_sources::Sources;
use std::alloc::AllocError;

/// The layouts of the columns of text behind a state, with counts up to a ceiling.
pub(crate) fn lay_texts(
    sources: &Sources<'_>,
    state: &State,
    ceiling: &[u16],
) -> Result<Vec<Laid>, AllocError>
    requires own { IsState (doc_of sources.now) state.now }
    requires ceiling { HasSoMany (doc_of sources.now) ceiling.now }
    ensures laid { IfOk result (λ laid. laid.items
        ≡ map (laid_of (doc_of sources.now) state.now) (the_text_layouts (doc_of sources.now) state.now ceiling.now)) }
    ensures small { IfOk result (λ laid. AllByRecursion (λ (it : ALaid). IsRoom it.room) laid.items) }
    ensures low { IfOk result (λ laid.
        AllByRecursion (λ (it : ALaid). IsPageRoom sources.now.style.now it.room) laid.items) }
{
    let first = first_run(state)?;
    let layouts = text_layouts(
        sources.alloc,
        sources.style,
        sources.slots(),
        &first,
        ceiling,
    )?;
    let laid = lay_all(sources, state, layouts.as_slice())?;
    on_runs(sources, state.run, laid)
}

/// The layouts of the columns without text behind a state, with counts up to a ceiling.
pub(crate) fn lay_floats(
    sources: &Sources<'_>,
    state: &State,
    ceiling: &[u16],
) -> Result<Vec<Laid>, AllocError>
    requires own { IsState (doc_of sources.now) state.now }
    requires ceiling { HasSoMany (doc_of sources.now) ceiling.now }
    ensures laid { IfOk result (λ laid. laid.items
        ≡ map (laid_of (doc_of sources.now) state.now) (the_float_layouts (doc_of sources.now) state.now ceiling.now)) }
    ensures small { IfOk result (λ laid. AllByRecursion (λ (it : ALaid). IsRoom it.room) laid.items) }
{
    let first = first_run(state)?;
    let layouts = float_layouts(
        sources.alloc,
        sources.style,
        sources.slots(),
        &first,
        ceiling,
    )?;
    let laid = lay_all(sources, state, layouts.as_slice())?;
    on_runs(sources, state.run, laid)
}
