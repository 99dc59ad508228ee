//! The layouts of a column, run by run.
ghost use Rattle.std.specs.Prelude.{◌≡◌, ◌++◌, ◌≤◌, ◌∷◌, [], if◌then◌else◌, ℕ, List, Contains, length, replicate, IfOk, OnOk};
ghost use Rattle.std.specs.List.{flat_map};
ghost use Rattle.pg_list.specs.declared.blocks.Block.{Block};
ghost use Rattle.pg_rules.specs.Floats.{float_numbers};
ghost use Rattle.pg_layouts.specs.Layouts.{float_layouts as the_float_layouts, runs_of, takes_run, text_layouts as the_text_layouts, wides_of};
ghost use Rattle.pg_layouts.specs.Behind.{areas_behind, bare, of_run, with_areas};
ghost use Rattle.pg_layouts.specs.Fit.{Fit};

use crate::kind::ColumnKind;
use crate::layout::Layout;
use crate::layouts::{plus_counts, push_floats, push_tops};
use crate::lists::ListedCounts;
use crate::search::Search;
use pg_floats::Spot;
use pg_plan::{Counts, State};
use pg_style::Style;
use std::alloc::{AllocError, Global};

// Adds the layouts of a column with these wide floats, where so many are placed with them.
fn push_areas(
    search: &Search,
    before: &[u16],
    run: u8,
    wide: &Counts,
    layouts: &mut Vec<Layout>,
) -> Result<(), AllocError>
    ensures { OnOk result (layouts.new.items ≡ layouts.old.items
        ++ areas_behind search.now.kind search.now.style.now before.now search.now.ceiling.now run wide.now) }
{
    match search.kind {
        ColumnKind::Text => push_tops(search, before, run, wide, layouts),
        ColumnKind::Floats => push_floats(search, before, run, wide, layouts),
    }
}

// Adds the layouts with these wide floats, behind the counts that are placed.
fn push_wide(
    search: &Search,
    placed: &[u16],
    run: u8,
    wide: &Counts,
    layouts: &mut Vec<Layout>,
) -> Result<(), AllocError>
    requires { Fit placed.now wide.now }
    ensures { OnOk result (layouts.new.items ≡ layouts.old.items
        ++ with_areas search.now.kind search.now.style.now placed.now search.now.ceiling.now run wide.now) }
{
    let before = plus_counts(
        search.alloc,
        search.style,
        search.slots,
        placed,
        wide.as_slice(),
    )?;
    push_areas(search, before.as_slice(), run, wide, layouts)
}

// Adds the layouts of a run for each of these wide counts, behind the counts that are placed.
fn push_wides(
    search: &Search,
    placed: &[u16],
    run: u8,
    wides: &[Counts],
    layouts: &mut Vec<Layout>,
) -> Result<(), AllocError>
    requires { (wide : List ℕ) → Contains wides.now wide → Fit placed.now wide }
    ensures { OnOk result (layouts.new.items ≡ layouts.old.items
        ++ flat_map (with_areas search.now.kind search.now.style.now placed.now search.now.ceiling.now run) wides.now) }
{
    for wide in wides {
        push_wide(search, placed, run, wide, layouts)?;
    }
    Ok(())
}

// Whether the page may have a run.
fn is_run_taken(must: Option<u8>, run: u8) -> bool
    ensures { result ≡ takes_run must run }
{
    match must {
        Some(other) => run == other,
        None => true,
    }
}

// Adds the layouts of a run, where the page may have it.
fn push_run(
    search: &Search,
    placed: &[u16],
    must: Option<u8>,
    run: u8,
    wides: &[Counts],
    layouts: &mut Vec<Layout>,
) -> Result<(), AllocError>
    requires { (wide : List ℕ) → Contains wides.now wide → Fit placed.now wide }
    ensures { OnOk result (layouts.new.items ≡ layouts.old.items ++ flat_map
        (of_run search.now.kind search.now.style.now placed.now search.now.ceiling.now wides.now)
        (if takes_run must run then run ∷ [] else [])) }
{
    if is_run_taken(must, run) {
        push_wides(search, placed, run, wides, layouts)?;
    }
    Ok(())
}

// Adds the layouts of a column, for these wide counts of its page.
fn push_runs(
    search: &Search,
    placed: &[u16],
    must: Option<u8>,
    wides: &[Counts],
    layouts: &mut Vec<Layout>,
) -> Result<(), AllocError>
    requires { (wide : List ℕ) → Contains wides.now wide → Fit placed.now wide }
    ensures { OnOk result (layouts.new.items ≡ layouts.old.items ++ flat_map
        (of_run search.now.kind search.now.style.now placed.now search.now.ceiling.now wides.now)
        (runs_of search.now.style.now must)) }
{
    let style = search.style;
    let count = style.runs.as_slice().len() as u8;
    for run in 0..count {
        push_run(search, placed, must, run, wides, layouts)?;
    }
    Ok(())
}

// One list of counts, with no float of any class.
fn no_wides(alloc: Global, slots: usize) -> ListedCounts
    requires { slots ≤ 8 }
    ensures { result ≡ replicate slots 0 ∷ [] }
{
    ListedCounts::one(Counts::zeros(alloc, slots))
}

// How many floats the wide area takes.
fn wide_count(style: &Style) -> u8
    ensures { result ≡ style.now.wide.count }
{
    style.wide.count
}

// The counts of wide floats that the page of the next column may have.
fn wides(search: &Search, state: &State) -> Result<ListedCounts, AllocError>
    ensures { IfOk result (λ wides. wides ≡ wides_of (bare search.now.style.now) state.now search.now.ceiling.now) }
{
    if state.column == 1 {
        search.area_lists(
            Spot::Across,
            wide_count(search.style),
            state.placed.as_slice(),
        )
    } else {
        Ok(no_wides(search.alloc, search.slots))
    }
}

// The layouts of a column.
fn layouts_of(search: &Search, state: &State, placed: &[u16]) -> Result<Vec<Layout>, AllocError>
    requires { placed.now ≡ state.now.placed }
    ensures { IfOk result (λ layouts. layouts.items ≡ flat_map (of_run search.now.kind search.now.style.now
        state.now.placed search.now.ceiling.now (wides_of (bare search.now.style.now) state.now search.now.ceiling.now))
        (runs_of search.now.style.now state.now.run)) }
{
    let wides = wides(search, state)?;
    let mut layouts = Vec::new(search.alloc);
    push_runs(search, placed, state.run, wides.as_slice(), &mut layouts)?;
    Ok(layouts)
}

/// The layouts of a column of text that follows a state, with counts up to a ceiling.
pub fn text_layouts(
    alloc: Global,
    style: &Style,
    slots: usize,
    state: &State,
    ceiling: &[u16],
) -> Result<Vec<Layout>, AllocError>
    requires slots { slots ≡ length (float_numbers style.now) }
    requires few { slots ≤ 8 }
    ensures { IfOk result (λ layouts. (blocks : List Block) → layouts.items
        ≡ the_text_layouts (record { blocks = blocks; style = style.now }) state.now ceiling.now) }
{
    let search = Search {
        alloc,
        style,
        slots,
        kind: ColumnKind::Text,
        ceiling,
    };
    layouts_of(&search, state, state.placed.as_slice())
}

/// The layouts of a column without text that follows a state, with counts up to a ceiling.
pub fn float_layouts(
    alloc: Global,
    style: &Style,
    slots: usize,
    state: &State,
    ceiling: &[u16],
) -> Result<Vec<Layout>, AllocError>
    requires slots { slots ≡ length (float_numbers style.now) }
    requires few { slots ≤ 8 }
    ensures { IfOk result (λ layouts. (blocks : List Block) → layouts.items
        ≡ the_float_layouts (record { blocks = blocks; style = style.now }) state.now ceiling.now) }
{
    let search = Search {
        alloc,
        style,
        slots,
        kind: ColumnKind::Floats,
        ceiling,
    };
    layouts_of(&search, state, state.placed.as_slice())
}
