//! The layouts with the same wide floats, area by area.
ghost use Rattle.std.specs.Prelude.{◌≡◌, ◌++◌, ◌≤◌, ℕ, List, Contains, length, map, IfOk, OnOk};
ghost use Rattle.std.specs.List.{flat_map};
ghost use Rattle.pg_rules.specs.Floats.{float_numbers, plus_counts as the_plus_counts, takes_bottom, takes_in_column, takes_top};
ghost use Rattle.pg_layouts.specs.Layouts.{area_lists, layout_of, zeros};
ghost use Rattle.pg_layouts.specs.Behind.{bottoms_behind, floats_alone};
ghost use Rattle.pg_layouts.specs.Fit.{Fit};

use crate::layout::Layout;
use crate::search::Search;
use pg_floats::{Spot, plus};
use pg_plan::Counts;
use pg_style::Style;
use std::alloc::{AllocError, Global};

/// Counts added, class by class.
pub fn plus_counts(
    alloc: Global,
    style: &Style,
    slots: usize,
    a: &[u16],
    b: &[u16],
) -> Result<Counts, AllocError>
    requires slots { slots ≡ length (float_numbers style.now) }
    requires fit { Fit a.now b.now }
    ensures { IfOk result (λ counts. counts ≡ the_plus_counts style.now a.now b.now) }
{
    // the clause alone speaks of the style
    let _ = style;
    plus(alloc, slots, a, b)
}

// A layout of these parts.
fn layout(run: u8, wide: &Counts, top: &Counts, bottom: &Counts) -> Result<Layout, AllocError>
    ensures { IfOk result (λ it. it ≡ layout_of run wide.now top.now bottom.now) }
{
    Ok(Layout {
        run,
        wide: wide.copy()?,
        top: top.copy()?,
        bottom: bottom.copy()?,
    })
}

// Adds a layout for each of these counts of the bottom area.
fn push_each(
    run: u8,
    wide: &Counts,
    top: &Counts,
    bottoms: &[Counts],
    layouts: &mut Vec<Layout>,
) -> Result<(), AllocError>
    ensures { OnOk result (layouts.new.items ≡ layouts.old.items
        ++ map (layout_of run wide.now top.now) bottoms.now) }
{
    for bottom in bottoms {
        layouts.push(layout(run, wide, top, bottom)?)?;
    }
    Ok(())
}

// How many floats the bottom area takes.
fn bottom_count(style: &Style) -> u8
    ensures { result ≡ style.now.bottom.count }
{
    style.bottom.count
}

/// Adds the layouts with these floats at the top, behind the counts `before`, which these are added to.
pub fn push_bottoms(
    search: &Search,
    before: &[u16],
    run: u8,
    wide: &Counts,
    top: &Counts,
    layouts: &mut Vec<Layout>,
) -> Result<(), AllocError>
    ensures { OnOk result (layouts.new.items ≡ layouts.old.items ++ map (layout_of run wide.now top.now)
        (area_lists search.now.style.now takes_bottom search.now.style.now.bottom.count before.now
        search.now.ceiling.now)) }
{
    let bottoms = search.area_lists(Spot::Bottom, bottom_count(search.style), before)?;
    push_each(run, wide, top, bottoms.as_slice(), layouts)
}

// Adds the layouts with these floats at the top.
fn push_top(
    search: &Search,
    before: &[u16],
    run: u8,
    wide: &Counts,
    top: &Counts,
    layouts: &mut Vec<Layout>,
) -> Result<(), AllocError>
    requires { Fit before.now top.now }
    ensures { OnOk result (layouts.new.items ≡ layouts.old.items
        ++ bottoms_behind search.now.style.now before.now search.now.ceiling.now run wide.now top.now) }
{
    let behind = plus_counts(
        search.alloc,
        search.style,
        search.slots,
        before,
        top.as_slice(),
    )?;
    push_bottoms(search, behind.as_slice(), run, wide, top, layouts)
}

// Adds the layouts for each of these counts of the top area.
fn push_each_top(
    search: &Search,
    before: &[u16],
    run: u8,
    wide: &Counts,
    tops: &[Counts],
    layouts: &mut Vec<Layout>,
) -> Result<(), AllocError>
    requires { (top : List ℕ) → Contains tops.now top → Fit before.now top }
    ensures { OnOk result (layouts.new.items ≡ layouts.old.items ++ flat_map
        (bottoms_behind search.now.style.now before.now search.now.ceiling.now run wide.now) tops.now) }
{
    for top in tops {
        push_top(search, before, run, wide, top, layouts)?;
    }
    Ok(())
}

// How many floats the top area takes.
fn top_count(style: &Style) -> u8
    ensures { result ≡ style.now.top.count }
{
    style.top.count
}

/// Adds the layouts with these wide floats, behind the counts `before`, which these are added to.
pub fn push_tops(
    search: &Search,
    before: &[u16],
    run: u8,
    wide: &Counts,
    layouts: &mut Vec<Layout>,
) -> Result<(), AllocError>
    ensures { OnOk result (layouts.new.items ≡ layouts.old.items ++ flat_map
        (bottoms_behind search.now.style.now before.now search.now.ceiling.now run wide.now)
        (area_lists search.now.style.now takes_top search.now.style.now.top.count before.now search.now.ceiling.now)) }
{
    let tops = search.area_lists(Spot::Top, top_count(search.style), before)?;
    push_each_top(search, before, run, wide, tops.as_slice(), layouts)
}

// Adds a layout for each of these counts of a column without text.
fn push_each_float(
    run: u8,
    wide: &Counts,
    none: &Counts,
    tops: &[Counts],
    layouts: &mut Vec<Layout>,
) -> Result<(), AllocError>
    ensures { OnOk result (layouts.new.items ≡ layouts.old.items ++ map (floats_alone run wide.now none.now) tops.now) }
{
    for top in tops {
        layouts.push(layout(run, wide, top, none)?)?;
    }
    Ok(())
}

// How many floats a column without text takes.
fn float_count(style: &Style) -> u8
    ensures { result ≡ style.now.float_column.count }
{
    style.float_column.count
}

/// Adds the layouts without text with these wide floats, behind the counts `before`, which these are added to.
pub fn push_floats(
    search: &Search,
    before: &[u16],
    run: u8,
    wide: &Counts,
    layouts: &mut Vec<Layout>,
) -> Result<(), AllocError>
    ensures { OnOk result (layouts.new.items ≡ layouts.old.items
        ++ map (floats_alone run wide.now (zeros search.now.style.now))
        (area_lists search.now.style.now takes_in_column search.now.style.now.float_column.count before.now
        search.now.ceiling.now)) }
{
    let tops = search.area_lists(Spot::Column, float_count(search.style), before)?;
    let none = Counts::zeros(search.alloc, search.slots);
    push_each_float(run, wide, &none, tops.as_slice(), layouts)
}
