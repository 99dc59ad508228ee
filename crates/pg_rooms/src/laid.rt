//! Layouts with what they make of their pages.
ghost use Rattle.std.specs.Prelude.{◌≡◌, ◌<◌, ◌^◌, ◌-ℤ◌, Contains, Option, length, map, nat_abs, nat_lt, pos, unwrap_or, IfOk, IfSome, ℤ};
ghost use Rattle.pg_column.specs.Numbers.{IsRoom};
ghost use Rattle.pg_style.specs.Ranges.{IsAreaRule};
ghost use Rattle.pg_rules.specs.Floats.{float_numbers, gap_shrink, gap_stretch, plus_counts as the_plus_counts, total_count};
ghost use Rattle.pg_rules.specs.IsState.{IsState};
ghost use Rattle.pg_layouts.specs.declared.layout.Layout.{Layout as ALayout};
ghost use Rattle.law_moves.specs.Steps.{area_of, give_of, text_room, text_size, wide_of};
ghost use Rattle.pg_plan.specs.declared.states.State.{State as AState};
ghost use Rattle.std.specs.List.{AllByRecursion};
ghost use Rattle.pg_rooms.specs.declared.laid.Laid.{Laid as ALaid};
ghost use Rattle.pg_sources.specs.Document.{doc_of};
ghost use Rattle.pg_rooms.specs.Laid.{IsLaid, IsLaidBy, IsThere, laid_of};
ghost use Rattle.pg_rooms.specs.Runs.{IsLow};

use pg_column::TextRoom;
use pg_floats::{checked_area, checked_give, count_floats, full_height, total};
use pg_layouts::{Layout, plus_counts};
use pg_plan::{Counts, State};
use pg_scaled::minus;
use pg_small::SmallLayout;
use pg_sources::Sources;
use pg_style::{AreaRule, Give};
use std::alloc::AllocError;

/// A layout, the height of its page's wide area, the floats that are placed behind it, how many these are, and the room of a
/// text in it.
#[derive(Drop)]
pub struct Laid {
    pub layout: SmallLayout,
    pub wide: Option<i64>,
    pub after: Counts,
    pub placed: u32,
    pub room: TextRoom,
}

// What areas leave of a height.
fn room_left(full: i64, wide: i64, top: i64, bottom: i64) -> i64
    requires full { nat_abs full < 2 ^ 33 }
    requires wide { nat_abs wide < 2 ^ 34 }
    requires top { nat_abs top < 2 ^ 34 }
    requires bottom { nat_abs bottom < 2 ^ 34 }
    ensures value { result ≡ ((full -ℤ wide) -ℤ top) -ℤ bottom }
    ensures size { nat_abs result < 2 ^ 36 }
{
    minus(minus(minus(full, wide), top), bottom)
}

// A height, or 0.
fn height_or(wide: Option<i64>) -> i64
    requires { IfSome wide (λ height. nat_abs height < 2 ^ 34) }
    ensures value { result ≡ unwrap_or wide (pos 0) }
    ensures size { nat_abs result < 2 ^ 34 }
{
    match wide {
        Some(height) => height,
        None => 0,
    }
}

// The height of a wide area.
fn wide_area(sources: &Sources<'_>, before: &Counts, counts: &Counts) -> i64
    requires { IsThere (doc_of sources.now) before.now counts.now }
    ensures value { result ≡ area_of (doc_of sources.now) sources.now.style.now.wide before.now counts.now }
    ensures size { nat_abs result < 2 ^ 34 }
{
    let style = sources.style;
    checked_area(sources.floats, true, &style.wide, before, counts)
}

// The height of a top area.
fn top_area(sources: &Sources<'_>, before: &Counts, counts: &Counts) -> i64
    requires { IsThere (doc_of sources.now) before.now counts.now }
    ensures value { result ≡ area_of (doc_of sources.now) sources.now.style.now.top before.now counts.now }
    ensures size { nat_abs result < 2 ^ 34 }
{
    if !has_floats(sources, counts) {
        return 0;
    }
    let style = sources.style;
    checked_area(sources.floats, true, &style.top, before, counts)
}

// What the gaps of an area give to a text.
fn area_give(sources: &Sources<'_>, rule: &AreaRule, before: &Counts, counts: &Counts) -> Give
    requires range { IsAreaRule rule.now }
    requires there { IsThere (doc_of sources.now) before.now counts.now }
    ensures stretch { result.stretch ≡ give_of gap_stretch (doc_of sources.now) rule.now before.now counts.now }
    ensures shrink { result.shrink ≡ give_of gap_shrink (doc_of sources.now) rule.now before.now counts.now }
    ensures size { (nat_abs result.stretch < 2 ^ 33) × (nat_abs result.shrink < 2 ^ 33) }
{
    if !has_floats(sources, counts) {
        return Give::none();
    }
    checked_give(sources.floats, true, rule, before, counts)
}

// The height of a bottom area.
fn bottom_area(sources: &Sources<'_>, before: &Counts, counts: &Counts) -> i64
    requires { IsThere (doc_of sources.now) before.now counts.now }
    ensures value { result ≡ area_of (doc_of sources.now) sources.now.style.now.bottom before.now counts.now }
    ensures size { nat_abs result < 2 ^ 34 }
{
    if !has_floats(sources, counts) {
        return 0;
    }
    let style = sources.style;
    checked_area(sources.floats, true, &style.bottom, before, counts)
}

// How many floats counts deal out.
fn count(sources: &Sources<'_>, counts: &Counts) -> u32
    requires { length counts.now ≡ length (float_numbers sources.now.style.now) }
    ensures { result ≡ total_count counts.now }
{
    // hands on that the classes are few
    let _ = sources.slots();
    total(counts.as_slice())
}

/// Whether counts deal out a float.
pub fn has_floats(sources: &Sources<'_>, counts: &Counts) -> bool
    requires { length counts.now ≡ length (float_numbers sources.now.style.now) }
    ensures { result ≡ nat_lt 0 (total_count counts.now) }
{
    count_floats(sources.slots(), counts.as_slice()) > 0
}

// The height of the wide area of the page of the next column.
fn wide_height(sources: &Sources<'_>, state: &State, wide: &Counts) -> Option<i64>
    requires own { IsState (doc_of sources.now) state.now }
    requires there { IsThere (doc_of sources.now) state.now.placed wide.now }
    ensures value { result ≡ wide_of (doc_of sources.now) state.now wide.now }
    ensures size { IfSome result (λ height. nat_abs height < 2 ^ 34) }
{
    if state.column != 1 {
        return state.wide;
    }
    if has_floats(sources, wide) {
        Some(wide_area(sources, &state.placed, wide))
    } else {
        None
    }
}

// Counts added, class by class.
fn plus(sources: &Sources<'_>, a: &Counts, b: &Counts) -> Result<Counts, AllocError>
    requires long { length a.now ≡ length (float_numbers sources.now.style.now) }
    requires there { IsThere (doc_of sources.now) a.now b.now }
    ensures value { IfOk result (λ counts. counts ≡ the_plus_counts sources.now.style.now a.now b.now) }
    ensures long { IfOk result (λ counts. length counts ≡ length (float_numbers sources.now.style.now)) }
{
    if !has_floats(sources, b) {
        return a.copy();
    }
    plus_counts(
        sources.alloc,
        sources.style,
        sources.slots(),
        a.as_slice(),
        b.as_slice(),
    )
}

// What a layout leaves to a text.
fn room_size(
    sources: &Sources<'_>,
    wide: Option<i64>,
    before: &Counts,
    below: &Counts,
    layout: &Layout,
) -> i64
    requires wide { IfSome wide (λ height. nat_abs height < 2 ^ 34) }
    requires top { IsThere (doc_of sources.now) before.now layout.now.top }
    requires bottom { IsThere (doc_of sources.now) below.now layout.now.bottom }
    ensures value { (u : AState) → IsLaidBy (doc_of sources.now) u layout.now wide before.now below.now →
        result ≡ text_size (doc_of sources.now) u layout.now }
    ensures size { nat_abs result < 2 ^ 36 }
{
    room_left(
        full_height(sources.style, layout.run),
        height_or(wide),
        top_area(sources, before, &layout.top),
        bottom_area(sources, below, &layout.bottom),
    )
}

// What the gaps of a layout's areas give to a text.
fn areas_give(sources: &Sources<'_>, before: &Counts, below: &Counts, layout: &Layout) -> Give
    requires top { IsThere (doc_of sources.now) before.now layout.now.top }
    requires bottom { IsThere (doc_of sources.now) below.now layout.now.bottom }
    ensures value { (u : AState) (wide : Option ℤ) → IsLaidBy (doc_of sources.now) u layout.now wide before.now below.now →
        result ≡ (text_room (doc_of sources.now) u layout.now).give }
    ensures size { (nat_abs result.stretch < 2 ^ 40) × (nat_abs result.shrink < 2 ^ 40) }
{
    let style = sources.style;
    let top = area_give(sources, &style.top, before, &layout.top);
    let bottom = area_give(sources, &style.bottom, below, &layout.bottom);
    top.plus(bottom)
}

// The room of a text in a layout.
fn room(
    sources: &Sources<'_>,
    wide: Option<i64>,
    before: &Counts,
    below: &Counts,
    layout: &Layout,
) -> TextRoom
    requires wide { IfSome wide (λ height. nat_abs height < 2 ^ 34) }
    requires top { IsThere (doc_of sources.now) before.now layout.now.top }
    requires bottom { IsThere (doc_of sources.now) below.now layout.now.bottom }
    ensures value { (u : AState) → IsLaidBy (doc_of sources.now) u layout.now wide before.now below.now →
        result ≡ text_room (doc_of sources.now) u layout.now }
    ensures size { IsRoom result }
    ensures low { nat_abs result.size < 2 ^ 36 }
{
    TextRoom {
        size: room_size(sources, wide, before, below, layout),
        give: areas_give(sources, before, below, layout),
    }
}

/// A layout with what it makes of its page behind a state.
pub fn lay(sources: &Sources<'_>, state: &State, layout: Layout) -> Result<Laid, AllocError>
    requires own { IsState (doc_of sources.now) state.now }
    requires laid { IsLaid (doc_of sources.now) state.now layout }
    ensures laid { IfOk result (λ laid. laid ≡ laid_of (doc_of sources.now) state.now layout) }
    ensures size { IfOk result (λ laid. IsRoom laid.room) }
    ensures low { IfOk result (λ laid. nat_abs laid.room.size < 2 ^ 36) }
{
    let before = plus(sources, &state.placed, &layout.wide)?;
    let below = plus(sources, &before, &layout.top)?;
    let after = plus(sources, &below, &layout.bottom)?;
    let wide = wide_height(sources, state, &layout.wide);
    let placed = count(sources, &after);
    let room = room(sources, wide, &before, &below, &layout);
    Ok(Laid {
        layout: SmallLayout::of(sources.alloc, layout)?,
        wide,
        after,
        placed,
        room,
    })
}

/// Layouts with what they make of their pages behind a state.
pub fn lay_all(
    sources: &Sources<'_>,
    state: &State,
    layouts: &[Layout],
) -> Result<Vec<Laid>, AllocError>
    requires own { IsState (doc_of sources.now) state.now }
    requires laid { (layout : ALayout) → Contains layouts.now layout → IsLaid (doc_of sources.now) state.now layout }
    ensures laid { IfOk result (λ laid. laid.items ≡ map (laid_of (doc_of sources.now) state.now) layouts.now) }
    ensures low { IfOk result (λ laid. AllByRecursion (λ (it : ALaid). IsLow it.room) laid.items) }
{
    let mut laid = Vec::with_capacity(sources.alloc, layouts.len())?;
    for layout in layouts {
        laid.push(lay(sources, state, layout.copy()?)?)?;
    }
    Ok(laid)
}
