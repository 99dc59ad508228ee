//! What stands at a place of a paragraph, and next to it.
ghost use Rattle.std.specs.Prelude.{◌≡◌, ◌≤◌, ◌<◌, length, ◌+◌, ◌==◌, ◌&&◌, ◌||◌, nat_lt};
ghost use Rattle.law_lines.specs.Lines.{is_forced_at, penalty_at};
ghost use Rattle.pg_lines.specs.Near.{box_end as box_end_of, follows_box as follows_box_at, forces as forces_of, is_hbox, is_hglue, near_penalty, passes_at};

use pg_hlist::HItem;

/// Whether an item is a box.
pub fn is_box(item: &HItem) -> bool
    ensures { result ≡ is_hbox item.now }
{
    matches!(item, HItem::BoxItem { .. })
}

fn is_glue(item: &HItem) -> bool
    ensures { result ≡ is_hglue item.now }
{
    matches!(item, HItem::Glue { .. })
}

// A penalty of -10000 or less.
fn forces(item: &HItem) -> bool
    ensures { result ≡ forces_of item.now }
{
    match item {
        HItem::Penalty { value, .. } => *value <= -10000,
        _ => false,
    }
}

// A box stands directly before a place.
fn follows_box(items: &[HItem], place: usize) -> bool
    ensures { result ≡ follows_box_at items.now place }
{
    if place > 0 {
        match items.get(place - 1) {
            Some(item) => is_box(item),
            None => false,
        }
    } else {
        false
    }
}

// Glue stands at a place.
fn glue_at(items: &[HItem], place: usize) -> bool
    ensures { result ≡ passes_at is_hglue items.now place }
{
    match items.get(place) {
        Some(item) => is_glue(item),
        None => false,
    }
}

// An item that forces a break stands at a place.
fn forcing_at(items: &[HItem], place: usize) -> bool
    ensures { result ≡ passes_at forces_of items.now place }
{
    match items.get(place) {
        Some(item) => forces(item),
        None => false,
    }
}

// The same as `penalty_at`, by what stands near.
fn near_penalty_at(items: &[HItem], place: usize) -> Option<i32>
    requires { place ≤ length items.now }
    ensures { result ≡ near_penalty items.now place }
{
    if place == items.len() {
        return Some(0);
    }
    match items.get(place) {
        None => None,
        Some(HItem::BoxItem { .. }) => None,
        Some(HItem::Glue { .. }) => {
            if follows_box(items, place) {
                Some(0)
            } else {
                None
            }
        }
        Some(HItem::Kern { .. }) => {
            if glue_at(items, place + 1) {
                Some(0)
            } else {
                None
            }
        }
        Some(HItem::Penalty { value, .. }) => { if *value < 10000 { Some(*value) } else { None } }
    }
}

/// The penalty of a break at a place of a paragraph; None exactly where the place is no break. Glue is a break behind a
/// box, a kern before glue, both with penalty 0; a penalty below 10000 is one, and so is the end.
pub fn penalty_of_break(items: &[HItem], place: usize) -> Option<i32>
    requires { place ≤ length items.now }
    ensures { result ≡ penalty_at items.now place }
{
    near_penalty_at(items, place)
}

/// How many items there are up to the last box.
pub fn box_end(items: &[HItem]) -> usize
    ensures { result ≡ box_end_of items.now }
{
    let mut rest = items;
    'ends: while let [before @ .., last] = rest {
        if is_box(last) {
            return rest.len();
        }
        rest = before;
    }
    0
}

// An item that forces a break stands at a place, and a box behind it.
fn forcing_before_box(items: &[HItem], box_end: usize, place: usize) -> bool
    requires { place ≤ length items.now }
    ensures { result ≡ (passes_at forces_of items.now place && nat_lt (place + 1) box_end) }
{
    forcing_at(items, place) && place + 1 < box_end
}

// The same as `is_forced`, by what stands near.
fn near_forced_at(items: &[HItem], box_end: usize, place: usize) -> bool
    requires { place ≤ length items.now }
    ensures { result ≡ ((place == length items.now)
        || (passes_at forces_of items.now place && nat_lt (place + 1) box_end)) }
{
    place == items.len() || forcing_before_box(items, box_end, place)
}

/// Whether a break at a place of a paragraph is forced: at the end, or at a penalty of -10000 or less with a box behind
/// it. `box_end` is that of the paragraph.
pub fn is_forced(items: &[HItem], box_end: usize, place: usize) -> bool
    requires place { place ≤ length items.now }
    requires box_end { box_end ≡ box_end_of items.now }
    ensures { result ≡ is_forced_at items.now place }
{
    near_forced_at(items, box_end, place)
}
