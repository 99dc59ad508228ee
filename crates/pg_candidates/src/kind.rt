//! What the galley says of an end.
ghost use Rattle.std.specs.Prelude.{◌≡◌, Bool, pos, unwrap_or};
ghost use Rattle.std.specs.Option.{option_copied};
ghost use Rattle.pg_breaks.specs.Near.{near_penalty, place_forced};
ghost use Rattle.pg_list.specs.Places.{item_at as item_at_of};
ghost use Rattle.pg_candidates.specs.Nears.{kind_at as kind_at_of};

use pg_breaks::{is_forced, is_forcing, is_spent};
use pg_list::{Galley, Item, Place, items_around};

/// What the galley says of an end at a place: the penalty of the break there, or 0 where there is none, whether that is
/// forced, and whether only discardable items stand behind it.
#[derive(Clone, Copy)]
pub struct EndKind {
    pub penalty: i32,
    pub is_forced: bool,
    pub is_spent: bool,
}

// The item at a place, if one is there.
fn item_at(galley: &Galley, at: Place) -> Option<&Item>
    ensures { option_copied result ≡ item_at_of galley.now.blocks at }
{
    items_around(galley.blocks().as_slice(), at).get(at.index as usize)
}

// The penalty of a break at an item, or 0 where there is none. What stands beside the item tells whether it is a break; a
// break at glue, at a kern or at the end has penalty 0, too.
fn penalty_of(item: Option<&Item>) -> i32
    ensures { (solid glue : Bool) → result ≡ unwrap_or (near_penalty (option_copied item.entry) solid glue) (pos 0) }
{
    match item {
        Some(Item::Penalty { value, .. }) => { if *value < 10000 { *value } else { 0 } }
        _ => 0,
    }
}

// Whether the break at a place with this item is forced. Few items force one, and the others tell it alone.
#[inline(always)]
fn is_forced_by(galley: &Galley, at: Place, item: Option<&Item>) -> bool
    requires { option_copied item ≡ item_at_of galley.now.blocks at }
    ensures { result ≡ place_forced galley.now.blocks at }
{
    match item {
        Some(item) => is_forcing(item) && is_forced(galley, at),
        None => true,
    }
}

// The kind of an end at a place.
#[inline(always)]
pub(crate) fn kind_at(galley: &Galley, at: Place) -> EndKind
    ensures { result ≡ kind_at_of galley.now.blocks at }
{
    let item = item_at(galley, at);
    EndKind {
        penalty: penalty_of(item),
        is_forced: is_forced_by(galley, at, item),
        is_spent: is_spent(galley, at),
    }
}
