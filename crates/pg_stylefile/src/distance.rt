//! The distance table of a class of floats.
ghost use Rattle.std.specs.Prelude.{◌≡◌, ◌≤◌, true, length, IfOk};
ghost use Rattle.toml.specs.View.{view, items_view};
ghost use Rattle.pg_style.specs.Ranges.{IsDistance};
ghost use Rattle.pg_stylefile.specs.Values.{Answers, are_whole, each_entry, made_table, entries_of, distance_of};

use crate::entries::Entries;
use crate::fault::StyleKind;
use crate::keys::MAX_DEMERITS;
use crate::values::as_whole;
use pg_style::{Distance, DistanceFault};
use std::alloc::Global;
use toml::Value;

fn are_whole_numbers(values: &[Value]) -> bool
    ensures { result ≡ are_whole (items_view values.now) }
{
    for value in values {
        if !value.is_integer() {
            return false;
        }
    }
    true
}

fn entries_in(values: &[Value]) -> Result<Entries, StyleKind>
    requires { length values.now ≤ 9 }
    ensures { Answers (λ entries. entries) result (each_entry (items_view values.now)) }
{
    let mut entries = Entries::new();
    for value in values {
        entries.push(as_whole(value, 0, MAX_DEMERITS)?);
    }
    Ok(entries)
}

#[tactic(auto, using(crate::proofs::EntryLemmas::tested), unfolding(crate::specs::Values::made_table))]
fn made(alloc: Global, entries: &[u32]) -> Result<Distance, StyleKind>
    ensures value { result ≡ made_table entries.now }
    ensures range { IfOk result IsDistance }
{
    match Distance::new(alloc, entries) {
        Ok(distance) => {
            // hands on what the type keeps
            let _entries = distance.as_slice();
            Ok(distance)
        }
        Err(DistanceFault::Range) => Err(StyleKind::OutOfRange),
        Err(DistanceFault::Decreasing) => Err(StyleKind::Decreasing),
    }
}

#[tactic(auto, using(crate::proofs::EntryLemmas::too_many), unfolding(crate::specs::Values::entries_of))]
fn table_of_entries(alloc: Global, values: &[Value]) -> Result<Distance, StyleKind>
    requires { are_whole (items_view values.now) ≡ true }
    ensures value { result ≡ entries_of (items_view values.now) }
    ensures range { IfOk result IsDistance }
{
    if values.len() > 9 {
        return Err(StyleKind::OutOfRange);
    }
    let entries = entries_in(values)?;
    made(alloc, entries.as_slice())
}

/// The demerits of a float by how many pages it waited.
#[tactic(auto, unfolding(crate::specs::Values::distance_of))]
pub fn as_distance(alloc: Global, value: &Value) -> Result<Distance, StyleKind>
    ensures value { result ≡ distance_of (view value.now) }
    ensures range { IfOk result IsDistance }
{
    let Some(values) = value.as_array() else {
        return Err(StyleKind::WrongKind);
    };
    let values = values.as_slice();
    if !are_whole_numbers(values) {
        return Err(StyleKind::WrongKind);
    }
    table_of_entries(alloc, values)
}
