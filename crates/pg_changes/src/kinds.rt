//! Classes with another limit, or with more entries.
ghost use Rattle.std.specs.Prelude.{◌≡◌, ◌≤◌, ◌<◌, ◌^◌, IfSome, pos};
ghost use Rattle.pg_style.specs.Ranges.{IsDistance, IsKind, IsRigidKind};
ghost use Rattle.pg_changes.specs.Numbers.{kind_at as kind_at_index, lengthened as lengthened_kind};
ghost use Rattle.pg_changes.specs.Numbers.{limited as limited_kind, longer as longer_of};

use pg_style::{Distance, Kind, Style};
use std::alloc::Global;

/// The kind of the class at an index.
pub fn kind_at(style: &Style, index: u8) -> Option<Kind>
    ensures value { result ≡ kind_at_index style.now.classes index }
    ensures range { IfSome result IsKind }
    ensures rigid { IfSome result (λ kind. style.now.version ≤ 2 → IsRigidKind kind) }
{
    match style.classes.as_slice().get(index as usize) {
        Some(class) => Some(class.kind),
        None => None,
    }
}

/// A kind with another limit, where it is one of notes.
pub fn limited(kind: &Kind, limit: u32) -> Kind
    requires kind { IsKind kind.now }
    requires limit { limit < 2 ^ 30 }
    ensures value { result ≡ limited_kind (pos limit) kind.now }
    ensures range { IsKind result }
    ensures rigid { IsRigidKind kind.now → IsRigidKind result }
{
    match kind {
        Kind::Note { skip, .. } => Kind::Note {
            skip: *skip,
            limit: limit as i32,
        },
        Kind::Float { .. } => *kind,
    }
}

// A table of so many entries, of which those behind the last are as that.
fn longer(alloc: Global, distance: &Distance, count: usize) -> Option<Distance>
    ensures value { IfSome result (λ table. table ≡ longer_of distance.now count) }
    ensures range { IfSome result IsDistance }
{
    let entries = distance.as_slice();
    let len = entries.len();
    if count > 9 || len == 0 {
        return None;
    }
    let mut places = [entries[len - 1]; 9];
    places[..len].copy_from_slice(entries);
    match Distance::new(alloc, &places[..count]) {
        Ok(table) => {
            let _ = table.as_slice();
            Some(table)
        }
        Err(_) => None,
    }
}

/// A kind with so many entries, where it is one of floats and may have them.
pub fn lengthened(alloc: Global, kind: &Kind, count: usize) -> Option<Kind>
    ensures value { IfSome result (λ made. made ≡ lengthened_kind count kind.now) }
    ensures range { IfSome result IsKind }
    ensures rigid { IfSome result IsRigidKind }
{
    match kind {
        Kind::Note { .. } => None,
        Kind::Float { area, distance } => {
            let distance = longer(alloc, distance, count)?;
            Some(Kind::Float {
                area: *area,
                distance,
            })
        }
    }
}
