//! The classes of inserts.
ghost use Rattle.std.specs.Prelude.{◌≡◌, ◌≤◌, ◌<◌, length, is_some, ◌+◌, IfOk, OnOk};
ghost use Rattle.toml.specs.View.{table_view};
ghost use Rattle.pg_style.specs.Classes.{class_in};
ghost use Rattle.pg_style.specs.Ranges.{IsKind, IsClass, IsRigidKind, AreRigidClasses};
ghost use Rattle.pg_stylefile.specs.Faults.{Tells, Adds};
ghost use Rattle.pg_stylefile.specs.Values.{tables_in};
ghost use Rattle.pg_stylefile.specs.Tables.{AreClassesOf, note_of, float_of, kind_of, class_of, with_next, classes_of};

use crate::fault::{Fault, StyleKind, TableName};
use crate::keys::Keys;
use crate::tables::Tables;
use crate::values::Sort;
use pg_style::{Class, Classes, Kind};
use std::alloc::Global;
use toml::Table;

#[tactic(auto, unfolding(crate::specs::Tables::note_of))]
fn read_note<'t>(version: u8, keys: &Keys<'t>) -> Result<Kind, Fault<'t>>
    ensures value { Tells (λ kind. kind) result (note_of version keys.now.table_name (table_view keys.now.table.now)) }
    ensures range { IfOk result IsKind }
    ensures rigid { IfOk result (λ kind. version ≤ 2 → IsRigidKind kind) }
{
    keys.absent("area")?;
    keys.absent("distance")?;
    let skip = keys.gap(version, "skip")?;
    let limit = keys.length("limit")?;
    Ok(Kind::Note { skip, limit })
}

#[tactic(auto, unfolding(crate::specs::Tables::float_of))]
fn read_float<'t>(alloc: Global, keys: &Keys<'t>) -> Result<Kind, Fault<'t>>
    ensures value { Tells (λ kind. kind) result (float_of keys.now.table_name (table_view keys.now.table.now)) }
    ensures range { IfOk result IsKind }
    ensures rigid { IfOk result IsRigidKind }
{
    keys.absent("limit")?;
    keys.absent("skip")?;
    let area = keys.area("area")?;
    let distance = keys.distance(alloc, "distance")?;
    Ok(Kind::Float { area, distance })
}

fn read_kind<'t>(alloc: Global, version: u8, sort: Sort, keys: &Keys<'t>) -> Result<Kind, Fault<'t>>
    ensures value { Tells (λ kind. kind) result (kind_of version sort keys.now.table_name
        (table_view keys.now.table.now)) }
    ensures range { IfOk result IsKind }
    ensures rigid { IfOk result (λ kind. version ≤ 2 → IsRigidKind kind) }
{
    match sort {
        Sort::Note => read_note(version, keys),
        Sort::Float => read_float(alloc, keys),
    }
}

/// The class of a table.
#[tactic(auto, unfolding(crate::specs::Tables::class_of))]
fn read_class<'t>(
    alloc: Global,
    version: u8,
    position: usize,
    table: &'t Table,
) -> Result<Class, Fault<'t>>
    ensures value { Tells (λ class. class) result (class_of version position (table_view table.now)) }
    ensures range { IfOk result IsClass }
    ensures rigid { IfOk result (λ class. version ≤ 2 → IsRigidKind class.kind) }
{
    let keys = Keys {
        table_name: TableName::Class { position },
        table,
    };
    keys.named()?;
    let number = keys.whole("number", 0, 254)?;
    let sort = keys.sort("kind")?;
    let kind = read_kind(alloc, version, sort, &keys)?;
    Ok(Class {
        number: number as u8,
        kind,
    })
}

fn has_number(classes: &Classes, number: u8) -> bool
    ensures { result ≡ is_some (class_in classes.now number) }
{
    classes.class_of(number).is_some()
}

// Reads one more class, whose number no earlier class may have.
#[tactic(auto, using(crate::proofs::ClassLemmas::none_there, pg_style::proofs::ClassLemmas::length_inserted), unfolding(crate::specs::Tables::with_next))]
fn add_class<'t>(
    alloc: Global,
    version: u8,
    position: usize,
    table: &'t Table,
    classes: &mut Classes,
) -> Result<(), Fault<'t>>
    requires { length classes.old < 8 }
    ensures value { Adds result (with_next version position (table_view table.now) classes.old) classes.new }
    ensures count { OnOk result (length classes.new ≡ length classes.old + 1) }
    ensures rigid { OnOk result (version ≤ 2 → AreRigidClasses classes.old → AreRigidClasses classes.new) }
{
    let class = read_class(alloc, version, position, table)?;
    if has_number(classes, class.number) {
        return Err(Fault {
            kind: StyleKind::DuplicateClass,
            table_name: TableName::Class { position },
            key: b"number",
        });
    }
    classes.insert(class);
    Ok(())
}

/// The classes of these tables, in increasing number.
#[tactic(auto, unfolding(crate::specs::Tables::classes_of))]
pub fn read_classes<'t>(
    alloc: Global,
    version: u8,
    tables: &Tables<'t>,
) -> Result<Classes, Fault<'t>>
    requires { length (tables_in tables.now.values.now) ≤ 8 }
    ensures value { Tells (λ classes. classes) result (classes_of version (tables_in tables.now.values.now)) }
    ensures count { IfOk result (λ classes. length classes ≡ length (tables_in tables.now.values.now)) }
    ensures range { IfOk result (AreClassesOf version) }
{
    let mut classes = Classes::new(alloc);
    for position in 0..tables.len() {
        add_class(alloc, version, position, tables.at(position), &mut classes)?;
    }
    // hands on what the type keeps
    let _classes = classes.as_slice();
    Ok(classes)
}
