//! The keys of one table.
ghost use Rattle.std.specs.Prelude.{◌≡◌, ◌≤◌, ◌∷◌, pos, ◌≤ℤ◌, ◌<ℤ◌, ◌^◌, IfOk, IfSome, is_some};
ghost use Rattle.toml.specs.Data.{get_member};
ghost use Rattle.toml.specs.View.{view, table_view};
ghost use Rattle.pg_style.specs.Ranges.{IsLength, IsGap, IsRigid, IsDistance};
ghost use Rattle.pg_stylefile.specs.Faults.{Tells};
ghost use Rattle.pg_stylefile.specs.Values.{whole_of, dimension_of, length_of, first_of, area_of, sort_of, table_of};
ghost use Rattle.pg_stylefile.specs.Values.{tables_of, tables_in, distance_of, gap_of};
ghost use Rattle.pg_stylefile.specs.Keys.{due_at, keyed, keyed_if_any, absent, at_key, named, tables_if_any};

use crate::distance::as_distance;
use crate::fault::{Fault, StyleKind, TableName};
use crate::gaps::as_gap;
use crate::names::first_unnamed;
use crate::tables::{Tables, as_tables};
use crate::values::{Sort, as_area, as_dimension, as_first, as_sort, as_table, as_whole};
use pg_style::{Area, Distance, First, Gap};
use std::alloc::Global;
use toml::{Table, Value};

/// The keys of a table, and which table it is.
#[derive(Clone, Copy)]
pub struct Keys<'t> {
    pub table_name: TableName,
    pub table: &'t Table,
}

impl<'t> Keys<'t> {
    pub fn fault(&self, kind: StyleKind, key: &'t str) -> Fault<'t>
        ensures kind { result.kind ≡ kind }
        ensures table_name { result.table_name ≡ self.now.table_name }
        ensures key { result.key.now ≡ key.now }
    {
        Fault {
            kind,
            table_name: self.table_name,
            key: key.as_bytes(),
        }
    }

    #[tactic(auto, unfolding(crate::specs::Keys::due_at))]
    fn due(&self, key: &'t str) -> Result<&'t Value, Fault<'t>>
        ensures { Tells (λ value. view value.now) result (due_at self.now.table_name key.now
            (table_view self.now.table.now)) }
    {
        match self.table.get(key) {
            Some(value) => Ok(value),
            None => Err(self.fault(StyleKind::MissingKey, key)),
        }
    }

    fn has(&self, key: &str) -> bool
        ensures { result ≡ is_some (get_member key.now (table_view self.now.table.now)) }
    {
        self.table.get(key).is_some()
    }

    /// A key that the table does not know here is not there.
    #[tactic(auto, unfolding(crate::specs::Keys::absent))]
    pub fn absent(&self, key: &'t str) -> Result<(), Fault<'t>>
        ensures { Tells (λ x. x) result (absent self.now.table_name key.now (table_view self.now.table.now)) }
    {
        if self.has(key) {
            return Err(self.fault(StyleKind::UnknownKey, key));
        }
        Ok(())
    }

    /// The table has no key but those that it names.
    #[tactic(auto, unfolding(crate::specs::Keys::named))]
    pub fn named(&self) -> Result<(), Fault<'t>>
        ensures { Tells (λ x. x) result (named self.now.table_name (table_view self.now.table.now)) }
    {
        match first_unnamed(self.table_name.names(), self.table) {
            Some(key) => Err(self.fault(StyleKind::UnknownKey, key)),
            None => Ok(()),
        }
    }

    // The fault of a value is one at its key.
    fn told<A>(&self, key: &'t str, found: Result<A, StyleKind>) -> Result<A, Fault<'t>>
        ensures value { Tells (λ (x : A). x) result (at_key self.now.table_name key.now found) }
    {
        match found {
            Ok(value) => Ok(value),
            Err(kind) => Err(self.fault(kind, key)),
        }
    }

    #[tactic(auto, unfolding(crate::specs::Keys::keyed))]
    pub fn whole(&self, key: &'t str, low: u32, high: u32) -> Result<u32, Fault<'t>>
        ensures value { Tells (λ n. n) result (keyed self.now.table_name key.now (whole_of low high)
            (table_view self.now.table.now)) }
        ensures low { IfOk result (λ n. low ≤ n) }
        ensures high { IfOk result (λ n. n ≤ high) }
    {
        let value = self.due(key)?;
        self.told(key, as_whole(value, low, high))
    }

    #[tactic(auto, unfolding(crate::specs::Keys::keyed))]
    pub fn dimension(&self, key: &'t str, low: i32, high: i32) -> Result<i32, Fault<'t>>
        ensures value { Tells (λ n. n) result (keyed self.now.table_name key.now (dimension_of low high)
            (table_view self.now.table.now)) }
        ensures low { IfOk result (λ n. low ≤ℤ n) }
        ensures high { IfOk result (λ n. n ≤ℤ high) }
    {
        let value = self.due(key)?;
        self.told(key, as_dimension(value, low, high))
    }

    pub fn length(&self, key: &'t str) -> Result<i32, Fault<'t>>
        ensures value { Tells
            (λ n. n) result (keyed self.now.table_name key.now length_of (table_view self.now.table.now)) }
        ensures range { IfOk result IsLength }
    {
        self.dimension(key, 0, MAX_DIMENSION)
    }

    /// A dimension that may be missing.
    #[tactic(auto, unfolding(crate::specs::Keys::keyed_if_any))]
    pub fn dimension_if_any(
        &self,
        key: &'t str,
        low: i32,
        high: i32,
    ) -> Result<Option<i32>, Fault<'t>>
        ensures value { Tells (λ n. n) result (keyed_if_any self.now.table_name key.now (dimension_of low high)
            (table_view self.now.table.now)) }
        ensures low { IfOk result (λ found. IfSome found (λ n. low ≤ℤ n)) }
        ensures high { IfOk result (λ found. IfSome found (λ n. n ≤ℤ high)) }
    {
        if !self.has(key) {
            return Ok(None);
        }
        let value = self.dimension(key, low, high)?;
        Ok(Some(value))
    }

    /// A gap, which before version 3 is a length.
    #[tactic(auto, unfolding(crate::specs::Keys::keyed))]
    pub fn gap(&self, version: u8, key: &'t str) -> Result<Gap, Fault<'t>>
        ensures value { Tells (λ gap. gap) result (keyed self.now.table_name key.now (gap_of version)
            (table_view self.now.table.now)) }
        ensures range { IfOk result IsGap }
        ensures rigid { IfOk result (λ gap. version ≤ 2 → IsRigid gap) }
    {
        let value = self.due(key)?;
        self.told(key, as_gap(version, value))
    }

    #[tactic(auto, unfolding(crate::specs::Keys::keyed))]
    pub fn first(&self, key: &'t str) -> Result<First, Fault<'t>>
        ensures { Tells (λ first. first) result (keyed self.now.table_name key.now first_of
            (table_view self.now.table.now)) }
    {
        let value = self.due(key)?;
        self.told(key, as_first(value))
    }

    #[tactic(auto, unfolding(crate::specs::Keys::keyed))]
    pub fn sort(&self, key: &'t str) -> Result<Sort, Fault<'t>>
        ensures { Tells (λ sort. sort) result (keyed self.now.table_name key.now sort_of (table_view self.now.table.now)) }
    {
        let value = self.due(key)?;
        self.told(key, as_sort(value))
    }

    #[tactic(auto, unfolding(crate::specs::Keys::keyed))]
    pub fn area(&self, key: &'t str) -> Result<Area, Fault<'t>>
        ensures { Tells (λ area. area) result (keyed self.now.table_name key.now area_of (table_view self.now.table.now)) }
    {
        let value = self.due(key)?;
        self.told(key, as_area(value))
    }

    #[tactic(auto, unfolding(crate::specs::Keys::keyed))]
    pub fn distance(&self, alloc: Global, key: &'t str) -> Result<Distance, Fault<'t>>
        ensures value { Tells (λ distance. distance) result (keyed self.now.table_name key.now distance_of
            (table_view self.now.table.now)) }
        ensures range { IfOk result IsDistance }
    {
        let value = self.due(key)?;
        match as_distance(alloc, value) {
            Ok(distance) => Ok(distance),
            Err(kind) => Err(self.fault(kind, key)),
        }
    }

    #[tactic(auto, unfolding(crate::specs::Keys::keyed))]
    pub fn table(&self, key: &'t str) -> Result<&'t Table, Fault<'t>>
        ensures { Tells (λ table. table_view table.now) result (keyed self.now.table_name key.now table_of
            (table_view self.now.table.now)) }
    {
        let value = self.due(key)?;
        match as_table(value) {
            Ok(table) => Ok(table),
            Err(kind) => Err(self.fault(kind, key)),
        }
    }

    #[tactic(auto, unfolding(crate::specs::Keys::keyed))]
    pub fn tables(&self, key: &'t str) -> Result<Tables<'t>, Fault<'t>>
        ensures { Tells (λ tables. tables_in tables.values.now) result (keyed self.now.table_name key.now tables_of
            (table_view self.now.table.now)) }
    {
        let value = self.due(key)?;
        match as_tables(value) {
            Ok(tables) => Ok(tables),
            Err(kind) => Err(self.fault(kind, key)),
        }
    }

    /// An array of tables that may be missing, which is then empty.
    #[tactic(auto, unfolding(crate::specs::Keys::tables_if_any))]
    pub fn tables_if_any(&self, key: &'t str) -> Result<Tables<'t>, Fault<'t>>
        ensures { Tells (λ tables. tables_in tables.values.now) result (tables_if_any self.now.table_name key.now
            (table_view self.now.table.now)) }
    {
        if self.has(key) {
            self.tables(key)
        } else {
            Ok(Tables::none())
        }
    }
}

/// The largest scaled number of a style, in scaled points.
pub const MAX_DIMENSION: i32 = (1 << 30) - 1;

/// The most demerits that a style gives.
pub const MAX_DEMERITS: u32 = 100_000_000;
