//! Arrays of tables.
ghost use Rattle.std.specs.Prelude.{◌≡◌, ◌<◌, [], length, is_ok, IsOk, Some, slice_get};
ghost use Rattle.toml.specs.View.{view, items_view, table_view};
ghost use Rattle.pg_stylefile.specs.Values.{Answers, each_table, tables_of, tables_in};

use crate::fault::StyleKind;
use toml::{Table, Value};

/// The elements of an array, each a table.
#[derive(Clone, Copy)]
pub struct Tables<'t> {
    pub values: &'t [Value],
    ghost each: { IsOk (each_table (items_view values.now)) },
}

fn are_tables(values: &[Value]) -> bool
    ensures { result ≡ is_ok (each_table (items_view values.now)) }
{
    for value in values {
        if !value.is_table() {
            return false;
        }
    }
    true
}

#[tactic(auto, using(crate::proofs::TableLemmas::no_tables, crate::proofs::TableLemmas::the_tables), unfolding(crate::specs::Values::tables_of))]
pub fn as_tables(value: &Value) -> Result<Tables<'_>, StyleKind>
    ensures { Answers (λ tables. tables_in tables.values.now) result (tables_of (view value.now)) }
{
    let Some(values) = value.as_array() else {
        return Err(StyleKind::WrongKind);
    };
    let values = values.as_slice();
    if are_tables(values) {
        Ok(Tables { values })
    } else {
        Err(StyleKind::WrongKind)
    }
}

// The element at a position, which is a table as each is.
fn element(values: &[Value], position: usize) -> &Table
    requires each { IsOk (each_table (items_view values.now)) }
    requires within { position < length values.now }
    ensures { slice_get (tables_in values.now) position ≡ Some (table_view result.now) }
{
    match values[position].as_table() {
        Some(table) => table,
        None => unreachable!(),
    }
}

impl<'t> Tables<'t> {
    /// No tables.
    pub fn none() -> Tables<'t>
        ensures { tables_in result.values.now ≡ [] }
    {
        Tables { values: &[] }
    }

    #[tactic(auto, using(crate::proofs::TableLemmas::tables_length))]
    pub fn len(&self) -> usize
        ensures { result ≡ length (tables_in self.now.values.now) }
    {
        self.values.len()
    }

    /// The table at a position.
    #[tactic(auto, using(crate::proofs::TableLemmas::tables_length))]
    pub fn at(&self, position: usize) -> &'t Table
        requires { position < length (tables_in self.now.values.now) }
        ensures { slice_get (tables_in self.now.values.now) position ≡ Some (table_view result.now) }
    {
        element(self.values, position)
    }
}
