//! The rules of areas, and of columns without text.
ghost use Rattle.std.specs.Prelude.{◌≡◌, ◌≤◌, IfOk};
ghost use Rattle.toml.specs.View.{table_view};
ghost use Rattle.pg_style.specs.Ranges.{IsAreaRule, IsColumnRule, IsRigidArea};
ghost use Rattle.pg_stylefile.specs.Faults.{Tells};
ghost use Rattle.pg_stylefile.specs.Tables.{area_rule_of, column_rule_of};

use crate::fault::{Fault, TableName};
use crate::keys::{Keys, MAX_DEMERITS};
use pg_style::{AreaRule, ColumnRule};
use toml::Table;

/// The rules of an area.
#[tactic(auto, unfolding(crate::specs::Tables::area_rule_of))]
pub fn read_area<'t>(
    version: u8,
    table_name: TableName,
    table: &'t Table,
) -> Result<AreaRule, Fault<'t>>
    ensures value { Tells (λ rule. rule) result (area_rule_of version table_name (table_view table.now)) }
    ensures range { IfOk result IsAreaRule }
    ensures rigid { IfOk result (λ rule. version ≤ 2 → IsRigidArea rule) }
{
    let keys = Keys { table_name, table };
    keys.named()?;
    let count = keys.whole("count", 0, 4)?;
    let sep = keys.gap(version, "sep")?;
    let gap = keys.gap(version, "gap")?;
    Ok(AreaRule {
        count: count as u8,
        sep,
        gap,
    })
}

/// The rules of a column without text.
#[tactic(auto, unfolding(crate::specs::Tables::column_rule_of))]
pub fn read_column<'t>(table: &'t Table) -> Result<ColumnRule, Fault<'t>>
    ensures value { Tells (λ rule. rule) result (column_rule_of (table_view table.now)) }
    ensures range { IfOk result IsColumnRule }
{
    let keys = Keys {
        table_name: TableName::FloatColumn,
        table,
    };
    keys.named()?;
    let count = keys.whole("count", 0, 4)?;
    let demerits = keys.whole("demerits", 1, MAX_DEMERITS)?;
    Ok(ColumnRule {
        count: count as u8,
        demerits,
    })
}
