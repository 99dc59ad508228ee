//! The keys that a table names.
ghost use Rattle.std.specs.Prelude.{◌≡◌, List, ℕ, map, IfNone, IfSome};
ghost use Rattle.std.specs.Option.{option_copied};
ghost use Rattle.toml.specs.View.{table_view};
ghost use Rattle.pg_stylefile.specs.Names.{names_of, is_named, keys_in, least_unnamed};

use crate::fault::TableName;
use toml::Table;

impl TableName {
    /// The keys that a table of this place names.
    #[tactic(auto, unfolding(crate::specs::Names::names_of))]
    pub fn names(self) -> &'static [&'static str]
        ensures { map (λ name. name.now) result.now ≡ names_of self }
    {
        match self {
            TableName::Root => &[
                "version",
                "columns",
                "first",
                "height",
                "topskip",
                "maxdepth",
                "min_text",
                "tolerance",
                "line",
                "max_looseness",
                "fitness",
                "ragged",
                "runs",
                "top",
                "bottom",
                "wide",
                "float_column",
                "classes",
            ],
            TableName::Top | TableName::Bottom | TableName::Wide => &["count", "sep", "gap"],
            TableName::FloatColumn => &["count", "demerits"],
            TableName::Run { .. } => &["extra", "demerits"],
            TableName::Class { .. } => &["number", "kind", "skip", "limit", "area", "distance"],
        }
    }
}

fn has_name(names: &[&str], key: &str) -> bool
    ensures { result ≡ is_named (map (λ name. name.now) names.now) key.now }
{
    names.contains(&key)
}

/// The least key of a table by bytes that is not among the names.
pub fn first_unnamed<'t>(names: &[&str], table: &'t Table) -> Option<&'t str>
    ensures { option_copied result ≡ least_unnamed (map (λ name. name.now) names.now) (keys_in (table_view table.now)) }
{
    for key in table.keys() {
        if !has_name(names, key.as_str()) {
            return Some(key.as_str());
        }
    }
    None
}
