//! What each key of a style takes.

/// A key of a table: of the root where there is no table, of `top`, `bottom` and `wide` in `area`.
#[derive(Clone, Copy)]
pub struct Key {
    pub table: &'static str,
    pub key: &'static str,
    pub value: &'static str,
}

/// All keys, table by table.
pub const KEYS: [Key; 31] = [
    Key {
        table: "",
        key: "version",
        value: "1 to 3",
    },
    Key {
        table: "",
        key: "columns",
        value: "1 or 2",
    },
    Key {
        table: "",
        key: "first",
        value: "`\"left\"`, `\"right\"` or `\"single\"`",
    },
    Key {
        table: "",
        key: "height",
        value: "dimension, above 0",
    },
    Key {
        table: "",
        key: "topskip",
        value: "dimension, not negative",
    },
    Key {
        table: "",
        key: "maxdepth",
        value: "dimension, not negative",
    },
    Key {
        table: "",
        key: "min_text",
        value: "dimension, not negative",
    },
    Key {
        table: "",
        key: "tolerance",
        value: "0 to 10000",
    },
    Key {
        table: "",
        key: "line",
        value: "0 to 10000",
    },
    Key {
        table: "",
        key: "max_looseness",
        value: "0 to 100",
    },
    Key {
        table: "",
        key: "fitness",
        value: "from version 2 on: demerits",
    },
    Key {
        table: "",
        key: "ragged",
        value: "version 3 alone: dimension, above 0; may be missing",
    },
    Key {
        table: "",
        key: "runs",
        value: "array of 1 to 5 tables",
    },
    Key {
        table: "",
        key: "top",
        value: "tables",
    },
    Key {
        table: "",
        key: "bottom",
        value: "tables",
    },
    Key {
        table: "",
        key: "wide",
        value: "tables",
    },
    Key {
        table: "",
        key: "float_column",
        value: "table",
    },
    Key {
        table: "",
        key: "classes",
        value: "array of up to 4 tables, 8 from version 2 on; may be missing",
    },
    Key {
        table: "runs",
        key: "extra",
        value: "dimension",
    },
    Key {
        table: "runs",
        key: "demerits",
        value: "demerits",
    },
    Key {
        table: "area",
        key: "count",
        value: "0 to 4",
    },
    Key {
        table: "area",
        key: "sep",
        value: "gap, as `\"12.0\"` or, in version 3, `\"12.0 plus 1.0 minus 1.0\"`",
    },
    Key {
        table: "area",
        key: "gap",
        value: "gap, as `\"12.0\"` or, in version 3, `\"12.0 plus 1.0 minus 1.0\"`",
    },
    Key {
        table: "float_column",
        key: "count",
        value: "0 to 4",
    },
    Key {
        table: "float_column",
        key: "demerits",
        value: "1 to 100000000",
    },
    Key {
        table: "classes",
        key: "number",
        value: "0 to 254, each once",
    },
    Key {
        table: "classes",
        key: "kind",
        value: "`\"note\"` or `\"float\"`",
    },
    Key {
        table: "classes",
        key: "skip",
        value: "gap, as `\"12.0\"` or, in version 3, `\"12.0 plus 1.0 minus 1.0\"`",
    },
    Key {
        table: "classes",
        key: "limit",
        value: "dimension, not negative",
    },
    Key {
        table: "classes",
        key: "area",
        value: "`\"top\"`, `\"bottom\"`, `\"both\"` or `\"wide\"`",
    },
    Key {
        table: "classes",
        key: "distance",
        value: "array of 1 to 9 whole numbers, demerits, none below the one before",
    },
];

// The table of a key whose path begins so.
fn table_at(path: &[u8]) -> &'static str {
    if path.starts_with(b"runs[") {
        "runs"
    } else if path.starts_with(b"classes[") {
        "classes"
    } else if path.starts_with(b"float_column.") {
        "float_column"
    } else if path.starts_with(b"top.")
        || path.starts_with(b"bottom.")
        || path.starts_with(b"wide.")
    {
        "area"
    } else {
        ""
    }
}

// The key at the end of a path.
fn key_at(path: &[u8]) -> &[u8] {
    match path.iter().rposition(|byte| *byte == b'.') {
        Some(at) => path.get(at.saturating_add(1)..).unwrap_or(path),
        None => path,
    }
}

/// What the key of this path takes, as `runs[0].extra`.
pub fn value_at(path: &[u8]) -> Option<&'static str> {
    let table = table_at(path);
    let name = key_at(path);
    for key in &KEYS {
        if key.table == table && key.key.as_bytes() == name {
            return Some(key.value);
        }
    }
    None
}
