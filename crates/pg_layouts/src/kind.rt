//! What stands in a column.

/// A column of text with floats above and below it, or a column of floats without text.
#[derive(Clone, Copy, PartialEq, Eq)]
pub enum ColumnKind {
    Text,
    Floats,
}
