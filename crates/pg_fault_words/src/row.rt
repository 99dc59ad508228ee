//! Rows of tables.

/// A kind of fault: its number, what it is, and what to do about it.
#[derive(Clone, Copy)]
pub struct Row {
    pub number: u8,
    pub cause: &'static str,
    pub act: &'static str,
}

/// A line without a kind: when it comes, and what to do.
#[derive(Clone, Copy)]
pub struct Remark {
    pub line: &'static str,
    pub cause: &'static str,
    pub act: &'static str,
}
