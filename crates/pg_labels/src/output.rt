//! What an output text says.
use pg_list::Bytes;
use pg_plan::{LabelList, Pagination};

/// What a page text shows: a pagination with its cost, or that none is legal.
#[derive(Drop)]
pub enum Shown {
    Pages(Pagination, i128),
    NoLegal,
}

/// An output text: what its page text shows, that text with its line feeds, and the labels behind it.
#[derive(Drop)]
pub struct Output {
    pub shown: Shown,
    pub page_text: Bytes,
    pub labels: LabelList,
}

/// Why a text was not read.
#[derive(Clone, Copy, Drop, PartialEq, Eq)]
pub enum OutputFault {
    /// The lines up to this one begin no output text, or the text ends in front of it.
    BadText { line: u32 },
    /// Memory ran out.
    Memory,
}
