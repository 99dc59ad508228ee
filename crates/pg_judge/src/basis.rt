//! What columns are judged on, and the next column.
use pg_floats::FloatList;
use pg_list::Galley;
use pg_plan::{Column, Counts};
use pg_style::Style;

/// What columns are judged on: a galley, a style, and the list of its floats.
#[derive(Clone, Copy)]
pub struct Basis<'a> {
    pub galley: &'a Galley,
    pub style: &'a Style,
    pub list: &'a FloatList,
}

/// The next column, with its page's run and wide counts. In a page's second column the wide counts are zeros.
#[derive(Clone, Copy)]
pub struct NextColumn<'a> {
    pub column: &'a Column,
    pub run: u8,
    pub wide: &'a Counts,
}
