//! Pages laid on sheets that are folded and put into each other, as they are printed for a book.
//!
//! Proved: folded as the definition says, which moves piles of faces, the sheets of `impose` are read from page 1 on,
//! each page once, with blanks behind the last; no other sheets with all their cells are read so; and what is printed is
//! the text of the definition. The definitions are
//! in `specs/Folding`, `specs/Laws` and `specs/SheetsText`; `specs/Imposed` says which page stands in which cell.
#![tactic(auto)]

mod face;
mod laws;
mod layout;
mod print;
mod sheets;

pub use laws::{folded_sheets_read, read_sheets_are_one};
pub use layout::impose;
pub use print::print_sheets;
pub use sheets::{Cells, Sheet, Sheets};
