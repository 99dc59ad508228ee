//! Every refusal of `pg` in words, as data: what it is, or when it comes, and what to do; and what each key of a style
//! takes.
//!
//! Proved: the words of a kind are those of its number. The words themselves are held to the tables of `docs/input.md`
//! and `docs/output.md` by `bench/words`, which finds each row there and no other. A text between two backquotes is one
//! of TeX, of a file or of a command; whoever tells the words may leave the backquotes out.
#![tactic(auto)]

mod keys;
mod list;
mod other;
mod row;
mod script;
mod style;

pub use keys::{KEYS, Key, value_at};
pub use list::{LIST_ROWS, list_row};
pub use other::{
    LONG_GALLEY, LONG_STYLE, MANY_FLOATS, NO_OUTPUT, OTHERS, PARAGRAPHS, STRANGE_CLASS, UNREAD,
};
pub use row::{Remark, Row};
pub use script::{EDIT_ROWS, SCRIPT_ROWS};
pub use style::{STYLE_ROWS, style_row};
