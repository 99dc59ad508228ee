//! Where in a file a fault stands: the line of a number, the line of a style's key, and the line at which a text stops
//! being TOML.
//!
//! Proved: a line is the one that the reader of galleys took under that number, joined lines joined; the line that is
//! told for a key begins with the key, with its table, or is the head of a table. The definitions are in `specs/Spots`.
#![tactic(auto)]

mod key;
mod line;
mod toml_line;

pub use key::{Spot, key_line, spot_of};
pub use line::line_text;
pub use toml_line::{TomlFault, toml_fault};
