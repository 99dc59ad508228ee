//! Pieces of a text that is told, plain or as JSON.
//!
//! Proved: pieces put in what `specs/Pieces` says, and whatever a text of a file or words of the program hold, a string
//! of JSON around them ends where the quote behind them stands (`specs/Strings`). That texts of files go that way the
//! type of a piece says: only text of the program itself lives long enough to be taken as it is.
#![tactic(auto)]

mod laws;
mod letters;
mod piece;

pub use laws::texts_stay_within;
pub use letters::Form;
pub use piece::{Piece, print};
