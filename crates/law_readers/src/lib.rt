//! What the readers of lines say, in the words of their texts.
//!
//! Proved, above the definitions that go line by line:
//!
//! - Output texts: a fault at a whole line is a fault of every text that begins with the lines up to it, so that these
//!   lines begin no output text (`specs/FaultsStay`, `specs/Begins`); the lines in front of a fault begin one.
//! - Galleys (`specs/Galleys`): what is read of a file are the blocks of its listings. A listing is a root and the lines
//!   behind it, up to an empty one or the next root; its lines are those of its blocks, one behind the other, a choice
//!   stands between its markers, and the deeper lines of an item belong to its body. Lines outside of listings do not
//!   matter, and lines that were broken at a width are read as if they were whole (`specs/LinesRead`).
//! - Paragraphs (`specs/Paragraphs`): the same, where a paragraph is a root and the lines behind it up to an empty one.
//! - Scripts (`specs/Scripts`): the steps of a script are those of its parts, wherever it is cut in front of a line
//!   without a point; a fault of the second part stands as many lines further down as the first has.
//! - A fault of a galley or of paragraphs at some line is a fault of every file that begins with the lines up to it.
//!
//! There is no code here.
#![tactic(auto)]

mod laws;

pub use laws::{
    faults_of_outputs_stay, galleys_are_their_listings, outputs_begin_before_faults,
    paragraphs_are_their_items, scripts_are_their_parts,
};
