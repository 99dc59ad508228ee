//! Edit scripts: the steps of a text that changes a galley and shows it, and why an edit of a galley is refused.
//!
//! Proved: `read_script` answers exactly the steps that the text says, or its first fault with its line and kind. The
//! definitions are functions of the list of lines: `specs/Instructions` tells what a line without a point says,
//! `specs/Script` what it comes to with the item lines behind it and what all lines say, `specs/Kinds` which kinds of
//! faults there are; `proofs/WorkedScripts` computes them on texts.
#![tactic(auto)]

mod fault;
mod instruction;
mod items;
mod kinds;
mod read;
mod script;

pub use fault::EditFault;
pub use kinds::{ScriptFault, ScriptKind};
pub use read::read_script;
pub use script::{Script, ScriptStep};
