//! The kinds of faults of a script.
ghost use Rattle.std.specs.Prelude.{◌≡◌};
ghost use Rattle.pg_edits.specs.Kinds.{script_number};

use pg_showbox::ListKind;

/// Why a text is no script. The numbers of the kinds are 1 to 5 in this order.
#[derive(Clone, Copy, PartialEq, Eq)]
pub enum ScriptKind {
    /// A line whose first word is none of the four, or an item line that follows no `insert` or `replace`.
    UnknownWord,
    /// A known first word with the wrong count of words, or with a word that is no number of 32 bits.
    BadNumber,
    /// An `insert` or a `replace` with no item line behind it.
    NoBlocks,
    /// The item lines are at fault, by a kind of a galley's text from 2 to 12.
    Blocks(ListKind),
    /// Memory ran out. The text has no part in it.
    Memory,
}

impl ScriptKind {
    /// The number that the program prints for the kind.
    pub fn number(self) -> u8
        ensures { result ≡ script_number self }
    {
        match self {
            ScriptKind::UnknownWord => 1,
            ScriptKind::BadNumber => 2,
            ScriptKind::NoBlocks => 3,
            ScriptKind::Blocks(_) => 4,
            ScriptKind::Memory => 5,
        }
    }
}

/// A fault, and the line that has it. Lines count from 1; a choice that the item lines leave open has its fault at the
/// line after them.
#[derive(Clone, Copy, PartialEq, Eq)]
pub struct ScriptFault {
    pub line: u32,
    pub kind: ScriptKind,
}
