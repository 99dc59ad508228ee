//! What ends a run.
ghost use Rattle.std.specs.Prelude.{◌≡◌};
ghost use Rattle.pg_command.specs.Lines.{status_of};

use crate::status::Status;
use law_check::No;
use law_lines::LineFault;
use pg_edits::{EditFault, ScriptFault};
use pg_greedy::GreedyFault;
use pg_showbox::ListFault;
use pg_stylefile::StyleFault;

/// What ended a run, with the name of the file where one is at fault.
#[derive(Drop)]
pub enum Ending<'a> {
    /// All that was asked for is written.
    Done,
    /// The galley has no legal pagination.
    NoLegal,
    /// The words are no command.
    Usage,
    /// The file has more bytes than it may have.
    TooLong(&'a str),
    /// The file is no galley.
    BadList(&'a str, ListFault),
    /// The file is no style.
    BadStyle(&'a str, StyleFault),
    /// The style does not have this class of an insert.
    UnknownClass(u8),
    /// The galley has so many floats, which are more than are allowed.
    TooManyFloats(u32),
    /// The file is no edit script.
    BadScript(&'a str, ScriptFault),
    /// The step of a script with this number, of all its steps counted from 1, is an edit that is refused.
    BadEdit(u64, EditFault),
    /// The lines of the file up to this one begin no output text, or it ends in front of it.
    BadOutput(&'a str, u32),
    /// The paragraphs of the file make no galley.
    BadParagraph(&'a str, LineFault),
    /// The galley has no first fit under the style.
    NoFirstFit(GreedyFault),
    /// The file cannot be read.
    Unread(&'a str),
    /// The output failed.
    WriteFault,
    /// Memory ran out.
    Memory,
    /// An output text fails a test of its check.
    NotProved(No),
}

impl<'a> Ending<'a> {
    /// How the program ends with it.
    pub fn status(&self) -> Status
        ensures { result ≡ status_of self.now }
    {
        match self {
            Ending::Done => Status::Done,
            Ending::NoLegal => Status::NoLegal,
            Ending::Usage => Status::Usage,
            Ending::TooLong(_)
            | Ending::BadList(..)
            | Ending::BadStyle(..)
            | Ending::UnknownClass(_)
            | Ending::TooManyFloats(_)
            | Ending::BadScript(..)
            | Ending::BadEdit(..)
            | Ending::BadOutput(..)
            | Ending::BadParagraph(..)
            | Ending::NoFirstFit(_) => Status::Refused,
            Ending::Unread(_) => Status::ReadFault,
            Ending::WriteFault => Status::WriteFault,
            Ending::Memory => Status::Memory,
            Ending::NotProved(_) => Status::NotProved,
        }
    }
}
