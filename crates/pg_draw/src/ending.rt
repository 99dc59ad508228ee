//! How the program ends.
ghost use Rattle.std.specs.Prelude.{◌≡◌, ◌++◌, codes, decimal, IfOk};
ghost use Rattle.pg_draw.specs.Lines.{exit_number, line_of, named, status_of};

use pg_words::print_decimal;
use std::alloc::{AllocError, Global};

/// What is said where the words ask for nothing that is done.
const USAGE: &str = "usage: pg_draw [--style STYLE] [--other OUTPUT] [-o FILE] OUTPUT\n";

/// What `--version` writes.
pub const VERSION: &str = "pg_draw 1.0\n";

/// What `--help` writes.
pub const HELP: &str =
    "usage: pg_draw [--style STYLE] [--other OUTPUT] [-o FILE] OUTPUT\n\nDraws what `pg run` writes as one page of HTML.\n\n  --style STYLE   tells what the classes of inserts are, and how long pages are\n  --other OUTPUT  draws another text beside it, the pages that differ first\n  -o FILE         writes the page to a file, and not to standard output\n  --help          writes this\n  --version       writes the version\n";

/// How the program ends.
#[derive(Clone, Copy)]
pub enum Status {
    /// The page is written.
    Done,
    /// The words ask for nothing that is done.
    Usage,
    /// A file is too long, or no output text, or no style.
    Refused,
    /// A file cannot be read.
    ReadFault,
    /// The output failed.
    WriteFault,
    /// Memory ran out.
    Memory,
}

impl Status {
    /// The exit number of the program.
    pub fn number(self) -> u8
        ensures { result ≡ exit_number self }
    {
        match self {
            Status::Done => 0,
            Status::Usage => 2,
            Status::Refused => 3,
            Status::ReadFault => 4,
            Status::WriteFault => 5,
            Status::Memory => 6,
        }
    }
}

/// What ended the program, with the name of the file where one is at fault.
#[derive(Clone, Copy)]
pub enum Ending<'a> {
    /// The page is written.
    Done,
    /// The words ask for nothing that is done.
    Usage,
    /// The file has more bytes than it may have.
    TooLong(&'a str),
    /// The lines of the file up to this one begin no output text, or it ends in front of it.
    BadOutput(&'a str, u32),
    /// The file is no style, by the fault of this number.
    BadStyle(&'a str, u8),
    /// The file cannot be read.
    Unread(&'a str),
    /// The output failed.
    WriteFault,
    /// Memory ran out.
    Memory,
}

impl<'a> Ending<'a> {
    /// How the program ends with it.
    pub fn status(&self) -> Status
        ensures { result ≡ status_of self.now }
    {
        match self {
            Ending::Done => Status::Done,
            Ending::Usage => Status::Usage,
            Ending::TooLong(_) | Ending::BadOutput(..) | Ending::BadStyle(..) => Status::Refused,
            Ending::Unread(_) => Status::ReadFault,
            Ending::WriteFault => Status::WriteFault,
            Ending::Memory => Status::Memory,
        }
    }

    /// Its line for the user, which is empty where all is well.
    pub fn line(&self, alloc: Global) -> Result<Vec<u8>, AllocError>
        ensures { IfOk result (λ line. line.items ≡ line_of self.now) }
    {
        match self {
            Ending::Done => Ok(Vec::new(alloc)),
            Ending::Usage => Vec::from_slice(alloc, USAGE.as_bytes()),
            Ending::TooLong(name) => file_line(alloc, name, ": longer than 67108864 bytes\n"),
            Ending::BadOutput(name, line) => text_line(alloc, name, *line),
            Ending::BadStyle(name, fault) => style_line(alloc, name, *fault),
            Ending::Unread(name) => file_line(alloc, name, ": cannot be read\n"),
            Ending::WriteFault => Vec::from_slice(alloc, b"pg_draw: output failed\n"),
            Ending::Memory => Vec::from_slice(alloc, b"pg_draw: out of memory\n"),
        }
    }
}

// What stands in front of each line about a file.
fn file_named(alloc: Global, name: &str) -> Result<Vec<u8>, AllocError>
    ensures { IfOk result (λ line. line.items ≡ named name.now) }
{
    let mut line = Vec::from_slice(alloc, b"pg_draw: ")?;
    line.extend_from_slice(name.as_bytes())?;
    Ok(line)
}

// The line about a file.
fn file_line(alloc: Global, name: &str, fault: &str) -> Result<Vec<u8>, AllocError>
    ensures { IfOk result (λ line. line.items ≡ named name.now ++ fault.now) }
{
    let mut line = file_named(alloc, name)?;
    line.extend_from_slice(fault.as_bytes())?;
    Ok(line)
}

// The line about a number in a file, between two texts.
fn number_line(
    alloc: Global,
    name: &str,
    front: &str,
    number: u128,
    end: &str,
) -> Result<Vec<u8>, AllocError>
    ensures { IfOk result (λ line. line.items ≡ ((named name.now ++ front.now) ++ decimal number) ++ end.now) }
{
    let mut line = file_line(alloc, name, front)?;
    print_decimal(number, &mut line)?;
    line.extend_from_slice(end.as_bytes())?;
    Ok(line)
}

// The line about a line of a file.
fn text_line(alloc: Global, name: &str, number: u32) -> Result<Vec<u8>, AllocError>
    ensures { IfOk result (λ line. line.items ≡ ((named name.now ++ codes ": line ") ++ decimal number)
        ++ codes ": not an output text\n") }
{
    number_line(
        alloc,
        name,
        ": line ",
        u128::from(number),
        ": not an output text\n",
    )
}

// The line about a style.
fn style_line(alloc: Global, name: &str, fault: u8) -> Result<Vec<u8>, AllocError>
    ensures { IfOk result (λ line. line.items ≡ ((named name.now ++ codes ": style fault ") ++ decimal fault)
        ++ codes ", whose key pg run tells\n") }
{
    number_line(
        alloc,
        name,
        ": style fault ",
        u128::from(fault),
        ", whose key pg run tells\n",
    )
}
