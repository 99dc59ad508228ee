//! A call of the program over memory, and what came of it.
ghost use Rattle.std.specs.Prelude.{◌≡◌};

use crate::world::World;
use pg_outside::{MemShelf, MemSink};
use pg_table::Steps;
use pg_top::Status;
use std::alloc::{AllocError, Global};
use std::marker::Brand;
use std::sync::ledger::{Blank, Ledger};

/// The most lines of a text that are told.
const MOST_LINES: usize = 60;

// The words of a line, between its blanks; of an empty line none.
fn words_of(alloc: Global, line: &str) -> Result<Vec<String>, AllocError> {
    let mut words = Vec::new(alloc);
    if line.is_empty() {
        return Ok(words);
    }
    for word in line.split(' ') {
        let word = if word == "\"\"" { "" } else { word };
        words.push(String::from_str(alloc, word)?)?;
    }
    Ok(words)
}

/// Which program is called.
#[derive(Clone, Copy)]
pub enum Program {
    Pg,
    PgTell,
}

fn over_memory<L: Ledger>(
    alloc: Global,
    program: Program,
    words: &Vec<String>,
    shelf: &mut MemShelf,
    out: &mut MemSink,
    say: &mut MemSink,
    blank: Blank,
) -> Status
    requires name { blank.name ≡ L.name }
    requires parts { blank.parts ≡ L.parts }
    requires one { blank.parts ≡ 1 }
{
    let mut steps = Steps::<L>::new(blank);
    match program {
        Program::Pg => pg_top::serve(alloc, words, shelf, out, say, &mut steps),
        Program::PgTell => pg_tell::serve(alloc, words, shelf, out, say, &mut steps),
    }
}

// Adds a line behind a mark, and `\` where no line feed ends it.
fn tell_marked(mark: u8, line: &[u8], told: &mut Vec<u8>) -> Result<(), AllocError> {
    told.push(mark)?;
    told.extend_from_slice(line)?;
    if !line.ends_with(b"\n") {
        told.extend_from_slice(b"\\\n")?;
    }
    Ok(())
}

// Adds the lines of a text behind a mark; of a long text the first lines, and how long it is.
fn tell_text(alloc: Global, mark: u8, text: &[u8], told: &mut Vec<u8>) -> Result<(), AllocError> {
    for line in text.split_inclusive(|byte| *byte == b'\n').take(MOST_LINES) {
        tell_marked(mark, line, told)?;
    }
    let count = text.split_inclusive(|byte| *byte == b'\n').count();
    if count > MOST_LINES {
        let bytes = text.len();
        let rest = format!(in alloc; ".. {count} lines, {bytes} bytes in all\n")?;
        tell_marked(mark, rest.as_bytes(), told)?;
    }
    Ok(())
}

// How often a text is repeated to make another one; None where that has anything else.
fn times_in(one: &[u8], all: &[u8]) -> Option<usize> {
    if one.is_empty() {
        return None;
    }
    let times = all.len() / one.len();
    let mut rest = all;
    for _ in 0..times {
        rest = rest.strip_prefix(one)?;
    }
    if rest.is_empty() && times > 1 {
        Some(times)
    } else {
        None
    }
}

// Adds the lines of what a call wrote, or how often it is what the call before wrote.
fn tell_written(
    alloc: Global,
    text: &[u8],
    before: &[u8],
    told: &mut Vec<u8>,
) -> Result<(), AllocError> {
    match times_in(before, text) {
        None => tell_text(alloc, b'|', text, told),
        Some(times) => {
            let line = format!(in alloc; "{times} times what the call before wrote\n")?;
            tell_marked(b'|', line.as_bytes(), told)
        }
    }
}

// The name of a status.
fn name_of(status: Status) -> &'static str {
    match status {
        Status::Done => "Done",
        Status::NoLegal => "NoLegal",
        Status::Usage => "Usage",
        Status::Refused => "Refused",
        Status::ReadFault => "ReadFault",
        Status::WriteFault => "WriteFault",
        Status::Memory => "Memory",
        Status::NotProved => "NotProved",
    }
}

/// What comes of a call with these words: its status, and the lines that were written and said. The world keeps what was
/// written.
pub fn told_of(
    alloc: Global,
    program: Program,
    line: &str,
    world: &mut World,
) -> Result<Vec<u8>, AllocError> {
    let words = words_of(alloc, line)?;
    let mut shelf = world.shelf(alloc)?;
    let mut out = world.out(alloc)?;
    let mut say = world.say(alloc)?;
    let status = over_memory::<Brand>(
        alloc,
        program,
        &words,
        &mut shelf,
        &mut out,
        &mut say,
        Blank::new(1),
    );
    let number = status.number();
    let name = name_of(status);
    let head = format!(in alloc; "status {number} {name}\n")?;
    let mut told = head.into_bytes();
    tell_written(alloc, out.bytes(), &world.written, &mut told)?;
    tell_text(alloc, b'!', say.bytes(), &mut told)?;
    world.written = out.bytes().to_vec(alloc)?;
    Ok(told)
}
