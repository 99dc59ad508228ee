//! The line of `pg` for an ending, as bytes.
ghost use Rattle.std.specs.Prelude.{◌≡◌, ◌≤◌, ◌-◌, length, take, OnErr, OnOk, IfOk, Some};
ghost use Rattle.std.specs.Io.KnownBytes.{Appends};
ghost use Rattle.pg_command.specs.Lines.{line_of};
ghost use Rattle.pg_outside.specs.Outside.{AppendsFront, Rose, next_number};
ghost use Rattle.pg_tell.specs.Lines.{inner as inner_of, said_of};

use pg_command::{Ending, say_line};
use pg_outside::{Sink, WriteFailed};
use std::alloc::{AllocError, Global};

/// A sink that keeps what it takes.
#[derive(Drop)]
struct LineSink {
    line: Vec<u8>,
    faults: u64,
    writes: u64,
}

impl Sink for LineSink {
    ghost written = { λ s. Some s.line.items };

    ghost faults = { λ s. s.faults };

    ghost writes = { λ s. s.writes };

    fn write(&mut self, bytes: &[u8]) -> Result<(), WriteFailed>
        ensures all { OnOk result (Appends (Some self.old.line.items) (Some self.new.line.items) bytes.now) }
        ensures front { OnErr result (AppendsFront (Some self.old.line.items) (Some self.new.line.items) bytes.now) }
        ensures cause { OnErr result (Rose self.old.faults self.new.faults) }
        ensures later { self.old.faults ≤ self.new.faults }
        ensures writes { self.new.writes ≡ next_number self.old.writes }
    {
        self.writes = self.writes.saturating_add(1);
        match self.line.extend_from_slice(bytes) {
            Ok(()) => Ok(()),
            Err(_) => {
                self.faults = self.faults.saturating_add(1);
                Err(WriteFailed)
            }
        }
    }
}

// The line of an ending.
#[tactic(auto, using(crate::proofs::Sayings::whole_line))]
fn line_text(alloc: Global, ending: &Ending<'_>) -> Result<Vec<u8>, AllocError>
    ensures { IfOk result (λ line. line.items ≡ line_of ending.now) }
{
    let mut sink = LineSink {
        line: Vec::new(alloc),
        faults: 0,
        writes: 0,
    };
    say_line(ending, &mut sink);
    if sink.faults == 0 {
        Ok(sink.line)
    } else {
        Err(AllocError)
    }
}

// A text without its last byte.
fn without_last(text: &[u8]) -> &[u8]
    ensures { result.now ≡ take (length text.now - 1) text.now }
{
    match text {
        [before @ .., _] => before,
        [] => text,
    }
}

// A line without the name of `pg` in front and without its line feed.
fn inner(line: &[u8]) -> &[u8]
    ensures { result.now ≡ inner_of line.now }
{
    match line {
        [_, _, _, _, rest @ ..] => without_last(rest),
        _ => b"",
    }
}

/// The line of an ending, without the name of `pg` in front and without its line feed.
pub fn said_text(alloc: Global, ending: &Ending<'_>) -> Result<Vec<u8>, AllocError>
    ensures { IfOk result (λ said. said.items ≡ said_of ending.now) }
{
    let line = line_text(alloc, ending)?;
    Vec::from_slice(alloc, inner(&line))
}
