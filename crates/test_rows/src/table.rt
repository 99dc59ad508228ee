//! A table, written again with what came of its calls.
use crate::call::{Program, told_of};
use crate::setting::set_world;
use crate::world::World;
use pg_outside::Shelf;
use std::alloc::{AllocError, Global};

/// What is written so far, and what came of the last call where that is not written yet.
#[derive(Drop)]
struct Told {
    text: Vec<u8>,
    last: Vec<u8>,
}

impl Told {
    // Adds a line of the table.
    fn line(&mut self, line: &str) -> Result<(), AllocError> {
        self.text.extend_from_slice(line.as_bytes())?;
        self.text.push(b'\n')?;
        Ok(())
    }

    // Adds what came of the last call, if that is not done.
    fn end(&mut self) -> Result<(), AllocError> {
        self.text.extend_from_slice(&self.last)?;
        self.last.clear();
        Ok(())
    }
}

// Adds a call; where the one before left the same, that is not written twice.
fn tell_call(
    alloc: Global,
    program: Program,
    line: &str,
    words: &str,
    world: &mut World,
    told: &mut Told,
) -> Result<(), AllocError> {
    let now = told_of(alloc, program, words, world)?;
    if now != told.last {
        told.end()?;
    }
    told.last = now;
    told.line(line)
}

// Adds a line that is no call, with a `?` behind it where it is no line of a table.
fn tell_setting<H: Shelf>(
    alloc: Global,
    line: &str,
    shelf: &mut H,
    world: &mut World,
    told: &mut Told,
) -> Result<(), AllocError> {
    told.end()?;
    told.line(line)?;
    if !set_world(alloc, line, shelf, world)? {
        told.line("?")?;
    }
    Ok(())
}

fn tell_line<H: Shelf>(
    alloc: Global,
    line: &str,
    shelf: &mut H,
    world: &mut World,
    told: &mut Told,
) -> Result<(), AllocError> {
    match line.split_once(' ').unwrap_or((line, "")) {
        ("pg", words) => tell_call(alloc, Program::Pg, line, words, world, told),
        ("pg_tell", words) => tell_call(alloc, Program::PgTell, line, words, world, told),
        _ => tell_setting(alloc, line, shelf, world, told),
    }
}

/// The lines of a table, and behind its calls what came of them. The shelf has the files that its lines name.
pub fn tell_table<H: Shelf>(
    alloc: Global,
    table: &str,
    shelf: &mut H,
) -> Result<Vec<u8>, AllocError> {
    let mut world = World::new(alloc);
    let mut told = Told {
        text: Vec::new(alloc),
        last: Vec::new(alloc),
    };
    for line in table.lines() {
        tell_line(alloc, line, shelf, &mut world, &mut told)?;
    }
    told.end()?;
    Ok(told.text)
}
