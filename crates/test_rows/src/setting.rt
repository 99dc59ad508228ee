//! What the lines of a table say of files and of what fails.
use crate::world::World;
use pg_outside::Shelf;
use std::alloc::{AllocError, Global};
use test_files::{changed_by, fetch_file, lines_of};

/// The most bytes of a file of line feeds, and the most room.
const MOST_BYTES: usize = 268435456;

/// The most times that lines are repeated.
const MOST_TIMES: u32 = 65536;

// A file in short letters: `g RBGB`.
fn put_lines(alloc: Global, row: &str, world: &mut World) -> Result<bool, AllocError> {
    let Some((name, short)) = row.split_once(' ') else {
        return Ok(false);
    };
    let text = lines_of(alloc, short)?;
    world.put(alloc, name, text)?;
    Ok(true)
}

// A file in short letters, of which those behind a bar come so many times: `g 9 RB|GB`.
fn put_many(alloc: Global, row: &str, world: &mut World) -> Result<bool, AllocError> {
    let Some((name, rest)) = row.split_once(' ') else {
        return Ok(false);
    };
    let Some((count, short)) = rest.split_once(' ') else {
        return Ok(false);
    };
    let Some((first, again)) = short.split_once('|') else {
        return Ok(false);
    };
    let Ok(count) = count.parse::<u32>() else {
        return Ok(false);
    };
    if count > MOST_TIMES {
        return Ok(false);
    }
    let mut text = lines_of(alloc, first)?;
    let again = lines_of(alloc, again)?;
    for _ in 0..count {
        text.extend_from_slice(&again)?;
    }
    world.put(alloc, name, text)?;
    Ok(true)
}

// The room for what is written: `1000`.
fn set_room(row: &str, world: &mut World) -> bool {
    match row.parse::<usize>() {
        Ok(room) if room <= MOST_BYTES => {
            world.room = room;
            true
        }
        _ => false,
    }
}

// A file of so many line feeds: `g 10`.
fn put_bytes(alloc: Global, row: &str, world: &mut World) -> Result<bool, AllocError> {
    let Some((name, count)) = row.split_once(' ') else {
        return Ok(false);
    };
    let Ok(count) = count.parse::<usize>() else {
        return Ok(false);
    };
    if count > MOST_BYTES {
        return Ok(false);
    }
    let text = vec![in alloc; b'\n'; count]?;
    world.put(alloc, name, text)?;
    Ok(true)
}

// A text with the changes of a line, if there are any.
fn text_by(alloc: Global, text: &str, changes: &str) -> Result<Option<String>, AllocError> {
    if changes.is_empty() {
        return Ok(Some(String::from_str(alloc, text)?));
    }
    changed_by(alloc, text, changes)
}

// A file with the text of another and with changes: `s plain.toml columns = 1>columns = 2`.
fn put_file<H: Shelf>(
    alloc: Global,
    row: &str,
    shelf: &mut H,
    world: &mut World,
) -> Result<bool, AllocError> {
    let Some((name, rest)) = row.split_once(' ') else {
        return Ok(false);
    };
    let (from, changes) = rest.split_once(' ').unwrap_or((rest, ""));
    let Ok(bytes) = fetch_file(alloc, from, shelf) else {
        return Ok(false);
    };
    let Ok(text) = str::from_utf8(&bytes) else {
        return Ok(false);
    };
    let Some(text) = text_by(alloc, text, changes)? else {
        return Ok(false);
    };
    world.put(alloc, name, text.into_bytes())?;
    Ok(true)
}

// The fetch of this number fails: `1 fails`.
fn fail_fetch(row: &str, world: &mut World) -> Result<bool, AllocError> {
    let Some((number, "")) = row.split_once(" fails") else {
        return Ok(false);
    };
    let Ok(number) = number.parse::<u64>() else {
        return Ok(false);
    };
    world.fetches.push(number)?;
    Ok(true)
}

// The number of a write, and how many bytes it takes: `1 fails after 7`.
fn failing(row: &str) -> Option<(u64, u64)> {
    let (number, taken) = row.split_once(" fails after ")?;
    let number = number.parse::<u64>().ok()?;
    let taken = taken.parse::<u64>().ok()?;
    Some((number, taken))
}

fn fail_write(row: &str, fails: &mut Vec<(u64, u64)>) -> Result<bool, AllocError> {
    let Some(write) = failing(row) else {
        return Ok(false);
    };
    fails.push(write)?;
    Ok(true)
}

/// Does what a line of a table says of files and of what fails, and answers whether it is such a line.
pub fn set_world<H: Shelf>(
    alloc: Global,
    line: &str,
    shelf: &mut H,
    world: &mut World,
) -> Result<bool, AllocError> {
    let (word, row) = line.split_once(' ').unwrap_or((line, ""));
    match word {
        "=" => {
            *world = World::new(alloc);
            Ok(true)
        }
        "lines" => put_lines(alloc, row, world),
        "many" => put_many(alloc, row, world),
        "room" => Ok(set_room(row, world)),
        "file" => put_file(alloc, row, shelf, world),
        "bytes" => put_bytes(alloc, row, world),
        "fetch" => fail_fetch(row, world),
        "write" => fail_write(row, &mut world.writes),
        "say" => fail_write(row, &mut world.says),
        _ => Ok(word.is_empty() || word == "#"),
    }
}
