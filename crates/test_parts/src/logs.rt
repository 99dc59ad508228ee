//! Logs of TeX, printed and read back.
use crate::again::{Again, printed_again};
use crate::say::{say_word, unless_memory};
use pg_command::Ending;
use pg_list::Galley;
use pg_outside::Shelf;
use std::alloc::{AllocError, Global};
use test_files::open_galley;

// The line on a log.
fn line_of(alloc: Global, name: &str, again: &Again) -> Result<Vec<u8>, AllocError> {
    let mut out = name.as_bytes().to_vec(alloc)?;
    say_word(b": ", again.items as u64, &mut out)?;
    out.extend_from_slice(if again.is_same {
        b" items, reads back\n"
    } else {
        b" items, does not read back\n"
    })?;
    Ok(out)
}

fn said_of(alloc: Global, name: &str, galley: &Galley) -> Result<Vec<u8>, AllocError> {
    let again = printed_again(alloc, galley)?;
    line_of(alloc, name, &again)
}

/// The line on the log of this name, whose lines are joined at a width, or at none.
pub fn say_log<'a, H: Shelf>(
    alloc: Global,
    name: &'a str,
    wrap: &str,
    shelf: &mut H,
) -> Result<Vec<u8>, Ending<'a>> {
    let galley = open_galley(alloc, name, wrap.parse::<u32>().ok(), shelf)?;
    unless_memory(said_of(alloc, name, &galley))
}
