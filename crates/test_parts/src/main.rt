//! Holds the readers and the parts of a column to what other programs say, and to what was worked out by hand:
//! `test_parts WHAT FILE WITH [WHAT FILE WITH]..`.
//!
//! | WHAT | FILE and WITH | What it writes |
//! |---|---|---|
//! | `style` | a style, and a file of changes or `-` | what is read of the style, and of each text that the changes make of it (`styles`) |
//! | `log` | a log of TeX, and the width at which its lines are joined or `-` | how many items its galley has, and whether what is printed of it reads back |
//! | `short` | a table of short texts, and `-` | of each text its fault, or what is printed of its galley (`short`) |
//! | `pages` | a galley, and its style | TeX's page builder, put together from the parts (`builder`), and first fit beside it |
//!
//! The stored run holds the reader of styles and that of galleys to the faults that their rules give, worked by hand. It
//! reads real logs, made by TeX Live 2022: a box that is so tall that TeX's own numbers wrapped around; a report of an
//! overfull box, which is a listing too, and a listing behind it; a listing of one level, in which leaders, boxes and an
//! insert end in the sign that something was cut; and listings with lines of exactly 79 bytes, behind which TeX wrote an
//! empty line. It holds pages to what TeX itself said of three documents under `\tracingpages`, break by break, and to
//! where TeX ended each page.
//!
//! What the parts of a column make of small cases stands in proofs/, as facts that the check computes: badness and set
//! widths (`Badness`, `Widths`), breaks (`Breaks`), columns (`Columns`), notes (`Notes`), floats (`Floats`) and the
//! courses of queues (`Queues`). They were worked by hand; 31 badnesses TeX told.
#![tactic(auto)]

mod again;
mod beside;
mod builder;
mod changes;
mod logs;
mod say;
mod short;
mod told;

use beside::say_pages;
use changes::say_styles;
use logs::say_log;
use pg_command::{Ending, Status};
use pg_outside::{FileShelf, Shelf, Sink, StreamSink};
use short::say_table;
use std::alloc::Global;
use std::process::ExitCode;
use test_files::{ended, exit_code, words_of};

// What is said of a file, and of another beside it.
fn said_of<'a, H: Shelf>(
    alloc: Global,
    what: &str,
    file: &'a str,
    with: &'a str,
    shelf: &mut H,
) -> Result<Vec<u8>, Ending<'a>> {
    match what {
        "style" => say_styles(alloc, file, with, shelf),
        "log" => say_log(alloc, file, with, shelf),
        "short" => say_table(alloc, file, shelf),
        "pages" => say_pages(alloc, file, with, shelf),
        _ => Err(Ending::Usage),
    }
}

// Writes what is said of the files of these names.
fn write_said<'a, H: Shelf, O: Sink>(
    alloc: Global,
    words: &'a [String],
    shelf: &mut H,
    out: &mut O,
) -> Result<(), Ending<'a>> {
    let [what, file, with] = words else {
        return Err(Ending::Usage);
    };
    let said = said_of(alloc, what.as_str(), file.as_str(), with.as_str(), shelf)?;
    match out.write(&said) {
        Err(_) => Err(Ending::WriteFault),
        Ok(()) => Ok(()),
    }
}

fn write_all<'a, H: Shelf, O: Sink>(
    alloc: Global,
    words: &'a [String],
    shelf: &mut H,
    out: &mut O,
) -> Result<(), Ending<'a>> {
    for three in words.chunks(3) {
        write_said(alloc, three, shelf, out)?;
    }
    Ok(())
}

fn main(rt: HostRuntime) -> ExitCode {
    let Ok(words) = words_of(&rt) else {
        return ended(&rt, &Ending::Memory);
    };
    let mut shelf = FileShelf::new(&rt);
    let mut out = StreamSink::new(rt.stdout());
    match write_all(rt.alloc(), words.as_slice(), &mut shelf, &mut out) {
        Ok(()) => exit_code(Status::Done),
        Err(ending) => ended(&rt, &ending),
    }
}
