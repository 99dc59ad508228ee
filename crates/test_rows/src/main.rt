//! Calls the program over files in memory, as tables of cases say: `test_rows TABLE..`.
//!
//! It writes each table again, line by line, and behind a call what came of it: its status, `|` and each line that was
//! written, `!` and each line that was said. Calls that stand together and leave the same are answered once, behind the
//! last of them. A `\` at the end of a line says that no line feed came behind it; a text that is the one of the call
//! before several times over is told as such. The lines of a table are these:
//!
//! | Line | What it does |
//! |---|---|
//! | `= ..` | begins a case: there are no files, and nothing fails |
//! | `lines NAME SHORT` | a file, its text in the letters of `lines_of` of test_files |
//! | `many NAME COUNT SHORT\|AGAIN` | the same, with so many times what stands behind the bar |
//! | `room COUNT` | the bytes that may be written; 2^22 if no line says it |
//! | `file NAME FROM CHANGES` | a file with the text of a file of the system, with the changes of `changed_by`, if any |
//! | `bytes NAME COUNT` | a file of so many line feeds |
//! | `fetch N fails` | in each call the Nth file that is asked for cannot be read |
//! | `write N fails after M` | the Nth write of each call fails, after M bytes |
//! | `say N fails after M` | so does the Nth piece of what is said |
//! | `pg WORDS`, `pg_tell WORDS` | a call; `""` stands for an empty word |
//! | `# ..`, and an empty line | nothing |
//!
//! A line that is none of these is answered with `?`. The stored run is the test of the program as a whole: its `stdout`
//! was worked out by hand.
#![tactic(auto)]

mod call;
mod setting;
mod table;
mod world;

use pg_command::Ending;
use pg_outside::{FileShelf, Shelf, Sink, StreamSink};
use std::alloc::Global;
use std::process::ExitCode;
use table::tell_table;
use test_files::{ended, fetch_file, words_of};

// Writes the table of this name, with what came of its calls.
fn tell_file<'a, H: Shelf, O: Sink>(
    alloc: Global,
    name: &'a str,
    shelf: &mut H,
    out: &mut O,
) -> Result<(), Ending<'a>> {
    let bytes = fetch_file(alloc, name, shelf)?;
    let Ok(table) = str::from_utf8(&bytes) else {
        return Err(Ending::Unread(name));
    };
    let Ok(text) = tell_table(alloc, table, shelf) else {
        return Err(Ending::Memory);
    };
    match out.write(&text) {
        Err(_) => Err(Ending::WriteFault),
        Ok(()) => Ok(()),
    }
}

fn tell_all<'a, H: Shelf, O: Sink>(
    alloc: Global,
    names: &'a [String],
    shelf: &mut H,
    out: &mut O,
) -> Ending<'a> {
    for name in names {
        match tell_file(alloc, name.as_str(), shelf, out) {
            Err(ending) => return ending,
            Ok(()) => {}
        }
    }
    Ending::Done
}

fn main(rt: HostRuntime) -> ExitCode {
    let Ok(words) = words_of(&rt) else {
        return ended(&rt, &Ending::Memory);
    };
    let mut shelf = FileShelf::new(&rt);
    let mut out = StreamSink::new(rt.stdout());
    let ending = tell_all(rt.alloc(), words.as_slice(), &mut shelf, &mut out);
    ended(&rt, &ending)
}
