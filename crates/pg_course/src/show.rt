//! The command `show`.
ghost use Rattle.std.specs.Prelude.{Some};
ghost use Rattle.pg_outside.specs.Outside.{over_output};
ghost use Rattle.pg_command.specs.Words.{show as show_command};
ghost use Rattle.pg_course.specs.Course.{ShowGalley};
ghost use Rattle.pg_course.specs.Calls.{Goes, Writes, over_shelf};

use crate::open::open_galley;
use pg_command::Ending;
use pg_list::Galley;
use pg_outside::{Shelf, Sink};
use pg_showbox::print_galley;
use std::alloc::Global;

/// Writes the text of a galley in one piece, and answers how that ends the run.
pub fn write_galley<'a, O: Sink>(alloc: Global, galley: &Galley, out: &mut O) -> Ending<'a>
    ensures writes { Writes (ShowGalley galley.now)
        (over_output O.written O.writes O.faults out.old out.new) result }
{
    let mut text = Vec::new(alloc);
    match print_galley(galley, &mut text) {
        Err(_) => Ending::Memory,
        Ok(()) => match out.write(&text) {
            Err(_) => Ending::WriteFault,
            Ok(()) => Ending::Done,
        },
    }
}

/// Prints the galley of this name, in one piece.
pub fn show_course<'a, H: Shelf, O: Sink>(
    alloc: Global,
    name: &'a str,
    wrap: Option<u32>,
    shelf: &mut H,
    out: &mut O,
) -> Ending<'a>
    ensures goes { Goes (Some (show_command name.now wrap))
        (over_shelf (H.held shelf.old) (H.faults shelf.old) (H.faults shelf.new) (H.last_failed shelf.new))
        (over_output O.written O.writes O.faults out.old out.new) result }
{
    match open_galley(alloc, name, wrap, shelf) {
        Err(ending) => ending,
        Ok(galley) => write_galley(alloc, &galley, out),
    }
}
