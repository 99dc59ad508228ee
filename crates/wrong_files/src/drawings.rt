//! The program that draws output texts.
ghost use Rattle.pg_outside.specs.Outside.{over_sink};
ghost use Rattle.pg_outside.specs.Words.{texts_of};
ghost use Rattle.pg_draw.specs.Texts.{Serves};
ghost use Rattle.pg_draw.specs.Words.{asked_of};

use pg_draw::{Status, serve};
use pg_outside::{Shelf, Sink};
use std::alloc::Global;

/// Draws the output texts that the words name.
pub fn serve_drawing<H: Shelf, O: Sink, E: Sink>(
    alloc: Global,
    words: &Vec<String>,
    shelf: &mut H,
    out: &mut O,
    say: &mut E,
) -> Status
    ensures { Serves (H.held shelf.old) (asked_of (texts_of words.now))
        (over_sink (O.written out.old) (O.written out.new) (O.faults out.old) (O.faults out.new))
        (over_sink (E.written say.old) (E.written say.new) (E.faults say.old) (E.faults say.new))
        result }
{
    serve(alloc, words, shelf, out, say)
}
