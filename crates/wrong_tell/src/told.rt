//! The program that tells in words.
ghost use Rattle.pg_outside.specs.Outside.{over_sink};
ghost use Rattle.pg_outside.specs.Words.{texts_of};
ghost use Rattle.pg_tell.specs.Course.{Serves};
ghost use Rattle.pg_tell.specs.Words.{command_of};

use pg_command::Status;
use pg_outside::{Shelf, Sink};
use pg_table::Steps;
use std::alloc::Global;
use std::sync::ledger::Ledger;

/// Tells what the words ask for.
pub fn serve<H: Shelf, O: Sink, E: Sink, L: Ledger>(
    alloc: Global,
    words: &Vec<String>,
    shelf: &mut H,
    out: &mut O,
    say: &mut E,
    steps: &mut Steps<L>,
) -> Status
    ensures { Serves (H.held shelf.old) (command_of (texts_of words.now))
        (over_sink (O.written out.old) (O.written out.new) (O.faults out.old) (O.faults out.new))
        (over_sink (E.written say.old) (E.written say.new) (E.faults say.old) (E.faults say.new))
        result }
{
    pg_tell::serve(alloc, words, shelf, out, say, steps)
}
