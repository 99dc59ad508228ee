//! The program over any shelf and any two sinks.
ghost use Rattle.std.specs.Prelude.{◌≡◌, IfSome, Option};
ghost use Rattle.pg_outside.specs.Outside.{Held, over_output, over_sink};
ghost use Rattle.pg_outside.specs.Words.{texts_of};
ghost use Rattle.pg_command.specs.Words.{command_of};
ghost use Rattle.pg_command.specs.Lines.{OnQuiet};
ghost use Rattle.pg_course.specs.Calls.{NamesNoFile, over_shelf};
ghost use Rattle.pg_course.specs.Complete.{IsComplete};
ghost use Rattle.pg_course.specs.Counted.{IsCounted, UnlessMemory};
ghost use Rattle.pg_course.specs.Course.{OnSettled};
ghost use Rattle.pg_top.specs.Headline.{Headline, IsSole};

use pg_command::Status;
use pg_outside::{Shelf, Sink};
use pg_table::Steps;
use std::alloc::Global;
use std::sync::ledger::Ledger;

/// The top call.
pub fn serve<H: Shelf, O: Sink, E: Sink, L: Ledger>(
    alloc: Global,
    words: &Vec<String>,
    shelf: &mut H,
    out: &mut O,
    say: &mut E,
    steps: &mut Steps<L>,
) -> Status
    ensures headline { Headline (texts_of words.now)
        (over_shelf (H.held shelf.old) (H.faults shelf.old) (H.faults shelf.new) (H.last_failed shelf.new))
        (over_output O.written O.writes O.faults out.old out.new)
        (over_sink (E.written say.old) (E.written say.new) (E.faults say.old) (E.faults say.new))
        result }
    ensures whatever_told { NamesNoFile (command_of (texts_of words.now)) → (told : Option Held) →
        Headline (texts_of words.now)
        (over_shelf told (H.faults shelf.old) (H.faults shelf.new) (H.last_failed shelf.new))
        (over_output O.written O.writes O.faults out.old out.new)
        (over_sink (E.written say.old) (E.written say.new) (E.faults say.old) (E.faults say.new))
        result }
    ensures sole { OnSettled result (IfSome (H.held shelf.old) (IsSole (command_of (texts_of words.now))
        (over_output O.written O.writes O.faults out.old out.new)
        (over_sink (E.written say.old) (E.written say.new) (E.faults say.old) (E.faults say.new))
        result)) }
    ensures counted { UnlessMemory result
        (IsCounted (command_of (texts_of words.now)) (H.held shelf.old) steps.old steps.new) }
    ensures complete { IsComplete (command_of (texts_of words.now))
        (over_shelf (H.held shelf.old) (H.faults shelf.old) (H.faults shelf.new) (H.last_failed shelf.new))
        (over_output O.written O.writes O.faults out.old out.new) result }
    ensures quiet { OnQuiet result (say.new ≡ say.old) }
{
    pg_top::serve(alloc, words, shelf, out, say, steps)
}
