//! The line for the user.
ghost use Rattle.std.specs.Prelude.{◌≡◌, ◌≤◌};
ghost use Rattle.pg_command.specs.Lines.{OnQuiet, Says, line_of, status_of};

use pg_command::Ending;
use pg_outside::Sink;

/// Writes the line of how a run ended.
pub fn say_line<E: Sink>(ending: &Ending<'_>, say: &mut E)
    ensures line { Says (E.written say.old) (E.written say.new) (E.faults say.old) (E.faults say.new)
        (line_of ending.now) }
    ensures later { E.faults say.old ≤ E.faults say.new }
    ensures quiet { OnQuiet (status_of ending.now) (say.new ≡ say.old) }
{
    pg_command::say_line(ending, say)
}
