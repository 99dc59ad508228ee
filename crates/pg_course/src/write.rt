//! A text is written.
ghost use Rattle.pg_outside.specs.Outside.{over_output};
ghost use Rattle.pg_course.specs.Calls.{Writes};
ghost use Rattle.pg_course.specs.Course.{OneText};
ghost use Rattle.pg_course.specs.Out.{bytes_of, end_of};

use crate::paginate::PageText;
use pg_command::Ending;
use pg_outside::Sink;

/// Writes a text in one piece, and answers how that ends the run.
pub fn write_text<'a, O: Sink>(text: &PageText, out: &mut O) -> Ending<'a>
    ensures writes { Writes (OneText (bytes_of text.now) (end_of text.now))
        (over_output O.written O.writes O.faults out.old out.new) result }
{
    match text {
        PageText::Best(bytes) => match out.write(bytes) {
            Err(_) => Ending::WriteFault,
            Ok(()) => Ending::Done,
        },
        PageText::NoLegal(bytes) => match out.write(bytes) {
            Err(_) => Ending::WriteFault,
            Ok(()) => Ending::NoLegal,
        },
    }
}
