//! The command `make`.
ghost use Rattle.std.specs.Prelude.{◌≡◌, ◌≤◌, IfOk, OnOk, Some};
ghost use Rattle.pg_outside.specs.Outside.{over_output};
ghost use Rattle.pg_command.specs.Lines.{status_of};
ghost use Rattle.pg_command.specs.Words.{make as make_command};
ghost use Rattle.pg_make.specs.Generated.{made_galley};
ghost use Rattle.pg_make.specs.Made.{made_style};
ghost use Rattle.pg_session.specs.Sessions.{IsNew};
ghost use Rattle.pg_session.specs.Shows.{AreCounted, one_show};
ghost use Rattle.pg_course.specs.Calls.{Goes, OverShelf};
ghost use Rattle.pg_course.specs.Counted.{UnlessMemory};
ghost use Rattle.pg_course.specs.Made.{MadeOut};
ghost use Rattle.pg_course.specs.Out.{bytes_of, end_of};

use crate::line::line_of;
use crate::paginate::PageText;
use crate::write::write_text;
use pg_command::Ending;
use pg_floats::FloatFault;
use pg_list::Galley;
use pg_make::{MakeFault, make_galley, make_style};
use pg_outside::Sink;
use pg_session::Session;
use pg_table::Steps;
use std::alloc::{AllocError, Global};
use std::sync::ledger::Ledger;

// The galley of so many paragraphs.
fn galley_of(alloc: Global, count: u32) -> Result<Galley, AllocError>
    requires { count ≤ 2000 }
    ensures { IfOk result (λ galley. galley ≡ made_galley count) }
{
    match make_galley(alloc, count) {
        Ok(galley) => Ok(galley),
        Err(MakeFault::Memory) => Err(AllocError),
        Err(MakeFault::Limit { .. }) => unreachable!(),
    }
}

// A session on it under the made style, which has the classes of its few floats.
fn session_of(alloc: Global, count: u32) -> Result<Session, AllocError>
    requires { count ≤ 2000 }
    ensures { IfOk result (IsNew (made_galley count) made_style) }
{
    let galley = galley_of(alloc, count)?;
    match Session::new(alloc, galley, make_style(alloc)) {
        Ok(session) => Ok(session),
        Err(FloatFault::Memory) => Err(AllocError),
        Err(FloatFault::Class { .. }) => unreachable!(),
        Err(FloatFault::Limit { .. }) => unreachable!(),
    }
}

// The line of the galley of so many paragraphs.
fn line_under<L: Ledger>(
    alloc: Global,
    count: u32,
    steps: &mut Steps<L>,
) -> Result<PageText, AllocError>
    requires { count ≤ 2000 }
    ensures line { IfOk result (λ line. MadeOut count (bytes_of line) (end_of line)) }
    ensures counted { OnOk result (AreCounted made_style (one_show (made_galley count)) steps.old steps.new) }
{
    let mut session = session_of(alloc, count)?;
    let told = session.paginate(steps)?;
    let items = session.galley().count_items();
    line_of(alloc, count, items, &told.outcome, told.labels)
}

/// Makes the galley of so many paragraphs, at most 2000, paginates it with the made style, and writes a line of what
/// came out in one piece. It reads no file, so that whatever a shelf tells it does the same.
pub fn make_course<'a, O: Sink, L: Ledger>(
    alloc: Global,
    count: u32,
    out: &mut O,
    steps: &mut Steps<L>,
) -> Ending<'a>
    requires { count ≤ 2000 }
    ensures goes { (shelf : OverShelf) → Goes (Some (make_command count)) shelf
        (over_output O.written O.writes O.faults out.old out.new) result }
    ensures counted { UnlessMemory (status_of result)
        (AreCounted made_style (one_show (made_galley count)) steps.old steps.new) }
{
    match line_under(alloc, count, steps) {
        Err(_) => Ending::Memory,
        Ok(line) => write_text(&line, out),
    }
}
