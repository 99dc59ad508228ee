//! The command `run`.
ghost use Rattle.std.specs.Prelude.{◌≡◌, Some, Ok, IfSome};
ghost use Rattle.pg_outside.specs.Outside.{over_output};
ghost use Rattle.pg_session.specs.Shows.{AreCounted, one_show};
ghost use Rattle.pg_command.specs.declared.job.Job.TheVariants.{Run};
ghost use Rattle.pg_command.specs.Lines.{ending_of, status_of};
ghost use Rattle.pg_command.specs.Words.{IsStyle, command_in};
ghost use Rattle.pg_course.specs.Course.{PaginateGalley, RunGalley, RunCourse, opened};
ghost use Rattle.pg_course.specs.Products.{IsProduct};
ghost use Rattle.pg_course.specs.Calls.{Goes, GoesOn, Writes, over_shelf};
ghost use Rattle.pg_course.specs.Counted.{CountsRun, IsCounted, IsShown, UnlessMemory, made_shows, taken_shows};

use crate::open::{GalleyFile, open_galley, open_style};
use crate::paginate::page_text_of;
use crate::product::{Product, write_product};
use crate::write::write_text;
use pg_command::{Ending, RunJob};
use pg_floats::FloatFault;
use pg_list::Galley;
use pg_outside::{Shelf, Sink};
use pg_session::Session;
use pg_style::Style;
use pg_table::Steps;
use std::alloc::Global;
use std::sync::ledger::Ledger;

/// Writes the text for the galley of a session as it stands in one piece, where `labels` is true with its labels, and
/// answers how that ends the run. Unless memory runs out, nothing of the session is touched behind it.
pub fn write_shown<'a, O: Sink, L: Ledger>(
    alloc: Global,
    session: &mut Session,
    labels: bool,
    out: &mut O,
    steps: &mut Steps<L>,
) -> Ending<'a>
    ensures writes { Writes (PaginateGalley labels session.old.style session.old.galley)
        (over_output O.written O.writes O.faults out.old out.new) result }
    ensures shown { UnlessMemory (status_of result) (IsShown session.old session.new steps.old steps.new) }
{
    match page_text_of(alloc, session, labels, steps) {
        Err(_) => Ending::Memory,
        Ok(text) => write_text(&text, out),
    }
}

/// How a run ends where a galley has no list of floats.
pub fn float_ending<'a>(fault: FloatFault) -> Ending<'a>
    ensures { result ≡ ending_of fault }
{
    match fault {
        FloatFault::Class { number } => Ending::UnknownClass(number),
        FloatFault::Limit { count } => Ending::TooManyFloats(count),
        FloatFault::Memory => Ending::Memory,
    }
}

// Makes this of a galley under a style, if the style has the classes of its inserts and its floats are not too many.
fn run_galley<'a, O: Sink, L: Ledger>(
    alloc: Global,
    galley: Galley,
    style: Style,
    product: Product,
    out: &mut O,
    steps: &mut Steps<L>,
) -> Ending<'a>
    requires { IsProduct product }
    ensures writes { Writes (RunGalley product style galley)
        (over_output O.written O.writes O.faults out.old out.new) result }
    ensures counted { UnlessMemory (status_of result) (AreCounted style
        (taken_shows style galley (made_shows product style galley (one_show galley))) steps.old steps.new) }
{
    match Session::new(alloc, galley, style) {
        Err(fault) => float_ending(fault),
        Ok(mut session) => write_product(alloc, &mut session, product, out, steps),
    }
}

/// Makes this of the galley of a file under a style, and writes the text in one piece.
pub fn run_file<'a, H: Shelf, O: Sink, L: Ledger>(
    file: &GalleyFile<'a>,
    style: Style,
    product: Product,
    shelf: &mut H,
    out: &mut O,
    steps: &mut Steps<L>,
) -> Ending<'a>
    requires { IsProduct product }
    ensures goes { GoesOn (λ held. RunCourse product style
        (opened file.now.name.now file.now.wrap (held file.now.name.now))) file.now.name.now
        (over_shelf (H.held shelf.old) (H.faults shelf.old) (H.faults shelf.new) (H.last_failed shelf.new))
        (over_output O.written O.writes O.faults out.old out.new) result }
    ensures counted { UnlessMemory (status_of result) (IfSome (H.held shelf.old) (λ held.
        CountsRun product (Ok style) (opened file.now.name.now file.now.wrap (held file.now.name.now))
        steps.old steps.new)) }
{
    match open_galley(file.alloc, file.name, file.wrap, shelf) {
        Err(ending) => ending,
        Ok(galley) => run_galley(file.alloc, galley, style, product, out, steps),
    }
}

/// Paginates the galley of a job with its style, which is read first, and writes the text in one piece, where the job
/// asks for labels with those of the search behind the pages.
pub fn run_course<'a, H: Shelf, O: Sink, L: Ledger>(
    alloc: Global,
    job: RunJob<'a>,
    shelf: &mut H,
    out: &mut O,
    steps: &mut Steps<L>,
) -> Ending<'a>
    requires { IsStyle job.style }
    ensures goes { Goes (Some (command_in (Run job.entry)))
        (over_shelf (H.held shelf.old) (H.faults shelf.old) (H.faults shelf.new) (H.last_failed shelf.new))
        (over_output O.written O.writes O.faults out.old out.new) result }
    ensures counted { UnlessMemory (status_of result)
        (IsCounted (Some (command_in (Run job.entry))) (H.held shelf.old) steps.old steps.new) }
{
    let file = GalleyFile {
        alloc,
        name: job.galley,
        wrap: job.wrap,
    };
    match open_style(alloc, job.style, shelf) {
        Err(ending) => ending,
        Ok(style) => {
            let product = Product::Pages { labels: job.labels };
            run_file(&file, style, product, shelf, out, steps)
        }
    }
}
