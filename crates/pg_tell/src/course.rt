//! The program over any shelf of files and any two sinks.
ghost use Rattle.std.specs.Prelude.{◌≡◌, ℕ, List, [], length, IfOk, IfErr};
ghost use Rattle.pg_command.specs.Lines.{Says, ending_of};
ghost use Rattle.pg_command.specs.Words.{IsStyle, style_name};
ghost use Rattle.pg_command.specs.declared.ending.Ending.TheVariants.{Done, NoLegal};
ghost use Rattle.pg_outside.specs.Outside.{over_sink};
ghost use Rattle.pg_outside.specs.Words.{texts_of};
ghost use Rattle.pg_changes.specs.Changes.{NoneLegal};
ghost use Rattle.pg_furthest.specs.Pages.{IsBestPages};
ghost use Rattle.pg_parts.specs.Parts.{part_sum};
ghost use Rattle.pg_plan.specs.Order.{columns};
ghost use Rattle.pg_rules.specs.Cost.{cost};
ghost use Rattle.pg_rules.specs.Legal.{document};
ghost use Rattle.pg_tell.specs.Course.{ClassesStop, HasFiles, IsTold, Serves, Stops, Tells, TellsFiles, TellsPages};
ghost use Rattle.pg_tell.specs.Course.{TellsNone};
ghost use Rattle.pg_tell.specs.Lines.{Begins, none_front, own_line, pages_front, refusal_front};
ghost use Rattle.pg_tell.specs.Words.{command_of};

use crate::faults::faults_text;
use crate::findings::{Findings, findings_of};
use crate::help::{HELP, VERSION};
use crate::none::none_text;
use crate::open::{no_memory, open_galley, open_style, remark_why};
use crate::pages::pages_text;
use crate::refusal::{Stop, refusal_text};
use crate::words::{Job, read_job};
use pg_command::{Ending, Status, StyleWord};
use pg_fault_words::{MANY_FLOATS, STRANGE_CLASS};
use pg_floats::FloatFault;
use pg_furthest::{BestPages, Search};
use pg_list::Galley;
use pg_outside::{Shelf, Sink};
use pg_parts::columns_add_up;
use pg_pieces::Form;
use pg_style::Style;
use pg_table::Steps;
use std::alloc::Global;
use std::sync::ledger::Ledger;

// What stops the program where a galley has no list of floats.
fn float_stop<'a>(fault: FloatFault) -> Stop<'a>
    ensures { result.ending ≡ ending_of fault }
{
    match fault {
        FloatFault::Class { number } => Stop {
            ending: Ending::UnknownClass(number),
            why: remark_why(STRANGE_CLASS),
        },
        FloatFault::Limit { count } => Stop {
            ending: Ending::TooManyFloats(count),
            why: remark_why(MANY_FLOATS),
        },
        FloatFault::Memory => no_memory(),
    }
}

// The search of a galley under a style, or what stops the program.
fn search_of<'a, L: Ledger>(
    alloc: Global,
    galley: Galley,
    style: Style,
    steps: &mut Steps<L>,
) -> Result<Search, Stop<'a>>
    ensures search { IfOk result (λ search. (search.galley ≡ galley) × (search.style ≡ style)) }
    ensures stopped { IfErr result (λ stop. ClassesStop galley style stop.ending) }
{
    match Search::new(alloc, galley, style, steps) {
        Ok(search) => Ok(search),
        Err(fault) => Err(float_stop(fault)),
    }
}

// The files of which it is told: a style, and a galley with the width at which its lines are joined.
#[derive(Clone, Copy)]
struct Files<'a> {
    style: StyleWord<'a>,
    galley: &'a str,
    wrap: Option<u32>,
}

// The search of files, or what stops the program.
fn open_search<'a, H: Shelf, L: Ledger>(
    alloc: Global,
    files: Files<'a>,
    shelf: &mut H,
    steps: &mut Steps<L>,
) -> Result<Search, Stop<'a>>
    requires { IsStyle files.style }
    ensures search { IfOk result (λ search. HasFiles (H.held shelf.old) (style_name files.entry.style)
        files.entry.galley.now files.entry.wrap search.galley search.style) }
    ensures stopped { IfErr result (λ stop. Stops (H.held shelf.old) (style_name files.entry.style)
        files.entry.galley.now files.entry.wrap stop.ending) }
{
    let style = open_style(alloc, files.style, shelf)?;
    let galley = open_galley(alloc, files.galley, files.wrap, shelf)?;
    search_of(alloc, galley, style, steps)
}

// Writes a text that ends the program so, in one piece.
fn write_text<'a, O: Sink>(text: &[u8], ending: Ending<'a>, out: &mut O) -> Ending<'a>
    ensures { (front : List ℕ) → Begins front text.now →
        IsTold front ending.entry result (O.written out.old) (O.written out.new) }
{
    match out.write(text) {
        Err(_) => Ending::WriteFault,
        Ok(()) => ending,
    }
}

// Tells a refusal.
fn tell_refusal<'a, O: Sink>(alloc: Global, form: Form, stop: Stop<'a>, out: &mut O) -> Ending<'a>
    ensures { IsTold (refusal_front form stop.entry.ending) stop.entry.ending result
        (O.written out.old) (O.written out.new) }
{
    match refusal_text(alloc, form, &stop) {
        Err(_) => Ending::Memory,
        Ok(text) => write_text(&text, stop.ending, out),
    }
}

// Tells of the best pages.
fn tell_best<'a, O: Sink>(
    alloc: Global,
    form: Form,
    galley: &Galley,
    style: &Style,
    pages: &BestPages,
    out: &mut O,
) -> Ending<'a>
    requires { IsBestPages galley.now style.now pages.now }
    ensures { IsTold (pages_front form (length pages.now.plan.pages) (cost galley.now style.now pages.now.plan)
        (part_sum (document galley.now style.now) (columns pages.now.plan))) Done result
        (O.written out.old) (O.written out.new) }
{
    columns_add_up();
    match pages_text(alloc, form, galley, style, pages) {
        Err(_) => Ending::Memory,
        Ok(text) => write_text(&text, Ending::Done, out),
    }
}

// Tells what was found where none are legal.
fn tell_findings<'a, O: Sink>(
    alloc: Global,
    form: Form,
    search: &Search,
    found: &Findings,
    out: &mut O,
) -> Ending<'a>
    ensures { IsTold (none_front form found.now) NoLegal result (O.written out.old) (O.written out.new) }
{
    match none_text(alloc, form, search, found) {
        Err(_) => Ending::Memory,
        Ok(text) => write_text(&text, Ending::NoLegal, out),
    }
}

// Tells why none are legal, what would help, and how far pages come.
fn tell_none<'a, O: Sink, L: Ledger>(
    alloc: Global,
    form: Form,
    search: &Search,
    out: &mut O,
    steps: &mut Steps<L>,
) -> Ending<'a>
    requires { NoneLegal search.now.galley search.now.style }
    ensures { TellsNone form search.now.galley search.now.style result (O.written out.old) (O.written out.new) }
{
    match findings_of(alloc, search, steps) {
        Err(_) => Ending::Memory,
        Ok(found) => tell_findings(alloc, form, search, &found, out),
    }
}

// Tells of the pages of a galley.
fn tell_pages<'a, O: Sink, L: Ledger>(
    alloc: Global,
    form: Form,
    search: &Search,
    out: &mut O,
    steps: &mut Steps<L>,
) -> Ending<'a>
    ensures { TellsPages form search.now.galley search.now.style result (O.written out.old) (O.written out.new) }
{
    match search.pages() {
        Err(_) => Ending::Memory,
        Ok(Some(pages)) => tell_best(alloc, form, search.galley(), search.style(), &pages, out),
        Ok(None) => tell_none(alloc, form, search, out, steps),
    }
}

// Tells of files.
fn tell_files<'a, H: Shelf, O: Sink, L: Ledger>(
    alloc: Global,
    files: Files<'a>,
    form: Form,
    shelf: &mut H,
    out: &mut O,
    steps: &mut Steps<L>,
) -> Ending<'a>
    requires { IsStyle files.style }
    ensures { TellsFiles (H.held shelf.old) (style_name files.entry.style) files.entry.galley.now files.entry.wrap
        form result (O.written out.old) (O.written out.new) }
{
    match open_search(alloc, files, shelf, steps) {
        Err(stop) => tell_refusal(alloc, form, stop, out),
        Ok(search) => tell_pages(alloc, form, &search, out, steps),
    }
}

// Tells all faults.
fn tell_faults<'a, O: Sink>(alloc: Global, out: &mut O) -> Ending<'a>
    ensures { IsTold [] Done result (O.written out.old) (O.written out.new) }
{
    match faults_text(alloc) {
        Err(_) => Ending::Memory,
        Ok(text) => write_text(&text, Ending::Done, out),
    }
}

// Tells words of the program.
fn tell_words<'a, O: Sink>(text: &str, out: &mut O) -> Ending<'a>
    ensures { IsTold [] Done result (O.written out.old) (O.written out.new) }
{
    write_text(text.as_bytes(), Ending::Done, out)
}

// Does what the words ask for, and answers what ended it.
fn act<'a, H: Shelf, O: Sink, L: Ledger>(
    alloc: Global,
    words: &'a Vec<String>,
    shelf: &mut H,
    out: &mut O,
    steps: &mut Steps<L>,
) -> Ending<'a>
    ensures { Tells (H.held shelf.old) (command_of (texts_of words.now)) result
        (O.written out.old) (O.written out.new) }
{
    match read_job(words) {
        None => Ending::Usage,
        Some(Job::Help) => tell_words(HELP, out),
        Some(Job::Version) => tell_words(VERSION, out),
        Some(Job::Faults) => tell_faults(alloc, out),
        Some(
            Job::Tell {
                style,
                galley,
                wrap,
                form,
            },
        ) => {
            let files = Files {
                style,
                galley,
                wrap,
            };
            tell_files(alloc, files, form, shelf, out, steps)
        }
    }
}

// The line of an ending at which nothing can be told.
fn own_text(ending: &Ending<'_>) -> &'static str
    ensures { result.now ≡ own_line ending.now }
{
    match ending {
        Ending::Usage => "usage: pg_tell [--json] [--wrap N] STYLE GALLEY, or pg_tell --help\n",
        Ending::WriteFault => "pg_tell: output failed\n",
        Ending::Memory => "pg_tell: out of memory\n",
        _ => "",
    }
}

// Says the line of an ending at which nothing can be told.
fn say_end<E: Sink>(ending: &Ending<'_>, say: &mut E)
    ensures { Says (E.written say.old) (E.written say.new) (E.faults say.old) (E.faults say.new)
        (own_line ending.now) }
{
    let _ = say.write(own_text(ending).as_bytes());
}

/// Tells what the words ask for over a shelf of files: a text goes to `out`, in one piece.
///
/// A refusal is told there, too. Where nothing can be told, by a fault of the words, of the output or of memory, one
/// line for the user goes to `say`. A file may have at most 2^26 bytes. The steps are handed to the search.
pub fn serve<H: Shelf, O: Sink, E: Sink, L: Ledger>(
    alloc: Global,
    words: &Vec<String>,
    shelf: &mut H,
    out: &mut O,
    say: &mut E,
    steps: &mut Steps<L>,
) -> Status
    ensures { Serves (H.held shelf.old) (command_of (texts_of words.now))
        (over_sink (O.written out.old) (O.written out.new) (O.faults out.old) (O.faults out.new))
        (over_sink (E.written say.old) (E.written say.new) (E.faults say.old) (E.faults say.new))
        result }
{
    let ending = act(alloc, words, shelf, out, steps);
    say_end(&ending, say);
    ending.status()
}
