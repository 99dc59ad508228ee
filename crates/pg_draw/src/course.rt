//! The program over any shelf of files and any two sinks.
ghost use Rattle.std.specs.Prelude.{◌≡◌, Option, Some, IfOk, IfErr};
ghost use Rattle.std.specs.Option.{option_map};
ghost use Rattle.pg_outside.specs.Outside.{Held, over_sink};
ghost use Rattle.pg_outside.specs.Words.{texts_of};
ghost use Rattle.pg_draw.specs.Texts.{AllDrawn, IsOtherDrawn, IsStyled, MayDraw, MayEnd, MayTell, NamedStyleStops, OtherStops, Said, Serves, SomeStops, Written};
ghost use Rattle.pg_draw.specs.Words.{Draw, Help, Names, Version, asked_of, names_in};

use crate::ending::{Ending, HELP, Status, VERSION};
use crate::open::{Drawn, open_drawing, open_style};
use crate::page::print_page;
use crate::pair::print_pair;
use crate::words::{Job, Request, read_request};
use pg_draw_page::{Lines, View, areas_apart, base_name, usual_lines, waiting_of};
use pg_outside::{Shelf, Sink};
use pg_style::Style;
use std::alloc::{AllocError, Global};

/// What is said where memory runs out.
const NO_MEMORY: &str = "pg_draw: out of memory\n";

// What a job names: the drawings of texts, and a style.
#[derive(Drop)]
struct Opened {
    output: Drawn,
    other: Option<Drawn>,
    style: Option<Style>,
}

// The drawing of the other file, where there is one.
fn open_other<'a, H: Shelf>(
    alloc: Global,
    other: Option<&'a str>,
    shelf: &mut H,
) -> Result<Option<Drawn>, Ending<'a>>
    ensures drawn { IfOk result (λ it. IsOtherDrawn (H.held shelf.old) (option_map (λ n. n.now) other.entry)) }
    ensures stopped { IfErr result (OtherStops (H.held shelf.old) (option_map (λ n. n.now) other.entry)) }
    ensures same { H.held shelf.new ≡ H.held shelf.old }
{
    match other {
        None => Ok(None),
        Some(name) => match open_drawing(alloc, name, shelf) {
            Ok(drawn) => Ok(Some(drawn)),
            Err(ending) => Err(ending),
        },
    }
}

// The style, where one is named.
fn open_named_style<'a, H: Shelf>(
    alloc: Global,
    style: Option<&'a str>,
    shelf: &mut H,
) -> Result<Option<Style>, Ending<'a>>
    ensures styled { IfOk result (λ it. IsStyled (H.held shelf.old) (option_map (λ n. n.now) style.entry)) }
    ensures stopped { IfErr result (NamedStyleStops (H.held shelf.old) (option_map (λ n. n.now) style.entry)) }
{
    match style {
        None => Ok(None),
        Some(name) => match open_style(alloc, name, shelf) {
            Ok(style) => Ok(Some(style)),
            Err(ending) => Err(ending),
        },
    }
}

// What a job names, or what ends the program.
fn open_all<'a, H: Shelf>(alloc: Global, job: &Job<'a>, shelf: &mut H) -> Result<Opened, Ending<'a>>
    ensures drawn { IfOk result (λ it. AllDrawn (H.held shelf.old) (names_in job.now)) }
    ensures stopped { IfErr result (SomeStops (H.held shelf.old) (names_in job.now)) }
{
    let output = open_drawing(alloc, job.output, shelf)?;
    let other = open_other(alloc, job.options.other, shelf)?;
    let style = open_named_style(alloc, job.options.style, shelf)?;
    Ok(Opened {
        output,
        other,
        style,
    })
}

// What stands beside a drawing while its page is made: how many floats wait behind each page, its lines, and how far apart
// its areas are drawn.
#[derive(Drop)]
struct Beside {
    waiting: Vec<Option<usize>>,
    lines: Lines,
    apart: i128,
}

// What stands beside a drawing.
fn measured(alloc: Global, drawn: &Drawn) -> Result<Beside, AllocError> {
    let waiting = waiting_of(alloc, &drawn.output)?;
    let lines = usual_lines(alloc, &drawn.drawing)?;
    Ok(Beside {
        waiting,
        lines,
        apart: areas_apart(&drawn.drawing),
    })
}

// What is drawn of a text.
fn view_of<'a>(
    letter: &'static str,
    name: &'a str,
    drawn: &'a Drawn,
    beside: &'a Beside,
    style: Option<&'a Style>,
) -> View<'a> {
    View {
        letter,
        name: base_name(name.as_bytes()),
        drawing: &drawn.drawing,
        output: &drawn.output,
        waiting: beside.waiting.as_slice(),
        style,
        lines: beside.lines,
        apart: beside.apart,
    }
}

// The page of two texts.
fn pair_page(
    alloc: Global,
    one: &View<'_>,
    name: &str,
    other: &Drawn,
    out: &mut Vec<u8>,
) -> Result<(), AllocError> {
    let beside = measured(alloc, other)?;
    let two = view_of("q", name, other, &beside, one.style);
    let mut same = Vec::new(alloc);
    print_pair(one, &two, &mut same, out)
}

// The page of HTML.
fn page(alloc: Global, job: &Job<'_>, opened: &Opened) -> Result<Vec<u8>, AllocError> {
    let mut out = Vec::new(alloc);
    let beside = measured(alloc, &opened.output)?;
    let style = opened.style.as_ref();
    let one = view_of("p", job.output, &opened.output, &beside, style);
    match (&opened.other, job.options.other) {
        (Some(other), Some(name)) => pair_page(alloc, &one, name, other, &mut out)?,
        _ => print_page(&one, &mut out)?,
    }
    Ok(out)
}

// Writes the page in one piece.
fn write_page<'a, O: Sink>(alloc: Global, job: &Job<'a>, opened: &Opened, out: &mut O) -> Ending<'a>
    ensures ends { (told : Option Held) (names : Names) → AllDrawn told names → MayDraw told names result }
    ensures written { Written (Some (Draw (names_in job.now))) result (O.written out.old) (O.written out.new) }
{
    match page(alloc, job, opened) {
        Err(_) => Ending::Memory,
        Ok(page) => match out.write(page.as_slice()) {
            Err(_) => Ending::WriteFault,
            Ok(()) => Ending::Done,
        },
    }
}

// Draws what a job names, and answers what ended it.
fn draw<'a, H: Shelf, O: Sink>(
    alloc: Global,
    job: &Job<'a>,
    shelf: &mut H,
    out: &mut O,
) -> Ending<'a>
    ensures ends { MayDraw (H.held shelf.old) (names_in job.now) result }
    ensures written { Written (Some (Draw (names_in job.now))) result (O.written out.old) (O.written out.new) }
{
    match open_all(alloc, job, shelf) {
        Err(ending) => ending,
        Ok(opened) => write_page(alloc, job, &opened, out),
    }
}

// Writes what the program is and how it is called.
#[tactic(auto, unfolding(crate::specs::Lines::help_text))]
fn write_help<'a, O: Sink>(out: &mut O) -> Ending<'a>
    ensures ends { MayTell result }
    ensures written { Written (Some Help) result (O.written out.old) (O.written out.new) }
{
    match out.write(HELP.as_bytes()) {
        Err(_) => Ending::WriteFault,
        Ok(()) => Ending::Done,
    }
}

// Writes the version.
#[tactic(auto, unfolding(crate::specs::Lines::version_text))]
fn write_version<'a, O: Sink>(out: &mut O) -> Ending<'a>
    ensures ends { MayTell result }
    ensures written { Written (Some Version) result (O.written out.old) (O.written out.new) }
{
    match out.write(VERSION.as_bytes()) {
        Err(_) => Ending::WriteFault,
        Ok(()) => Ending::Done,
    }
}

// Does what the words ask for, and answers what ended it.
fn act<'a, H: Shelf, O: Sink>(
    alloc: Global,
    words: &'a Vec<String>,
    shelf: &mut H,
    out: &mut O,
) -> Ending<'a>
    ensures ends { MayEnd (H.held shelf.old) (asked_of (texts_of words.now)) result }
    ensures written { Written (asked_of (texts_of words.now)) result (O.written out.old) (O.written out.new) }
{
    match read_request(words) {
        None => Ending::Usage,
        Some(Request::Help) => write_help(out),
        Some(Request::Version) => write_version(out),
        Some(Request::Draw(job)) => draw(alloc, &job, shelf, out),
    }
}

// Says the line of an ending, and answers how the program ends.
fn say_ending<E: Sink>(alloc: Global, ending: &Ending<'_>, say: &mut E) -> Status
    ensures { Said ending.now
        (over_sink (E.written say.old) (E.written say.new) (E.faults say.old) (E.faults say.new)) result }
{
    match ending.line(alloc) {
        Ok(line) => {
            let _ = say.write(line.as_slice());
            ending.status()
        }
        Err(_) => {
            let _ = say.write(NO_MEMORY.as_bytes());
            Status::Memory
        }
    }
}

/// Draws the output text that the words name, and the other one beside it where they name two: one page of HTML goes to
/// `out`, in one piece. For `--help` and `--version` it tells of itself.
///
/// Where it does not end as Done, one line for the user goes to `say`. A file may have at most 2^26 bytes; one that is
/// no output text, with labels or without, is refused by its line. Nothing is written unless all files were drawn.
pub fn serve<H: Shelf, O: Sink, E: Sink>(
    alloc: Global,
    words: &Vec<String>,
    shelf: &mut H,
    out: &mut O,
    say: &mut E,
) -> Status
    ensures { Serves (H.held shelf.old) (asked_of (texts_of words.now))
        (over_sink (O.written out.old) (O.written out.new) (O.faults out.old) (O.faults out.new))
        (over_sink (E.written say.old) (E.written say.new) (E.faults say.old) (E.faults say.new))
        result }
{
    let ending = act(alloc, words, shelf, out);
    say_ending(alloc, &ending, say)
}
