//! The texts that are drawn, and the style.
ghost use Rattle.std.specs.Prelude.{◌≡◌, ◌<◌, ◌≤◌, ◌^◌, ◌++◌, Err, codes, length, IfOk, IfErr};
ghost use Rattle.pg_labels.specs.Reading.{Gives, output_of};
ghost use Rattle.pg_outside.specs.Outside.{IsFile};
ghost use Rattle.pg_draw.specs.Texts.{HasDrawing, HasOutput, HasStyle, Stops, StyleStops, output_in, fault_number as number_of_fault, said_of};

use crate::ending::Ending;
use pg_drawing::{Drawing, read_drawing};
use pg_labels::{Output, OutputFault, read_output};
use pg_outside::{FILE_LIMIT, Fetch, Shelf};
use pg_style::Style;
use pg_stylefile::{StyleKind, read_style};
use std::alloc::Global;

// What a text with labels says, or else what line the shorter one is at fault at.
fn otherwise(alloc: Global, text: &[u8], line: u32) -> Result<Output, OutputFault>
    requires { length text.now < 2 ^ 31 }
    ensures { Gives result (output_in (Err line) (output_of text.now)) }
{
    match read_output(alloc, text) {
        Ok(output) => Ok(output),
        Err(OutputFault::BadText { .. }) => Err(OutputFault::BadText { line }),
        Err(OutputFault::Memory) => Err(OutputFault::Memory),
    }
}

// A text with a line behind it that says that there are no labels.
fn labelled(alloc: Global, text: &[u8]) -> Result<Vec<u8>, OutputFault>
    ensures { IfOk result (λ longer. longer.items ≡ text.now ++ codes "labels 0\n") }
{
    let Ok(mut longer) = Vec::from_slice(alloc, text) else {
        return Err(OutputFault::Memory);
    };
    match longer.extend_from_slice(b"labels 0\n") {
        Ok(()) => Ok(longer),
        Err(_) => Err(OutputFault::Memory),
    }
}

// What a text says that lacks its labels, where it is at fault at this line.
fn without_labels(alloc: Global, text: &[u8], line: u32) -> Result<Output, OutputFault>
    requires { length text.now ≤ 2 ^ 26 }
    ensures { Gives result (output_in (Err line) (output_of (text.now ++ codes "labels 0\n"))) }
{
    match labelled(alloc, text) {
        Ok(longer) => otherwise(alloc, longer.as_slice(), line),
        Err(_) => Err(OutputFault::Memory),
    }
}

/// What an output text says, or one that lacks its labels. `BadText` comes exactly where it is neither, with the least
/// number of lines that begin none.
#[tactic(auto, unfolding(crate::specs::Texts::said_of))]
pub fn read_said(alloc: Global, text: &[u8]) -> Result<Output, OutputFault>
    requires { length text.now ≤ 2 ^ 26 }
    ensures { Gives result (said_of text.now) }
{
    match read_output(alloc, text) {
        Ok(output) => Ok(output),
        Err(OutputFault::BadText { line }) => without_labels(alloc, text, line),
        Err(OutputFault::Memory) => Err(OutputFault::Memory),
    }
}

// Fetches the file of this name, or answers what ends the program.
fn fetch<'a, H: Shelf>(alloc: Global, name: &'a str, shelf: &mut H) -> Result<Vec<u8>, Ending<'a>>
    ensures bytes { IfOk result (λ bytes. IsFile (H.held shelf.old) name.now bytes.items) }
    ensures short { IfOk result (λ bytes. length bytes.items ≤ 2 ^ 26) }
    ensures stopped { IfErr result (Stops (H.held shelf.old) name.now) }
    ensures style_stopped { IfErr result (StyleStops (H.held shelf.old) name.now) }
    ensures same { H.held shelf.new ≡ H.held shelf.old }
{
    let mut bytes = Vec::new(alloc);
    match shelf.fetch(alloc, name, FILE_LIMIT, &mut bytes) {
        Err(Fetch::Memory) => Err(Ending::Memory),
        Err(Fetch::TooLong) => Err(Ending::TooLong(name)),
        Err(Fetch::Failed | Fetch::Missing) => Err(Ending::Unread(name)),
        Ok(()) => Ok(bytes),
    }
}

// What the file of this name says, or what ends the program.
fn open_output<'a, H: Shelf>(
    alloc: Global,
    name: &'a str,
    shelf: &mut H,
) -> Result<Output, Ending<'a>>
    ensures output { IfOk result (HasOutput (H.held shelf.old) name.now) }
    ensures stopped { IfErr result (Stops (H.held shelf.old) name.now) }
    ensures same { H.held shelf.new ≡ H.held shelf.old }
{
    let bytes = fetch(alloc, name, shelf)?;
    match read_said(alloc, bytes.as_slice()) {
        Ok(output) => Ok(output),
        Err(OutputFault::BadText { line }) => Err(Ending::BadOutput(name, line)),
        Err(OutputFault::Memory) => Err(Ending::Memory),
    }
}

/// What a text says, and its drawing.
#[derive(Drop)]
pub struct Drawn {
    pub output: Output,
    pub drawing: Drawing,
}

/// What the file of this name says, with its drawing, or what ends the program.
pub fn open_drawing<'a, H: Shelf>(
    alloc: Global,
    name: &'a str,
    shelf: &mut H,
) -> Result<Drawn, Ending<'a>>
    ensures drawing { IfOk result (λ it. HasDrawing (H.held shelf.old) name.now it.output it.drawing) }
    ensures stopped { IfErr result (Stops (H.held shelf.old) name.now) }
    ensures same { H.held shelf.new ≡ H.held shelf.old }
{
    let output = open_output(alloc, name, shelf)?;
    match read_drawing(alloc, output.page_text.as_slice()) {
        Ok(drawing) => Ok(Drawn { output, drawing }),
        Err(_) => Err(Ending::Memory),
    }
}

// The number of the fault of a style, or None where memory ran out.
fn style_fault(kind: StyleKind) -> Option<u8>
    ensures { result ≡ number_of_fault kind }
{
    match kind {
        StyleKind::Memory => None,
        _ => Some(kind.number()),
    }
}

/// The style of the file of this name, or what ends the program.
#[tactic(auto, using(crate::proofs::BadStyles::bad_style))]
pub fn open_style<'a, H: Shelf>(
    alloc: Global,
    name: &'a str,
    shelf: &mut H,
) -> Result<Style, Ending<'a>>
    ensures style { IfOk result (HasStyle (H.held shelf.old) name.now) }
    ensures stopped { IfErr result (StyleStops (H.held shelf.old) name.now) }
    ensures same { H.held shelf.new ≡ H.held shelf.old }
{
    let bytes = fetch(alloc, name, shelf)?;
    match read_style(alloc, bytes.as_slice()) {
        Ok(style) => Ok(style),
        Err(fault) => match style_fault(fault.kind) {
            Some(number) => Err(Ending::BadStyle(name, number)),
            None => Err(Ending::Memory),
        },
    }
}
