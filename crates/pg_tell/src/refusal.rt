//! What is told of a refusal.
ghost use Rattle.std.specs.Prelude.{◌≡◌, IfOk};
ghost use Rattle.pg_tell.specs.Lines.{Begins, refusal_front};

use crate::said::said_text;
use pg_command::Ending;
use pg_pieces::{Form, Piece, print};
use std::alloc::{AllocError, Global};

/// A line of a file.
#[derive(Drop)]
pub struct FileLine {
    pub number: u32,
    pub text: Vec<u8>,
}

/// What is told of a refusal beside its line: the line of the file, why no TOML stands there, what a key takes, what the
/// fault is or when it comes, behind words for that, and what to do.
#[derive(Drop)]
pub struct Why {
    pub line: Option<FileLine>,
    pub reason: Option<Vec<u8>>,
    pub takes: Option<&'static str>,
    pub lead: &'static str,
    pub cause: &'static str,
    pub act: &'static str,
}

impl Why {
    /// These words, and no line.
    pub fn words(lead: &'static str, cause: &'static str, act: &'static str) -> Why {
        Why {
            line: None,
            reason: None,
            takes: None,
            lead,
            cause,
            act,
        }
    }
}

/// What stops the program.
#[derive(Drop)]
pub struct Stop<'a> {
    pub ending: Ending<'a>,
    pub why: Why,
}

// The most bytes of a line that are told.
const MOST: usize = 160;

// The front of a line that is told.
fn front(text: &[u8]) -> &[u8] {
    text.get(..MOST).unwrap_or(text)
}

// The number of a line, for a reader.
fn print_number(number: u32, out: &mut Vec<u8>) -> Result<(), AllocError> {
    print(
        Form::Plain,
        out,
        &[Piece::Mark("  line "), Piece::Count(u64::from(number))],
    )
}

// The text of a line, for a reader.
fn print_shown_text(text: &[u8], out: &mut Vec<u8>) -> Result<(), AllocError> {
    print(
        Form::Plain,
        out,
        &[Piece::Mark("   "), Piece::Text(text), Piece::Mark("\n")],
    )
}

// The line of a file, for a reader.
fn print_shown(line: &FileLine, out: &mut Vec<u8>) -> Result<(), AllocError> {
    print_number(line.number, out)?;
    if line.text.is_empty() {
        out.extend_from_slice(b" is empty\n")
    } else {
        print_shown_text(front(&line.text), out)
    }
}

// The line of a file.
fn print_line(form: Form, line: &FileLine, out: &mut Vec<u8>) -> Result<(), AllocError> {
    match form {
        Form::Plain => print_shown(line, out),
        Form::Json => print(
            form,
            out,
            &[
                Piece::Mark(",\"line\":"),
                Piece::Count(u64::from(line.number)),
                Piece::Mark(",\"text\":\""),
                Piece::Text(front(&line.text)),
                Piece::Mark("\""),
            ],
        ),
    }
}

// A text, behind these words or as the value of this key.
fn print_named(
    form: Form,
    words: &'static str,
    key: &'static str,
    text: Piece<'_>,
    out: &mut Vec<u8>,
) -> Result<(), AllocError> {
    match form {
        Form::Plain => print(
            form,
            out,
            &[
                Piece::Mark("  "),
                Piece::Mark(words),
                text,
                Piece::Mark("\n"),
            ],
        ),
        Form::Json => print(
            form,
            out,
            &[
                Piece::Mark(",\""),
                Piece::Mark(key),
                Piece::Mark("\":\""),
                text,
                Piece::Mark("\""),
            ],
        ),
    }
}

// What is told beside the line of a refusal.
fn print_why(form: Form, why: &Why, out: &mut Vec<u8>) -> Result<(), AllocError> {
    if let Some(line) = &why.line {
        print_line(form, line, out)?;
    }
    if let Some(reason) = &why.reason {
        print_named(form, "TOML: ", "toml", Piece::Text(reason), out)?;
    }
    print_named(form, why.lead, "cause", Piece::Words(why.cause), out)?;
    if let Some(takes) = why.takes {
        print_named(form, "It takes: ", "takes", Piece::Words(takes), out)?;
    }
    print_named(form, "", "act", Piece::Words(why.act), out)?;
    match form {
        Form::Plain => Ok(()),
        Form::Json => print(form, out, &[Piece::Mark("}\n")]),
    }
}

// The line of a refusal.
fn print_front(alloc: Global, form: Form, ending: &Ending<'_>) -> Result<Vec<u8>, AllocError>
    ensures { IfOk result (λ out. out.items ≡ refusal_front form ending.now) }
{
    let said = said_text(alloc, ending)?;
    let mut out = Vec::new(alloc);
    match form {
        Form::Plain => print(
            form,
            &mut out,
            &[
                Piece::Mark("pg_tell: "),
                Piece::Text(&said),
                Piece::Mark("\n"),
            ],
        )?,
        Form::Json => print(
            form,
            &mut out,
            &[
                Piece::Mark("{\"version\":1,\"status\":"),
                Piece::Count(u64::from(ending.status().number())),
                Piece::Mark(",\"said\":\""),
                Piece::Text(&said),
                Piece::Mark("\""),
            ],
        )?,
    }
    Ok(out)
}

/// What is told of a refusal.
pub fn refusal_text(alloc: Global, form: Form, stop: &Stop<'_>) -> Result<Vec<u8>, AllocError>
    ensures { IfOk result (λ out. Begins (refusal_front form stop.now.ending) out.items) }
{
    let mut rest = Vec::new(alloc);
    print_why(form, &stop.why, &mut rest)?;
    let mut out = print_front(alloc, form, &stop.ending)?;
    out.extend_from_slice(&rest)?;
    Ok(out)
}
