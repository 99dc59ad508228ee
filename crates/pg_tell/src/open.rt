//! The files of which it is told.
ghost use Rattle.std.specs.Prelude.{◌≡◌, ◌≤◌, ◌^◌, length, IfOk, IfErr};
ghost use Rattle.pg_command.specs.Words.{IsStyle, named, style_name};
ghost use Rattle.pg_command.specs.declared.ending.Ending.TheVariants.{BadList, BadStyle, Memory};
ghost use Rattle.pg_outside.specs.Outside.{IsFile};
ghost use Rattle.pg_tell.specs.Course.{FetchStops, FileStops, GalleyStops, HasGalley, HasStyle};
ghost use Rattle.pg_tell.specs.Course.{OrMemory, StyleStops};

use crate::refusal::{FileLine, Stop, Why};
use pg_command::{Ending, StyleWord};
use pg_fault_lines::{key_line, line_text, spot_of, toml_fault};
use pg_fault_words::{LONG_GALLEY, LONG_STYLE, Remark, Row, UNREAD, list_row, style_row, value_at};
use pg_list::Galley;
use pg_outside::{FILE_LIMIT, Fetch, Shelf};
use pg_showbox::{ListFault, ListKind, read_galley};
use pg_style::{Style, plain_style};
use pg_stylefile::{StyleFault, StyleKind, read_style};
use std::alloc::{AllocError, Global};

/// The words of a line without a kind.
pub fn remark_why(remark: Remark) -> Why {
    Why::words("It comes ", remark.cause, remark.act)
}

// A stop at a fault without a line.
fn stop<'a>(ending: Ending<'a>, remark: Remark) -> Stop<'a>
    ensures { result.ending ≡ ending.entry }
{
    Stop {
        ending,
        why: remark_why(remark),
    }
}

/// A stop where memory ran out.
pub fn no_memory<'a>() -> Stop<'a>
    ensures { result.ending ≡ Memory }
{
    Stop {
        ending: Ending::Memory,
        why: Why::words("", "", ""),
    }
}

// Fetches the file of this name, or answers what stops the program.
fn fetch<'a, H: Shelf>(
    alloc: Global,
    name: &'a str,
    long: Remark,
    shelf: &mut H,
) -> Result<Vec<u8>, Stop<'a>>
    ensures bytes { IfOk result (λ bytes. IsFile (H.held shelf.old) name.now bytes.items) }
    ensures short { IfOk result (λ bytes. length bytes.items ≤ 2 ^ 26) }
    ensures stopped { IfErr result (λ stop. FetchStops (H.held shelf.old) name.now stop.ending) }
    ensures same { H.held shelf.new ≡ H.held shelf.old }
{
    let mut bytes = Vec::new(alloc);
    match shelf.fetch(alloc, name, FILE_LIMIT, &mut bytes) {
        Err(Fetch::Memory) => Err(no_memory()),
        Err(Fetch::TooLong) => Err(stop(Ending::TooLong(name), long)),
        Err(Fetch::Failed | Fetch::Missing) => Err(stop(Ending::Unread(name), UNREAD)),
        Ok(()) => Ok(bytes),
    }
}

// The words of a row.
fn why(row: Row) -> Why {
    Why::words("", row.cause, row.act)
}

// What is told of a fault of a galley beside its line.
fn list_why(
    alloc: Global,
    wrap: Option<u32>,
    fault: &ListFault,
    text: &[u8],
) -> Result<Why, AllocError>
    requires { length text.now ≤ 2 ^ 26 }
{
    let mut told = why(list_row(fault.kind));
    if let Some(line) = line_text(alloc, wrap, fault.line, text)? {
        told.line = Some(FileLine {
            number: fault.line,
            text: line,
        });
    }
    Ok(told)
}

// What stops the program where the file of a galley is at fault.
fn list_stop<'a>(
    alloc: Global,
    name: &'a str,
    wrap: Option<u32>,
    fault: ListFault,
    text: &[u8],
) -> Stop<'a>
    requires { length text.now ≤ 2 ^ 26 }
    ensures { OrMemory (BadList name.entry fault) result.ending }
{
    match list_why(alloc, wrap, &fault, text) {
        Ok(why) => Stop {
            ending: Ending::BadList(name, fault),
            why,
        },
        Err(_) => no_memory(),
    }
}

/// The galley of the file of this name, with lines joined at a width, or what stops the program.
pub fn open_galley<'a, H: Shelf>(
    alloc: Global,
    name: &'a str,
    wrap: Option<u32>,
    shelf: &mut H,
) -> Result<Galley, Stop<'a>>
    ensures galley { IfOk result (HasGalley (H.held shelf.old) name.now wrap) }
    ensures stopped { IfErr result (λ stop. GalleyStops (H.held shelf.old) name.now wrap stop.ending) }
    ensures same { H.held shelf.new ≡ H.held shelf.old }
{
    let text = fetch(alloc, name, LONG_GALLEY, shelf)?;
    match read_galley(alloc, &text, wrap) {
        Ok(galley) => Ok(galley),
        Err(fault) => match fault.kind {
            ListKind::Memory => Err(no_memory()),
            _ => Err(list_stop(alloc, name, wrap, fault, &text)),
        },
    }
}

// The line of a style that is told for a key.
fn style_line(alloc: Global, key: &[u8], text: &[u8]) -> Result<Option<FileLine>, AllocError>
    requires { length text.now ≤ 2 ^ 26 }
{
    let Some(number) = key_line(alloc, &spot_of(key), text)? else {
        return Ok(None);
    };
    numbered_line(alloc, number, text)
}

// The line of this number.
fn numbered_line(alloc: Global, number: u32, text: &[u8]) -> Result<Option<FileLine>, AllocError>
    requires { length text.now ≤ 2 ^ 26 }
{
    match line_text(alloc, None, number, text)? {
        Some(text) => Ok(Some(FileLine { number, text })),
        None => Ok(None),
    }
}

// What is told where a text is no TOML.
fn toml_why(alloc: Global, text: &[u8]) -> Result<Why, AllocError>
    requires { length text.now ≤ 2 ^ 26 }
{
    let mut told = why(style_row(StyleKind::Toml));
    if let Some(fault) = toml_fault(alloc, text)? {
        told.line = numbered_line(alloc, fault.line, text)?;
        told.reason = Some(fault.cause);
    }
    Ok(told)
}

// What is told of a fault of a style beside its line.
fn style_why(alloc: Global, fault: &StyleFault, text: &[u8]) -> Result<Why, AllocError>
    requires { length text.now ≤ 2 ^ 26 }
{
    let key = fault.key.as_slice();
    let mut told = why(style_row(fault.kind));
    told.line = style_line(alloc, key, text)?;
    told.takes = value_at(key);
    Ok(told)
}

// The same for any kind of fault.
fn any_why(alloc: Global, fault: &StyleFault, text: &[u8]) -> Result<Why, AllocError>
    requires { length text.now ≤ 2 ^ 26 }
{
    match fault.kind {
        StyleKind::Toml => toml_why(alloc, text),
        _ => style_why(alloc, fault, text),
    }
}

// What stops the program where the file of a style is at fault.
fn style_stop<'a>(alloc: Global, name: &'a str, fault: StyleFault, text: &[u8]) -> Stop<'a>
    requires { length text.now ≤ 2 ^ 26 }
    ensures { OrMemory (BadStyle name.entry fault) result.ending }
{
    match any_why(alloc, &fault, text) {
        Ok(why) => Stop {
            ending: Ending::BadStyle(name, fault),
            why,
        },
        Err(_) => no_memory(),
    }
}

// The style of the file of this name, or what stops the program.
fn open_style_file<'a, H: Shelf>(
    alloc: Global,
    name: &'a str,
    shelf: &mut H,
) -> Result<Style, Stop<'a>>
    ensures style { IfOk result (HasStyle (H.held shelf.old) (named name.now)) }
    ensures stopped { IfErr result (λ stop. FileStops (H.held shelf.old) name.now stop.ending) }
    ensures same { H.held shelf.new ≡ H.held shelf.old }
{
    let text = fetch(alloc, name, LONG_STYLE, shelf)?;
    match read_style(alloc, &text) {
        Ok(style) => Ok(style),
        Err(fault) => match fault.kind {
            StyleKind::Memory => Err(no_memory()),
            _ => Err(style_stop(alloc, name, fault, &text)),
        },
    }
}

/// The style of this word, or what stops the program.
pub fn open_style<'a, H: Shelf>(
    alloc: Global,
    word: StyleWord<'a>,
    shelf: &mut H,
) -> Result<Style, Stop<'a>>
    requires { IsStyle word }
    ensures style { IfOk result (HasStyle (H.held shelf.old) (style_name word.entry)) }
    ensures stopped { IfErr result (λ stop. StyleStops (H.held shelf.old) (style_name word.entry) stop.ending) }
    ensures same { H.held shelf.new ≡ H.held shelf.old }
{
    match word {
        StyleWord::Plain(height) => Ok(plain_style(alloc, height)),
        StyleWord::Named(name) => open_style_file(alloc, name, shelf),
    }
}
