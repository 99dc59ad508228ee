//! The files of a command.
ghost use Rattle.std.specs.Prelude.{◌≡◌, ◌≢◌, ◌≤◌, ◌^◌, Ok, Err, IfOk, IfErr, IfSome, length};
ghost use Rattle.pg_command.specs.declared.status.Status.TheVariants.{Usage};
ghost use Rattle.pg_command.specs.Words.{style_name, IsStyle};
ghost use Rattle.pg_command.specs.Lines.{status_of, line_of};
ghost use Rattle.pg_course.specs.Calls.{AreSaid, NoFile, NoStyle, Stopped, over_shelf};
ghost use Rattle.pg_course.specs.Course.{OnSettled, OnReadFault, OnWriteFault, fetched, opened, opened_style};
ghost use Rattle.pg_course.specs.Course.{said_style, read_by, stop, opened_output, opened_paras, opened_script};
ghost use Rattle.pg_labels.specs.Reading.{IsFew};
ghost use Rattle.pg_stylefile.specs.Style.{style_of_text};

use pg_command::{Ending, StyleWord};
use pg_edits::{Script, ScriptKind, read_script};
use pg_hlist::{Paras, read_paras};
use pg_labels::{Output, OutputFault, read_output};
use pg_list::Galley;
use pg_outside::{FILE_LIMIT, Fetch, Shelf};
use pg_showbox::{ListKind, read_galley};
use pg_style::{Style, plain_style};
use pg_stylefile::{StyleKind, read_style};
use std::alloc::Global;

/// The file of a galley, the width at which its lines are joined, and where memory for it comes from.
#[derive(Clone, Copy)]
pub struct GalleyFile<'a> {
    pub alloc: Global,
    pub name: &'a str,
    pub wrap: Option<u32>,
}

// Fetches the file of this name, or answers what ends the run.
fn fetch_file<'a, H: Shelf>(
    alloc: Global,
    name: &'a str,
    shelf: &mut H,
) -> Result<Vec<u8>, Ending<'a>>
    ensures bytes { IfOk result (λ bytes. IfSome (H.held shelf.old) (λ held.
        fetched name.now (held name.now) ≡ Ok bytes.items)) }
    ensures short { IfOk result (λ bytes. length bytes.items ≤ 2 ^ 26) }
    ensures stopped { IfErr result (Stopped (λ held. fetched name.now (held name.now)) (NoFile name.now)
        (over_shelf (H.held shelf.old) (H.faults shelf.old) (H.faults shelf.new) (H.last_failed shelf.new))) }
    ensures same { H.held shelf.new ≡ H.held shelf.old }
    ensures later { H.faults shelf.old ≤ H.faults shelf.new }
{
    let mut bytes = Vec::new(alloc);
    match shelf.fetch(alloc, name, FILE_LIMIT, &mut bytes) {
        Err(Fetch::Memory) => Err(Ending::Memory),
        Err(Fetch::TooLong) => Err(Ending::TooLong(name)),
        Err(Fetch::Failed | Fetch::Missing) => Err(Ending::Unread(name)),
        Ok(()) => Ok(bytes),
    }
}

/// Fetches the file of this name and reads its galley, or answers what ends the run. With `wrap` a
/// line of exactly so many bytes is joined with what follows it.
pub fn open_galley<'a, H: Shelf>(
    alloc: Global,
    name: &'a str,
    wrap: Option<u32>,
    shelf: &mut H,
) -> Result<Galley, Ending<'a>>
    ensures galley { IfOk result (λ galley. IfSome (H.held shelf.old) (λ held.
        opened name.now wrap (held name.now) ≡ Ok galley)) }
    ensures stopped { IfErr result (Stopped (λ held. opened name.now wrap (held name.now)) (NoFile name.now)
        (over_shelf (H.held shelf.old) (H.faults shelf.old) (H.faults shelf.new) (H.last_failed shelf.new))) }
    ensures same { H.held shelf.new ≡ H.held shelf.old }
    ensures later { H.faults shelf.old ≤ H.faults shelf.new }
{
    let bytes = fetch_file(alloc, name, shelf)?;
    match read_galley(alloc, &bytes, wrap) {
        Ok(galley) => Ok(galley),
        Err(fault) => match fault.kind {
            ListKind::Memory => Err(Ending::Memory),
            _ => Err(Ending::BadList(name, fault)),
        },
    }
}

// The style of a text, or what ends the run.
fn style_of_bytes<'a>(alloc: Global, name: &'a str, bytes: &[u8]) -> Result<Style, Ending<'a>>
    ensures style { IfOk result (λ style. said_style name.now (style_of_text bytes.now) ≡ Ok style) }
    ensures settled { IfErr result (λ ending. OnSettled (status_of ending)
        (said_style name.now (style_of_text bytes.now) ≡ Err (stop (status_of ending) (line_of ending)))) }
    ensures no_read { IfErr result (λ ending. OnReadFault (status_of ending) ⊥) }
    ensures no_write { IfErr result (λ ending. OnWriteFault (status_of ending) ⊥) }
    ensures no_usage { IfErr result (λ ending. status_of ending ≢ Usage) }
{
    match read_style(alloc, bytes) {
        Ok(style) => Ok(style),
        Err(fault) => match fault.kind {
            StyleKind::Memory => Err(Ending::Memory),
            _ => Err(Ending::BadStyle(name, fault)),
        },
    }
}

// Fetches the file of this name and reads its style, or answers what ends the run.
fn open_style_file<'a, H: Shelf>(
    alloc: Global,
    name: &'a str,
    shelf: &mut H,
) -> Result<Style, Ending<'a>>
    ensures style { IfOk result (λ style. IfSome (H.held shelf.old) (λ held.
        read_by (λ bytes. said_style name.now (style_of_text bytes)) (fetched name.now (held name.now)) ≡ Ok style)) }
    ensures stopped { IfErr result (Stopped (λ held.
        read_by (λ bytes. said_style name.now (style_of_text bytes)) (fetched name.now (held name.now)))
        (NoFile name.now)
        (over_shelf (H.held shelf.old) (H.faults shelf.old) (H.faults shelf.new) (H.last_failed shelf.new))) }
    ensures same { H.held shelf.new ≡ H.held shelf.old }
    ensures later { H.faults shelf.old ≤ H.faults shelf.new }
{
    let bytes = fetch_file(alloc, name, shelf)?;
    style_of_bytes(alloc, name, &bytes)
}

/// The style of this word: that of its file, or the plain one of its height; or what ends the run.
pub fn open_style<'a, H: Shelf>(
    alloc: Global,
    word: StyleWord<'a>,
    shelf: &mut H,
) -> Result<Style, Ending<'a>>
    requires { IsStyle word }
    ensures style { IfOk result (λ style. IfSome (H.held shelf.old) (λ held.
        opened_style (style_name word.entry) held ≡ Ok style)) }
    ensures stopped { IfErr result (Stopped (opened_style (style_name word.entry)) (NoStyle (style_name word.entry))
        (over_shelf (H.held shelf.old) (H.faults shelf.old) (H.faults shelf.new) (H.last_failed shelf.new))) }
    ensures same { H.held shelf.new ≡ H.held shelf.old }
    ensures later { H.faults shelf.old ≤ H.faults shelf.new }
{
    match word {
        StyleWord::Plain(height) => Ok(plain_style(alloc, height)),
        StyleWord::Named(name) => open_style_file(alloc, name, shelf),
    }
}

/// Fetches the file of this name and reads its output text, or answers what ends the run.
pub fn open_output<'a, H: Shelf>(
    alloc: Global,
    name: &'a str,
    shelf: &mut H,
) -> Result<Output, Ending<'a>>
    ensures output { IfOk result (λ output. IfSome (H.held shelf.old) (λ held.
        opened_output name.now (held name.now) ≡ Ok output)) }
    ensures few { IfOk result IsFew }
    ensures stopped { IfErr result (Stopped (λ held. opened_output name.now (held name.now)) (NoFile name.now)
        (over_shelf (H.held shelf.old) (H.faults shelf.old) (H.faults shelf.new) (H.last_failed shelf.new))) }
    ensures same { H.held shelf.new ≡ H.held shelf.old }
    ensures later { H.faults shelf.old ≤ H.faults shelf.new }
{
    let bytes = fetch_file(alloc, name, shelf)?;
    match read_output(alloc, &bytes) {
        Ok(output) => Ok(output),
        Err(OutputFault::BadText { line }) => Err(Ending::BadOutput(name, line)),
        Err(OutputFault::Memory) => Err(Ending::Memory),
    }
}

/// Fetches the file of this name and reads its edit script, or answers what ends the run.
pub fn open_script<'a, H: Shelf>(
    alloc: Global,
    name: &'a str,
    shelf: &mut H,
) -> Result<Script, Ending<'a>>
    ensures script { IfOk result (λ script. IfSome (H.held shelf.old) (λ held.
        opened_script name.now (held name.now) ≡ Ok script)) }
    ensures stopped { IfErr result (Stopped (λ held. opened_script name.now (held name.now)) (NoFile name.now)
        (over_shelf (H.held shelf.old) (H.faults shelf.old) (H.faults shelf.new) (H.last_failed shelf.new))) }
    ensures same { H.held shelf.new ≡ H.held shelf.old }
    ensures later { H.faults shelf.old ≤ H.faults shelf.new }
{
    let bytes = fetch_file(alloc, name, shelf)?;
    match read_script(alloc, &bytes) {
        Ok(script) => Ok(script),
        Err(fault) => match fault.kind {
            ScriptKind::Memory => Err(Ending::Memory),
            _ => Err(Ending::BadScript(name, fault)),
        },
    }
}

/// Fetches the file of this name and reads its paragraphs, or answers what ends the run.
pub fn open_paras<'a, H: Shelf>(
    alloc: Global,
    name: &'a str,
    shelf: &mut H,
) -> Result<Paras, Ending<'a>>
    ensures paras { IfOk result (λ paras. IfSome (H.held shelf.old) (λ held.
        opened_paras name.now (held name.now) ≡ Ok paras)) }
    ensures said { IfOk result AreSaid }
    ensures stopped { IfErr result (Stopped (λ held. opened_paras name.now (held name.now)) (NoFile name.now)
        (over_shelf (H.held shelf.old) (H.faults shelf.old) (H.faults shelf.new) (H.last_failed shelf.new))) }
    ensures same { H.held shelf.new ≡ H.held shelf.old }
    ensures later { H.faults shelf.old ≤ H.faults shelf.new }
{
    let bytes = fetch_file(alloc, name, shelf)?;
    match read_paras(alloc, &bytes) {
        Ok(paras) => Ok(paras),
        Err(fault) => match fault.kind {
            ListKind::Memory => Err(Ending::Memory),
            _ => Err(Ending::BadList(name, fault)),
        },
    }
}
