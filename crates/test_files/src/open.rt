//! Files that are fetched and read.
ghost use Rattle.std.specs.Prelude.{IfOk, length, ◌≤◌, ◌^◌};
ghost use Rattle.pg_outside.specs.Outside.{IsFile};
ghost use Rattle.test_files.specs.Opened.{IsGalleyOf, IsStyleOf};

use pg_command::Ending;
use pg_list::Galley;
use pg_outside::{FILE_LIMIT, Fetch, Shelf};
use pg_showbox::{ListKind, read_galley};
use pg_style::Style;
use pg_stylefile::{StyleKind, read_style};
use std::alloc::Global;

/// Fetches the file of this name, or answers what ends the run.
pub fn fetch_file<'a, H: Shelf>(
    alloc: Global,
    name: &'a str,
    shelf: &mut H,
) -> Result<Vec<u8>, Ending<'a>>
    ensures file { IfOk result (λ bytes. IsFile (H.held shelf.old) name.now bytes.items) }
    ensures short { IfOk result (λ bytes. length bytes.items ≤ 2 ^ 26) }
{
    let mut bytes = Vec::new(alloc);
    match shelf.fetch(alloc, name, FILE_LIMIT, &mut bytes) {
        Err(Fetch::Memory) => Err(Ending::Memory),
        Err(Fetch::TooLong) => Err(Ending::TooLong(name)),
        Err(Fetch::Failed | Fetch::Missing) => Err(Ending::Unread(name)),
        Ok(()) => Ok(bytes),
    }
}

/// Fetches the file of this name and reads its galley, or answers what ends the run.
pub fn open_galley<'a, H: Shelf>(
    alloc: Global,
    name: &'a str,
    wrap: Option<u32>,
    shelf: &mut H,
) -> Result<Galley, Ending<'a>>
    ensures { IfOk result (IsGalleyOf (H.held shelf.old) name.now wrap) }
{
    let bytes = fetch_file(alloc, name, shelf)?;
    match read_galley(alloc, &bytes, wrap) {
        Ok(galley) => Ok(galley),
        Err(fault) => match fault.kind {
            ListKind::Memory => Err(Ending::Memory),
            _ => Err(Ending::BadList(name, fault)),
        },
    }
}

/// Fetches the file of this name and reads its style, or answers what ends the run.
pub fn open_style<'a, H: Shelf>(
    alloc: Global,
    name: &'a str,
    shelf: &mut H,
) -> Result<Style, Ending<'a>>
    ensures { IfOk result (IsStyleOf (H.held shelf.old) name.now) }
{
    let bytes = fetch_file(alloc, name, shelf)?;
    match read_style(alloc, &bytes) {
        Ok(style) => Ok(style),
        Err(fault) => match fault.kind {
            StyleKind::Memory => Err(Ending::Memory),
            _ => Err(Ending::BadStyle(name, fault)),
        },
    }
}
