//! Lines of a file.
ghost use Rattle.std.specs.Prelude.{◌≡◌, ◌<◌, ◌^◌, true, length, IfOk, IfSome};
ghost use Rattle.std.specs.Option.{option_map};
ghost use Rattle.pg_fault_lines.specs.Spots.{line_at, tells_of};

use pg_fault_lines::Spot;
use std::alloc::{AllocError, Global};

/// The line of this number.
pub fn line_text(
    alloc: Global,
    wrap: Option<u32>,
    number: u32,
    text: &[u8],
) -> Result<Option<Vec<u8>>, AllocError>
    requires { length text.now < 2 ^ 31 }
    ensures { IfOk result (λ line. option_map (λ it. it.items) line ≡ line_at wrap number text.now) }
{
    pg_fault_lines::line_text(alloc, wrap, number, text)
}

/// The line of a key of a style.
pub fn key_line(alloc: Global, spot: &Spot<'_>, text: &[u8]) -> Result<Option<u32>, AllocError>
    requires { length text.now < 2 ^ 31 }
    ensures { IfOk result (λ found. IfSome found (λ number.
        tells_of spot.now.table.now spot.now.key.now text.now number ≡ true)) }
{
    pg_fault_lines::key_line(alloc, spot, text)
}
