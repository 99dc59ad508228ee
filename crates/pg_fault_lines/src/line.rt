//! The line of a number.
ghost use Rattle.std.specs.Prelude.{◌≡◌, ◌<◌, ◌^◌, length, IfOk};
ghost use Rattle.std.specs.Option.{option_map};
ghost use Rattle.pg_fault_lines.specs.Spots.{line_at};

use pg_scan::take_line;
use std::alloc::{AllocError, Global};

/// The line of this number, as the reader of galleys takes it: with `wrap` one of exactly so many bytes is joined with
/// what follows it, and has the number of its first part. None comes exactly where there is none.
#[tactic(auto, unfolding(crate::specs::Spots::line_at, pg_scan::specs::Lines::joined))]
pub fn line_text(
    alloc: Global,
    wrap: Option<u32>,
    number: u32,
    text: &[u8],
) -> Result<Option<Vec<u8>>, AllocError>
    requires { length text.now < 2 ^ 31 }
    ensures { IfOk result (λ line. option_map (λ it. it.items) line ≡ line_at wrap number text.now) }
{
    let mut line = Vec::new(alloc);
    let mut rest = text;
    let mut at = 1;
    'lines: while let Some((after, next)) = take_line(wrap, at, rest, &mut line)? {
        if at == number {
            return Ok(Some(line));
        }
        rest = after;
        at = next;
    }
    Ok(None)
}
