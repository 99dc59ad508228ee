//! The lines of a text.
ghost use Rattle.std.specs.Prelude.{◌≡◌, ◌≤◌, ◌<◌, ◌+◌, ◌^◌, length, [], ◌∷◌, MatchOption, IfSome, IfOk, ℕ};
ghost use Rattle.std.specs.List.{prefix_len};
ghost use Rattle.pg_scan.specs.Lines.{lines_of, raw_lines, trimmed, is_no_feed, is_full as is_full_line, joined};

use memchr::memchr;
use std::alloc::AllocError;

/// How many bytes stand in front of the first line feed; all where there is none.
pub fn first_line_len(text: &[u8]) -> usize
    ensures len { result ≡ prefix_len is_no_feed text.now }
    ensures within { result ≤ length text.now }
{
    memchr(b'\n', text).unwrap_or(text.len())
}

// The first line, and what follows it.
fn split_line(text: &[u8]) -> Option<(&[u8], &[u8])>
    ensures lines { MatchOption result (lines_of text.now ≡ [])
        (λ x. lines_of text.now ≡ x.0.now ∷ lines_of x.1.now) }
    ensures shorter { IfSome result (λ x. length x.1.now < length text.now) }
{
    if text.is_empty() {
        return None;
    }
    let len = first_line_len(text);
    if len >= text.len() {
        return Some((text, &[]));
    }
    Some((&text[..len], &text[len + 1..]))
}

// A line without the carriage returns at its end.
fn without_returns(line: &[u8]) -> &[u8]
    ensures { result.now ≡ trimmed line.now }
{
    let mut len = line.len();
    'returns: while len > 0 {
        if line[len - 1] != b'\r' {
            return &line[..len];
        }
        len -= 1;
    }
    &[]
}

fn is_full(wrap: Option<u32>, line: &[u8]) -> bool
    ensures { result ≡ is_full_line wrap line.now }
{
    match wrap {
        None => false,
        Some(width) => line.len() == width as usize,
    }
}

/// The first line of a text, where it is not joined with what follows it, and what follows it.
pub fn whole_line(wrap: Option<u32>, text: &[u8]) -> Option<(&[u8], &[u8])>
    ensures line { IfSome result (λ x. (number : ℕ) → joined wrap number (raw_lines text.now)
        ≡ record { number = number; text = x.0.now } ∷ joined wrap (number + 1) (raw_lines x.1.now)) }
    ensures count { IfSome result (λ x. length (raw_lines text.now) ≡ 1 + length (raw_lines x.1.now)) }
    ensures shorter { IfSome result (λ x. length x.1.now < length text.now) }
{
    let (part, after) = split_line(text)?;
    let line = without_returns(part);
    if is_full(wrap, line) {
        return None;
    }
    Some((line, after))
}

/// Puts the first line of a text into `line`, in place of what was there, and answers what follows
/// it and the number of the line there. None comes exactly where the text is empty.
///
/// A line feed ends a line; the last line may lack it. The carriage returns at the end of a line are
/// dropped and not counted. With `wrap` a line of exactly that many bytes is joined with the line
/// after it, again and again while the last part has exactly so many: TeX breaks the lines of its
/// log at `max_print_line`. After a refusal `line` holds a part of the line.
pub fn take_line<'a>(
    wrap: Option<u32>,
    number: u32,
    text: &'a [u8],
    line: &mut Vec<u8>,
) -> Result<Option<(&'a [u8], u32)>, AllocError>
    requires { number + length text.now < 2 ^ 32 }
    ensures line { IfOk result (λ found. MatchOption found (raw_lines text.now ≡ [])
        (λ x. joined wrap number (raw_lines text.now)
        ≡ record { number = number; text = line.new.items } ∷ joined wrap x.1 (raw_lines x.0.now))) }
    ensures count { IfOk result (λ found. IfSome found
        (λ x. x.1 + length (raw_lines x.0.now) ≡ number + length (raw_lines text.now))) }
    ensures shorter { IfOk result (λ found. IfSome found (λ x. length x.0.now < length text.now)) }
    ensures room { IfOk result (λ found. IfSome found (λ x. x.1 + length x.0.now ≤ number + length text.now)) }
{
    line.clear();
    let Some((part, after)) = split_line(text) else {
        return Ok(None);
    };
    let part = without_returns(part);
    line.extend_from_slice(part)?;
    let mut open = is_full(wrap, part);
    let mut rest = after;
    let mut next = number + 1;
    'parts: while open {
        let Some((part, after)) = split_line(rest) else {
            return Ok(Some((rest, next)));
        };
        let part = without_returns(part);
        line.extend_from_slice(part)?;
        open = is_full(wrap, part);
        rest = after;
        next += 1;
    }
    Ok(Some((rest, next)))
}
