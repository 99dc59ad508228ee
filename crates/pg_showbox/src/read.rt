//! Galley files and item lines, read line by line.
ghost use Rattle.std.specs.Prelude.{◌≡◌, ◌≤◌, ◌<◌, ◌+◌, ◌^◌, length, IfOk, OnOk, MatchOption, IfSome, ◌∷◌, [], Option, None, true, false, option_copied};
ghost use Rattle.std.specs.List.{AllByRecursion};
ghost use Rattle.pg_scan.specs.Lines.{raw_lines, joined};
ghost use Rattle.pg_scan.specs.Parts.{or_all};
ghost use Rattle.pg_showbox.specs.ParsedLine.{IsParsedInRange};
ghost use Rattle.pg_showbox.specs.State.{Steps, Sound, WithinSound, started, ended};
ghost use Rattle.pg_showbox.specs.Shown.{IsShownBlock};
ghost use Rattle.pg_showbox.specs.Reading.{in_listing, said_in, line_read, run, all_read, galley_of, blocks_of, Gives, Runs};

use crate::kinds::{ListFault, ListKind};
use crate::parsed::{ParsedLine, parse_block_line, parse_galley_line};
use crate::state::{ReaderState, Within};
use pg_list::{Blocks, Galley};
use pg_scan::{take_line, whole_line};
use std::alloc::{AllocError, Global};

// The next line stands in a listing.
fn is_in_listing(within: Within) -> bool
    ensures { result ≡ in_listing within }
{
    !matches!(within, Within::Outside)
}

// What a line says, in a galley file or among item lines alone.
#[tactic(auto, unfolding(crate::specs::Reading::said_in))]
fn parse_line(is_file: bool, within: Within, line: &[u8]) -> Result<ParsedLine, ListKind>
    ensures value { result ≡ said_in is_file within line.now }
    ensures range { IfOk result (λ parsed. IsParsedInRange parsed) }
{
    if is_file {
        parse_galley_line(is_in_listing(within), line)
    } else {
        parse_block_line(line)
    }
}

// Reads one line.
#[tactic(auto, using(crate::proofs::StateLemmas::steps_err), unfolding(crate::specs::Reading::line_read))]
fn read_line(
    alloc: Global,
    is_file: bool,
    state: &mut ReaderState,
    line: &[u8],
) -> Result<(), ListKind>
    requires { Sound state.old }
    ensures step { Steps result (line_read is_file state.old line.now) state.new }
    ensures sound { OnOk result (Sound state.new) }
{
    let parsed = parse_line(is_file, state.within, line)?;
    state.step(alloc, parsed, line)
}

// The first line of a text where it stands, or none where it was put into `line`; what follows it, and the number there.
fn next_line<'a>(
    wrap: Option<u32>,
    number: u32,
    text: &'a [u8],
    line: &mut Vec<u8>,
) -> Result<Option<(Option<&'a [u8]>, &'a [u8], u32)>, AllocError>
    requires { number + length text.now < 2 ^ 32 }
    ensures line { IfOk result (λ found. MatchOption found (raw_lines text.now ≡ [])
        (λ x. joined wrap number (raw_lines text.now)
        ≡ record { number = number; text = or_all line.new.items (option_copied x.0) } ∷ joined wrap x.2 (raw_lines x.1.now))) }
    ensures count { IfOk result (λ found. IfSome found
        (λ x. x.2 + length (raw_lines x.1.now) ≡ number + length (raw_lines text.now))) }
    ensures shorter { IfOk result (λ found. IfSome found (λ x. length x.1.now < length text.now)) }
    ensures room { IfOk result (λ found. IfSome found (λ x. x.2 + length x.1.now ≤ number + length text.now)) }
{
    if let Some((whole, after)) = whole_line(wrap, text) {
        return Ok(Some((Some(whole), after, number + 1)));
    }
    match take_line(wrap, number, text, line)? {
        Some((after, next)) => Ok(Some((None, after, next))),
        None => Ok(None),
    }
}

// Reads all lines of a text, the first of which has this number.
fn read_lines(
    alloc: Global,
    is_file: bool,
    wrap: Option<u32>,
    first: u32,
    text: &[u8],
    state: &mut ReaderState,
) -> Result<u32, ListFault>
    requires room { first + length text.now < 2 ^ 32 }
    requires sound { Sound state.old }
    ensures run { Runs result (run is_file state.old (joined wrap first (raw_lines text.now))) state.new }
    ensures last { IfOk result (λ number. number ≡ first + length (raw_lines text.now)) }
    ensures sound { OnOk result (Sound state.new) }
{
    let mut line = Vec::new(alloc);
    let mut rest = text;
    let mut number = first;
    'lines: while !rest.is_empty() {
        let (whole, after, next) = match next_line(wrap, number, rest, &mut line) {
            Ok(Some(found)) => found,
            Ok(None) => return Ok(number),
            Err(_) => {
                return Err(ListFault {
                    line: number,
                    kind: ListKind::Memory,
                });
            }
        };
        match read_line(alloc, is_file, state, whole.unwrap_or(&line)) {
            Err(kind) => return Err(ListFault { line: number, kind }),
            Ok(()) => {
                rest = after;
                number = next;
            }
        }
    }
    Ok(number)
}

// Reads all lines of a text, and its end.
#[tactic(auto, unfolding(crate::specs::Reading::all_read))]
fn read_all(
    alloc: Global,
    is_file: bool,
    wrap: Option<u32>,
    first: u32,
    text: &[u8],
    within: Within,
) -> Result<ReaderState, ListFault>
    requires room { first + length text.now < 2 ^ 32 }
    requires within { WithinSound within [] }
    ensures read { Gives (λ state. state) result (all_read is_file wrap first text.now (started within)) }
    ensures sound { IfOk result (λ state. Sound state) }
{
    let mut state = ReaderState::new(alloc, within);
    let number = read_lines(alloc, is_file, wrap, first, text, &mut state)?;
    match state.end_listing() {
        Ok(()) => Ok(state),
        Err(kind) => Err(ListFault { line: number, kind }),
    }
}

/// Reads the galley of a file: the blocks of all its listings in order, and the width of the first
/// root. With `wrap` a line of exactly so many bytes is joined with what follows it.
///
/// The first line with a fault decides, and within a line the leftmost fault. No item is taken for
/// another: a text that is not of the notation is refused by its line and kind. `Memory` may come in
/// place of any answer. What listings, markers and deeper lines say is told by laws (law_readers).
#[tactic(auto, unfolding(crate::specs::Reading::galley_of))]
pub fn read_galley(alloc: Global, text: &[u8], wrap: Option<u32>) -> Result<Galley, ListFault>
    requires { length text.now < 2 ^ 31 }
    ensures said { Gives (λ galley. galley) result (galley_of text.now wrap) }
    ensures shown { IfOk result (λ galley. AllByRecursion IsShownBlock galley.blocks) }
{
    let state = read_all(alloc, true, wrap, 1, text, Within::Outside)?;
    match state.width {
        Some(width) => Ok(Galley::of(width, state.blocks)),
        None => Err(ListFault {
            line: 0,
            kind: ListKind::NoListing,
        }),
    }
}

/// Reads blocks from item lines alone, without a root: every line has a point in front. The first
/// line has the number `first_line`. `Memory` may come in place of any answer.
#[tactic(auto, unfolding(crate::specs::Reading::blocks_of))]
pub fn read_blocks(alloc: Global, text: &[u8], first_line: u32) -> Result<Blocks, ListFault>
    requires text { length text.now < 2 ^ 31 }
    requires first { first_line < 2 ^ 31 }
    ensures said { Gives (λ blocks. blocks) result (blocks_of text.now first_line) }
    ensures shown { IfOk result (λ blocks. AllByRecursion IsShownBlock blocks) }
{
    let state = read_all(alloc, false, None, first_line, text, Within::Listing)?;
    Ok(state.blocks)
}
