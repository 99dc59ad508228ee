//! Output texts, read line by line.
ghost use Rattle.std.specs.Prelude.{◌≡◌, ◌<◌, ◌^◌, ◌∷◌, [], IfOk, length};
ghost use Rattle.pg_scan.specs.Parts.{parts_of};
ghost use Rattle.pg_labels.specs.Reading.{Gives, Reads, run, shown_of, output_from as output_said, output_of, IsFew};

use crate::draft::Draft;
use crate::output::{Output, OutputFault, Shown};
use pg_plan::{Pages, Pagination};
use pg_scan::split_part;
use std::alloc::{AllocError, Global};

// The end of a text, whose last line feed this stands behind, as a line of this number.
#[tactic(auto, unfolding(crate::specs::Reading::run))]
fn end_text(draft: &Draft, number: u32, last: &[u8]) -> Result<(), OutputFault>
    ensures { Reads result (run draft.now number (last.now ∷ [])) draft.now }
{
    if last.is_empty() && draft.is_whole() {
        Ok(())
    } else {
        Err(OutputFault::BadText { line: number })
    }
}

// All lines of a text, behind what was read so far.
fn read_lines(alloc: Global, text: &[u8], draft: &mut Draft) -> Result<(), OutputFault>
    requires { length text.now < 2 ^ 31 }
    ensures { Reads result (run draft.old 1 (parts_of 10 text.now)) draft.new }
{
    let mut rest = Some(text);
    let mut number = 1u32;
    while let Some(left) = rest {
        let (line, behind) = split_part(b'\n', left);
        if behind.is_none() {
            return end_text(draft, number, line);
        }
        match draft.step(alloc, line) {
            Ok(true) => {}
            Ok(false) => return Err(OutputFault::BadText { line: number }),
            Err(_) => return Err(OutputFault::Memory),
        }
        rest = behind;
        number += 1;
    }
    Err(OutputFault::BadText { line: number })
}

// What the page text shows.
fn shown(cost: Option<i128>, pages: Pages) -> Shown
    ensures { result ≡ shown_of cost pages }
{
    match cost {
        Some(cost) => Shown::Pages(Pagination { pages }, cost),
        None => Shown::NoLegal,
    }
}

// What was read.
fn output_from(mut draft: Draft) -> Result<Output, AllocError>
    ensures { IfOk result (λ output. output ≡ output_said draft) }
{
    draft.end_page()?;
    Ok(Output {
        shown: shown(draft.cost, draft.done),
        page_text: draft.page_text.into_bytes(),
        labels: draft.labels,
    })
}

/// Reads an output text: a page text, and a label text in either form. `BadText` comes exactly where the text is none,
/// with the least number of lines that begin none; where it ends too soon that is the number of its lines and one more.
/// `Memory` may come in place of any answer. What is read has fewer than 2^31 pages, columns and labels. That the lines in
/// front of that one begin an output text is a law (law_readers).
#[tactic(auto, unfolding(crate::specs::Reading::output_of))]
pub fn read_output(alloc: Global, text: &[u8]) -> Result<Output, OutputFault>
    requires { length text.now < 2 ^ 31 }
    ensures said { Gives result (output_of text.now) }
    ensures few { IfOk result IsFew }
{
    let mut draft = Draft::new(alloc);
    read_lines(alloc, text, &mut draft)?;
    match output_from(draft) {
        Ok(output) => Ok(output),
        Err(_) => Err(OutputFault::Memory),
    }
}
