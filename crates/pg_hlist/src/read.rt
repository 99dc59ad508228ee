//! Reads files of paragraphs.
ghost use Rattle.std.specs.Prelude.{◌≡◌, ◌≤◌, ◌<◌, ◌+◌, ◌^◌, length, None};
ghost use Rattle.pg_scan.specs.Lines.{joined, raw_lines};
ghost use Rattle.pg_showbox.specs.Reading.{Gives};
ghost use Rattle.pg_showbox.specs.State.{Steps};
ghost use Rattle.pg_hlist.specs.Reading.{some_paras as some_of, Runs, line_read, paras_of, run};

use crate::draft::Draft;
use crate::para::Paras;
use crate::parsed::parse_line;
use pg_scan::take_line;
use pg_showbox::{ListFault, ListKind};
use std::alloc::Global;

// Reads one line.
#[tactic(auto, using(pg_showbox::proofs::StateLemmas::steps_err), unfolding(crate::specs::Reading::line_read))]
fn read_line(alloc: Global, draft: &mut Draft, line: &[u8]) -> Result<(), ListKind>
    ensures { Steps result (line_read draft.old line.now) draft.new }
{
    let parsed = parse_line(draft.current.is_some(), line)?;
    draft.step(alloc, parsed, line)
}

// Reads all lines of a text.
fn read_lines(alloc: Global, text: &[u8], draft: &mut Draft) -> Result<(), ListFault>
    requires { length text.now < 2 ^ 31 }
    ensures { Runs result (run draft.old (joined None 1 (raw_lines text.now))) draft.new }
{
    let mut line = Vec::new(alloc);
    let mut rest = text;
    let mut number = 1;
    'lines: while !rest.is_empty() {
        let (after, next) = match take_line(None, number, rest, &mut line) {
            Ok(Some(found)) => found,
            Ok(None) => return Ok(()),
            Err(_) => {
                return Err(ListFault {
                    line: number,
                    kind: ListKind::Memory,
                });
            }
        };
        match read_line(alloc, draft, &line) {
            Err(kind) => return Err(ListFault { line: number, kind }),
            Ok(()) => {
                rest = after;
                number = next;
            }
        }
    }
    Ok(())
}

// The paragraphs, of which there is one at least.
fn some_paras(paras: Paras) -> Result<Paras, ListFault>
    ensures { Gives (λ found. found) result (some_of paras) }
{
    if paras.as_slice().is_empty() {
        return Err(ListFault {
            line: 0,
            kind: ListKind::NoListing,
        });
    }
    Ok(paras)
}

/// Reads the paragraphs of a file. A line that begins with `\hbox(` begins a paragraph, and an empty line ends it.
///
/// The first line with a fault decides, and within a line the leftmost fault. `Memory` may come in place of any
/// answer. What the lines of a paragraph say is told by laws (law_readers).
#[tactic(auto, unfolding(crate::specs::Reading::paras_of))]
pub fn read_paras(alloc: Global, text: &[u8]) -> Result<Paras, ListFault>
    requires { length text.now < 2 ^ 31 }
    ensures { Gives (λ paras. paras) result (paras_of text.now) }
{
    let mut draft = Draft::new(alloc);
    read_lines(alloc, text, &mut draft)?;
    match draft.end() {
        Ok(()) => some_paras(draft.paras),
        Err(_) => Err(ListFault {
            line: 0,
            kind: ListKind::Memory,
        }),
    }
}
