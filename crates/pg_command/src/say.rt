//! The line for the user.
ghost use Rattle.std.specs.Prelude.{◌≡◌, ◌≤◌, ◌++◌};
ghost use Rattle.pg_command.specs.Lines.{OnQuiet, Says, class_line, key_text, line_of, list_line, many_line, status_of};
ghost use Rattle.pg_command.specs.Lines.{style_line, no_output_line, broken_line, costs_line, undercut_line};
ghost use Rattle.pg_command.specs.Lines.{no_line, open_line, with_number, edit_line, script_line};
ghost use Rattle.pg_command.specs.Lines.{blocks_line, order_line, paragraph_line, unbroken_line, many_items_line};
ghost use Rattle.pg_command.specs.Lines.{block_line, no_fit_line};

use crate::ending::Ending;
use crate::line::{Piece, say_pieces};
use law_check::No;
use law_lines::LineFault;
use pg_edits::{EditFault, ScriptFault, ScriptKind};
use pg_greedy::GreedyFault;
use pg_list::Place;
use pg_outside::Sink;
use pg_showbox::{ListFault, ListKind};
use pg_stylefile::StyleFault;

// A line without a name or number.
fn say_text<E: Sink>(say: &mut E, text: &str)
    ensures line { Says (E.written say.old) (E.written say.new) (E.faults say.old) (E.faults say.new) text.now }
    ensures later { E.faults say.old ≤ E.faults say.new }
{
    say_pieces(say, &[Piece::Text(text)]);
}

// A line about a file.
fn say_file<'a, E: Sink>(say: &mut E, before: &'a str, name: &'a str, after: &'a str)
    ensures line { Says (E.written say.old) (E.written say.new) (E.faults say.old) (E.faults say.new)
        (before.now ++ (name.now ++ after.now)) }
    ensures later { E.faults say.old ≤ E.faults say.new }
{
    say_pieces(
        say,
        &[Piece::Text(before), Piece::Text(name), Piece::Text(after)],
    );
}

// The line for a fault of a galley's text.
fn say_list_fault<E: Sink>(say: &mut E, name: &str, fault: &ListFault)
    ensures line { Says (E.written say.old) (E.written say.new) (E.faults say.old) (E.faults say.new)
        (list_line name.now fault.now) }
    ensures later { E.faults say.old ≤ E.faults say.new }
{
    say_pieces(
        say,
        &[
            Piece::Text("pg: "),
            Piece::Text(name),
            Piece::Text(": line "),
            Piece::Number(fault.line),
            Piece::Text(": list fault "),
            Piece::Number(u32::from(fault.kind.number())),
            Piece::Text("\n"),
        ],
    );
}

// The key as it is printed.
fn shown_key(key: &[u8]) -> &[u8]
    ensures { result.now ≡ key_text key.now }
{
    if key.is_empty() { b"-".as_slice() } else { key }
}

// The line for a fault of a style file.
fn say_style_fault<'a, E: Sink>(say: &mut E, name: &'a str, fault: &'a StyleFault)
    ensures line { Says (E.written say.old) (E.written say.new) (E.faults say.old) (E.faults say.new)
        (style_line name.now fault.now) }
    ensures later { E.faults say.old ≤ E.faults say.new }
{
    say_pieces(
        say,
        &[
            Piece::Text("pg: "),
            Piece::Text(name),
            Piece::Text(": style fault "),
            Piece::Number(u32::from(fault.kind.number())),
            Piece::Text(" at "),
            Piece::Bytes(shown_key(fault.key.as_slice())),
            Piece::Text("\n"),
        ],
    );
}

// The line for a class that the style does not have.
fn say_class<E: Sink>(say: &mut E, class: u8)
    ensures line { Says (E.written say.old) (E.written say.new) (E.faults say.old) (E.faults say.new)
        (class_line class) }
    ensures later { E.faults say.old ≤ E.faults say.new }
{
    say_pieces(
        say,
        &[
            Piece::Text("pg: class "),
            Piece::Number(u32::from(class)),
            Piece::Text(" is not in the style\n"),
        ],
    );
}

// The line for too many floats.
#[tactic(auto, unfolding(crate::specs::Lines::many_line))]
fn say_count<E: Sink>(say: &mut E, count: u32)
    ensures line { Says (E.written say.old) (E.written say.new) (E.faults say.old) (E.faults say.new)
        (many_line count) }
    ensures later { E.faults say.old ≤ E.faults say.new }
{
    say_pieces(
        say,
        &[
            Piece::Text("pg: "),
            Piece::Number(count),
            Piece::Text(" floats are too many\n"),
        ],
    );
}

// The line for a fault of a script's item lines.
fn say_blocks_fault<'a, E: Sink>(say: &mut E, name: &'a str, line: u32, kind: ListKind)
    ensures line { Says (E.written say.old) (E.written say.new) (E.faults say.old) (E.faults say.new)
        (blocks_line name.now line kind) }
    ensures later { E.faults say.old ≤ E.faults say.new }
{
    say_pieces(
        say,
        &[
            Piece::Text("pg: "),
            Piece::Text(name),
            Piece::Text(": line "),
            Piece::Number(line),
            Piece::Text(": script fault 4 list fault "),
            Piece::Number(u32::from(kind.number())),
            Piece::Text("\n"),
        ],
    );
}

// The line for a fault of a script's own lines.
fn say_order_fault<'a, E: Sink>(say: &mut E, name: &'a str, line: u32, number: u8)
    ensures line { Says (E.written say.old) (E.written say.new) (E.faults say.old) (E.faults say.new)
        (order_line name.now line number) }
    ensures later { E.faults say.old ≤ E.faults say.new }
{
    say_pieces(
        say,
        &[
            Piece::Text("pg: "),
            Piece::Text(name),
            Piece::Text(": line "),
            Piece::Number(line),
            Piece::Text(": script fault "),
            Piece::Number(u32::from(number)),
            Piece::Text("\n"),
        ],
    );
}

// The line for a fault of a script's text.
fn say_script_fault<'a, E: Sink>(say: &mut E, name: &'a str, fault: &'a ScriptFault)
    ensures line { Says (E.written say.old) (E.written say.new) (E.faults say.old) (E.faults say.new)
        (script_line name.now fault.now) }
    ensures later { E.faults say.old ≤ E.faults say.new }
{
    match fault.kind {
        ScriptKind::Blocks(kind) => say_blocks_fault(say, name, fault.line, kind),
        _ => say_order_fault(say, name, fault.line, fault.kind.number()),
    }
}

// The line for an edit that is refused.
fn say_edit_fault<'a, E: Sink>(say: &mut E, step: u64, fault: &'a EditFault)
    ensures line { Says (E.written say.old) (E.written say.new) (E.faults say.old) (E.faults say.new)
        (edit_line step fault.now) }
    ensures later { E.faults say.old ≤ E.faults say.new }
{
    say_pieces(
        say,
        &[
            Piece::Text("pg: step "),
            Piece::Long(step),
            Piece::Text(": edit fault "),
            Piece::Number(u32::from(fault.number())),
            Piece::Text("\n"),
        ],
    );
}

// The line for a text that is no output text.
fn say_no_output<'a, E: Sink>(say: &mut E, name: &'a str, line: u32)
    ensures line { Says (E.written say.old) (E.written say.new) (E.faults say.old) (E.faults say.new)
        (no_output_line name.now line) }
    ensures later { E.faults say.old ≤ E.faults say.new }
{
    say_pieces(
        say,
        &[
            Piece::Text("pg: "),
            Piece::Text(name),
            Piece::Text(": line "),
            Piece::Number(line),
            Piece::Text(": not an output text\n"),
        ],
    );
}

// The line for a paragraph that cannot be broken.
fn say_unbroken<'a, E: Sink>(say: &mut E, name: &'a str, paragraph: u32)
    ensures line { Says (E.written say.old) (E.written say.new) (E.faults say.old) (E.faults say.new)
        (unbroken_line name.now paragraph) }
    ensures later { E.faults say.old ≤ E.faults say.new }
{
    say_pieces(
        say,
        &[
            Piece::Text("pg: "),
            Piece::Text(name),
            Piece::Text(": paragraph "),
            Piece::Number(paragraph),
            Piece::Text(" cannot be broken\n"),
        ],
    );
}

// The line for paragraphs with too many items.
fn say_many_items<'a, E: Sink>(say: &mut E, name: &'a str, count: u32)
    ensures line { Says (E.written say.old) (E.written say.new) (E.faults say.old) (E.faults say.new)
        (many_items_line name.now count) }
    ensures later { E.faults say.old ≤ E.faults say.new }
{
    say_pieces(
        say,
        &[
            Piece::Text("pg: "),
            Piece::Text(name),
            Piece::Text(": "),
            Piece::Number(count),
            Piece::Text(" items are too many\n"),
        ],
    );
}

// The line for paragraphs that make no galley.
fn say_paragraph_fault<'a, E: Sink>(say: &mut E, name: &'a str, fault: &'a LineFault)
    ensures line { Says (E.written say.old) (E.written say.new) (E.faults say.old) (E.faults say.new)
        (paragraph_line name.now fault.now) }
    ensures later { E.faults say.old ≤ E.faults say.new }
{
    match fault {
        LineFault::NoBreak { paragraph } => say_unbroken(say, name, *paragraph),
        LineFault::Limit { count } => say_many_items(say, name, *count),
        LineFault::Memory => say_text(say, "pg: out of memory\n"),
    }
}

// A line about first fit and a block.
fn say_block<'a, E: Sink>(say: &mut E, before: &'a str, block: u32)
    ensures line { Says (E.written say.old) (E.written say.new) (E.faults say.old) (E.faults say.new)
        (block_line before.now block) }
    ensures later { E.faults say.old ≤ E.faults say.new }
{
    say_pieces(
        say,
        &[
            Piece::Text("pg: first fit: "),
            Piece::Text(before),
            Piece::Text(" at block "),
            Piece::Number(block),
            Piece::Text("\n"),
        ],
    );
}

// The line for a galley without a first fit.
fn say_no_fit<E: Sink>(say: &mut E, fault: &GreedyFault)
    ensures line { Says (E.written say.old) (E.written say.new) (E.faults say.old) (E.faults say.new)
        (no_fit_line fault.now) }
    ensures later { E.faults say.old ≤ E.faults say.new }
{
    match fault {
        GreedyFault::Columns => say_text(say, "pg: first fit: two columns\n"),
        GreedyFault::Choice { block } => say_block(say, "choice", *block),
        GreedyFault::Float { block } => say_block(say, "float", *block),
        GreedyFault::Memory => say_text(say, "pg: out of memory\n"),
    }
}

// A line with a number at its end.
fn say_number<'a, E: Sink>(say: &mut E, before: &'a str, number: u64)
    ensures line { Says (E.written say.old) (E.written say.new) (E.faults say.old) (E.faults say.new)
        (with_number before.now number) }
    ensures later { E.faults say.old ≤ E.faults say.new }
{
    say_pieces(
        say,
        &[Piece::Text(before), Piece::Long(number), Piece::Text("\n")],
    );
}

// The line for a pagination that breaks this rule at this column.
fn say_broken<E: Sink>(say: &mut E, rule: u8, column: u32)
    ensures line { Says (E.written say.old) (E.written say.new) (E.faults say.old) (E.faults say.new)
        (broken_line rule column) }
    ensures later { E.faults say.old ≤ E.faults say.new }
{
    say_pieces(
        say,
        &[
            Piece::Text("pg: not proved 1: rule "),
            Piece::Number(u32::from(rule)),
            Piece::Text(" column "),
            Piece::Number(column),
            Piece::Text("\n"),
        ],
    );
}

// The line for a pagination that has another cost.
fn say_costs<'a, E: Sink>(say: &mut E, printed: &'a i128, judged: &'a i128)
    ensures line { Says (E.written say.old) (E.written say.new) (E.faults say.old) (E.faults say.new)
        (costs_line printed.now judged.now) }
    ensures later { E.faults say.old ≤ E.faults say.new }
{
    say_pieces(
        say,
        &[
            Piece::Text("pg: not proved 2: printed "),
            Piece::Whole(printed),
            Piece::Text(" judged "),
            Piece::Whole(judged),
            Piece::Text("\n"),
        ],
    );
}

// The line for a label that is finished at a lower cost, in demerits.
fn say_undercut<E: Sink>(say: &mut E, label: u32, cost: &i128)
    ensures line { Says (E.written say.old) (E.written say.new) (E.faults say.old) (E.faults say.new)
        (undercut_line label cost.now) }
    ensures later { E.faults say.old ≤ E.faults say.new }
{
    say_pieces(
        say,
        &[
            Piece::Text("pg: not proved 7: label "),
            Piece::Number(label),
            Piece::Text(" cost "),
            Piece::Whole(cost),
            Piece::Text("\n"),
        ],
    );
}

// The line for a label behind which a column leads to this place, which no label covers.
fn say_open<E: Sink>(say: &mut E, label: u32, to: Place)
    ensures line { Says (E.written say.old) (E.written say.new) (E.faults say.old) (E.faults say.new)
        (open_line label to) }
    ensures later { E.faults say.old ≤ E.faults say.new }
{
    say_pieces(
        say,
        &[
            Piece::Text("pg: not proved 6: label "),
            Piece::Number(label),
            Piece::Text(" to "),
            Piece::Number(to.block),
            Piece::Text(" "),
            Piece::Number(to.variant),
            Piece::Text(" "),
            Piece::Number(to.index),
            Piece::Text("\n"),
        ],
    );
}

// The line for the test of a check that fails.
fn say_no<E: Sink>(say: &mut E, fault: &No)
    ensures line { Says (E.written say.old) (E.written say.new) (E.faults say.old) (E.faults say.new)
        (no_line fault.now) }
    ensures later { E.faults say.old ≤ E.faults say.new }
{
    match fault {
        No::Broken { rule, column } => say_broken(say, *rule, *column),
        No::CostDiffers { printed, judged } => say_costs(say, printed, judged),
        No::PagesDiffer { line } => say_number(say, "pg: not proved 3: page text line ", *line),
        No::BadLabel { label } => say_number(say, "pg: not proved 4: label ", u64::from(*label)),
        No::NoStart => say_text(say, "pg: not proved 5: no start\n"),
        No::NotClosed { label, to } => say_open(say, *label, *to),
        No::Undercut { label, cost } => say_undercut(say, *label, cost),
        No::FinalInNone { label } => say_number(say, "pg: not proved 8: label ", u64::from(*label)),
        No::Memory => say_text(say, "pg: out of memory\n"),
    }
}

/// Writes the line of how a run ended, in pieces and without memory. A fault ends the writing.
///
/// Where there is no line, nothing is written and the sink is as it was.
pub fn say_line<E: Sink>(ending: &Ending<'_>, say: &mut E)
    ensures line { Says (E.written say.old) (E.written say.new) (E.faults say.old) (E.faults say.new)
        (line_of ending.now) }
    ensures later { E.faults say.old ≤ E.faults say.new }
    ensures quiet { OnQuiet (status_of ending.now) (say.new ≡ say.old) }
{
    match ending {
        Ending::Done | Ending::NoLegal => {}
        Ending::Usage => say_text(
            say,
            "usage: pg run|edit|check|show|make|lines|heads|compare|fold\n",
        ),
        Ending::TooLong(name) => say_file(say, "pg: ", name, ": longer than 67108864 bytes\n"),
        Ending::BadList(name, fault) => say_list_fault(say, name, fault),
        Ending::BadStyle(name, fault) => say_style_fault(say, name, fault),
        Ending::UnknownClass(class) => say_class(say, *class),
        Ending::TooManyFloats(count) => say_count(say, *count),
        Ending::BadScript(name, fault) => say_script_fault(say, name, fault),
        Ending::BadEdit(step, fault) => say_edit_fault(say, *step, fault),
        Ending::BadOutput(name, line) => say_no_output(say, name, *line),
        Ending::BadParagraph(name, fault) => say_paragraph_fault(say, name, fault),
        Ending::NoFirstFit(fault) => say_no_fit(say, fault),
        Ending::Unread(name) => say_file(say, "pg: ", name, ": cannot be read\n"),
        Ending::WriteFault => say_text(say, "pg: output failed\n"),
        Ending::NotProved(fault) => say_no(say, fault),
        Ending::Memory => say_text(say, "pg: out of memory\n"),
    }
}
