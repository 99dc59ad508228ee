//! Scripts, read line by line.
ghost use Rattle.std.specs.Prelude.{◌≡◌, ◌<◌, ◌+◌, ◌^◌, ◌++◌, length, false, IfErr, OnOk};
ghost use Rattle.std.specs.List.{cons_option};
ghost use Rattle.std.specs.Option.{option_to_list};
ghost use Rattle.pg_scan.specs.Lines.{raw_lines, has_point as begins_with_point};
ghost use Rattle.pg_edits.specs.Kinds.{IsScriptKind, script_kind};
ghost use Rattle.pg_edits.specs.Script.{no_items as none_of, items_said, step_said, line_said, steps_from, script_of, Gives};

use crate::instruction::{Instruction, parse_instruction};
use crate::items::{has_point, split_items};
use crate::kinds::{ScriptFault, ScriptKind};
use crate::script::{Script, ScriptStep};
use pg_list::{Blocks, Edit};
use pg_scan::take_line;
use pg_showbox::{ListKind, read_blocks};
use std::alloc::{AllocError, Global};

fn fault(line: u32, kind: ScriptKind) -> ScriptFault
    ensures { result ≡ record { line = line; kind = kind } }
{
    ScriptFault { line, kind }
}

// How a fault of item lines is told.
fn kind_of(kind: ListKind) -> ScriptKind
    ensures { result ≡ script_kind kind }
{
    match kind {
        ListKind::Memory => ScriptKind::Memory,
        _ => ScriptKind::Blocks(kind),
    }
}

// No item line stands behind the line of this number.
fn no_items(number: u32, items: &[u8]) -> Result<(), ScriptFault>
    requires { number + length items.now < 2 ^ 31 }
    ensures { Gives result (none_of number (raw_lines items.now)) }
{
    if items.is_empty() {
        Ok(())
    } else {
        Err(fault(number + 1, ScriptKind::UnknownWord))
    }
}

// The blocks of the item lines behind the line of this number.
fn read_items(alloc: Global, number: u32, items: &[u8]) -> Result<Blocks, ScriptFault>
    requires { number + length items.now < 2 ^ 31 }
    ensures { Gives result (items_said number (raw_lines items.now)) }
{
    if items.is_empty() {
        return Err(fault(number, ScriptKind::NoBlocks));
    }
    match read_blocks(alloc, items, number + 1) {
        Ok(blocks) => Ok(blocks),
        Err(list) => Err(fault(list.line, kind_of(list.kind))),
    }
}

// The step of an instruction with this number and these item lines behind it.
#[tactic(auto, unfolding(crate::specs::Script::step_said))]
fn step(
    alloc: Global,
    number: u32,
    said: Instruction,
    items: &[u8],
) -> Result<Option<ScriptStep>, ScriptFault>
    requires { number + length items.now < 2 ^ 31 }
    ensures { Gives result (step_said number said (raw_lines items.now)) }
{
    match said {
        Instruction::Nothing => {
            no_items(number, items)?;
            Ok(None)
        }
        Instruction::Show => {
            no_items(number, items)?;
            Ok(Some(ScriptStep::Show))
        }
        Instruction::Delete { at, gone } => {
            no_items(number, items)?;
            let fresh = Blocks::new(alloc);
            Ok(Some(ScriptStep::Change(Edit { at, gone, fresh })))
        }
        Instruction::Put { at, gone } => {
            let fresh = read_items(alloc, number, items)?;
            Ok(Some(ScriptStep::Change(Edit { at, gone, fresh })))
        }
    }
}

// The step of a line with this number and these item lines behind it.
#[tactic(auto, unfolding(crate::specs::Script::line_said))]
fn read_line(
    alloc: Global,
    number: u32,
    line: &[u8],
    items: &[u8],
) -> Result<Option<ScriptStep>, ScriptFault>
    requires { number + length items.now < 2 ^ 31 }
    ensures { Gives result (line_said number line.now (raw_lines items.now)) }
{
    match parse_instruction(line) {
        Ok(said) => step(alloc, number, said, items),
        Err(kind) => Err(fault(number, kind)),
    }
}

// Adds a step, if there is one.
fn add(script: &mut Script, step: Option<ScriptStep>) -> Result<(), AllocError>
    ensures { OnOk result (script.new ≡ script.old ++ option_to_list step) }
{
    match step {
        Some(step) => script.push(step),
        None => Ok(()),
    }
}

// The steps of a text that begins with no item line.
fn read_steps(alloc: Global, text: &[u8]) -> Result<Script, ScriptFault>
    requires length { length text.now < 2 ^ 31 }
    requires front { begins_with_point text.now ≡ false }
    ensures { Gives result (steps_from 1 (raw_lines text.now)) }
{
    let mut script = Script::new(alloc);
    let mut line = Vec::new(alloc);
    let mut rest = text;
    let mut number = 1u32;
    'lines: while !rest.is_empty() {
        let after = match take_line(None, number, rest, &mut line) {
            Ok(Some((after, _))) => after,
            Ok(None) => return Ok(script),
            Err(_) => return Err(fault(number, ScriptKind::Memory)),
        };
        let (items, count, behind) = split_items(after);
        let step = read_line(alloc, number, &line, items)?;
        match add(&mut script, step) {
            Ok(()) => {}
            Err(_) => return Err(fault(number, ScriptKind::Memory)),
        }
        rest = behind;
        number += 1 + count;
    }
    Ok(script)
}

/// Reads a script: the steps that its lines say, or the first line with a fault and the kind of that.
///
/// Lines end as in a galley. An empty line says nothing; each other line is `show`, `delete A G`, `insert A` or
/// `replace A G`, whose words stand between single blanks and whose numbers are 1 to 10 digits with a value below 2^32.
/// The item lines directly behind an `insert` or a `replace` are its blocks, and say what they say in a listing
/// (law_readers). `Memory` may come in place of any answer.
#[tactic(auto, unfolding(crate::specs::Script::script_of))]
pub fn read_script(alloc: Global, text: &[u8]) -> Result<Script, ScriptFault>
    requires { length text.now < 2 ^ 31 }
    ensures said { Gives result (script_of text.now) }
    ensures kind { IfErr result (λ fault. IsScriptKind fault.kind) }
{
    if has_point(text) {
        return Err(fault(1, ScriptKind::UnknownWord));
    }
    read_steps(alloc, text)
}
