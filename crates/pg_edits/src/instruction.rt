//! What a line without a point says.
ghost use Rattle.std.specs.Prelude.{◌≡◌};
ghost use Rattle.std.specs.Option.{option_map};
ghost use Rattle.pg_words.specs.InOrder.{next};
ghost use Rattle.pg_edits.specs.Instructions.{number_word, one_number as one_of, two_numbers as two_of, show_words, delete_words, insert_words, replace_words, words_said, instruction_of};

use crate::kinds::ScriptKind;
use pg_scan::whole_word;
use pg_words::Words;

/// What a line says: nothing; to show the galley; to take `gone` blocks out from `at`; or to put the blocks of the item
/// lines behind it there in their place.
#[derive(Clone, Copy, PartialEq, Eq)]
pub enum Instruction {
    Nothing,
    Show,
    Delete { at: u32, gone: u32 },
    Put { at: u32, gone: u32 },
}

// The number that the next word says.
fn number(words: &mut Words<'_>) -> Option<u32>
    ensures { option_map (λ number. (number, words.new)) result ≡ next number_word words.old }
{
    whole_word(0, u32::MAX, words.word()?)
}

// One number, and no word behind it.
#[tactic(auto, unfolding(crate::specs::Instructions::one_number))]
fn one_number(words: &mut Words<'_>) -> Option<u32>
    ensures { result ≡ one_of words.old }
{
    let at = number(words)?;
    words.ended()?;
    Some(at)
}

// Two numbers, and no word behind them.
#[tactic(auto, unfolding(crate::specs::Instructions::two_numbers))]
fn two_numbers(words: &mut Words<'_>) -> Option<(u32, u32)>
    ensures { result ≡ two_of words.old }
{
    let at = number(words)?;
    let gone = number(words)?;
    words.ended()?;
    Some((at, gone))
}

fn show(words: &mut Words<'_>) -> Option<Instruction>
    ensures { result ≡ show_words words.old }
{
    words.ended()?;
    Some(Instruction::Show)
}

fn delete(words: &mut Words<'_>) -> Option<Instruction>
    ensures { result ≡ delete_words words.old }
{
    let (at, gone) = two_numbers(words)?;
    Some(Instruction::Delete { at, gone })
}

fn insert(words: &mut Words<'_>) -> Option<Instruction>
    ensures { result ≡ insert_words words.old }
{
    let at = one_number(words)?;
    Some(Instruction::Put { at, gone: 0 })
}

fn replace(words: &mut Words<'_>) -> Option<Instruction>
    ensures { result ≡ replace_words words.old }
{
    let (at, gone) = two_numbers(words)?;
    Some(Instruction::Put { at, gone })
}

// What the words of a line say.
#[tactic(auto, unfolding(crate::specs::Instructions::words_said))]
fn said(words: &mut Words<'_>) -> Result<Instruction, ScriptKind>
    ensures { result ≡ words_said words.old }
{
    let Some(word) = words.word() else {
        return Err(ScriptKind::UnknownWord);
    };
    if word == b"show".as_slice() {
        show(words).ok_or(ScriptKind::BadNumber)
    } else if word == b"delete".as_slice() {
        delete(words).ok_or(ScriptKind::BadNumber)
    } else if word == b"insert".as_slice() {
        insert(words).ok_or(ScriptKind::BadNumber)
    } else if word == b"replace".as_slice() {
        replace(words).ok_or(ScriptKind::BadNumber)
    } else {
        Err(ScriptKind::UnknownWord)
    }
}

/// What a line without a point says, or the kind of its fault.
#[tactic(auto, unfolding(crate::specs::Instructions::instruction_of))]
pub fn parse_instruction(line: &[u8]) -> Result<Instruction, ScriptKind>
    ensures { result ≡ instruction_of line.now }
{
    if line.is_empty() {
        return Ok(Instruction::Nothing);
    }
    said(&mut Words::of(line))
}
