//! The text of heads and references.
ghost use Rattle.std.specs.Prelude.{◌≡◌, ◌++◌, ◌∷◌, [], OnOk, OnErr, decimal, codes, List, ℕ};
ghost use Rattle.std.specs.List.{flat_map};
ghost use Rattle.pg_scaled.specs.Scaled.{Grows};
ghost use Rattle.pg_marks.specs.HeadsText.{braced, head_top, head_rest, head_line, heads_text, page_word, use_front, reference_line, marks_text};

use crate::lists::{Head, HeadList, Reference, ReferenceList};
use pg_words::print_decimal;
use std::alloc::AllocError;

// A text in braces.
fn print_braced(text: &[u8], out: &mut Vec<u8>) -> Result<(), AllocError>
    ensures ok { OnOk result (out.new.items ≡ out.old.items ++ braced text.now) }
    ensures grows { Grows out.old.items out.new.items }
{
    out.push(b'{')?;
    out.extend_from_slice(text)?;
    out.push(b'}')?;
    Ok(())
}

// A text in braces behind a word.
fn print_named(name: &[u8], text: &[u8], out: &mut Vec<u8>) -> Result<(), AllocError>
    ensures ok { OnOk result (out.new.items ≡ out.old.items ++ (name.now ++ braced text.now)) }
    ensures grows { Grows out.old.items out.new.items }
{
    out.extend_from_slice(name)?;
    print_braced(text, out)
}

// A number behind a word.
fn print_counted(name: &[u8], number: u128, out: &mut Vec<u8>) -> Result<(), AllocError>
    ensures ok { OnOk result (out.new.items ≡ out.old.items ++ (name.now ++ decimal number)) }
    ensures grows { Grows out.old.items out.new.items }
{
    out.extend_from_slice(name)?;
    print_decimal(number, out)
}

#[tactic(auto, unfolding(crate::specs::HeadsText::head_top))]
fn print_top(number: u128, top: &[u8], out: &mut Vec<u8>) -> Result<(), AllocError>
    ensures ok { OnOk result (out.new.items ≡ out.old.items ++ head_top number top.now) }
    ensures grows { Grows out.old.items out.new.items }
{
    print_counted(b"page ", number, out)?;
    print_named(b" top ", top, out)
}

#[tactic(auto, unfolding(crate::specs::HeadsText::head_rest))]
fn print_rest(head: &Head, out: &mut Vec<u8>) -> Result<(), AllocError>
    ensures ok { OnOk result (out.new.items ≡ out.old.items ++ head_rest head.now) }
    ensures grows { Grows out.old.items out.new.items }
{
    print_named(b" first ", head.first.as_slice(), out)?;
    print_named(b" bottom ", head.bottom.as_slice(), out)
}

#[tactic(auto, unfolding(crate::specs::HeadsText::head_line))]
fn print_head(number: u128, head: &Head, out: &mut Vec<u8>) -> Result<(), AllocError>
    ensures ok { OnOk result (out.new.items ≡ out.old.items ++ head_line number head.now) }
    ensures grows { Grows out.old.items out.new.items }
{
    print_top(number, head.top.as_slice(), out)?;
    print_rest(head, out)?;
    out.push(b'\n')?;
    Ok(())
}

#[tactic(auto, unfolding(crate::specs::HeadsText::use_front))]
fn print_use(name: &[u8], on: u32, out: &mut Vec<u8>) -> Result<(), AllocError>
    ensures ok { OnOk result (out.new.items ≡ out.old.items ++ use_front name.now on) }
    ensures grows { Grows out.old.items out.new.items }
{
    print_named(b"use ", name, out)?;
    print_counted(b" on ", u128::from(on), out)
}

fn print_page(page: Option<u32>, out: &mut Vec<u8>) -> Result<(), AllocError>
    ensures ok { OnOk result (out.new.items ≡ out.old.items ++ page_word page) }
    ensures grows { Grows out.old.items out.new.items }
{
    match page {
        Some(page) => print_decimal(u128::from(page), out),
        None => {
            out.extend_from_slice(b"none")?;
            Ok(())
        }
    }
}

#[tactic(auto, unfolding(crate::specs::HeadsText::reference_line))]
fn print_reference(reference: &Reference, out: &mut Vec<u8>) -> Result<(), AllocError>
    ensures ok { OnOk result (out.new.items ≡ out.old.items ++ reference_line reference.now) }
    ensures grows { Grows out.old.items out.new.items }
{
    print_use(reference.name.as_slice(), reference.on, out)?;
    out.extend_from_slice(b" is ")?;
    print_page(reference.page, out)?;
    out.push(b'\n')?;
    Ok(())
}

fn print_head_lines(heads: &[Head], out: &mut Vec<u8>) -> Result<(), AllocError>
    ensures ok { OnOk result (out.new.items ≡ out.old.items ++ heads_text 1 heads.now) }
    ensures grows { Grows out.old.items out.new.items }
{
    let mut number: u128 = 0;
    for head in heads {
        number += 1;
        print_head(number, head, out)?;
    }
    Ok(())
}

fn print_references(references: &[Reference], out: &mut Vec<u8>) -> Result<(), AllocError>
    ensures ok { OnOk result (out.new.items ≡ out.old.items ++ flat_map reference_line references.now) }
    ensures grows { Grows out.old.items out.new.items }
{
    for reference in references {
        print_reference(reference, out)?;
    }
    Ok(())
}

// The text, without giving back what a refusal left.
fn print_all(heads: &[Head], references: &[Reference], out: &mut Vec<u8>) -> Result<(), AllocError>
    ensures ok { OnOk result (out.new.items ≡ out.old.items ++ marks_text heads.now references.now) }
    ensures grows { Grows out.old.items out.new.items }
{
    print_head_lines(heads, out)?;
    print_references(references, out)
}

/// Appends a line for each page and one for each use. The only refusal is for want of memory, and
/// `out` is then as before.
pub fn print_heads(
    heads: &HeadList,
    references: &ReferenceList,
    out: &mut Vec<u8>,
) -> Result<(), AllocError>
    ensures ok { OnOk result (out.new.items ≡ out.old.items ++ marks_text heads.now references.now) }
    ensures err { OnErr result (out.new.items ≡ out.old.items) }
{
    let start = out.len();
    if let Err(refused) = print_all(heads.as_slice(), references.as_slice(), out) {
        out.truncate(start);
        return Err(refused);
    }
    Ok(())
}
