//! Areas of floats and of notes.
ghost use Rattle.std.specs.Prelude.{◌≡◌, ◌≤◌, ◌+◌, ◌++◌, ◌∷◌, [], ℕ, List, OnOk, OnErr, IfOk, codes, length, not, take, drop, map, slice_index, option_copied, if◌then◌else◌, ◌==◌};
ghost use Rattle.std.specs.List.{flat_map, AllByRecursion};
ghost use Rattle.pg_list.specs.Shapes.{IsBlock};
ghost use Rattle.pg_rules.specs.Floats.{dealt_from, entry as entry_of, sizes_of};
ghost use Rattle.pg_scaled.specs.Scaled.{Grows};
ghost use Rattle.pg_floats.specs.Callouts.{first_items};
ghost use Rattle.pg_style.specs.Ranges.{AreClasses};
ghost use Rattle.pg_words.specs.Written.{line};
ghost use Rattle.pg_pages.specs.Bodies.{body_text};
ghost use Rattle.pg_pages.specs.PageText.{area, inserted, inserted_body};
ghost use Rattle.pg_pages.specs.Printed.{bodies_of, class_notes_text, lent, notes_by};
ghost use Rattle.pg_column.specs.Between.{behind};

use crate::bodies::print_body;
use crate::parts::{end_line, print_bytes};
use pg_floats::first_items_of;
use pg_list::{Block, Item};
use pg_style::{Class, Kind};
use std::alloc::{AllocError, Global};

// The name of an area; answers where it begins.
pub fn open_area(name: &[u8], out: &mut Vec<u8>) -> Result<usize, AllocError>
    ensures ok { OnOk result (out.new.items ≡ out.old.items ++ line (codes "area " ++ name.now)) }
    ensures start { IfOk result (λ start. start ≡ length out.old.items) }
    ensures grows { Grows out.old.items out.new.items }
{
    let start = out.len();
    print_bytes(b"area ", out)?;
    print_bytes(name, out)?;
    end_line(out)?;
    Ok(start)
}

// Takes the name of an area away again, where nothing stands behind it.
pub fn close_area(start: usize, filled: usize, out: &mut Vec<u8>)
    requires { start ≤ filled }
    ensures text { (before name text : List ℕ) → out.old.items ≡ before ++ (line (codes "area " ++ name) ++ text) →
        start ≡ length before → filled ≡ length (before ++ line (codes "area " ++ name)) →
        out.new.items ≡ before ++ area name text }
    ensures grows { (before : List ℕ) → length before ≤ start → Grows before out.old.items →
        Grows before out.new.items }
{
    if out.len() == filled {
        out.truncate(start);
    }
}

// The body of an insert of a class.
fn body_in<'a>(number: u8, item: &'a Item) -> Option<&'a [u8]>
    ensures { option_copied result ≡ inserted_body number item.now }
{
    match item {
        Item::Insert { class, body, .. } => {
            if *class == number {
                Some(body.as_slice())
            } else {
                None
            }
        }
        _ => None,
    }
}

// Adds the bodies of the inserts of a class.
fn push_bodies<'a>(
    number: u8,
    items: &'a [Item],
    bodies: &mut Vec<&'a [u8]>,
) -> Result<(), AllocError>
    ensures { OnOk result (behind bodies.new.items ≡ behind bodies.old.items ++ inserted number items.now) }
{
    let mut rest = items;
    'items: while let [item, after @ ..] = rest {
        if let Some(body) = body_in(number, item) {
            bodies.push(body)?;
        }
        rest = after;
    }
    Ok(())
}

// The bodies of the inserts of a class in a galley, in order.
#[tactic(auto, using(crate::proofs::Printed::inserted_append))]
fn class_bodies<'a>(
    alloc: Global,
    blocks: &'a [Block],
    number: u8,
) -> Result<Vec<&'a [u8]>, AllocError>
    requires { AllByRecursion IsBlock blocks.now }
    ensures { IfOk result (λ bodies. behind bodies.items ≡ inserted number (first_items blocks.now)) }
{
    let mut bodies = Vec::new(alloc);
    let mut rest = blocks;
    'each: while let [block, after @ ..] = rest {
        push_bodies(number, first_items_of(block), &mut bodies)?;
        rest = after;
    }
    Ok(bodies)
}

// Adds the bodies of a class, where it is one of floats.
fn push_class<'a>(
    alloc: Global,
    blocks: &'a [Block],
    class: &Class,
    bodies: &mut Vec<Vec<&'a [u8]>>,
) -> Result<(), AllocError>
    requires { AllByRecursion IsBlock blocks.now }
    ensures { OnOk result (lent bodies.new.items ≡ lent bodies.old.items ++ bodies_of blocks.now (class.now ∷ [])) }
{
    if let Kind::Float { .. } = &class.kind {
        bodies.push(class_bodies(alloc, blocks, class.number)?)?;
    }
    Ok(())
}

// For each class of floats the bodies of its floats.
pub fn float_bodies<'a>(
    alloc: Global,
    blocks: &'a [Block],
    classes: &[Class],
) -> Result<Vec<Vec<&'a [u8]>>, AllocError>
    requires { AllByRecursion IsBlock blocks.now }
    ensures { IfOk result (λ bodies. lent bodies.items ≡ bodies_of blocks.now classes.now) }
{
    let mut bodies = Vec::new(alloc);
    let mut rest = classes;
    'each: while let [class, after @ ..] = rest {
        push_class(alloc, blocks, class, &mut bodies)?;
        rest = after;
    }
    Ok(bodies)
}

// Bodies one after another.
fn print_bodies(bodies: &[&[u8]], out: &mut Vec<u8>) -> Result<(), AllocError>
    ensures ok { OnOk result (out.new.items ≡ out.old.items ++ flat_map body_text (behind bodies.now)) }
    ensures grows { Grows out.old.items out.new.items }
{
    let mut rest = bodies;
    'each: while let [body, after @ ..] = rest {
        print_body(body, out)?;
        rest = after;
    }
    Ok(())
}

// The elements from an index on.
fn from<T>(elements: &[T], first: usize) -> &[T]
    ensures { result.now ≡ drop first elements.now }
{
    match elements.get(first..) {
        Some(rest) => rest,
        None => &[],
    }
}

// At most so many elements.
fn up_to<T>(elements: &[T], count: usize) -> &[T]
    ensures { result.now ≡ take count elements.now }
{
    match elements.get(..count) {
        Some(front) => front,
        None => elements,
    }
}

// So many bodies from one on.
#[tactic(auto, using(crate::proofs::Printed::behind_some))]
fn next_of<'a, 'b>(own: &'b [&'a [u8]], first: usize, count: usize) -> &'b [&'a [u8]]
    ensures { behind result.now ≡ take count (drop first (behind own.now)) }
{
    up_to(from(own, first), count)
}

// An entry that a count list lacks is 0.
fn entry(counts: &[u16], slot: usize) -> usize
    ensures { result ≡ entry_of counts.now slot }
{
    match counts.get(slot) {
        Some(count) => *count as usize,
        None => 0,
    }
}

// The floats that counts deal out after others.
pub fn print_dealt(
    bodies: &[Vec<&[u8]>],
    before: &[u16],
    counts: &[u16],
    out: &mut Vec<u8>,
) -> Result<(), AllocError>
    ensures ok { OnOk result (out.new.items
        ≡ out.old.items ++ flat_map body_text (dealt_from 0 (lent bodies.now) before.now counts.now)) }
    ensures grows { Grows out.old.items out.new.items }
{
    let mut rest = bodies;
    let mut slot = 0;
    'each: while let [own, after @ ..] = rest {
        let next = next_of(own.as_slice(), entry(before, slot), entry(counts, slot));
        print_bodies(next, out)?;
        rest = after;
        slot += 1;
    }
    Ok(())
}

// The floats that counts deal out after others, by class.
pub fn dealt_bodies<'a>(
    alloc: Global,
    bodies: &[Vec<&'a [u8]>],
    before: &[u16],
    counts: &[u16],
) -> Result<Vec<&'a [u8]>, AllocError>
    ensures { IfOk result (λ dealt. behind dealt.items ≡ dealt_from 0 (lent bodies.now) before.now counts.now) }
{
    let mut dealt = Vec::new(alloc);
    let mut rest = bodies;
    let mut slot = 0;
    'each: while let [own, after @ ..] = rest {
        let next = next_of(own.as_slice(), entry(before, slot), entry(counts, slot));
        dealt.extend_from_slice(next)?;
        rest = after;
        slot += 1;
    }
    Ok(dealt)
}

// Whether an insert of a class is among items.
pub fn has_insert(number: u8, items: &[&Item]) -> bool
    ensures { result ≡ not (length (sizes_of number (behind items.now)) == 0) }
{
    let mut rest = items;
    'items: while let [item, after @ ..] = rest {
        if body_in(number, item).is_some() {
            return true;
        }
        rest = after;
    }
    false
}

// The inserts of a class among items.
pub fn print_inserts(number: u8, items: &[&Item], out: &mut Vec<u8>) -> Result<(), AllocError>
    ensures ok { OnOk result (out.new.items
        ≡ out.old.items ++ flat_map body_text (inserted number (behind items.now))) }
    ensures grows { Grows out.old.items out.new.items }
{
    let mut rest = items;
    'items: while let [item, after @ ..] = rest {
        if let Some(body) = body_in(number, item) {
            print_body(body, out)?;
        }
        rest = after;
    }
    Ok(())
}

// The notes of a class, where it is one of notes.
fn print_class_notes(class: &Class, items: &[&Item], out: &mut Vec<u8>) -> Result<(), AllocError>
    ensures ok { OnOk result (out.new.items ≡ out.old.items ++ class_notes_text class.now (behind items.now)) }
    ensures grows { Grows out.old.items out.new.items }
{
    match &class.kind {
        Kind::Note { .. } => print_inserts(class.number, items, out),
        Kind::Float { .. } => Ok(()),
    }
}

// The notes of all classes.
pub fn print_notes(classes: &[Class], items: &[&Item], out: &mut Vec<u8>) -> Result<(), AllocError>
    ensures ok { OnOk result (out.new.items ≡ out.old.items ++ notes_by classes.now (behind items.now)) }
    ensures grows { Grows out.old.items out.new.items }
{
    let mut rest = classes;
    'each: while let [class, after @ ..] = rest {
        print_class_notes(class, items, out)?;
        rest = after;
    }
    Ok(())
}
