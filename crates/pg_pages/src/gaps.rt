//! The gaps of areas, which pages of version 3 show.
ghost use Rattle.std.specs.Prelude.{◌≡◌, ◌==◌, ◌++◌, ◌∷◌, [], if◌then◌else◌, drop, replicate, OnOk, IfOk, length, codes};
ghost use Rattle.pg_glue.specs.Widths.{IsPrintable};
ghost use Rattle.std.specs.List.{AllByRecursion};
ghost use Rattle.pg_scaled.specs.Scaled.{Grows};
ghost use Rattle.pg_pages.specs.Bodies.{body_text};
ghost use Rattle.pg_pages.specs.Gaps.{gap_gives, gap_line, gap_name, gap_set, hung_gaps as hung_gaps_of, hung_text, kind_skips, note_gaps as note_gaps_of, part_text, separated_text, set_gap, shows_gaps as shows_gaps_of, skip_gaps, standing_gaps as standing_gaps_of, standing_text};
ghost use Rattle.pg_pages.specs.PageText.{kind_notes, skipped_notes};
ghost use Rattle.pg_pages.specs.Printed.{hung_gap};
ghost use Rattle.pg_column.specs.Between.{behind};

use crate::areas::{has_insert, print_inserts};
use crate::bodies::print_body;
use crate::parts::{end_line, print_bytes, print_width};
use pg_list::Item;
use pg_style::{AreaRule, Class, Gap, Kind, Style};
use std::alloc::{AllocError, Global};

/// Whether pages show gaps.
pub fn shows_gaps(style: &Style) -> bool
    ensures { result ≡ shows_gaps_of style.now }
{
    style.version == 3
}

// Adds a gap so many times.
fn push_times(gap: Gap, count: usize, gaps: &mut Vec<Gap>) -> Result<(), AllocError>
    ensures { OnOk result (gaps.new.items ≡ gaps.old.items ++ replicate count gap) }
{
    for _ in 0..count {
        gaps.push(gap)?;
    }
    Ok(())
}

// Adds so many separators, and the gap next to the text.
fn push_hung(rule: &AreaRule, seps: usize, gaps: &mut Vec<Gap>) -> Result<(), AllocError>
    ensures { OnOk result (gaps.new.items ≡ gaps.old.items ++ (replicate seps rule.now.sep ++ rule.now.gap ∷ [])) }
{
    push_times(rule.sep, seps, gaps)?;
    gaps.push(rule.gap)?;
    Ok(())
}

/// The gaps of so many floats that hang: a separator below each but the last, and the gap next to the text; none where
/// pages show none.
pub fn hung_gaps(
    alloc: Global,
    style: &Style,
    rule: &AreaRule,
    count: usize,
) -> Result<Vec<Gap>, AllocError>
    ensures { IfOk result (λ gaps. gaps.items
        ≡ (if shows_gaps_of style.now then hung_gaps_of rule.now count else [])) }
{
    let mut gaps = Vec::new(alloc);
    if count > 0 && shows_gaps(style) {
        push_hung(rule, count - 1, &mut gaps)?;
    }
    Ok(gaps)
}

/// The gaps of so many floats that stand: the gap next to the text, and a separator above each but the first.
pub fn standing_gaps(
    alloc: Global,
    style: &Style,
    rule: &AreaRule,
    count: usize,
) -> Result<Vec<Gap>, AllocError>
    ensures { IfOk result (λ gaps. gaps.items
        ≡ (if shows_gaps_of style.now then standing_gaps_of rule.now count else [])) }
{
    let mut gaps = Vec::new(alloc);
    if count > 0 && shows_gaps(style) {
        gaps.push(rule.gap)?;
        push_times(rule.sep, count - 1, &mut gaps)?;
    }
    Ok(gaps)
}

// Adds the skip of a class with a note among items.
fn push_skip(class: &Class, items: &[&Item], gaps: &mut Vec<Gap>) -> Result<(), AllocError>
    ensures { OnOk result (gaps.new.items
        ≡ gaps.old.items ++ kind_skips (behind items.now) class.now.number class.now.kind) }
{
    if let Kind::Note { skip, .. } = &class.kind {
        if has_insert(class.number, items) {
            gaps.push(*skip)?;
        }
    }
    Ok(())
}

/// The skips of the notes among items, by class; none where pages show none.
pub fn note_gaps(alloc: Global, style: &Style, items: &[&Item]) -> Result<Vec<Gap>, AllocError>
    ensures { IfOk result (λ gaps. gaps.items ≡ note_gaps_of style.now (behind items.now)) }
{
    let mut gaps = Vec::new(alloc);
    if !shows_gaps(style) {
        return Ok(gaps);
    }
    let mut rest = style.classes.as_slice();
    'classes: while let [class, after @ ..] = rest {
        push_skip(class, items, &mut gaps)?;
        rest = after;
    }
    Ok(gaps)
}

// A part of a gap, where it is not 0.
fn print_part(word: &[u8], part: i32, out: &mut Vec<u8>) -> Result<(), AllocError>
    ensures ok { OnOk result (out.new.items ≡ out.old.items ++ part_text word.now part) }
    ensures grows { Grows out.old.items out.new.items }
{
    if part == 0 {
        return Ok(());
    }
    print_bytes(word, out)?;
    print_width(i128::from(part), out)
}

// The name of a gap and its size.
#[tactic(auto, unfolding(crate::specs::Gaps::gap_name))]
fn print_gap_name(name: &[u8], size: i32, out: &mut Vec<u8>) -> Result<(), AllocError>
    ensures ok { OnOk result (out.new.items ≡ out.old.items ++ gap_name name.now size) }
    ensures grows { Grows out.old.items out.new.items }
{
    print_bytes(b".\\glue(", out)?;
    print_bytes(name, out)?;
    print_bytes(b") ", out)?;
    print_width(i128::from(size), out)
}

// What a gap gives.
#[tactic(auto, unfolding(crate::specs::Gaps::gap_gives))]
fn print_gap_gives(stretch: i32, shrink: i32, out: &mut Vec<u8>) -> Result<(), AllocError>
    ensures ok { OnOk result (out.new.items ≡ out.old.items ++ gap_gives stretch shrink) }
    ensures grows { Grows out.old.items out.new.items }
{
    print_part(b" plus ", stretch, out)?;
    print_part(b" minus ", shrink, out)
}

// A set width.
#[tactic(auto, unfolding(crate::specs::Gaps::gap_set))]
fn print_gap_set(width: i128, out: &mut Vec<u8>) -> Result<(), AllocError>
    requires { IsPrintable width }
    ensures ok { OnOk result (out.new.items ≡ out.old.items ++ gap_set width) }
    ensures grows { Grows out.old.items out.new.items }
{
    print_bytes(b", set ", out)?;
    print_width(width, out)
}

// The line of a gap that is set to a width.
#[tactic(auto, unfolding(crate::specs::Gaps::gap_line))]
fn print_gap_line(name: &[u8], gap: &Gap, width: i128, out: &mut Vec<u8>) -> Result<(), AllocError>
    requires { IsPrintable width }
    ensures ok { OnOk result (out.new.items ≡ out.old.items ++ gap_line name.now gap.now width) }
    ensures grows { Grows out.old.items out.new.items }
{
    print_gap_name(name, gap.size, out)?;
    print_gap_gives(gap.stretch, gap.shrink, out)?;
    print_gap_set(width, out)?;
    end_line(out)
}

// A gap with the first of these widths; answers those that are left.
fn print_gap<'a>(
    name: &[u8],
    gap: &Gap,
    widths: &'a [i128],
    out: &mut Vec<u8>,
) -> Result<&'a [i128], AllocError>
    requires { AllByRecursion IsPrintable widths.now }
    ensures ok { OnOk result (out.new.items ≡ out.old.items ++ set_gap name.now gap.now widths.now) }
    ensures left { IfOk result (λ left. left.now ≡ drop 1 widths.now) }
    ensures grows { Grows out.old.items out.new.items }
{
    let [width, left @ ..] = widths else {
        return Ok(widths);
    };
    print_gap_line(name, gap, *width, out)?;
    Ok(left)
}

// The gap below a float that hangs, above those after it; answers the widths that are left.
fn print_hung_gap<'a>(
    rule: &AreaRule,
    after: &[&[u8]],
    widths: &'a [i128],
    out: &mut Vec<u8>,
) -> Result<&'a [i128], AllocError>
    requires { AllByRecursion IsPrintable widths.now }
    ensures ok { OnOk result (out.new.items ≡ out.old.items ++ hung_gap rule.now (behind after.now) widths.now) }
    ensures left { IfOk result (λ left. left.now ≡ drop 1 widths.now) }
    ensures grows { Grows out.old.items out.new.items }
{
    if after.is_empty() {
        print_gap(b"gap", &rule.gap, widths, out)
    } else {
        print_gap(b"sep", &rule.sep, widths, out)
    }
}

/// Floats that hang, a gap below each.
#[tactic(auto, using(crate::proofs::GapLists::hung_step))]
pub fn print_hung(
    rule: &AreaRule,
    bodies: &[&[u8]],
    widths: &[i128],
    out: &mut Vec<u8>,
) -> Result<(), AllocError>
    requires { AllByRecursion IsPrintable widths.now }
    ensures ok { OnOk result (out.new.items ≡ out.old.items ++ hung_text rule.now (behind bodies.now) widths.now) }
    ensures grows { Grows out.old.items out.new.items }
{
    let mut rest = bodies;
    let mut left = widths;
    'floats: while let [body, after @ ..] = rest {
        print_body(body, out)?;
        left = print_hung_gap(rule, after, left, out)?;
        rest = after;
    }
    Ok(())
}

// Floats, a separator above each.
fn print_separated(
    sep: &Gap,
    bodies: &[&[u8]],
    widths: &[i128],
    out: &mut Vec<u8>,
) -> Result<(), AllocError>
    requires { AllByRecursion IsPrintable widths.now }
    ensures ok { OnOk result (out.new.items ≡ out.old.items ++ separated_text sep.now (behind bodies.now) widths.now) }
    ensures grows { Grows out.old.items out.new.items }
{
    let mut rest = bodies;
    let mut left = widths;
    'floats: while let [body, after @ ..] = rest {
        left = print_gap(b"sep", sep, left, out)?;
        print_body(body, out)?;
        rest = after;
    }
    Ok(())
}

/// Floats that stand, a gap above each.
pub fn print_standing(
    rule: &AreaRule,
    bodies: &[&[u8]],
    widths: &[i128],
    out: &mut Vec<u8>,
) -> Result<(), AllocError>
    requires { AllByRecursion IsPrintable widths.now }
    ensures ok { OnOk result (out.new.items ≡ out.old.items ++ standing_text rule.now (behind bodies.now) widths.now) }
    ensures grows { Grows out.old.items out.new.items }
{
    let [body, after @ ..] = bodies else {
        return Ok(());
    };
    let left = print_gap(b"gap", &rule.gap, widths, out)?;
    print_body(body, out)?;
    print_separated(&rule.sep, after, left, out)
}

// The notes of a class below its skip; answers the widths that are left.
fn print_skipped<'a>(
    class: &Class,
    items: &[&Item],
    widths: &'a [i128],
    out: &mut Vec<u8>,
) -> Result<&'a [i128], AllocError>
    requires { AllByRecursion IsPrintable widths.now }
    ensures ok { OnOk result (out.new.items
        ≡ out.old.items ++ kind_notes (behind items.now) class.now.number class.now.kind widths.now) }
    ensures left { IfOk result (λ left. left.now
        ≡ drop (length (kind_skips (behind items.now) class.now.number class.now.kind)) widths.now) }
    ensures grows { Grows out.old.items out.new.items }
{
    let Kind::Note { skip, .. } = &class.kind else {
        return Ok(widths);
    };
    if !has_insert(class.number, items) {
        return Ok(widths);
    }
    let left = print_gap(b"skip", skip, widths, out)?;
    print_inserts(class.number, items, out)?;
    Ok(left)
}

/// The notes of all classes, below their skips.
pub fn print_skipped_notes(
    classes: &[Class],
    items: &[&Item],
    widths: &[i128],
    out: &mut Vec<u8>,
) -> Result<(), AllocError>
    requires { AllByRecursion IsPrintable widths.now }
    ensures ok { OnOk result (out.new.items
        ≡ out.old.items ++ skipped_notes classes.now (behind items.now) widths.now) }
    ensures grows { Grows out.old.items out.new.items }
{
    let mut rest = classes;
    let mut left = widths;
    'classes: while let [class, after @ ..] = rest {
        left = print_skipped(class, items, left, out)?;
        rest = after;
    }
    Ok(())
}
