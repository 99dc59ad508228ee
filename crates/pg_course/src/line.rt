//! The line of a galley that is made, and of a check that says yes.
ghost use Rattle.std.specs.Prelude.{◌≡◌, ◌++◌, OnOk, IfOk, length};
ghost use Rattle.pg_list.specs.Counts.{item_count};
ghost use Rattle.pg_make.specs.Generated.{made_blocks, made_galley};
ghost use Rattle.pg_make.specs.Made.{made_style};
ghost use Rattle.pg_words.specs.Written.{whole_text};
ghost use Rattle.pg_space.specs.Solves.{HasFrontier, Solves};
ghost use Rattle.pg_course.specs.Made.{MadeOut, made_front, made_labels, made_none, made_pages, numbered};
ghost use Rattle.pg_course.specs.Made.{none_line, pages_line};
ghost use Rattle.pg_course.specs.Out.{bytes_of, end_of};
ghost use Rattle.pg_course.specs.Verdict.{proved_cost, proved_none, proved_text, yes_line};

use crate::paginate::PageText;
use itoa::Buffer;
use pg_labelcheck::Proved;
use pg_space::Outcome;
use std::alloc::{AllocError, Global};

// A name, and a number behind it.
fn print_numbered(name: &[u8], number: u64, out: &mut Vec<u8>) -> Result<(), AllocError>
    ensures { OnOk result (out.new.items ≡ out.old.items ++ numbered name.now number) }
{
    let mut buffer = Buffer::new();
    out.extend_from_slice(name)?;
    out.extend_from_slice(buffer.format(number).as_bytes())
}

// A number, with a minus in front of a negative one.
fn print_whole(number: i128, out: &mut Vec<u8>) -> Result<(), AllocError>
    ensures { OnOk result (out.new.items ≡ out.old.items ++ whole_text number) }
{
    let mut buffer = Buffer::new();
    if number < 0 {
        out.push(b'-')?;
    }
    out.extend_from_slice(buffer.format(number.unsigned_abs()).as_bytes())
}

// A name, and a number behind it, with a minus in front of a negative one.
fn print_signed(name: &[u8], number: i128, out: &mut Vec<u8>) -> Result<(), AllocError>
    ensures { OnOk result (out.new.items ≡ out.old.items ++ (name.now ++ whole_text number)) }
{
    out.extend_from_slice(name)?;
    print_whole(number, out)
}

// The paragraphs and the items.
#[tactic(auto, unfolding(crate::specs::Made::made_front))]
fn print_front(count: u32, items: u32, out: &mut Vec<u8>) -> Result<(), AllocError>
    ensures { OnOk result (out.new.items ≡ out.old.items ++ made_front count items) }
{
    print_numbered(b"make ", u64::from(count), out)?;
    print_numbered(b" items ", u64::from(items), out)
}

// The pages and their cost.
#[tactic(auto, unfolding(crate::specs::Made::made_pages))]
fn print_counts(pages: usize, cost: i128, out: &mut Vec<u8>) -> Result<(), AllocError>
    ensures { OnOk result (out.new.items ≡ out.old.items ++ made_pages pages cost) }
{
    print_numbered(b" pages ", pages as u64, out)?;
    out.extend_from_slice(b" cost ")?;
    print_whole(cost, out)
}

// That there are no pages.
#[tactic(auto, unfolding(crate::specs::Made::made_none))]
fn print_no_pages(out: &mut Vec<u8>) -> Result<(), AllocError>
    ensures { OnOk result (out.new.items ≡ out.old.items ++ made_none) }
{
    out.extend_from_slice(b" no legal pagination")
}

// The labels, and the line's end.
#[tactic(auto, unfolding(crate::specs::Made::made_labels))]
fn print_labels(labels: usize, out: &mut Vec<u8>) -> Result<(), AllocError>
    ensures { OnOk result (out.new.items ≡ out.old.items ++ made_labels labels) }
{
    print_numbered(b" labels ", labels as u64, out)?;
    out.push(b'\n')?;
    Ok(())
}

// The line of a galley with pages.
fn line_with_pages(
    alloc: Global,
    count: u32,
    items: u32,
    pages: usize,
    cost: i128,
    labels: usize,
) -> Result<Vec<u8>, AllocError>
    ensures { IfOk result (λ text. text.items ≡ pages_line count items pages cost labels) }
{
    let mut text = Vec::new(alloc);
    print_front(count, items, &mut text)?;
    print_counts(pages, cost, &mut text)?;
    print_labels(labels, &mut text)?;
    Ok(text)
}

// The line of a galley without pages.
fn line_for_none(
    alloc: Global,
    count: u32,
    items: u32,
    labels: usize,
) -> Result<Vec<u8>, AllocError>
    ensures { IfOk result (λ text. text.items ≡ none_line count items labels) }
{
    let mut text = Vec::new(alloc);
    print_front(count, items, &mut text)?;
    print_no_pages(&mut text)?;
    print_labels(labels, &mut text)?;
    Ok(text)
}

/// The line of the galley of so many paragraphs, which has so many items and labels, and this outcome.
pub fn line_of(
    alloc: Global,
    count: u32,
    items: u32,
    outcome: &Outcome,
    labels: usize,
) -> Result<PageText, AllocError>
    requires items { items ≡ item_count (made_blocks count) }
    requires solves { Solves (made_galley count) made_style outcome.now }
    requires labels { HasFrontier (made_galley count) made_style labels }
    ensures { IfOk result (λ line. MadeOut count (bytes_of line) (end_of line)) }
{
    match outcome {
        Outcome::Best(plan, cost) => {
            let pages = plan.pages.as_slice().len();
            let line = line_with_pages(alloc, count, items, pages, *cost, labels)?;
            Ok(PageText::Best(line))
        }
        Outcome::NoLegal => {
            let line = line_for_none(alloc, count, items, labels)?;
            Ok(PageText::NoLegal(line))
        }
    }
}

// That this cost is proved.
#[tactic(auto, unfolding(crate::specs::Verdict::proved_cost))]
fn print_proved_cost(cost: i128, out: &mut Vec<u8>) -> Result<(), AllocError>
    ensures { OnOk result (out.new.items ≡ out.old.items ++ proved_cost cost) }
{
    print_signed(b"proved cost ", cost, out)
}

// That it is proved that no pagination is legal.
#[tactic(auto, unfolding(crate::specs::Verdict::proved_none))]
fn print_proved_none(out: &mut Vec<u8>) -> Result<(), AllocError>
    ensures { OnOk result (out.new.items ≡ out.old.items ++ proved_none) }
{
    out.extend_from_slice(b"proved no legal pagination")
}

// What is proved.
fn print_proved(cost: Option<i128>, out: &mut Vec<u8>) -> Result<(), AllocError>
    ensures { OnOk result (out.new.items ≡ out.old.items ++ proved_text cost) }
{
    match cost {
        Some(cost) => print_proved_cost(cost, out),
        None => print_proved_none(out),
    }
}

/// The line of a check that says yes.
pub fn yes_line_of(alloc: Global, proved: Proved) -> Result<Vec<u8>, AllocError>
    ensures { IfOk result (λ text. text.items ≡ yes_line proved) }
{
    let mut text = Vec::new(alloc);
    print_proved(proved.cost, &mut text)?;
    print_labels(proved.labels as usize, &mut text)?;
    Ok(text)
}
