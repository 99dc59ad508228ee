//! Lines as boxes.
ghost use Rattle.std.specs.Prelude.{◌≡◌, ◌≤◌, ◌^◌, ◌++◌, OnOk, IfOk, length};
ghost use Rattle.std.specs.List.{AllByRecursion};
ghost use Rattle.pg_hlist.specs.Items.{IsInRange};
ghost use Rattle.law_lines.specs.Boxes.{box_front, glue_widths, items_text, line_box as line_box_of};
ghost use Rattle.law_lines.specs.ParagraphsLaws.{IsRule};

use crate::glue::widths_of;
use crate::sizes::{box_sizes, sums};
use crate::text::{print_box_front, print_items};
use law_lines::LineRule;
use pg_hlist::HItem;
use pg_list::{Bytes, Item};
use pg_scaled::wide;
use std::alloc::{AllocError, Global};

// The set widths of the glue of a line.
fn glue_widths_of(alloc: Global, rule: &LineRule, line: &[HItem]) -> Result<Vec<i128>, AllocError>
    requires rule { IsRule rule.now }
    requires few { length line.now ≤ 2 ^ 11 }
    requires ranges { AllByRecursion IsInRange line.now }
    ensures { IfOk result (λ widths. widths.items ≡ glue_widths rule.now line.now) }
{
    widths_of(alloc, line, wide(rule.width), sums(line).total)
}

// The text of a line's items.
fn print_line(
    alloc: Global,
    rule: &LineRule,
    line: &[HItem],
    out: &mut Vec<u8>,
) -> Result<(), AllocError>
    requires rule { IsRule rule.now }
    requires few { length line.now ≤ 2 ^ 11 }
    requires ranges { AllByRecursion IsInRange line.now }
    ensures { OnOk result (out.new.items ≡ out.old.items ++ items_text line.now (glue_widths rule.now line.now)) }
{
    let widths = glue_widths_of(alloc, rule, line)?;
    print_items(line, widths.as_slice(), out)
}

/// The box of a line: as high and as deep as its greatest box, at least 8.5 and 3.5 points, with each glue set to the
/// width of lines. The one refusal is want of memory.
pub fn line_box(alloc: Global, rule: &LineRule, line: &[HItem]) -> Result<Item, AllocError>
    requires rule { IsRule rule.now }
    requires few { length line.now ≤ 2 ^ 11 }
    requires ranges { AllByRecursion IsInRange line.now }
    ensures { IfOk result (λ item. item ≡ line_box_of rule.now line.now) }
{
    let sizes = box_sizes(line);
    let mut text = Vec::new(alloc);
    print_box_front(&sizes, rule, &mut text)?;
    print_line(alloc, rule, line, &mut text)?;
    Ok(Item::BoxItem {
        height: sizes.height,
        depth: sizes.depth,
        body: Bytes::new(text),
    })
}
