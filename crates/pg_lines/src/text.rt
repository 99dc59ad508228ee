//! The text of a line's items.
ghost use Rattle.std.specs.Prelude.{◌≡◌, ◌≤◌, ◌++◌, ◌∷◌, [], OnOk, IfOk, length};
ghost use Rattle.std.specs.List.{AllByRecursion, prefix_len};
ghost use Rattle.pg_scaled.specs.Scaled.{scaled_text};
ghost use Rattle.pg_scan.specs.Lines.{is_no_feed, dotted};
ghost use Rattle.law_lines.specs.Boxes.{box_front, deeper, items_text, set_deeper};
ghost use Rattle.pg_lines.specs.Printed.{item_text, widths_behind};
ghost use Rattle.pg_glue.specs.Widths.{IsPrintable};

use crate::sizes::BoxSizes;
use law_lines::LineRule;
use pg_hlist::HItem;
use pg_scaled::print_scaled;
use pg_scan::{first_line_len, print_dotted};
use std::alloc::AllocError;

// A body on lines of its own, one level deeper.
fn print_deeper(body: &[u8], out: &mut Vec<u8>) -> Result<(), AllocError>
    ensures { OnOk result (out.new.items ≡ out.old.items ++ deeper body.now) }
{
    out.push(b'\n')?;
    out.push(b'.')?;
    print_dotted(body, out)
}

// The body of a glue, one level deeper, with its set width at the end of its first line.
fn print_set(body: &[u8], width: i128, out: &mut Vec<u8>) -> Result<(), AllocError>
    requires { IsPrintable width }
    ensures { OnOk result (out.new.items ≡ out.old.items ++ set_deeper body.now width) }
{
    let (first, further) = body.split_at(first_line_len(body));
    print_deeper(first, out)?;
    out.extend_from_slice(b", set ")?;
    print_scaled(width, out)?;
    print_dotted(further, out)
}

// An item, where these set widths are left; answers those that are left behind it.
fn print_item<'a>(
    item: &HItem,
    widths: &'a [i128],
    out: &mut Vec<u8>,
) -> Result<&'a [i128], AllocError>
    requires { AllByRecursion IsPrintable widths.now }
    ensures ok { OnOk result (out.new.items ≡ out.old.items ++ item_text item.now widths.now) }
    ensures left { IfOk result (λ left. left.now ≡ widths_behind item.now widths.now) }
    ensures small { IfOk result (λ left. AllByRecursion IsPrintable left.now) }
{
    match item {
        HItem::Glue { body, .. } => match widths {
            [width, left @ ..] => {
                print_set(body.as_slice(), *width, out)?;
                Ok(left)
            }
            [] => {
                print_deeper(body.as_slice(), out)?;
                Ok(widths)
            }
        },
        HItem::BoxItem { body, .. } => {
            print_deeper(body.as_slice(), out)?;
            Ok(widths)
        }
        HItem::Kern { body, .. } => {
            print_deeper(body.as_slice(), out)?;
            Ok(widths)
        }
        HItem::Penalty { body, .. } => {
            print_deeper(body.as_slice(), out)?;
            Ok(widths)
        }
    }
}

/// The items of a line, each glue with its set width.
pub fn print_items(items: &[HItem], widths: &[i128], out: &mut Vec<u8>) -> Result<(), AllocError>
    requires { AllByRecursion IsPrintable widths.now }
    ensures { OnOk result (out.new.items ≡ out.old.items ++ items_text items.now widths.now) }
{
    let mut rest = items;
    let mut left = widths;
    'items: while let [item, after @ ..] = rest {
        left = print_item(item, left, out)?;
        rest = after;
    }
    Ok(())
}

// A fixed text, and a size behind it.
fn print_size(name: &[u8], size: &i32, out: &mut Vec<u8>) -> Result<(), AllocError>
    ensures { OnOk result (out.new.items ≡ out.old.items ++ (name.now ++ scaled_text size.now)) }
{
    out.extend_from_slice(name)?;
    print_scaled(i128::from(*size), out)
}

/// The first line of a box of these sizes, as wide as lines are.
pub fn print_box_front(
    sizes: &BoxSizes,
    rule: &LineRule,
    out: &mut Vec<u8>,
) -> Result<(), AllocError>
    ensures { OnOk result (out.new.items ≡ out.old.items
        ++ box_front sizes.now.height sizes.now.depth rule.now.width) }
{
    print_size(b"\\hbox(", &sizes.height, out)?;
    print_size(b"+", &sizes.depth, out)?;
    print_size(b")x", &rule.width, out)?;
    Ok(())
}
