//! The text area of a column.
ghost use Rattle.std.specs.Prelude.{◌≡◌, ◌++◌, ◌∷◌, [], OnOk, IfOk, codes};
ghost use Rattle.std.specs.List.{flat_map, AllByRecursion};
ghost use Rattle.pg_list.specs.Totals.{top_glue as top_glue_of};
ghost use Rattle.pg_scaled.specs.Scaled.{Grows};
ghost use Rattle.pg_pages.specs.Bodies.{plain_text};
ghost use Rattle.pg_pages.specs.PageText.{items_text, set_items, top_line};
ghost use Rattle.pg_pages.specs.Printed.{box_on, front_of, set_item, widths_behind};
ghost use Rattle.pg_glue.specs.Widths.{IsPrintable};
ghost use Rattle.pg_column.specs.Between.{behind};

use crate::bodies::{print_body, print_set};
use crate::lines::print_length_line;
use pg_list::{Item, item_is_box};
use pg_sums::lift;
use std::alloc::AllocError;

// An item in front of the first box; inserts stand elsewhere.
fn print_plain(item: &Item, out: &mut Vec<u8>) -> Result<(), AllocError>
    ensures ok { OnOk result (out.new.items ≡ out.old.items ++ plain_text item.now) }
    ensures grows { Grows out.old.items out.new.items }
{
    match item {
        Item::Insert { .. } => Ok(()),
        _ => print_body(item.body(), out),
    }
}

// The items in front of the first box.
fn print_front(items: &[&Item], out: &mut Vec<u8>) -> Result<(), AllocError>
    ensures ok { OnOk result (out.new.items ≡ out.old.items ++ flat_map plain_text (front_of (behind items.now))) }
    ensures grows { Grows out.old.items out.new.items }
{
    let mut rest = items;
    'front: while let [item, after @ ..] = rest {
        if item_is_box(item) {
            return Ok(());
        }
        print_plain(item, out)?;
        rest = after;
    }
    Ok(())
}

// The items from the first box on.
fn from_box<'a, 'b>(items: &'b [&'a Item]) -> &'b [&'a Item]
    ensures { behind result.now ≡ box_on (behind items.now) }
{
    let mut rest = items;
    'front: while let [item, after @ ..] = rest {
        if item_is_box(item) {
            return rest;
        }
        rest = after;
    }
    rest
}

// What stands above the first box.
fn top_glue(topskip: i32, items: &[&Item]) -> i64
    ensures { result ≡ top_glue_of topskip (behind items.now) }
{
    let mut rest = items;
    'items: while let [item, after @ ..] = rest {
        match item {
            Item::BoxItem { height, .. } | Item::Rule { height, .. } => {
                return lift(topskip, *height);
            }
            _ => {}
        }
        rest = after;
    }
    0
}

// An item behind the first box, where these set widths are left; answers those that are left behind it.
fn print_set_item<'a>(
    item: &Item,
    widths: &'a [i128],
    out: &mut Vec<u8>,
) -> Result<&'a [i128], AllocError>
    requires { AllByRecursion IsPrintable widths.now }
    ensures ok { OnOk result (out.new.items ≡ out.old.items ++ set_item item.now widths.now) }
    ensures left { IfOk result (λ left. left.now ≡ widths_behind item.now widths.now) }
    ensures grows { Grows out.old.items out.new.items }
{
    match item {
        Item::Glue { body, .. } => match widths {
            [width, left @ ..] => {
                print_set(body.as_slice(), *width, out)?;
                Ok(left)
            }
            [] => {
                print_body(body.as_slice(), out)?;
                Ok(widths)
            }
        },
        _ => {
            print_plain(item, out)?;
            Ok(widths)
        }
    }
}

// The items from the first box on, each glue with its set width.
fn print_set_items(items: &[&Item], widths: &[i128], out: &mut Vec<u8>) -> Result<(), AllocError>
    requires { AllByRecursion IsPrintable widths.now }
    ensures ok { OnOk result (out.new.items ≡ out.old.items ++ set_items (behind items.now) widths.now) }
    ensures grows { Grows out.old.items out.new.items }
{
    let mut rest = items;
    let mut left = widths;
    'items: while let [item, after @ ..] = rest {
        left = print_set_item(item, left, out)?;
        rest = after;
    }
    Ok(())
}

// The glue that puts the first box at its height.
fn print_top(topskip: i32, items: &[&Item], out: &mut Vec<u8>) -> Result<(), AllocError>
    ensures ok { OnOk result (out.new.items ≡ out.old.items ++ top_line topskip (behind items.now)) }
    ensures grows { Grows out.old.items out.new.items }
{
    print_length_line(b".\\glue(\\topskip) ", top_glue(topskip, items), out)
}

// The items of a text, each glue with its set width.
pub fn print_items_set(
    topskip: i32,
    items: &[&Item],
    widths: &[i128],
    out: &mut Vec<u8>,
) -> Result<(), AllocError>
    requires { AllByRecursion IsPrintable widths.now }
    ensures ok { OnOk result (out.new.items ≡ out.old.items ++ items_text topskip (behind items.now) widths.now) }
    ensures grows { Grows out.old.items out.new.items }
{
    print_front(items, out)?;
    print_top(topskip, items, out)?;
    print_set_items(from_box(items), widths, out)
}
