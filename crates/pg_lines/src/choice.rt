//! The variants of a paragraph.
ghost use Rattle.std.specs.Prelude.{◌≡◌, ◌≤◌, ◌<◌, ◌+◌, ◌^◌, ◌++◌, ◌+ℤ◌, ◌-ℤ◌, ◌≤ℤ◌, IfOk, OnOk, length, min, nat_abs, pos};
ghost use Rattle.pg_list.specs.Shapes.{HasItemsInRange};
ghost use Rattle.pg_hlist.specs.Items.{IsPara};
ghost use Rattle.law_lines.specs.LineSpace.{IsLow, line_meaning};
ghost use Rattle.pg_table.specs.Label.{IsTable};
ghost use Rattle.pg_lines.specs.Found.{IsFound};
ghost use Rattle.pg_lines.specs.Moves.{low_by};
ghost use Rattle.law_lines.specs.ParagraphsLaws.{IsRule};
ghost use Rattle.law_lines.specs.Variants.{AreVariantsOf, loosenesses as loosenesses_of, most_demerits, variant_of as variant_of_way};
ghost use Rattle.law_lines.specs.Ways.{IsBestWay, demerits};
ghost use Rattle.pg_lines.specs.Answers.{IsCount, IsKnown, Varies, variant_by};

use crate::lines::way_items;
use crate::{BestSpace, LineLists, LineSpace, Way, best_count, fewest_lines, least_way};
use law_lines::{LineRule, LineState};
use pg_hlist::HItem;
use pg_list::Variant;
use pg_table::{Steps, Table};
use std::alloc::{AllocError, Global};
use std::sync::ledger::Ledger;

type Labels = Table<LineState, u32, LineState>;

// The demerits of a way beyond those of the best one, at most 10^8.
fn demerits_beyond(way: &Way, best: &Way) -> u32
    requires way { nat_abs way.now.demerits < 2 ^ 100 }
    requires best { nat_abs best.now.demerits < 2 ^ 100 }
    ensures { result ≡ min (nat_abs (way.now.demerits -ℤ best.now.demerits)) most_demerits }
{
    (way.demerits - best.demerits)
        .unsigned_abs()
        .min(100_000_000) as u32
}

// How many lines these are, so many more than in a way; 0 where they are none.
fn lines_beyond(way: &Way, looseness: i32) -> u32
    requires { length way.now.ends.items ≤ 2 ^ 11 }
    ensures { IsCount (pos (length way.now.ends.items) +ℤ looseness) result }
{
    match (way.ends.as_slice().len() as u32).checked_add_signed(looseness) {
        Some(lines) => lines,
        None => 0,
    }
}

// The variant of a way, so many lines longer than the best one.
fn variant_of(
    alloc: Global,
    rule: &LineRule,
    items: &[HItem],
    best: &Way,
    looseness: i32,
    way: &Way,
) -> Result<Variant, AllocError>
    requires rule { IsRule rule.now }
    requires para { IsPara items.now }
    requires best { IsKnown rule.now items.now best.now }
    requires way { IsKnown rule.now items.now way.now }
    ensures value { IfOk result (λ variant. variant
        ≡ variant_of_way rule.now items.now best.now.ends.items looseness way.now.ends.items) }
    ensures range { IfOk result HasItemsInRange }
{
    let variant = Variant {
        looseness,
        demerits: demerits_beyond(way, best),
        items: way_items(alloc, rule, items, way.ends.as_slice())?,
    };
    variant.keeps_ranges();
    Ok(variant)
}

// Adds the variant of so many lines more than the best way, where there is such a way.
fn push_variant(
    variants: &mut Vec<Variant>,
    alloc: Global,
    space: &LineSpace<'_>,
    table: &Labels,
    best: &Way,
    looseness: i32,
) -> Result<(), AllocError>
    requires rule { IsRule space.now.rule.now }
    requires para { IsPara space.now.items.now }
    requires low { IsLow space.now.rule.now space.now.items.now
        (low_by (length space.now.items.now) space.now.low.now) }
    requires table { IsTable (line_meaning space.now.rule.now space.now.items.now
        (low_by (length space.now.items.now) space.now.low.now) space.now.most) table.now }
    requires best { IsKnown space.now.rule.now space.now.items.now best.now }
    requires near { (pos (length best.now.ends.items) +ℤ looseness) ≤ℤ pos space.now.most }
    ensures { OnOk result (variants.new.items ≡ variants.old.items
        ++ variant_by space.now.rule.now space.now.items.now best.now.ends.items looseness) }
{
    let lines = lines_beyond(best, looseness);
    if lines == 0 {
        return Ok(());
    }
    if let Some(way) = least_way(alloc, space, table, lines)? {
        variants.push(variant_of(alloc, space.rule, space.items, best, looseness, &way)?)?;
    }
    Ok(())
}

// How many lines more than the best way the variants have, in their order.
fn loosenesses(around: u8) -> &'static [i32]
    requires { around ≤ 2 }
    ensures { result.now ≡ loosenesses_of around }
{
    match around {
        0 => &[0],
        1 => &[0, -1, 1],
        _ => &[0, -1, 1, -2, 2],
    }
}

// The variants around the best number of lines.
fn variants_around(
    alloc: Global,
    space: &LineSpace<'_>,
    table: &Labels,
    best: &Way,
) -> Result<Vec<Variant>, AllocError>
    requires rule { IsRule space.now.rule.now }
    requires para { IsPara space.now.items.now }
    requires low { IsLow space.now.rule.now space.now.items.now
        (low_by (length space.now.items.now) space.now.low.now) }
    requires table { IsTable (line_meaning space.now.rule.now space.now.items.now
        (low_by (length space.now.items.now) space.now.low.now) space.now.most) table.now }
    requires known { best.now.demerits ≡ demerits space.now.rule.now space.now.items.now best.now.ends.items }
    requires best { IsBestWay space.now.rule.now space.now.items.now best.now.ends.items }
    requires most { space.now.most ≡ length best.now.ends.items + space.now.rule.now.around }
    ensures { IfOk result (λ variants. AreVariantsOf space.now.rule.now space.now.items.now variants.items) }
{
    let mut variants = Vec::new(alloc);
    let mut rest = loosenesses(space.rule.around);
    'loosenesses: while let [looseness, after @ ..] = rest {
        push_variant(&mut variants, alloc, space, table, best, *looseness)?;
        rest = after;
    }
    Ok(variants)
}

/// The variants of a paragraph, each the least way of its number of lines; None where it cannot be broken. The one
/// refusal is want of memory.
pub fn variants_of<L: Ledger>(
    alloc: Global,
    rule: &LineRule,
    items: &[HItem],
    steps: &mut Steps<L>,
) -> Result<Option<Vec<Variant>>, AllocError>
    requires rule { IsRule rule.now }
    requires para { IsPara items.now }
    ensures { IfOk result (Varies rule.now items.now) }
{
    let lists = LineLists::of(alloc, rule, items)?;
    let breaks = BestSpace::new(alloc, rule, items, &lists);
    let Some(count) = best_count(alloc, &breaks, steps)? else {
        return Ok(None);
    };
    let low = fewest_lines(alloc, &breaks)?;
    let most = count + u32::from(rule.around);
    let space = LineSpace::new(alloc, rule, items, &lists, low.as_slice(), most);
    let mut table = Table::new(alloc);
    table.fill(&space, steps)?;
    let Some(best) = least_way(alloc, &space, &table, count)? else {
        unreachable!()
    };
    let variants = variants_around(alloc, &space, &table, &best)?;
    Ok(Some(variants))
}
