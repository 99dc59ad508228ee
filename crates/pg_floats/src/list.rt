//! The list of floats.
ghost use Rattle.std.specs.Prelude.{◌≡◌, ◌<◌, ◌≤◌, ◌+◌, ◌^◌, ◌++◌, ◌∷◌, [], ℕ, List, Some, None, Ok, Err, OnOk};
ghost use Rattle.std.specs.Prelude.{IfOk, IfSome, MatchOption, length, take, true, false, nat_lt, pos, slice_get};
ghost use Rattle.std.specs.Prelude.{option_copied};
ghost use Rattle.std.specs.List.{AllByRecursion};
ghost use Rattle.std.specs.List.Sorted.{IsPartitionedBy, IsPartitionPoint};
ghost use Rattle.pg_list.specs.Counts.{item_count, item_limit};
ghost use Rattle.pg_list.specs.Places.{spliced};
ghost use Rattle.pg_list.specs.Shapes.{IsBlock};
ghost use Rattle.pg_list.specs.declared.blocks.Block.{Block as ABlock};
ghost use Rattle.pg_style.specs.Values.{StyleValue};
ghost use Rattle.pg_style.specs.Ranges.{AreClasses};
ghost use Rattle.pg_list.specs.Barrier.{up_to_barrier};
ghost use Rattle.pg_list.specs.Flat.{flat, items_before};
ghost use Rattle.pg_rules.specs.Floats.{called, entry, floats, flushed, sizes_of};
ghost use Rattle.pg_floats.specs.declared.callouts.Callout.{Callout as ACallout};
ghost use Rattle.pg_floats.specs.Areas.{has_dealt, IsDealt};
ghost use Rattle.pg_floats.specs.FloatsValue.{callout_at, AreKept, IsInRange, total_of};
ghost use Rattle.pg_floats.specs.Callouts.{class_floats, lists_from, unknown_among, unknown_blocks};
ghost use Rattle.pg_floats.specs.AreFloats.{AreFloats, IsWithinLimit, MakesList, unknown_class};
ghost use Rattle.pg_floats.specs.AreFloats.{count_of as count_dealt, float_size, float_total, height_of};

use crate::area::{Dealt, area_size, deal};
use crate::callouts::{Callout, Callouts, callouts_of, first_items_of};
use crate::fault::FloatFault;
use crate::inserts::{inserts_before, places_of};
use pg_list::{Block, Edit, Galley, Item, Place};
use pg_plan::Counts;
use pg_style::{AreaRule, Class, Kind, Style};
use std::alloc::{AllocError, Global};
use std::marker::Model;

/// The floats of a class, in order, and the places of their inserts in every variant.
#[derive(Drop)]
pub struct ClassFloats {
    pub number: u8,
    pub callouts: Callouts,
    pub places: Vec<Place>,
}

impl Model for ClassFloats {
    ghost use Rattle.pg_floats.specs.FloatsValue.{ClassFloatsValue, AreFewPlaces};

    ghost Value = { ClassFloatsValue };

    ghost view = { λ a. record { number = a.number; callouts = a.callouts; places = a.places.items } };

    ghost invariant = { λ a. AreFewPlaces a.places.items };
}

/// The floats of a galley by class, the float classes of the style in increasing number.
#[derive(Drop)]
pub struct FloatList {
    classes: Vec<ClassFloats>,
}

impl Model for FloatList {
    ghost use Rattle.std.specs.Prelude.{List};
    ghost use Rattle.pg_floats.specs.FloatsValue.{ClassFloatsValue};

    ghost Value = { List ClassFloatsValue };

    ghost use Rattle.pg_floats.specs.FloatsValue.{AreKept};

    ghost view = { λ a. a.classes.items };

    ghost invariant = { λ a. AreKept a.classes.items };
}

// The class of the first insert among the items whose class the style does not have.
fn unknown_in(items: &[Item], style: &Style) -> Option<u8>
    ensures { result ≡ unknown_among style.now.classes items.now }
{
    let mut rest = items;
    'items: while let [item, after @ ..] = rest {
        if let Item::Insert { class, .. } = item {
            if style.class_of(*class).is_none() {
                return Some(*class);
            }
        }
        rest = after;
    }
    None
}

// The class of the first insert of the blocks whose class the style does not have.
fn unknown_of(blocks: &[Block], style: &Style) -> Option<u8>
    requires { AllByRecursion IsBlock blocks.now }
    ensures { result ≡ unknown_blocks style.now.classes blocks.now }
{
    let mut rest = blocks;
    'each: while let [block, after @ ..] = rest {
        if let Some(number) = unknown_in(first_items_of(block), style) {
            return Some(number);
        }
        rest = after;
    }
    None
}

// Adds the floats of a class, where it is a float class.
fn push_class(
    alloc: Global,
    out: &mut Vec<ClassFloats>,
    before: &[Block],
    fresh: &[Block],
    behind: &[Block],
    class: &Class,
) -> Result<(), AllocError>
    requires shape { AllByRecursion IsBlock (before.now ++ fresh.now ++ behind.now) }
    requires few { item_count (before.now ++ fresh.now ++ behind.now) ≤ item_limit }
    ensures { OnOk result (out.new.items
        ≡ out.old.items ++ lists_from (before.now ++ fresh.now ++ behind.now) (class.now ∷ [])) }
{
    if let Kind::Float { .. } = &class.kind {
        let callouts = callouts_of(alloc, before, fresh, behind, class.number)?;
        let places = places_of(alloc, before, fresh, behind, class.number)?;
        out.push(ClassFloats {
            number: class.number,
            callouts,
            places,
        })?;
    }
    Ok(())
}

fn lists_of(
    alloc: Global,
    before: &[Block],
    fresh: &[Block],
    behind: &[Block],
    classes: &[Class],
) -> Result<Vec<ClassFloats>, AllocError>
    requires shape { AllByRecursion IsBlock (before.now ++ fresh.now ++ behind.now) }
    requires few { item_count (before.now ++ fresh.now ++ behind.now) ≤ item_limit }
    ensures { IfOk result (λ lists.
        lists.items ≡ lists_from (before.now ++ fresh.now ++ behind.now) classes.now) }
{
    let mut lists = Vec::new(alloc);
    let mut rest = classes;
    'each: while let [class, after @ ..] = rest {
        push_class(alloc, &mut lists, before, fresh, behind, class)?;
        rest = after;
    }
    Ok(lists)
}

// The number of floats of all classes.
fn count_of(lists: &[ClassFloats]) -> usize
    requires { total_of lists.now < 2 ^ 62 }
    ensures { result ≡ total_of lists.now }
{
    let mut count = 0;
    let mut rest = lists;
    'each: while let [floats, after @ ..] = rest {
        count += floats.callouts.as_slice().len();
        rest = after;
    }
    count
}

// Lists within the limit, or how many floats there are.
fn limited(lists: Vec<ClassFloats>) -> Result<FloatList, FloatFault>
    requires few { length lists.items ≤ 8 }
    requires total { total_of lists.items < 2 ^ 32 }
    ensures { IsWithinLimit result lists.items }
{
    let count = count_of(lists.as_slice());
    if count > 4096 {
        return Err(FloatFault::Limit {
            count: count as u32,
        });
    }
    Ok(FloatList { classes: lists })
}

// The lists of classes that are in order.
fn listed(
    alloc: Global,
    before: &[Block],
    fresh: &[Block],
    behind: &[Block],
    classes: &[Class],
) -> Result<FloatList, FloatFault>
    requires shape { AllByRecursion IsBlock (before.now ++ fresh.now ++ behind.now) }
    requires few { item_count (before.now ++ fresh.now ++ behind.now) ≤ item_limit }
    requires classes { length classes.now ≤ 8 }
    ensures { IsWithinLimit result (lists_from (before.now ++ fresh.now ++ behind.now) classes.now) }
{
    match lists_of(alloc, before, fresh, behind, classes) {
        Ok(lists) => limited(lists),
        Err(_) => Err(FloatFault::Memory),
    }
}

// The blocks of a galley keep their shape.
fn blocks_of(galley: &Galley) -> &[Block]
    ensures blocks { result.now ≡ galley.now.blocks }
    ensures shape { AllByRecursion IsBlock galley.now.blocks }
    ensures few { item_count galley.now.blocks ≤ item_limit }
{
    galley.blocks().as_slice()
}

// The classes of a style, which stand in increasing number.
fn classes_of(style: &Style) -> &[Class]
    ensures classes { result.now ≡ style.now.classes }
    ensures range { AreClasses style.now.classes }
{
    style.classes.as_slice()
}

// The class of the first insert of three parts whose class the style does not have.
fn unknown(before: &[Block], fresh: &[Block], behind: &[Block], style: &Style) -> Option<u8>
    requires before { AllByRecursion IsBlock before.now }
    requires fresh { AllByRecursion IsBlock fresh.now }
    requires behind { AllByRecursion IsBlock behind.now }
    ensures { result ≡ unknown_class (before.now ++ fresh.now ++ behind.now) style.now }
{
    match unknown_of(before, style) {
        Some(number) => Some(number),
        None => match unknown_of(fresh, style) {
            Some(number) => Some(number),
            None => unknown_of(behind, style),
        },
    }
}

// The floats of a galley that stands in three parts, one behind the other.
fn all_floats(
    alloc: Global,
    before: &[Block],
    fresh: &[Block],
    behind: &[Block],
    style: &Style,
) -> Result<FloatList, FloatFault>
    requires shape { AllByRecursion IsBlock (before.now ++ fresh.now ++ behind.now) }
    requires few { item_count (before.now ++ fresh.now ++ behind.now) ≤ item_limit }
    ensures { MakesList result (before.now ++ fresh.now ++ behind.now) style.now }
{
    match unknown(before, fresh, behind, style) {
        Some(number) => Err(FloatFault::Class { number }),
        None => listed(alloc, before, fresh, behind, classes_of(style)),
    }
}

// The blocks that an edit puts into a galley keep their shape.
fn fresh_of(edit: &Edit) -> &[Block]
    ensures blocks { result.now ≡ edit.now.fresh }
    ensures shape { AllByRecursion IsBlock edit.now.fresh }
{
    edit.fresh.as_slice()
}

// How many callouts stand in blocks before one.
fn called_above(callouts: &[Callout], block: u32) -> usize
    ensures point { IsPartitionedBy (λ (callout : ACallout). nat_lt callout.block block) callouts.now →
        IsPartitionPoint (λ (callout : ACallout). nat_lt callout.block block ≡ true)
        (λ (callout : ACallout). nat_lt callout.block block ≡ false) callouts.now result }
    ensures within { result ≤ length callouts.now }
{
    callouts.partition_point(|callout| callout.block < block)
}

// How many floats of a class are called before a place.
fn called_in(floats: &ClassFloats, place: Place) -> u32
    requires { length floats.now.callouts ≤ 2 ^ 12 }
    ensures { (blocks : List ABlock) (number : ℕ) → AllByRecursion IsBlock blocks →
        floats.now ≡ class_floats blocks number → result ≡ length (sizes_of number (items_before blocks place)) }
{
    let above = called_above(floats.callouts.as_slice(), place.block);
    let within = inserts_before(floats.places.as_slice(), place);
    (above + within) as u32
}

// How many callouts stand in front of barriers before a block.
fn flushed_above(callouts: &[Callout], block: u32) -> usize
    ensures point { IsPartitionedBy (λ (callout : ACallout). nat_lt callout.barrier block) callouts.now →
        IsPartitionPoint (λ (callout : ACallout). nat_lt callout.barrier block ≡ true)
        (λ (callout : ACallout). nat_lt callout.barrier block ≡ false) callouts.now result }
    ensures within { result ≤ length callouts.now }
{
    callouts.partition_point(|callout| callout.barrier < block)
}

// How many floats of a class are called before the last barrier in front of a block.
fn flushed_in(floats: &ClassFloats, block: u32) -> u32
    requires { length floats.now.callouts ≤ 2 ^ 12 }
    ensures value { (blocks : List ABlock) (number : ℕ) → AllByRecursion IsBlock blocks →
        floats.now ≡ class_floats blocks number →
        result ≡ length (sizes_of number (flat (up_to_barrier (take block blocks)) [])) }
    ensures few { result ≤ 2 ^ 12 }
{
    flushed_above(floats.callouts.as_slice(), block) as u32
}

fn size_of(callout: &Callout) -> i32
    requires { IsInRange callout.now }
    ensures { result ≡ pos callout.now.size }
{
    callout.size as i32
}

impl FloatList {
    /// The floats of a galley whose inserts are of classes that the style has.
    ///
    /// `Class` comes exactly where the style lacks the class of an insert, and names the first such in galley order;
    /// else `Limit` comes where there are more than 2^12 floats. `Memory` may come in place of it and of success.
    pub fn of(alloc: Global, galley: &Galley, style: &Style) -> Result<FloatList, FloatFault>
        ensures { MakesList result galley.now.blocks style.now }
    {
        all_floats(alloc, blocks_of(galley), &[], &[], style)
    }

    /// The floats that a galley has behind an edit, with the refusals of `of`. The edited galley is not made.
    ///
    /// Conditions: the blocks that go are there, and the edited galley has at most 2^20 items.
    pub fn after(
        alloc: Global,
        galley: &Galley,
        edit: &Edit,
        style: &Style,
    ) -> Result<FloatList, FloatFault>
        requires there { edit.now.at + edit.now.gone ≤ length galley.now.blocks }
        requires few { item_count (spliced galley.now.blocks edit.now) ≤ item_limit }
        ensures { MakesList result (spliced galley.now.blocks edit.now) style.now }
    {
        let blocks = blocks_of(galley);
        let at = edit.at as usize;
        let end = at + edit.gone as usize;
        all_floats(alloc, &blocks[..at], fresh_of(edit), &blocks[end..], style)
    }

    /// Hands on that there are at most 2^12 floats.
    pub fn stays_few(&self)
        ensures { (blocks : List ABlock) (style : StyleValue) → AreFloats blocks style self.now →
            float_total blocks style ≤ 2 ^ 12 }
    {
        self.stays_kept();
    }

    // Hands on what the type keeps.
    fn stays_kept(&self)
        ensures { AreKept self.now }
    {
        let _ = &self.classes;
    }

    // The callout of a float, by its slot and number.
    fn callout_at(&self, slot: usize, number: u32) -> Option<Callout>
        ensures value { result ≡ callout_at self.now slot number }
        ensures range { IfSome result IsInRange }
    {
        match self.classes.get(slot) {
            None => None,
            Some(floats) => floats.callouts.at(number as usize),
        }
    }

    /// The size of a float in scaled points, by its slot and number. None exactly where the class has not so many.
    pub fn size(&self, slot: usize, number: u32) -> Option<i32>
        ensures { (blocks : List ABlock) (style : StyleValue) → AreFloats blocks style self.now →
            result ≡ float_size blocks style slot number }
    {
        match self.callout_at(slot, number) {
            None => None,
            Some(callout) => Some(size_of(&callout)),
        }
    }

    // The floats of a slot.
    fn floats_at(&self, slot: usize) -> Option<&ClassFloats>
        ensures value { option_copied result ≡ slice_get self.now slot }
        ensures few { IfSome result (λ floats. length floats.now.callouts ≤ 2 ^ 12) }
    {
        self.classes.get(slot)
    }

    /// How many floats of a slot are called before a place of the galley.
    ///
    /// The list holds where the inserts of each class stand in all variants, and only these places are searched.
    pub fn called(&self, galley: &Galley, place: Place, slot: usize) -> u32
        ensures { (style : StyleValue) → AreFloats galley.now.blocks style self.now →
            result ≡ entry (called galley.now.blocks style place) slot }
    {
        // the clause alone speaks of the galley
        let _ = galley;
        match self.floats_at(slot) {
            None => 0,
            Some(floats) => called_in(floats, place),
        }
    }

    /// How many floats of a slot are called before the last barrier in front of a block of the galley; none where there
    /// is no barrier.
    pub fn flushed(&self, galley: &Galley, block: u32, slot: usize) -> u32
        ensures value { (style : StyleValue) → AreFloats galley.now.blocks style self.now →
            result ≡ entry (flushed galley.now.blocks style block) slot }
        ensures few { result ≤ 2 ^ 12 }
    {
        // the clause alone speaks of the galley
        let _ = galley;
        match self.floats_at(slot) {
            None => 0,
            Some(floats) => flushed_in(floats, block),
        }
    }

    // The floats that counts deal out behind those that are placed.
    fn dealt(&self, placed: &Counts, counts: &Counts) -> Option<Dealt>
        ensures { MatchOption result (has_dealt 0 self.now placed.now counts.now ≡ false)
            (IsDealt self.now placed.now counts.now) }
    {
        deal(self.classes.as_slice(), placed, counts)
    }

    /// How many floats counts deal out behind those that are placed. None exactly where a class has not so many.
    pub fn count(&self, placed: &Counts, counts: &Counts) -> Option<u32>
        ensures value { (blocks : List ABlock) (style : StyleValue) → AreFloats blocks style self.now →
            result ≡ count_dealt (floats blocks style) placed.now counts.now }
        ensures few { IfSome result (λ count. count ≤ 2 ^ 12) }
    {
        match self.dealt(placed, counts) {
            None => None,
            Some(dealt) => Some(dealt.count as u32),
        }
    }

    /// The height of an area that takes the next floats of each class by counts, behind those that are placed, in
    /// scaled points: 0 without floats, else their sizes, a separator between two, and a gap. None exactly where a
    /// class has not so many.
    pub fn area(&self, rule: &AreaRule, placed: &Counts, counts: &Counts) -> Option<i64>
        ensures { (blocks : List ABlock) (style : StyleValue) → AreFloats blocks style self.now →
            result ≡ height_of (floats blocks style) rule.now placed.now counts.now }
    {
        match self.dealt(placed, counts) {
            None => None,
            Some(dealt) => Some(area_size(rule, &dealt) as i64),
        }
    }
}
