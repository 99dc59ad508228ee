//! Choices between the variants of a paragraph.
ghost use Rattle.pg_list.specs.Shapes.{all_shaped, all_fit, same_insert, inserts, is_shaped as is_shaped_list, HasItemsInRange};
ghost use Rattle.std.specs.List.{list_all, AllByRecursion};
ghost use Rattle.std.specs.Cmp.Lexicographic.{pointwise};
ghost use Rattle.std.specs.Prelude.{◌≡◌, IfOk, take};

use crate::begun::is_shaped;
use crate::inserts::have_same_inserts;
use crate::item::Item;
use crate::variants::Variant;
use std::alloc::AllocError;
use std::marker::Model;

/// Why variants are no choice.
#[derive(Clone, Copy, PartialEq, Eq)]
pub enum ShapeFault {
    Shape,
    Inserts,
}

/// A choice between variants, which keeps its shape.
#[derive(Drop)]
pub struct Choice {
    variants: Vec<Variant>,
}

impl Model for Choice {
    ghost use Rattle.std.specs.Prelude.{List};
    ghost use Rattle.pg_list.specs.declared.variants.Variant.{Variant};

    ghost Value = { List Variant };

    ghost use Rattle.pg_list.specs.Shapes.{IsChoice};

    ghost view = { λ a. a.variants.items };

    ghost invariant = { λ a. IsChoice a.variants.items };
}

impl Choice {
    ghost use Rattle.pg_list.specs.Shapes.{IsWithinLimits, Chooses};
    ghost use Rattle.pg_list.specs.Shapes.{IsChoice};

    /// A choice of these variants, or why they are none.
    #[tactic(auto, using(crate::proofs::NewLemmas::new_lemmas))]
    pub fn new(variants: Vec<Variant>) -> Result<Choice, ShapeFault>
        requires { AllByRecursion IsWithinLimits variants.items }
        ensures { Chooses result variants.items }
    {
        if !have_shape(variants.as_slice()) {
            return Err(ShapeFault::Shape);
        }
        if !have_equal_inserts(variants.as_slice()) {
            return Err(ShapeFault::Inserts);
        }
        keep_ranges(variants.as_slice());
        Ok(Choice::of(variants))
    }

    /// A choice of variants that keep its rules.
    pub fn of(variants: Vec<Variant>) -> Choice
        requires { IsChoice variants.items }
        ensures { result ≡ variants.items }
    {
        Choice { variants }
    }

    pub fn variants(&self) -> &[Variant]
        ensures variants { result.now ≡ self.now }
        ensures shape { IsChoice self.now }
    {
        self.variants.as_slice()
    }

    pub fn copy(&self) -> Result<Choice, AllocError>
        ensures { IfOk result (λ choice. choice ≡ self.now) }
    {
        let mut variants = Vec::new(*self.variants.allocator());
        for variant in &self.variants {
            variants.push(variant.copy()?)?;
        }
        Ok(Choice { variants })
    }
}

/// The type of each variant's items keeps their ranges.
fn keep_ranges(variants: &[Variant])
    ensures { AllByRecursion HasItemsInRange variants.now }
{
    for variant in variants {
        variant.keeps_ranges();
    }
}

fn are_shaped(variants: &[Variant]) -> bool
    ensures { result ≡ list_all (λ (variant : Variant). is_shaped_list variant.items) variants.now }
{
    variants
        .iter()
        .all(|variant| is_shaped(variant.items.as_slice()))
}

fn have_shape(variants: &[Variant]) -> bool
    ensures { result ≡ all_shaped variants.now }
{
    variants.len() > 0 && (variants.len() <= 5 && are_shaped(variants))
}

fn have_inserts(first: &[Item], variants: &[Variant]) -> bool
    ensures { result ≡ list_all
        (λ (variant : Variant). pointwise same_insert (inserts first.now) (inserts variant.items)) variants.now }
{
    variants.iter().all(|variant| have_same_inserts(first, variant.items.as_slice()))
}

fn have_equal_inserts(variants: &[Variant]) -> bool
    ensures { result ≡ all_fit variants.now }
{
    match variants {
        [] => true,
        [first, rest @ ..] => have_inserts(first.items.as_slice(), rest),
    }
}
