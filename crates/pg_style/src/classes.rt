//! The classes of a style.
ghost use Rattle.std.specs.Prelude.{◌==◌, ℕ, ◌≡◌, ◌<◌, ◌≤◌, None, [], length, nat_lt};
ghost use Rattle.std.specs.List.{position_from, prefix_len};
ghost use Rattle.std.specs.Option.{option_copied};
ghost use Rattle.pg_style.specs.Classes.{class_in, inserted, is_float_class, float_numbers_of};
ghost use Rattle.pg_style.specs.Ranges.{IsClass, AreClasses};

use crate::style::{Class, Gap, Kind};
use std::alloc::Global;
use std::marker::Model;

// Where no class stands yet.
const NO_CLASS: Class = Class {
    number: 0,
    kind: Kind::Note {
        skip: Gap {
            size: 0,
            stretch: 0,
            shrink: 0,
        },
        limit: 0,
    },
};

/// The classes of inserts, at most 8, in increasing number.
#[derive(Drop)]
pub struct Classes {
    // the first `count` are meant
    classes: [Class; 8],
    count: usize,
}

impl Model for Classes {
    ghost use Rattle.std.specs.Prelude.{List, ◌≤◌, take};
    ghost use Rattle.pg_style.specs.declared.style.Class.{Class};

    ghost Value = { List Class };

    ghost use Rattle.pg_style.specs.Ranges.{AreClasses};

    ghost view = { λ a. take a.count a.classes };

    ghost invariant = { λ a. AreClasses (take a.count a.classes) × (a.count ≤ 8) };
}

fn is_float(class: &Class) -> bool
    ensures { result ≡ is_float_class class.now }
{
    matches!(class.kind, Kind::Float { .. })
}

// How many classes at the front have a lesser number.
fn count_below(classes: &[Class], number: u8) -> usize
    ensures count { result ≡ prefix_len (λ (class : Class). nat_lt class.number number) classes.now }
    ensures within { result ≤ length classes.now }
{
    classes
        .iter()
        .take_while(|class| class.number < number)
        .count()
}

fn slot_in(classes: &[Class], number: u8) -> Option<usize>
    ensures { result ≡ position_from (λ (n : ℕ). n == number) 0 (float_numbers_of classes.now) }
{
    let mut slot = 0;
    let mut rest = classes;
    'classes: while let [class, after @ ..] = rest {
        if is_float(class) {
            if class.number == number {
                return Some(slot);
            }
            slot += 1;
        }
        rest = after;
    }
    None
}

impl Classes {
    /// No classes. No memory is taken.
    pub fn new(alloc: Global) -> Classes
        ensures { result ≡ [] }
    {
        Classes {
            classes: [NO_CLASS; 8],
            count: 0,
        }
    }

    /// Puts a class between those of lesser and of greater number. No memory is taken.
    pub fn insert(&mut self, class: Class)
        requires few { length self.old < 8 }
        requires range { IsClass class }
        requires new_number { class_in self.old class.number ≡ None }
        ensures { self.new ≡ inserted class self.old }
    {
        let index = count_below(&self.classes[..self.count], class.number);
        self.classes.copy_within(index..self.count, index + 1);
        self.classes[index] = class;
        self.count += 1;
    }

    pub fn as_slice(&self) -> &[Class]
        ensures classes { result.now ≡ self.now }
        ensures range { AreClasses self.now }
    {
        &self.classes[..self.count]
    }

    /// The class of a number. None exactly where there is none.
    pub fn class_of(&self, number: u8) -> Option<&Class>
        ensures { option_copied result ≡ class_in self.now number }
    {
        self.as_slice().iter().find(|class| class.number == number)
    }

    /// The position of a class among the float classes. None exactly where no float class has this
    /// number.
    pub fn float_slot(&self, number: u8) -> Option<usize>
        ensures { result ≡ position_from (λ (n : ℕ). n == number) 0 (float_numbers_of self.now) }
    {
        slot_in(self.as_slice(), number)
    }
}
