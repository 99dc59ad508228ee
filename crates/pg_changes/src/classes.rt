//! Copies of the classes and runs of a style.
ghost use Rattle.std.specs.Prelude.{◌≡◌, ◌≤◌, ◌<◌, ◌==◌, Some, length, slice_get};
ghost use Rattle.pg_style.specs.Ranges.{AreClasses, AreRuns, IsKind};
ghost use Rattle.pg_style.specs.declared.style.Class.{Class as AClass};
ghost use Rattle.pg_changes.specs.Numbers.{kinded_at, kinded_class};

use pg_style::{Class, Classes, Gap, Kind, Runs};
use std::alloc::Global;

/// No class has this index.
const NONE: usize = 8;

// The class at a place, of another kind if it is the one at the index.
fn class_at(all: &[Class], at: usize, index: usize, kind: &Kind) -> Class
    requires { at < length all.now }
    ensures { (class : AClass) → slice_get all.now at ≡ Some class → result ≡ kinded_class (at == index) class kind.now }
{
    let class = &all[at];
    if at == index {
        Class {
            number: class.number,
            kind: *kind,
        }
    } else {
        *class
    }
}

/// The classes with another kind of the one at an index. No memory is taken.
pub fn kinded_classes(alloc: Global, classes: &Classes, index: usize, kind: &Kind) -> Classes
    requires { IsKind kind.now }
    ensures value { result ≡ kinded_at classes.now index kind.now }
    ensures range { AreClasses result }
{
    let all = classes.as_slice();
    let mut made = Classes::new(alloc);
    let mut at = 0;
    'classes: while at < all.len() {
        made.insert(class_at(all, at, index, kind));
        at += 1;
    }
    let _ = made.as_slice();
    made
}

/// The same classes. No memory is taken.
pub fn copied_classes(alloc: Global, classes: &Classes) -> Classes
    ensures value { result ≡ classes.now }
    ensures range { AreClasses result }
{
    let _ = classes.as_slice();
    let kind = Kind::Note {
        skip: Gap::rigid(0),
        limit: 0,
    };
    kinded_classes(alloc, classes, NONE, &kind)
}

/// The same runs. No memory is taken.
pub fn copied_runs(alloc: Global, runs: &Runs) -> Runs
    ensures value { result ≡ runs.now }
    ensures range { AreRuns result }
{
    let all = runs.as_slice();
    let mut made = Runs::new(alloc, all[0]);
    let mut at = 1;
    'runs: while at < all.len() {
        made.push(all[at]);
        at += 1;
    }
    let _ = made.as_slice();
    made
}
