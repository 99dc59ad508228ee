//! All changes of one number that help.
ghost use Rattle.std.specs.Prelude.{IfOk, IfSome, OnOk};
ghost use Rattle.pg_changes.specs.Changes.{AllHelp, Helps, NoneLegal};
ghost use Rattle.pg_changes.specs.Numbers.{IsNamed};

use crate::change::Change;
use crate::number::{Number, number_at, value_of};
use crate::trying::{Trial, Tried, try_number, try_value};
use pg_list::Galley;
use pg_style::Style;
use pg_table::Steps;
use std::alloc::{AllocError, Global};
use std::sync::ledger::Ledger;

/// The most searches in all.
pub const SEARCHES: u32 = 64;

/// What is tried of heights below a tolerance of 10000: so many scaled points more, and less.
const STEPS: [u32; 2] = [6 * 65536, 12 * 65536];

// A height near that of the style, which helps.
fn try_near<L: Ledger>(
    trial: &Trial,
    step: u32,
    left: u32,
    steps: &mut Steps<L>,
) -> Result<Tried, AllocError>
    ensures { IfOk result (λ tried. IfSome tried.change (Helps trial.now.galley.now trial.now.style.now)) }
{
    let own = value_of(trial.style, Number::Height);
    let more = try_value(trial, Number::Height, own.saturating_add(step), left, steps)?;
    if more.change.is_some() {
        return Ok(more);
    }
    try_value(
        trial,
        Number::Height,
        own.saturating_sub(step),
        more.left,
        steps,
    )
}

// A height that helps. A greater one only helps where each badness is tolerable: else some near ones are tried.
fn try_height<L: Ledger>(
    trial: &Trial,
    left: u32,
    steps: &mut Steps<L>,
) -> Result<Tried, AllocError>
    requires { NoneLegal trial.now.galley.now trial.now.style.now }
    ensures { IfOk result (λ tried. IfSome tried.change (Helps trial.now.galley.now trial.now.style.now)) }
{
    let style = trial.style;
    if style.tolerance == 10000 {
        return try_number(
            trial.alloc,
            trial.galley,
            style,
            Number::Height,
            left,
            steps,
        );
    }
    let near = try_near(trial, STEPS[0], left, steps)?;
    if near.change.is_some() {
        return Ok(near);
    }
    try_near(trial, STEPS[1], near.left, steps)
}

// Adds a change that helps, if there is one, and answers how many searches are left.
fn push_tried(trial: &Trial, tried: Tried, changes: &mut Vec<Change>) -> Result<u32, AllocError>
    requires tried { IfSome tried.change (Helps trial.now.galley.now trial.now.style.now) }
    requires helping { AllHelp trial.now.galley.now trial.now.style.now changes.old.items }
    ensures { OnOk result (AllHelp trial.now.galley.now trial.now.style.now changes.new.items) }
{
    // the clause alone speaks of it
    let _ = trial;
    if let Some(change) = tried.change {
        changes.push(change)?;
    }
    Ok(tried.left)
}

// Adds the change of a number that helps, if one does.
fn push_number<L: Ledger>(
    trial: &Trial,
    number: Number,
    left: u32,
    changes: &mut Vec<Change>,
    steps: &mut Steps<L>,
) -> Result<u32, AllocError>
    requires none { NoneLegal trial.now.galley.now trial.now.style.now }
    requires named { IsNamed trial.now.style.now number }
    requires helping { AllHelp trial.now.galley.now trial.now.style.now changes.old.items }
    ensures { OnOk result (AllHelp trial.now.galley.now trial.now.style.now changes.new.items) }
{
    let tried = try_number(trial.alloc, trial.galley, trial.style, number, left, steps)?;
    push_tried(trial, tried, changes)
}

// Adds a height that helps, if one was found.
fn push_height<L: Ledger>(
    trial: &Trial,
    left: u32,
    changes: &mut Vec<Change>,
    steps: &mut Steps<L>,
) -> Result<u32, AllocError>
    requires none { NoneLegal trial.now.galley.now trial.now.style.now }
    requires helping { AllHelp trial.now.galley.now trial.now.style.now changes.old.items }
    ensures { OnOk result (AllHelp trial.now.galley.now trial.now.style.now changes.new.items) }
{
    let tried = try_height(trial, left, steps)?;
    push_tried(trial, tried, changes)
}

// Adds the changes of classes that help.
fn push_classes<L: Ledger>(
    trial: &Trial,
    left: u32,
    changes: &mut Vec<Change>,
    steps: &mut Steps<L>,
) -> Result<u32, AllocError>
    requires none { NoneLegal trial.now.galley.now trial.now.style.now }
    requires helping { AllHelp trial.now.galley.now trial.now.style.now changes.old.items }
    ensures { OnOk result (AllHelp trial.now.galley.now trial.now.style.now changes.new.items) }
{
    let mut left = left;
    'classes: for index in 0..8u8 {
        if let Some(number) = number_at(trial.style, index) {
            left = push_number(trial, number, left, changes, steps)?;
        }
    }
    Ok(left)
}

// Adds the changes of counts that help.
fn push_counts<L: Ledger>(
    trial: &Trial,
    left: u32,
    changes: &mut Vec<Change>,
    steps: &mut Steps<L>,
) -> Result<u32, AllocError>
    requires none { NoneLegal trial.now.galley.now trial.now.style.now }
    requires helping { AllHelp trial.now.galley.now trial.now.style.now changes.old.items }
    ensures { OnOk result (AllHelp trial.now.galley.now trial.now.style.now changes.new.items) }
{
    let left = push_number(trial, Number::TopCount, left, changes, steps)?;
    let left = push_number(trial, Number::BottomCount, left, changes, steps)?;
    let left = push_number(trial, Number::WideCount, left, changes, steps)?;
    push_number(trial, Number::ColumnCount, left, changes, steps)
}

// Adds the changes of the looseness and of the least text that help.
fn push_others<L: Ledger>(
    trial: &Trial,
    left: u32,
    changes: &mut Vec<Change>,
    steps: &mut Steps<L>,
) -> Result<u32, AllocError>
    requires none { NoneLegal trial.now.galley.now trial.now.style.now }
    requires helping { AllHelp trial.now.galley.now trial.now.style.now changes.old.items }
    ensures { OnOk result (AllHelp trial.now.galley.now trial.now.style.now changes.new.items) }
{
    let left = push_number(trial, Number::Looseness, left, changes, steps)?;
    push_number(trial, Number::LeastText, left, changes, steps)
}

/// Adds for each number of a style the least change that helps, or one that was tried, and answers how many searches are
/// left.
///
/// Condition: nothing is legal under the style.
pub fn push_all<L: Ledger>(
    alloc: Global,
    galley: &Galley,
    style: &Style,
    left: u32,
    changes: &mut Vec<Change>,
    steps: &mut Steps<L>,
) -> Result<u32, AllocError>
    requires none { NoneLegal galley.now style.now }
    requires helping { AllHelp galley.now style.now changes.old.items }
    ensures { OnOk result (AllHelp galley.now style.now changes.new.items) }
{
    let trial = Trial {
        alloc,
        galley,
        style,
    };
    let left = push_number(&trial, Number::Tolerance, left, changes, steps)?;
    let left = push_counts(&trial, left, changes, steps)?;
    let left = push_classes(&trial, left, changes, steps)?;
    let left = push_others(&trial, left, changes, steps)?;
    push_height(&trial, left, changes, steps)
}
