//! Values of a number that are tried.
ghost use Rattle.std.specs.Prelude.{◌≡◌, ◌≤◌, false, true, IfOk, IfSome};
ghost use Rattle.pg_furthest.specs.Pages.{TellsLegal};
ghost use Rattle.pg_style.specs.Ranges.{IsStyle};
ghost use Rattle.pg_changes.specs.Changes.{Helps, NoneLegal, TellsValue};
ghost use Rattle.pg_changes.specs.Numbers.{IsNamed, with_number as with_number_of};

use crate::change::{Change, with_number};
use crate::number::{LENGTH, Number, far_of, step_back, value_of};
use pg_furthest::has_pages;
use pg_list::Galley;
use pg_style::Style;
use pg_table::Steps;
use std::alloc::{AllocError, Global};
use std::sync::ledger::Ledger;

/// A galley, and a style of which one number is changed.
#[derive(Clone, Copy)]
pub struct Trial<'a> {
    pub alloc: Global,
    pub galley: &'a Galley,
    pub style: &'a Style,
}

/// What a search for a change of one number gave, and how many searches are left.
#[derive(Clone, Copy)]
pub struct Tried {
    pub change: Option<Change>,
    pub left: u32,
}

// Whether something is legal under a style.
fn is_legal_under<L: Ledger>(
    alloc: Global,
    galley: &Galley,
    style: &Style,
    steps: &mut Steps<L>,
) -> Result<bool, AllocError>
    ensures range { IsStyle style.now }
    ensures legal { IfOk result (TellsLegal galley.now style.now) }
{
    style.stays_in_range();
    match has_pages(alloc, galley, style, steps) {
        Ok(is) => Ok(is),
        Err(_) => Err(AllocError),
    }
}

/// Whether something is legal under a value of a number, if a style may have it.
pub fn helps<L: Ledger>(
    alloc: Global,
    galley: &Galley,
    style: &Style,
    number: Number,
    value: u32,
    steps: &mut Steps<L>,
) -> Result<Option<bool>, AllocError>
    requires { value ≤ 1073741823 }
    ensures { IfOk result (λ told. IfSome told (TellsValue galley.now style.now number value)) }
{
    let Some(made) = with_number(alloc, style, number, value) else {
        return Ok(None);
    };
    let is = is_legal_under(alloc, galley, &made, steps)?;
    Ok(Some(is))
}

// Of two values of a number, of which the one helps and the other does not, halves what lies between as long as searches
// are left.
fn halve<L: Ledger>(
    trial: &Trial,
    number: Number,
    bad: u32,
    good: u32,
    left: u32,
    steps: &mut Steps<L>,
) -> Result<Tried, AllocError>
    requires named { IsNamed trial.now.style.now number }
    requires bad_few { bad ≤ 1073741823 }
    requires good_few { good ≤ 1073741823 }
    requires none { NoneLegal trial.now.galley.now (with_number_of trial.now.style.now number bad) }
    requires some { TellsValue trial.now.galley.now trial.now.style.now number good true }
    ensures { IfOk result (λ tried. IfSome tried.change (Helps trial.now.galley.now trial.now.style.now)) }
{
    let mut bad = bad;
    let mut good = good;
    let mut left = left;
    'halves: while bad != step_back(number, good) && left > 0 {
        let middle = (bad + good) / 2;
        left -= 1;
        match helps(
            trial.alloc,
            trial.galley,
            trial.style,
            number,
            middle,
            steps,
        )? {
            Some(is) => {
                if is {
                    good = middle;
                } else {
                    bad = middle;
                }
            }
            None => break 'halves,
        }
    }
    Ok(Tried {
        change: Some(Change {
            number,
            value: good,
            is_least: bad == step_back(number, good),
        }),
        left,
    })
}

// The change of a number between the value that a style has and another.
fn try_between<L: Ledger>(
    trial: &Trial,
    number: Number,
    own: u32,
    far: u32,
    left: u32,
    steps: &mut Steps<L>,
) -> Result<Tried, AllocError>
    requires named { IsNamed trial.now.style.now number }
    requires own_few { own ≤ 1073741823 }
    requires far_few { far ≤ 1073741823 }
    requires none { NoneLegal trial.now.galley.now (with_number_of trial.now.style.now number own) }
    ensures { IfOk result (λ tried. IfSome tried.change (Helps trial.now.galley.now trial.now.style.now)) }
{
    match helps(trial.alloc, trial.galley, trial.style, number, far, steps)? {
        Some(is) => {
            if is {
                halve(trial, number, own, far, left, steps)
            } else {
                Ok(Tried { change: None, left })
            }
        }
        None => Ok(Tried { change: None, left }),
    }
}

/// The change of a number that helps, if any does: the least, where enough searches are left.
///
/// Condition: nothing is legal under the style, and a limit names the class at its index.
pub fn try_number<L: Ledger>(
    alloc: Global,
    galley: &Galley,
    style: &Style,
    number: Number,
    left: u32,
    steps: &mut Steps<L>,
) -> Result<Tried, AllocError>
    requires none { NoneLegal galley.now style.now }
    requires named { IsNamed style.now number }
    ensures { IfOk result (λ tried. IfSome tried.change (Helps galley.now style.now)) }
{
    style.stays_in_range();
    let own = value_of(style, number);
    let far = far_of(style, number);
    if own == far || left == 0 || own > LENGTH || far > LENGTH {
        return Ok(Tried { change: None, left });
    }
    let trial = Trial {
        alloc,
        galley,
        style,
    };
    try_between(&trial, number, own, far, left - 1, steps)
}

/// A change of a number to a value, if something is legal under it.
///
/// Condition: a limit names the class at its index.
pub fn try_value<L: Ledger>(
    trial: &Trial,
    number: Number,
    value: u32,
    left: u32,
    steps: &mut Steps<L>,
) -> Result<Tried, AllocError>
    requires { IsNamed trial.now.style.now number }
    ensures { IfOk result (λ tried. IfSome tried.change (Helps trial.now.galley.now trial.now.style.now)) }
{
    if left == 0 || value > LENGTH {
        return Ok(Tried { change: None, left });
    }
    let left = left - 1;
    match helps(trial.alloc, trial.galley, trial.style, number, value, steps)? {
        Some(is) => {
            if is {
                Ok(Tried {
                    change: Some(Change {
                        number,
                        value,
                        is_least: false,
                    }),
                    left,
                })
            } else {
                Ok(Tried { change: None, left })
            }
        }
        None => Ok(Tried { change: None, left }),
    }
}
