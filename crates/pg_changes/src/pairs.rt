//! Two changes that help together.
ghost use Rattle.std.specs.Prelude.{◌≡◌, ◌≤◌, IfOk, IfSome};
ghost use Rattle.pg_changes.specs.Changes.{HelpTogether};
ghost use Rattle.pg_changes.specs.Numbers.{IsNamed, with_number as with_number_of};

use crate::change::{Change, with_number};
use crate::number::{LENGTH, Number, far_of, number_at, value_of};
use crate::trying::{Trial, helps};
use pg_list::Galley;
use pg_style::Style;
use pg_table::Steps;
use std::alloc::{AllocError, Global};
use std::sync::ledger::Ledger;

/// Two changes.
#[derive(Clone, Copy, PartialEq, Eq)]
pub struct Pair {
    pub one: Change,
    pub other: Change,
}

// What a search for two changes gave, and how many searches are left.
#[derive(Clone, Copy)]
struct Paired {
    pair: Option<Pair>,
    left: u32,
}

/// More numbers than a style has that are tried together.
const COUNT: u8 = 15;

// The numbers that are tried together, in turn.
fn number_of(style: &Style, place: u8) -> Option<Number>
    ensures { IfSome result (IsNamed style.now) }
{
    match place {
        0 => Some(Number::Tolerance),
        1 => Some(Number::TopCount),
        2 => Some(Number::BottomCount),
        3 => Some(Number::WideCount),
        4 => Some(Number::ColumnCount),
        5 => Some(Number::Looseness),
        6 => Some(Number::LeastText),
        _ => number_at(style, place.saturating_sub(7)),
    }
}

// A number that is changed to a value.
fn tried(number: Number, value: u32) -> Change
    ensures number { result.number ≡ number }
    ensures value { result.value ≡ value }
{
    Change {
        number,
        value,
        is_least: false,
    }
}

// Two changes, if something is legal under the second in a style with the first.
fn pair_in<L: Ledger>(
    trial: &Trial,
    made: &Style,
    one: Change,
    other: Number,
    steps: &mut Steps<L>,
) -> Result<Option<Pair>, AllocError>
    requires made { made.now ≡ with_number_of trial.now.style.now one.number one.value }
    requires one { IsNamed trial.now.style.now one.number }
    requires other { IsNamed trial.now.style.now other }
    ensures { IfOk result (λ told. IfSome told (HelpTogether trial.now.galley.now trial.now.style.now)) }
{
    let far = far_of(made, other);
    if far > LENGTH {
        return Ok(None);
    }
    match helps(trial.alloc, trial.galley, made, other, far, steps)? {
        Some(is) => {
            if is {
                Ok(Some(Pair {
                    one,
                    other: tried(other, far),
                }))
            } else {
                Ok(None)
            }
        }
        None => Ok(None),
    }
}

// Two changes of which the first is given, and the second is of a number behind a place.
fn pair_behind<L: Ledger>(
    trial: &Trial,
    made: &Style,
    one: Change,
    place: u8,
    left: u32,
    steps: &mut Steps<L>,
) -> Result<Paired, AllocError>
    requires made { made.now ≡ with_number_of trial.now.style.now one.number one.value }
    requires one { IsNamed trial.now.style.now one.number }
    ensures { IfOk result (λ paired. IfSome paired.pair (HelpTogether trial.now.galley.now trial.now.style.now)) }
{
    let mut left = left;
    'places: for next in 0..COUNT {
        if next > place && left > 0 {
            if let Some(other) = number_of(trial.style, next) {
                left -= 1;
                let pair = pair_in(trial, made, one, other, steps)?;
                if pair.is_some() {
                    return Ok(Paired { pair, left });
                }
            }
        }
    }
    Ok(Paired { pair: None, left })
}

// Two changes of which the first is of the number at a place.
fn pair_at<L: Ledger>(
    trial: &Trial,
    place: u8,
    left: u32,
    steps: &mut Steps<L>,
) -> Result<Paired, AllocError>
    ensures { IfOk result (λ paired. IfSome paired.pair (HelpTogether trial.now.galley.now trial.now.style.now)) }
{
    let none = Paired { pair: None, left };
    let Some(number) = number_of(trial.style, place) else {
        return Ok(none);
    };
    let far = far_of(trial.style, number);
    if far > LENGTH || far == value_of(trial.style, number) {
        return Ok(none);
    }
    let Some(made) = with_number(trial.alloc, trial.style, number, far) else {
        return Ok(none);
    };
    pair_behind(trial, &made, tried(number, far), place, left, steps)
}

/// Two changes that help together, each as far as it goes, if searches are left for them.
pub fn pair_of<L: Ledger>(
    alloc: Global,
    galley: &Galley,
    style: &Style,
    left: u32,
    steps: &mut Steps<L>,
) -> Result<Option<Pair>, AllocError>
    ensures { IfOk result (λ told. IfSome told (HelpTogether galley.now style.now)) }
{
    let trial = Trial {
        alloc,
        galley,
        style,
    };
    let mut left = left;
    'places: for place in 0..COUNT {
        let paired = pair_at(&trial, place, left, steps)?;
        if paired.pair.is_some() {
            return Ok(paired.pair);
        }
        left = paired.left;
    }
    Ok(None)
}
