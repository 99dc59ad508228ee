//! The lines of a label text.
ghost use Rattle.std.specs.Prelude.{◌≡◌, IfOk};
ghost use Rattle.std.specs.Option.{option_map};
ghost use Rattle.pg_words.specs.InOrder.{words_of};
ghost use Rattle.pg_labels.specs.LabelLines.{fitness_told as told, count_of, fitness_at, label_front as front_of, label_rest as rest_of, label_words as words_of_label, label_from as label_said, label_of};

use pg_list::Place;
use pg_plan::{Label, Side, State};
use pg_words::{Words, read_ages, read_counts, read_length_or_none};
use std::alloc::{AllocError, Global};
use std::marker::Model;

// Whether the fitness of each label is told.
fn fitness_told(words: &mut Words<'_>) -> Option<bool>
    ensures { result ≡ told words.old }
{
    match words.word() {
        Some(b"fitness") => {
            words.ended()?;
            Some(true)
        }
        Some(_) => None,
        None => Some(false),
    }
}

/// Whether the fitness of each label is told, and how many labels there are, as it is spelled.
#[tactic(auto, unfolding(crate::specs::LabelLines::count_of))]
pub fn read_count(line: &[u8]) -> Option<(bool, &[u8])>
    ensures { option_map (λ it. (it.0, it.1.now)) result ≡ count_of (words_of line.now) }
{
    let mut words = Words::of(line);
    words.due(b"labels")?;
    let count = words.numeral()?;
    let fitness = fitness_told(&mut words)?;
    Some((fitness, count))
}

// The fitness of a label, where it is told.
fn fitness_of(told: bool, words: &mut Words<'_>) -> Option<Option<u8>>
    ensures { option_map (λ fitness. (fitness, words.new)) result ≡ fitness_at told words.old }
{
    if told {
        words.byte_or_none(4)
    } else {
        Some(None)
    }
}

/// Where a label stands: the first fields of its state.
#[derive(Clone, Copy, PartialEq, Eq)]
pub struct Front {
    pub place: Place,
    pub column: u8,
    pub side: Side,
    pub run: Option<u8>,
}

// The label's number, and where it stands.
#[tactic(auto, unfolding(crate::specs::LabelLines::label_front))]
fn read_front(number: u128, words: &mut Words<'_>) -> Option<Front>
    ensures { option_map (λ front. (front, words.new)) result ≡ front_of number words.old }
{
    words.due(b"label")?;
    words.due_number(number)?;
    let place = words.place()?;
    let column = words.column()?;
    let side = words.side()?;
    let run = words.byte_or_none(1 << 8)?;
    Some(Front {
        place,
        column,
        side,
        run,
    })
}

// The fitness and the cost of a label, and the words of its height and its lists.
#[derive(Drop)]
struct Rest<'a> {
    wide: &'a [u8],
    fitness: Option<u8>,
    placed: &'a [u8],
    ages: &'a [u8],
    cost: i128,
}

impl<'a> Model for Rest<'a> {
    ghost use Rattle.pg_labels.specs.LabelLines.{LabelRest};

    ghost Value = { LabelRest };

    ghost view = { λ a. record {
      wide = a.wide.now;
      fitness = a.fitness;
      placed = a.placed.now;
      ages = a.ages.now;
      cost = a.cost;
    } };
}

// What stands behind the front in the line of a label.
#[tactic(auto, unfolding(crate::specs::LabelLines::label_rest))]
fn read_rest<'a>(told: bool, words: &mut Words<'a>) -> Option<Rest<'a>>
    ensures { result ≡ rest_of told words.old }
{
    let wide = words.word()?;
    let fitness = fitness_of(told, words)?;
    let placed = words.word()?;
    let ages = words.word()?;
    let cost = words.whole()?;
    words.ended()?;
    Some(Rest {
        wide,
        fitness,
        placed,
        ages,
        cost,
    })
}

// The label that the words say.
#[tactic(auto, unfolding(crate::specs::LabelLines::label_from))]
fn label_from(alloc: Global, front: Front, rest: &Rest<'_>) -> Result<Option<Label>, AllocError>
    ensures { IfOk result (λ label. label ≡ label_said front rest.now) }
{
    let Some(wide) = read_length_or_none(alloc, rest.wide)? else {
        return Ok(None);
    };
    let Some(placed) = read_counts(alloc, rest.placed)? else {
        return Ok(None);
    };
    let Some(ages) = read_ages(alloc, rest.ages)? else {
        return Ok(None);
    };
    let state = State {
        place: front.place,
        column: front.column,
        side: front.side,
        run: front.run,
        wide,
        fitness: rest.fitness,
        placed,
        ages,
    };
    Ok(Some(Label {
        state,
        cost: rest.cost,
    }))
}

// The words of the line of the label of this number.
fn label_words(told: bool, number: u128, line: &[u8]) -> Option<(Front, Rest<'_>)>
    ensures { result ≡ words_of_label told number (words_of line.now) }
{
    let mut words = Words::of(line);
    let front = read_front(number, &mut words)?;
    Some((front, read_rest(told, &mut words)?))
}

/// The line of the label of this number, where the fitness is told or not.
#[tactic(auto, unfolding(crate::specs::LabelLines::label_of))]
pub fn read_label(
    alloc: Global,
    told: bool,
    number: u128,
    line: &[u8],
) -> Result<Option<Label>, AllocError>
    ensures { IfOk result (λ label. label ≡ label_of told number (words_of line.now)) }
{
    match label_words(told, number, line) {
        Some((front, rest)) => label_from(alloc, front, &rest),
        None => Ok(None),
    }
}
