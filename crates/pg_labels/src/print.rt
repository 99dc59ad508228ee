//! The text of labels.
ghost use Rattle.std.specs.Prelude.{◌≡◌, ◌++◌, ◌∷◌, [], OnOk, OnErr, if◌then◌else◌, length, decimal, codes};
ghost use Rattle.pg_scaled.specs.Scaled.{Grows, scaled_text};
ghost use Rattle.pg_words.specs.Written.{line, counts_text, place_text, side_text, option_text, whole_text};
ghost use Rattle.pg_labels.specs.LabelText.{label_place, label_page, label_room, label_floats, label_front, label_rest, label_line, labels_line, labels_from, label_text};

use pg_list::Place;
use pg_plan::{Label, LabelList, Side, State};
use pg_scaled::print_scaled;
use pg_words::{print_ages, print_counts, print_decimal, print_place, print_side, print_whole};
use std::alloc::AllocError;

// A number behind a blank.
fn print_spaced_number(number: u128, out: &mut Vec<u8>) -> Result<(), AllocError>
    ensures ok { OnOk result (out.new.items ≡ out.old.items ++ 32 ∷ decimal number) }
    ensures grows { Grows out.old.items out.new.items }
{
    out.push(b' ')?;
    print_decimal(number, out)
}

// A small number, or `-`.
fn print_small(number: Option<u8>, out: &mut Vec<u8>) -> Result<(), AllocError>
    ensures ok { OnOk result (out.new.items ≡ out.old.items ++ option_text decimal number) }
    ensures grows { Grows out.old.items out.new.items }
{
    match number {
        Some(number) => print_decimal(u128::from(number), out),
        None => {
            out.push(b'-')?;
            Ok(())
        }
    }
}

// A length, or `-`.
fn print_length(length: Option<i64>, out: &mut Vec<u8>) -> Result<(), AllocError>
    ensures ok { OnOk result (out.new.items ≡ out.old.items ++ option_text scaled_text length) }
    ensures grows { Grows out.old.items out.new.items }
{
    match length {
        Some(length) => print_scaled(i128::from(length), out),
        None => {
            out.push(b'-')?;
            Ok(())
        }
    }
}

fn print_spaced_place(place: Place, out: &mut Vec<u8>) -> Result<(), AllocError>
    ensures ok { OnOk result (out.new.items ≡ out.old.items ++ 32 ∷ place_text place) }
    ensures grows { Grows out.old.items out.new.items }
{
    out.push(b' ')?;
    print_place(place, out)
}

fn print_spaced_side(side: Side, out: &mut Vec<u8>) -> Result<(), AllocError>
    ensures ok { OnOk result (out.new.items ≡ out.old.items ++ 32 ∷ side_text side) }
    ensures grows { Grows out.old.items out.new.items }
{
    out.push(b' ')?;
    print_side(side, out)
}

fn print_spaced_small(number: Option<u8>, out: &mut Vec<u8>) -> Result<(), AllocError>
    ensures ok { OnOk result (out.new.items ≡ out.old.items ++ 32 ∷ option_text decimal number) }
    ensures grows { Grows out.old.items out.new.items }
{
    out.push(b' ')?;
    print_small(number, out)
}

fn print_spaced_length(length: Option<i64>, out: &mut Vec<u8>) -> Result<(), AllocError>
    ensures ok { OnOk result (out.new.items ≡ out.old.items ++ 32 ∷ option_text scaled_text length) }
    ensures grows { Grows out.old.items out.new.items }
{
    out.push(b' ')?;
    print_length(length, out)
}

fn print_named(name: &[u8], number: u128, out: &mut Vec<u8>) -> Result<(), AllocError>
    ensures ok { OnOk result (out.new.items ≡ out.old.items ++ (name.now ++ decimal number)) }
    ensures grows { Grows out.old.items out.new.items }
{
    out.extend_from_slice(name)?;
    print_decimal(number, out)
}

#[tactic(auto, unfolding(crate::specs::LabelText::label_place))]
fn print_label_place(number: u128, state: &State, out: &mut Vec<u8>) -> Result<(), AllocError>
    ensures ok { OnOk result (out.new.items ≡ out.old.items ++ label_place number state.now) }
    ensures grows { Grows out.old.items out.new.items }
{
    print_named(b"label ", number, out)?;
    print_spaced_place(state.place, out)
}

#[tactic(auto, unfolding(crate::specs::LabelText::label_page))]
fn print_label_page(state: &State, out: &mut Vec<u8>) -> Result<(), AllocError>
    ensures ok { OnOk result (out.new.items ≡ out.old.items ++ label_page state.now) }
    ensures grows { Grows out.old.items out.new.items }
{
    print_spaced_number(u128::from(state.column), out)?;
    print_spaced_side(state.side, out)?;
    print_spaced_small(state.run, out)
}

#[tactic(auto, unfolding(crate::specs::LabelText::label_room))]
fn print_label_room(fitness: bool, state: &State, out: &mut Vec<u8>) -> Result<(), AllocError>
    ensures ok { OnOk result (out.new.items ≡ out.old.items ++ label_room fitness state.now) }
    ensures grows { Grows out.old.items out.new.items }
{
    print_spaced_length(state.wide, out)?;
    if fitness {
        print_spaced_small(state.fitness, out)?;
    }
    Ok(())
}

fn print_spaced_counts(counts: &[u16], out: &mut Vec<u8>) -> Result<(), AllocError>
    ensures ok { OnOk result (out.new.items ≡ out.old.items ++ 32 ∷ counts_text counts.now) }
    ensures grows { Grows out.old.items out.new.items }
{
    out.push(b' ')?;
    print_counts(counts, out)
}

fn print_spaced_ages(ages: &[u8], out: &mut Vec<u8>) -> Result<(), AllocError>
    ensures ok { OnOk result (out.new.items ≡ out.old.items ++ 32 ∷ counts_text ages.now) }
    ensures grows { Grows out.old.items out.new.items }
{
    out.push(b' ')?;
    print_ages(ages, out)
}

#[tactic(auto, unfolding(crate::specs::LabelText::label_floats))]
fn print_label_floats(state: &State, out: &mut Vec<u8>) -> Result<(), AllocError>
    ensures ok { OnOk result (out.new.items ≡ out.old.items ++ label_floats state.now) }
    ensures grows { Grows out.old.items out.new.items }
{
    print_spaced_counts(state.placed.as_slice(), out)?;
    print_spaced_ages(state.ages.as_slice(), out)
}

#[tactic(auto, unfolding(crate::specs::LabelText::label_front))]
fn print_label_front(number: u128, state: &State, out: &mut Vec<u8>) -> Result<(), AllocError>
    ensures ok { OnOk result (out.new.items ≡ out.old.items ++ label_front number state.now) }
    ensures grows { Grows out.old.items out.new.items }
{
    print_label_place(number, state, out)?;
    print_label_page(state, out)
}

#[tactic(auto, unfolding(crate::specs::LabelText::label_rest))]
fn print_label_rest(fitness: bool, state: &State, out: &mut Vec<u8>) -> Result<(), AllocError>
    ensures ok { OnOk result (out.new.items ≡ out.old.items ++ label_rest fitness state.now) }
    ensures grows { Grows out.old.items out.new.items }
{
    print_label_room(fitness, state, out)?;
    print_label_floats(state, out)
}

// A cost behind a blank, and the end of the line.
fn print_cost_line(cost: i128, out: &mut Vec<u8>) -> Result<(), AllocError>
    ensures ok { OnOk result (out.new.items ≡ out.old.items ++ line (32 ∷ whole_text cost)) }
    ensures grows { Grows out.old.items out.new.items }
{
    out.push(b' ')?;
    print_whole(cost, out)?;
    out.push(b'\n')?;
    Ok(())
}

#[tactic(auto, unfolding(crate::specs::LabelText::label_line))]
fn print_label(
    fitness: bool,
    number: u128,
    label: &Label,
    out: &mut Vec<u8>,
) -> Result<(), AllocError>
    ensures ok { OnOk result (out.new.items ≡ out.old.items ++ label_line fitness number label.now) }
    ensures grows { Grows out.old.items out.new.items }
{
    print_label_front(number, &label.state, out)?;
    print_label_rest(fitness, &label.state, out)?;
    print_cost_line(label.cost, out)
}

// The end of the first line.
fn print_fitness(fitness: bool, out: &mut Vec<u8>) -> Result<(), AllocError>
    ensures ok { OnOk result (out.new.items ≡ out.old.items ++ line (if fitness then codes " fitness" else [])) }
    ensures grows { Grows out.old.items out.new.items }
{
    if fitness {
        out.extend_from_slice(b" fitness")?;
    }
    out.push(b'\n')?;
    Ok(())
}

#[tactic(auto, unfolding(crate::specs::LabelText::labels_line))]
fn print_count(fitness: bool, count: u128, out: &mut Vec<u8>) -> Result<(), AllocError>
    ensures ok { OnOk result (out.new.items ≡ out.old.items ++ labels_line fitness count) }
    ensures grows { Grows out.old.items out.new.items }
{
    print_named(b"labels ", count, out)?;
    print_fitness(fitness, out)
}

// The text of labels, without giving back what a refusal left.
fn print_all(labels: &[Label], fitness: bool, out: &mut Vec<u8>) -> Result<(), AllocError>
    ensures ok { OnOk result (out.new.items ≡ out.old.items ++ label_text fitness labels.now) }
    ensures grows { Grows out.old.items out.new.items }
{
    print_count(fitness, labels.len() as u128, out)?;
    let mut number: u128 = 0;
    for label in labels {
        number += 1;
        print_label(fitness, number, label, out)?;
    }
    Ok(())
}

/// Appends the text of labels, with the fitness of each where `fitness` is true. The only refusal is
/// for want of memory, and `out` is then as before.
pub fn print_labels(labels: &LabelList, fitness: bool, out: &mut Vec<u8>) -> Result<(), AllocError>
    ensures ok { OnOk result (out.new.items ≡ out.old.items ++ label_text fitness labels.now) }
    ensures err { OnErr result (out.new.items ≡ out.old.items) }
{
    let start = out.len();
    if let Err(refused) = print_all(labels.as_slice(), fitness, out) {
        out.truncate(start);
        return Err(refused);
    }
    Ok(())
}
