//! Numbers, counts, places and sides, written.
ghost use Rattle.std.specs.Prelude.{◌≡◌, ◌++◌, ◌∷◌, OnOk, decimal};
ghost use Rattle.pg_scaled.specs.Scaled.{Grows};
ghost use Rattle.pg_words.specs.Written.{whole_text, counts_text, further_text, place_text, side_text};

use itoa::Buffer;
use pg_list::Place;
use pg_plan::Side;
use std::alloc::AllocError;

/// Appends a number in decimals. After a refusal `out` has a front of them.
pub fn print_decimal(number: u128, out: &mut Vec<u8>) -> Result<(), AllocError>
    ensures ok { OnOk result (out.new.items ≡ out.old.items ++ decimal number) }
    ensures grows { Grows out.old.items out.new.items }
{
    let mut buffer = Buffer::new();
    out.extend_from_slice(buffer.format(number).as_bytes())?;
    Ok(())
}

/// Appends a number in decimals, with a minus in front of a negative one. After a refusal `out` has a front of it.
pub fn print_whole(number: i128, out: &mut Vec<u8>) -> Result<(), AllocError>
    ensures ok { OnOk result (out.new.items ≡ out.old.items ++ whole_text number) }
    ensures grows { Grows out.old.items out.new.items }
{
    if number < 0 {
        out.push(b'-')?;
    }
    print_decimal(number.unsigned_abs(), out)
}

// An entry behind a comma.
fn print_entry(count: u32, out: &mut Vec<u8>) -> Result<(), AllocError>
    ensures ok { OnOk result (out.new.items ≡ out.old.items ++ 44 ∷ decimal count) }
    ensures grows { Grows out.old.items out.new.items }
{
    out.push(b',')?;
    print_decimal(u128::from(count), out)
}

// The counts behind the first.
fn print_further_counts(counts: &[u16], out: &mut Vec<u8>) -> Result<(), AllocError>
    ensures ok { OnOk result (out.new.items ≡ out.old.items ++ further_text counts.now) }
    ensures grows { Grows out.old.items out.new.items }
{
    for count in counts {
        print_entry(u32::from(*count), out)?;
    }
    Ok(())
}

/// Appends counts, joined by commas, and `-` where there is none. After a refusal `out` has a front of them.
pub fn print_counts(counts: &[u16], out: &mut Vec<u8>) -> Result<(), AllocError>
    ensures ok { OnOk result (out.new.items ≡ out.old.items ++ counts_text counts.now) }
    ensures grows { Grows out.old.items out.new.items }
{
    match counts {
        [] => {
            out.push(b'-')?;
            Ok(())
        }
        [first, further @ ..] => {
            print_decimal(u128::from(*first), out)?;
            print_further_counts(further, out)
        }
    }
}

// The ages behind the first.
fn print_further_ages(ages: &[u8], out: &mut Vec<u8>) -> Result<(), AllocError>
    ensures ok { OnOk result (out.new.items ≡ out.old.items ++ further_text ages.now) }
    ensures grows { Grows out.old.items out.new.items }
{
    for age in ages {
        print_entry(u32::from(*age), out)?;
    }
    Ok(())
}

/// Appends ages, joined by commas, and `-` where there is none. After a refusal `out` has a front of them.
pub fn print_ages(ages: &[u8], out: &mut Vec<u8>) -> Result<(), AllocError>
    ensures ok { OnOk result (out.new.items ≡ out.old.items ++ counts_text ages.now) }
    ensures grows { Grows out.old.items out.new.items }
{
    match ages {
        [] => {
            out.push(b'-')?;
            Ok(())
        }
        [first, further @ ..] => {
            print_decimal(u128::from(*first), out)?;
            print_further_ages(further, out)
        }
    }
}

// The picks behind the first.
fn print_further_picks(picks: &[u32], out: &mut Vec<u8>) -> Result<(), AllocError>
    ensures ok { OnOk result (out.new.items ≡ out.old.items ++ further_text picks.now) }
    ensures grows { Grows out.old.items out.new.items }
{
    for pick in picks {
        print_entry(*pick, out)?;
    }
    Ok(())
}

/// Appends picks, joined by commas, and `-` where there is none. After a refusal `out` has a front of them.
pub fn print_picks(picks: &[u32], out: &mut Vec<u8>) -> Result<(), AllocError>
    ensures ok { OnOk result (out.new.items ≡ out.old.items ++ counts_text picks.now) }
    ensures grows { Grows out.old.items out.new.items }
{
    match picks {
        [] => {
            out.push(b'-')?;
            Ok(())
        }
        [first, further @ ..] => {
            print_decimal(u128::from(*first), out)?;
            print_further_picks(further, out)
        }
    }
}

// One field of a place, behind a blank.
fn print_field(field: u32, out: &mut Vec<u8>) -> Result<(), AllocError>
    ensures ok { OnOk result (out.new.items ≡ out.old.items ++ 32 ∷ decimal field) }
    ensures grows { Grows out.old.items out.new.items }
{
    out.push(b' ')?;
    print_decimal(u128::from(field), out)
}

/// Appends block, variant and index. After a refusal `out` has a front of them.
pub fn print_place(place: Place, out: &mut Vec<u8>) -> Result<(), AllocError>
    ensures ok { OnOk result (out.new.items ≡ out.old.items ++ place_text place) }
    ensures grows { Grows out.old.items out.new.items }
{
    print_decimal(u128::from(place.block), out)?;
    print_field(place.variant, out)?;
    print_field(place.index, out)
}

/// Appends the letter of a side. After a refusal `out` is as before.
pub fn print_side(side: Side, out: &mut Vec<u8>) -> Result<(), AllocError>
    ensures ok { OnOk result (out.new.items ≡ out.old.items ++ side_text side) }
    ensures grows { Grows out.old.items out.new.items }
{
    match side {
        Side::L => out.push(b'L')?,
        Side::R => out.push(b'R')?,
        Side::S => out.push(b'S')?,
    }
    Ok(())
}
