//! The line of a text column's numbers.
ghost use Rattle.std.specs.Prelude.{◌≡◌, ◌++◌, OnOk};
ghost use Rattle.pg_scaled.specs.Scaled.{Grows, scaled_text};
ghost use Rattle.pg_words.specs.Written.{whole_text};
ghost use Rattle.pg_pages.specs.Printed.{numbers_text, sizes_text, costs_text, demerits_line};

use crate::parts::{end_line, print_bytes, print_width};
use pg_column::TextCost;
use pg_words::print_whole;
use std::alloc::AllocError;

// A name, and a scaled number behind it.
pub fn print_length(name: &[u8], length: i64, out: &mut Vec<u8>) -> Result<(), AllocError>
    ensures ok { OnOk result (out.new.items ≡ out.old.items ++ name.now ++ scaled_text length) }
    ensures grows { Grows out.old.items out.new.items }
{
    print_bytes(name, out)?;
    print_width(i128::from(length), out)
}

// A name, and a whole number behind it.
fn print_number(name: &[u8], number: i128, out: &mut Vec<u8>) -> Result<(), AllocError>
    ensures ok { OnOk result (out.new.items ≡ out.old.items ++ name.now ++ whole_text number) }
    ensures grows { Grows out.old.items out.new.items }
{
    print_bytes(name, out)?;
    print_whole(number, out)
}

// The goal and the total.
fn print_sizes(numbers: &TextCost, out: &mut Vec<u8>) -> Result<(), AllocError>
    ensures ok { OnOk result (out.new.items ≡ out.old.items ++ sizes_text numbers.now) }
    ensures grows { Grows out.old.items out.new.items }
{
    print_length(b"set goal ", numbers.goal, out)?;
    print_length(b" total ", numbers.total, out)
}

// The badness and the penalty.
fn print_costs(numbers: &TextCost, out: &mut Vec<u8>) -> Result<(), AllocError>
    ensures ok { OnOk result (out.new.items ≡ out.old.items ++ costs_text numbers.now) }
    ensures grows { Grows out.old.items out.new.items }
{
    print_number(b" badness ", i128::from(numbers.badness), out)?;
    print_number(b" penalty ", i128::from(numbers.penalty), out)
}

// The demerits, and the end of the line.
fn print_demerits(demerits: i64, out: &mut Vec<u8>) -> Result<(), AllocError>
    ensures ok { OnOk result (out.new.items ≡ out.old.items ++ demerits_line demerits) }
    ensures grows { Grows out.old.items out.new.items }
{
    print_number(b" demerits ", i128::from(demerits), out)?;
    end_line(out)
}

// The line of a text column's numbers.
#[tactic(auto, unfolding(crate::specs::Printed::numbers_text))]
pub fn print_numbers(numbers: &TextCost, out: &mut Vec<u8>) -> Result<(), AllocError>
    ensures ok { OnOk result (out.new.items ≡ out.old.items ++ numbers_text numbers.now) }
    ensures grows { Grows out.old.items out.new.items }
{
    print_sizes(numbers, out)?;
    print_costs(numbers, out)?;
    print_demerits(numbers.demerits, out)
}
