//! The lines of a comparison of first fit with the best pages.
ghost use Rattle.std.specs.Prelude.{◌≡◌, ◌++◌, ◌∷◌, [], OnOk, decimal, codes};
ghost use Rattle.pg_scaled.specs.Scaled.{Grows};
ghost use Rattle.pg_words.specs.Written.{whole_text};
ghost use Rattle.pg_greedy.specs.Compare.{best_line, breach_text, broken_text, pages_text, saved_text};

use pg_words::{print_decimal, print_whole};
use std::alloc::AllocError;

// A number behind a word.
fn print_counted(name: &[u8], number: u32, out: &mut Vec<u8>) -> Result<(), AllocError>
    ensures ok { OnOk result (out.new.items ≡ out.old.items ++ (name.now ++ decimal number)) }
    ensures grows { Grows out.old.items out.new.items }
{
    out.extend_from_slice(name)?;
    print_decimal(u128::from(number), out)
}

// Two numbers, each behind a word.
fn print_both(
    first: &[u8],
    one: u32,
    second: &[u8],
    other: u32,
    out: &mut Vec<u8>,
) -> Result<(), AllocError>
    ensures ok { OnOk result (out.new.items
        ≡ out.old.items ++ ((first.now ++ decimal one) ++ (second.now ++ decimal other))) }
    ensures grows { Grows out.old.items out.new.items }
{
    print_counted(first, one, out)?;
    print_counted(second, other, out)
}

// A whole number behind a word.
fn print_signed(name: &[u8], number: &i128, out: &mut Vec<u8>) -> Result<(), AllocError>
    ensures ok { OnOk result (out.new.items ≡ out.old.items ++ (name.now ++ whole_text number.now)) }
    ensures grows { Grows out.old.items out.new.items }
{
    out.extend_from_slice(name)?;
    print_whole(*number, out)
}

#[tactic(auto, unfolding(crate::specs::Compare::pages_text))]
fn print_pages(pages: u32, out: &mut Vec<u8>) -> Result<(), AllocError>
    ensures ok { OnOk result (out.new.items ≡ out.old.items ++ pages_text pages) }
    ensures grows { Grows out.old.items out.new.items }
{
    print_counted(b"first fit pages ", pages, out)
}

#[tactic(auto, unfolding(crate::specs::Compare::saved_text))]
fn print_saving(cost: &i128, saved: &i128, out: &mut Vec<u8>) -> Result<(), AllocError>
    ensures ok { OnOk result (out.new.items ≡ out.old.items ++ saved_text cost.now saved.now) }
    ensures grows { Grows out.old.items out.new.items }
{
    print_signed(b" cost ", cost, out)?;
    print_signed(b" saved ", saved, out)?;
    out.push(b'\n')?;
    Ok(())
}

#[tactic(auto, unfolding(crate::specs::Compare::breach_text))]
fn print_breach(rule: u32, column: u32, out: &mut Vec<u8>) -> Result<(), AllocError>
    ensures ok { OnOk result (out.new.items ≡ out.old.items ++ breach_text rule column) }
    ensures grows { Grows out.old.items out.new.items }
{
    print_both(b" illegal rule ", rule, b" column ", column, out)
}

#[tactic(auto, unfolding(crate::specs::Compare::broken_text))]
fn print_breach_line(rule: u32, column: u32, out: &mut Vec<u8>) -> Result<(), AllocError>
    ensures ok { OnOk result (out.new.items ≡ out.old.items ++ broken_text rule column) }
    ensures grows { Grows out.old.items out.new.items }
{
    print_breach(rule, column, out)?;
    out.push(b'\n')?;
    Ok(())
}

/// Appends the line of a first fit that is legal: its pages, its cost, and what the best pages save of that. After a
/// refusal, which is for want of memory, `out` has a front of the line.
pub fn print_saved(
    pages: u32,
    cost: &i128,
    saved: &i128,
    out: &mut Vec<u8>,
) -> Result<(), AllocError>
    ensures ok { OnOk result (out.new.items ≡ out.old.items ++ (pages_text pages ++ saved_text cost.now saved.now)) }
    ensures grows { Grows out.old.items out.new.items }
{
    print_pages(pages, out)?;
    print_saving(cost, saved, out)
}

/// Appends the line of a first fit that is not legal: its pages, and the least rule that it breaks with the column where
/// it does. After a refusal `out` has a front of the line.
pub fn print_broken(pages: u32, rule: u8, column: u32, out: &mut Vec<u8>) -> Result<(), AllocError>
    ensures ok { OnOk result (out.new.items ≡ out.old.items ++ (pages_text pages ++ broken_text rule column)) }
    ensures grows { Grows out.old.items out.new.items }
{
    print_pages(pages, out)?;
    print_breach_line(u32::from(rule), column, out)
}

/// Appends the line of the best pages. After a refusal `out` has a front of it.
#[tactic(auto, unfolding(crate::specs::Compare::best_line))]
pub fn print_best(pages: u32, cost: &i128, out: &mut Vec<u8>) -> Result<(), AllocError>
    ensures ok { OnOk result (out.new.items ≡ out.old.items ++ best_line pages cost.now) }
    ensures grows { Grows out.old.items out.new.items }
{
    print_counted(b"best pages ", pages, out)?;
    print_signed(b" cost ", cost, out)?;
    out.push(b'\n')?;
    Ok(())
}
