//! A column with its numbers, and what it adds to the cost.
ghost use Rattle.std.specs.Prelude.{◌≡◌, ◌≤◌, ◌+◌, ◌-ℤ◌, ◌^◌, nat_abs, pos};
ghost use Rattle.std.specs.Option.{option_map_or};
ghost use Rattle.pg_list.specs.Whole.{square as square_of};
ghost use Rattle.pg_parts.specs.Priced.{amount_of};

use crate::part::Part;
use pg_column::TextCost;
use pg_list::Place;
use pg_scaled::{large, large_minus, plus, square};

/// A column of a pagination: its page, its number there, where its text stands, the numbers of the text, how many floats
/// wait behind it, and what makes the parts of the cost that it adds.
#[derive(Clone, Copy)]
pub struct PricedColumn {
    pub page: u32,
    pub column: u8,
    pub from: Place,
    pub to: Place,
    pub text: Option<TextCost>,
    pub waits: u32,
    /// The style's demerits of a line.
    pub line: u16,
    /// What a column without text pays.
    pub empty: u32,
    pub picks: u64,
    pub run: u32,
    pub floats: u64,
    pub fitness: u32,
}

/// A float that a column places: the slot of its class, and how many pages it stands behind its callout.
#[derive(Clone, Copy)]
pub struct PlacedFloat {
    pub slot: usize,
    pub pages: usize,
}

// The square of the style's demerits of a line.
fn line_square(line: u16) -> i128
    ensures value { result ≡ square_of (pos line) }
    ensures size { nat_abs result ≤ 2 ^ 40 }
{
    large(square(i64::from(line)))
}

// The square of these together with a badness.
fn both_square(line: u16, badness: u16) -> i128
    ensures value { result ≡ square_of (pos (line + badness)) }
    ensures size { nat_abs result ≤ 2 ^ 40 }
{
    large(square(plus(i64::from(line), i64::from(badness))))
}

// What a text pays for being a column.
fn line_amount(line: u16, text: Option<TextCost>) -> i128
    ensures value { result ≡ option_map_or (λ text. square_of (pos line)) text (pos 0) }
    ensures size { nat_abs result ≤ 2 ^ 64 }
{
    match text {
        Some(_) => line_square(line),
        None => 0,
    }
}

// What a text pays for its badness, above that.
fn badness_amount(line: u16, text: Option<TextCost>) -> i128
    ensures value { result ≡ option_map_or (λ text. square_of (pos (line + text.badness)) -ℤ square_of (pos line)) text (pos 0) }
    ensures size { nat_abs result ≤ 2 ^ 64 }
{
    match text {
        Some(text) => large_minus(both_square(line, text.badness), line_square(line)),
        None => 0,
    }
}

// What the penalty at the end of a text adds.
fn penalty_amount(line: u16, text: Option<TextCost>) -> i128
    ensures value { result ≡ option_map_or (λ text. text.demerits -ℤ square_of (pos (line + text.badness))) text (pos 0) }
    ensures size { nat_abs result ≤ 2 ^ 64 }
{
    match text {
        Some(text) => large_minus(large(text.demerits), both_square(line, text.badness)),
        None => 0,
    }
}

// A number of 64 bits in 128.
fn large_of(n: u64) -> i128
    ensures value { result ≡ pos n }
    ensures size { nat_abs result ≤ 2 ^ 64 }
{
    i128::from(n)
}

impl PricedColumn {
    /// What the column adds to a part of the cost.
    pub fn amount(&self, part: Part) -> i128
        ensures value { result ≡ amount_of self.now part }
        ensures size { nat_abs result ≤ 2 ^ 64 }
    {
        match part {
            Part::Line => line_amount(self.line, self.text),
            Part::Badness => badness_amount(self.line, self.text),
            Part::Penalties => penalty_amount(self.line, self.text),
            Part::Empty => large_of(u64::from(self.empty)),
            Part::Picks => large_of(self.picks),
            Part::Runs => large_of(u64::from(self.run)),
            Part::Floats => large_of(self.floats),
            Part::Fitness => large_of(u64::from(self.fitness)),
        }
    }
}
