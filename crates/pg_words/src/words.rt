//! The words of a line, one after another.
ghost use Rattle.std.specs.Prelude.{◌≡◌, ◌≤◌, ◌<◌, ◌^◌, ◌∷◌, [], decimal, MatchOption, IfSome};
ghost use Rattle.std.specs.Option.{option_map};
ghost use Rattle.pg_words.specs.Read.{numeral as numeral_of, number_below as below_of, option_word, whole_word, side_word, column_word};
ghost use Rattle.pg_words.specs.InOrder.{words_of, any_word, due as due_word, next as next_word, ended as ended_words, place_at};

use crate::numbers;
use itoa::Buffer;
use pg_list::Place;
use pg_plan::Side;
use pg_scan::split_part;
use std::marker::Model;

/// The words of a line that are still to be read. Each call takes the next one and tells what it says; None comes where
/// none is left, and where it says no such thing. After None nothing is promised of what is left.
#[derive(Drop)]
pub struct Words<'a> {
    rest: Option<&'a [u8]>,
}

impl<'a> Model for Words<'a> {
    ghost use Rattle.std.specs.Prelude.{List, ℕ};
    ghost use Rattle.std.specs.Option.{option_map};
    ghost use Rattle.pg_words.specs.InOrder.{words_left};

    ghost Value = { List (List ℕ) };

    ghost view = { λ a. words_left (option_map (λ text. text.now) a.rest) };
}

impl<'a> Words<'a> {
    /// The words of a line.
    pub fn of(line: &'a [u8]) -> Words<'a>
        ensures { result ≡ words_of line.now }
    {
        Words { rest: Some(line) }
    }

    // The next word.
    fn take(&mut self) -> Option<&'a [u8]>
        ensures { MatchOption result (self.old ≡ []) (λ word. self.old ≡ word.now ∷ self.new) }
    {
        match self.rest {
            Some(text) => {
                let (word, rest) = split_part(b' ', text);
                self.rest = rest;
                Some(word)
            }
            None => None,
        }
    }

    /// Any word.
    pub fn word(&mut self) -> Option<&'a [u8]>
        ensures { option_map (λ word. (word.now, self.new)) result ≡ next_word any_word self.old }
    {
        self.take()
    }

    /// This word.
    pub fn due(&mut self, text: &[u8]) -> Option<()>
        ensures { option_map (λ _. self.new) result ≡ due_word text.now self.old }
    {
        let word = self.take()?;
        if word == text { Some(()) } else { None }
    }

    /// This number, in decimals.
    pub fn due_number(&mut self, number: u128) -> Option<()>
        ensures { option_map (λ _. self.new) result ≡ due_word (decimal number) self.old }
    {
        let mut buffer = Buffer::new();
        self.due(buffer.format(number).as_bytes())
    }

    /// A number of any size, as it is spelled.
    pub fn numeral(&mut self) -> Option<&'a [u8]>
        ensures { option_map (λ word. (word.now, self.new)) result ≡ next_word numeral_of self.old }
    {
        numbers::numeral(self.take()?)
    }

    /// A number below a bound.
    pub fn below(&mut self, bound: u64) -> Option<u64>
        requires { bound ≤ 2 ^ 32 }
        ensures value { option_map (λ number. (number, self.new)) result ≡ next_word (below_of bound) self.old }
        ensures bound { IfSome result (λ number. number < bound) }
    {
        numbers::number_below(bound, self.take()?)
    }

    /// A number of 32 bits.
    pub fn number(&mut self) -> Option<u32>
        ensures { option_map (λ number. (number, self.new)) result ≡ next_word (below_of (2 ^ 32)) self.old }
    {
        Some(self.below(1 << 32)? as u32)
    }

    /// A number of 8 bits.
    pub fn byte(&mut self) -> Option<u8>
        ensures { option_map (λ number. (number, self.new)) result ≡ next_word (below_of (2 ^ 8)) self.old }
    {
        Some(self.below(1 << 8)? as u8)
    }

    /// A number below a bound, or `-`.
    pub fn byte_or_none(&mut self, bound: u64) -> Option<Option<u8>>
        requires { bound ≤ 2 ^ 8 }
        ensures { option_map (λ number. (number, self.new)) result
            ≡ next_word (option_word (below_of bound)) self.old }
    {
        let word = self.take()?;
        if word == b"-".as_slice() {
            return Some(None);
        }
        Some(Some(numbers::number_below(bound, word)? as u8))
    }

    /// A whole number of 128 bits.
    pub fn whole(&mut self) -> Option<i128>
        ensures { option_map (λ number. (number, self.new)) result ≡ next_word whole_word self.old }
    {
        numbers::whole(self.take()?)
    }

    /// The letter of a side.
    pub fn side(&mut self) -> Option<Side>
        ensures { option_map (λ side. (side, self.new)) result ≡ next_word side_word self.old }
    {
        side_of(self.take()?)
    }

    /// The number of a column, 1 or 2.
    pub fn column(&mut self) -> Option<u8>
        ensures { option_map (λ column. (column, self.new)) result ≡ next_word column_word self.old }
    {
        column_of(self.take()?)
    }

    /// A place: block, variant and index.
    #[tactic(auto, unfolding(crate::specs::InOrder::place_at))]
    pub fn place(&mut self) -> Option<Place>
        ensures { option_map (λ place. (place, self.new)) result ≡ place_at self.old }
    {
        let block = self.number()?;
        let variant = self.number()?;
        let index = self.number()?;
        Some(Place {
            block,
            variant,
            index,
        })
    }

    /// The end of the line.
    pub fn ended(&mut self) -> Option<()>
        ensures { result ≡ ended_words self.old }
    {
        match self.take() {
            Some(_) => None,
            None => Some(()),
        }
    }
}

#[tactic(auto, unfolding(crate::specs::Read::side_word))]
fn side_of(word: &[u8]) -> Option<Side>
    ensures { result ≡ side_word word.now }
{
    match word {
        b"L" => Some(Side::L),
        b"R" => Some(Side::R),
        b"S" => Some(Side::S),
        _ => None,
    }
}

#[tactic(auto, unfolding(crate::specs::Read::column_word))]
fn column_of(word: &[u8]) -> Option<u8>
    ensures { result ≡ column_word word.now }
{
    match word {
        b"1" => Some(1),
        b"2" => Some(2),
        _ => None,
    }
}
