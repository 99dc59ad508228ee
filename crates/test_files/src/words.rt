//! The words of a line, one after another.
use pg_list::Place;
use pg_plan::{Counts, Picks};
use std::alloc::{AllocError, Global};

/// Why a line is not taken.
#[derive(Clone, Copy, Drop)]
pub enum Wrong {
    /// It is no line of a pagination.
    Words,
    /// Memory ran out.
    Memory,
}

impl From<AllocError> for Wrong {
    fn from(_error: AllocError) -> Wrong {
        Wrong::Memory
    }
}

/// What is still to be read of a line.
#[derive(Clone, Copy)]
pub struct Words<'a> {
    pub rest: &'a str,
}

// What stands in front of a blank, and what stands behind it.
fn cut(words: &str) -> (&str, &str) {
    match words.split_once(' ') {
        Some(parts) => parts,
        None => (words, ""),
    }
}

impl<'a> Words<'a> {
    /// Takes the next word; an empty one where the line ends.
    pub fn word(&mut self) -> &'a str {
        let (word, rest) = cut(self.rest);
        self.rest = rest;
        word
    }

    /// Takes a word that must stand here.
    pub fn must(&mut self, word: &str) -> Result<(), Wrong> {
        if self.word() == word {
            Ok(())
        } else {
            Err(Wrong::Words)
        }
    }

    /// Takes a number of 32 bits.
    pub fn number(&mut self) -> Result<u32, Wrong> {
        match self.word().parse::<u32>() {
            Ok(number) => Ok(number),
            Err(_) => Err(Wrong::Words),
        }
    }

    /// Takes the number of a run.
    pub fn run(&mut self) -> Result<u8, Wrong> {
        match self.word().parse::<u8>() {
            Ok(run) => Ok(run),
            Err(_) => Err(Wrong::Words),
        }
    }

    /// Takes a place: its block, its variant and its index.
    pub fn place(&mut self) -> Result<Place, Wrong> {
        let block = self.number()?;
        let variant = self.number()?;
        let index = self.number()?;
        Ok(Place {
            block,
            variant,
            index,
        })
    }

    /// Takes counts with commas between, or `-` for none.
    pub fn counts(&mut self, alloc: Global) -> Result<Counts, Wrong> {
        let mut counts = Counts::new(alloc);
        let word = self.word();
        if word == "-" {
            return Ok(counts);
        }
        for entry in word.split(',') {
            match entry.parse::<u16>() {
                Ok(count) => counts.push(count)?,
                Err(_) => return Err(Wrong::Words),
            }
        }
        Ok(counts)
    }

    /// Takes picks with commas between, or `-` for none.
    pub fn picks(&mut self, alloc: Global) -> Result<Picks, Wrong> {
        let mut picks = Picks::new(alloc);
        let word = self.word();
        if word == "-" {
            return Ok(picks);
        }
        for entry in word.split(',') {
            match entry.parse::<u32>() {
                Ok(pick) => picks.push(pick)?,
                Err(_) => return Err(Wrong::Words),
            }
        }
        Ok(picks)
    }

    /// Nothing is left of the line.
    pub fn end(&self) -> Result<(), Wrong> {
        if self.rest.is_empty() {
            Ok(())
        } else {
            Err(Wrong::Words)
        }
    }
}
