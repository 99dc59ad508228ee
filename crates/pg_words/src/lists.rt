//! Lists of numbers, joined by commas.
ghost use Rattle.std.specs.Prelude.{◌≡◌, ◌^◌, IfOk};
ghost use Rattle.pg_words.specs.Read.{numbers_word};

use crate::numbers::number_below;
use pg_plan::{Ages, Counts, Picks};
use pg_scan::split_part;
use std::alloc::{AllocError, Global};

/// Counts below 2^16, joined by commas, or `-` where there is none; None for any other word.
#[tactic(auto, unfolding(crate::specs::Read::numbers_word))]
pub fn read_counts(alloc: Global, word: &[u8]) -> Result<Option<Counts>, AllocError>
    ensures { IfOk result (λ counts. counts ≡ numbers_word (2 ^ 16) word.now) }
{
    let mut counts = Counts::new(alloc);
    if word == b"-".as_slice() {
        return Ok(Some(counts));
    }
    let mut rest = Some(word);
    while let Some(text) = rest {
        let (entry, behind) = split_part(b',', text);
        let Some(count) = number_below(1 << 16, entry) else {
            return Ok(None);
        };
        counts.push(count as u16)?;
        rest = behind;
    }
    Ok(Some(counts))
}

/// Ages below 2^8, joined by commas, or `-` where there is none; None for any other word.
#[tactic(auto, unfolding(crate::specs::Read::numbers_word))]
pub fn read_ages(alloc: Global, word: &[u8]) -> Result<Option<Ages>, AllocError>
    ensures { IfOk result (λ ages. ages ≡ numbers_word (2 ^ 8) word.now) }
{
    let mut ages = Ages::new(alloc);
    if word == b"-".as_slice() {
        return Ok(Some(ages));
    }
    let mut rest = Some(word);
    while let Some(text) = rest {
        let (entry, behind) = split_part(b',', text);
        let Some(age) = number_below(1 << 8, entry) else {
            return Ok(None);
        };
        ages.push(age as u8)?;
        rest = behind;
    }
    Ok(Some(ages))
}

/// Picks below 2^32, joined by commas, or `-` where there is none; None for any other word.
#[tactic(auto, unfolding(crate::specs::Read::numbers_word))]
pub fn read_picks(alloc: Global, word: &[u8]) -> Result<Option<Picks>, AllocError>
    ensures { IfOk result (λ picks. picks ≡ numbers_word (2 ^ 32) word.now) }
{
    let mut picks = Picks::new(alloc);
    if word == b"-".as_slice() {
        return Ok(Some(picks));
    }
    let mut rest = Some(word);
    while let Some(text) = rest {
        let (entry, behind) = split_part(b',', text);
        let Some(pick) = number_below(1 << 32, entry) else {
            return Ok(None);
        };
        picks.push(pick as u32)?;
        rest = behind;
    }
    Ok(Some(picks))
}
