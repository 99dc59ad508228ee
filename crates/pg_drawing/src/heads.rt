//! The lines of a page text that say numbers and names.
ghost use Rattle.std.specs.Prelude.{◌≡◌, IfOk};
ghost use Rattle.std.specs.Option.{option_map};
ghost use Rattle.pg_words.specs.InOrder.{words_of};
ghost use Rattle.pg_drawing.specs.Drawn.{area_name as name_of_area, demerits_at, ends_of, head_of, head_words as words_of_head, numbers_of, page_head as head_of_page, set_of, set_from as set_said, set_parts as parts_of_set, without_of};

use crate::model::{AreaName, Ends, Head, Numbers, PageHead};
use pg_words::{Words, read_length};
use std::alloc::{AllocError, Global};
use std::marker::Model;

/// The name of an area.
#[tactic(auto, unfolding(crate::specs::Drawn::area_name))]
pub fn area_name(line: &[u8]) -> AreaName
    ensures { result ≡ name_of_area line.now }
{
    if line == b"area wide".as_slice() {
        AreaName::Wide
    } else if line == b"area top".as_slice() {
        AreaName::Top
    } else if line == b"area text".as_slice() {
        AreaName::Text
    } else if line == b"area bottom".as_slice() {
        AreaName::Bottom
    } else if line == b"area notes".as_slice() {
        AreaName::Notes
    } else {
        AreaName::Other
    }
}

/// Where a column begins and ends.
#[tactic(auto, unfolding(crate::specs::Drawn::ends_of))]
pub fn read_ends(line: &[u8]) -> Option<Ends>
    ensures { result ≡ ends_of (words_of line.now) }
{
    let mut words = Words::of(line);
    words.due(b"column")?;
    words.word()?;
    words.due(b"from")?;
    let from = words.place()?;
    words.due(b"to")?;
    let to = words.place()?;
    Some(Ends { from, to })
}

// Badness, penalty and demerits.
#[derive(Clone, Copy)]
struct Demerits {
    badness: i128,
    penalty: i128,
    demerits: i128,
}

impl Model for Demerits {
    ghost use Rattle.pg_drawing.specs.Drawn.{Demerits as DemeritNumbers};

    ghost Value = { DemeritNumbers };

    ghost view = { λ a. record { badness = a.badness; penalty = a.penalty; demerits = a.demerits } };

    ghost inverse = { λ v. record { badness = v.badness; penalty = v.penalty; demerits = v.demerits } };
}

// These at the end of a line.
#[tactic(auto, unfolding(crate::specs::Drawn::demerits_at))]
fn read_demerits(words: &mut Words<'_>) -> Option<Demerits>
    ensures { result ≡ demerits_at words.old }
{
    words.due(b"badness")?;
    let badness = words.whole()?;
    words.due(b"penalty")?;
    let penalty = words.whole()?;
    words.due(b"demerits")?;
    let demerits = words.whole()?;
    words.ended()?;
    Some(Demerits {
        badness,
        penalty,
        demerits,
    })
}

// The words of the goal and of the total of a text column, and its demerits.
#[derive(Drop)]
struct SetWords<'a> {
    goal: &'a [u8],
    total: &'a [u8],
    demerits: Demerits,
}

impl<'a> Model for SetWords<'a> {
    ghost use Rattle.pg_drawing.specs.Drawn.{SetParts};

    ghost Value = { SetParts };

    ghost view = { λ a. record { goal = a.goal.now; total = a.total.now; demerits = a.demerits } };
}

#[tactic(auto, unfolding(crate::specs::Drawn::set_parts))]
fn set_words(line: &[u8]) -> Option<SetWords<'_>>
    ensures { result ≡ parts_of_set (words_of line.now) }
{
    let mut words = Words::of(line);
    words.due(b"set")?;
    words.due(b"goal")?;
    let goal = words.word()?;
    words.due(b"total")?;
    let total = words.word()?;
    let demerits = read_demerits(&mut words)?;
    Some(SetWords {
        goal,
        total,
        demerits,
    })
}

// The numbers that the words say.
#[tactic(auto, unfolding(crate::specs::Drawn::set_from))]
fn set_from(alloc: Global, words: &SetWords<'_>) -> Result<Option<Numbers>, AllocError>
    ensures { IfOk result (λ numbers. numbers ≡ set_said words.now) }
{
    let Some(goal) = read_length(alloc, words.goal)? else {
        return Ok(None);
    };
    let Some(total) = read_length(alloc, words.total)? else {
        return Ok(None);
    };
    Ok(Some(Numbers::Set {
        goal,
        total,
        badness: words.demerits.badness,
        penalty: words.demerits.penalty,
        demerits: words.demerits.demerits,
    }))
}

// The number of a column without text.
#[tactic(auto, unfolding(crate::specs::Drawn::without_of))]
fn without(line: &[u8]) -> Option<Numbers>
    ensures { result ≡ without_of (words_of line.now) }
{
    let mut words = Words::of(line);
    words.due(b"without")?;
    words.due(b"text")?;
    words.due(b"demerits")?;
    let demerits = words.whole()?;
    words.ended()?;
    Some(Numbers::Without { demerits })
}

// The numbers of a column with text.
fn set(alloc: Global, line: &[u8]) -> Result<Option<Numbers>, AllocError>
    ensures { IfOk result (λ numbers. numbers ≡ set_of (words_of line.now)) }
{
    match set_words(line) {
        Some(words) => set_from(alloc, &words),
        None => Ok(None),
    }
}

/// The numbers of a column, with text or without.
pub fn read_numbers(alloc: Global, line: &[u8]) -> Result<Option<Numbers>, AllocError>
    ensures { IfOk result (λ numbers. numbers ≡ numbers_of line.now) }
{
    match set(alloc, line)? {
        Some(numbers) => Ok(Some(numbers)),
        None => Ok(without(line)),
    }
}

/// The side and the run of a page.
#[tactic(auto, unfolding(crate::specs::Drawn::page_head))]
pub fn page_head(line: &[u8]) -> Option<PageHead>
    ensures { result ≡ head_of_page (words_of line.now) }
{
    let mut words = Words::of(line);
    words.due(b"page")?;
    words.word()?;
    words.due(b"side")?;
    let side = words.side()?;
    words.due(b"run")?;
    let run = words.byte()?;
    Some(PageHead { side, run })
}

// The cost, and the word of the width.
#[tactic(auto, unfolding(crate::specs::Drawn::head_words))]
fn head_words(line: &[u8]) -> Option<(i128, &[u8])>
    ensures { option_map (λ it. (it.0, it.1.now)) result ≡ words_of_head (words_of line.now) }
{
    let mut words = Words::of(line);
    words.due(b"pages")?;
    words.word()?;
    words.due(b"cost")?;
    let cost = words.whole()?;
    words.due(b"width")?;
    let width = words.word()?;
    Some((cost, width))
}

/// The first line of pages: the cost and the width.
#[tactic(auto, unfolding(crate::specs::Drawn::head_of))]
pub fn read_head(alloc: Global, line: &[u8]) -> Result<Option<Head>, AllocError>
    ensures { IfOk result (λ head. head ≡ head_of (words_of line.now)) }
{
    let Some((cost, width)) = head_words(line) else {
        return Ok(None);
    };
    match read_length(alloc, width)? {
        Some(width) => Ok(Some(Head { cost, width })),
        None => Ok(None),
    }
}
