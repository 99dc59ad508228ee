//! The lines of a page text.
ghost use Rattle.std.specs.Prelude.{◌≡◌, IfOk};
ghost use Rattle.std.specs.Option.{option_map, is_some};
ghost use Rattle.pg_words.specs.InOrder.{words_of};
ghost use Rattle.pg_labels.specs.PageLines.{head_words as words_of_head, head_of, page_words as words_of_page, page_of, list_words as words_of_lists, column_words as words_of_column, column_from as column_said, column_of, demerits_at, set_words as words_of_set, set_of, without_of};

use pg_list::Place;
use pg_plan::{Column, Columns, Page};
use pg_words::{Words, read_counts, read_length, read_picks};
use std::alloc::{AllocError, Global};
use std::marker::Model;

// The cost, and the word of the width.
#[tactic(auto, unfolding(crate::specs::PageLines::head_words))]
fn head_words(line: &[u8]) -> Option<(i128, &[u8])>
    ensures { option_map (λ it. (it.0, it.1.now)) result ≡ words_of_head (words_of line.now) }
{
    let mut words = Words::of(line);
    words.due(b"pages")?;
    words.numeral()?;
    words.due(b"cost")?;
    let cost = words.whole()?;
    words.due(b"width")?;
    let width = words.word()?;
    words.ended()?;
    Some((cost, width))
}

/// The first line of a page text: the cost.
#[tactic(auto, unfolding(crate::specs::PageLines::head_of))]
pub fn read_head(alloc: Global, line: &[u8]) -> Result<Option<i128>, AllocError>
    ensures { IfOk result (λ cost. cost ≡ head_of (words_of line.now)) }
{
    let Some((cost, width)) = head_words(line) else {
        return Ok(None);
    };
    match read_length(alloc, width)? {
        Some(_) => Ok(Some(cost)),
        None => Ok(None),
    }
}

// The run of the page of this number, and the word of its wide counts.
#[tactic(auto, unfolding(crate::specs::PageLines::page_words))]
fn page_words(number: u128, line: &[u8]) -> Option<(u8, &[u8])>
    ensures { option_map (λ it. (it.0, it.1.now)) result ≡ words_of_page number (words_of line.now) }
{
    let mut words = Words::of(line);
    words.due(b"page")?;
    words.due_number(number)?;
    words.due(b"side")?;
    words.side()?;
    words.due(b"run")?;
    let run = words.byte()?;
    words.due(b"wide")?;
    let wide = words.word()?;
    words.ended()?;
    Some((run, wide))
}

/// The line of the page of this number: a page without columns.
#[tactic(auto, unfolding(crate::specs::PageLines::page_of))]
pub fn read_page(alloc: Global, number: u128, line: &[u8]) -> Result<Option<Page>, AllocError>
    ensures { IfOk result (λ page. page ≡ page_of number (words_of line.now)) }
{
    let Some((run, wide)) = page_words(number, line) else {
        return Ok(None);
    };
    match read_counts(alloc, wide)? {
        Some(wide) => Ok(Some(Page {
            run,
            wide,
            columns: Columns::new(alloc),
        })),
        None => Ok(None),
    }
}

// The places of a column, and the words of its lists.
#[derive(Drop)]
struct ColumnWords<'a> {
    from: Place,
    to: Place,
    top: &'a [u8],
    bottom: &'a [u8],
    picks: &'a [u8],
}

impl<'a> Model for ColumnWords<'a> {
    ghost use Rattle.pg_labels.specs.PageLines.{ColumnParts};

    ghost Value = { ColumnParts };

    ghost view = { λ a. record {
      from = a.from;
      to = a.to;
      top = a.top.now;
      bottom = a.bottom.now;
      picks = a.picks.now;
    } };
}

// The words of the lists of a column, which end its line.
#[tactic(auto, unfolding(crate::specs::PageLines::list_words))]
fn list_words<'a>(from: Place, to: Place, words: &mut Words<'a>) -> Option<ColumnWords<'a>>
    ensures { result ≡ words_of_lists from to words.old }
{
    words.due(b"top")?;
    let top = words.word()?;
    words.due(b"bottom")?;
    let bottom = words.word()?;
    words.due(b"picks")?;
    let picks = words.word()?;
    words.ended()?;
    Some(ColumnWords {
        from,
        to,
        top,
        bottom,
        picks,
    })
}

// The words of the column of this number.
#[tactic(auto, unfolding(crate::specs::PageLines::column_words))]
fn column_words(number: u128, line: &[u8]) -> Option<ColumnWords<'_>>
    ensures { result ≡ words_of_column number (words_of line.now) }
{
    let mut words = Words::of(line);
    words.due(b"column")?;
    words.due_number(number)?;
    words.due(b"from")?;
    let from = words.place()?;
    words.due(b"to")?;
    let to = words.place()?;
    list_words(from, to, &mut words)
}

// The column that the words say.
#[tactic(auto, unfolding(crate::specs::PageLines::column_from))]
fn column_from(alloc: Global, words: &ColumnWords<'_>) -> Result<Option<Column>, AllocError>
    ensures { IfOk result (λ column. column ≡ column_said words.now) }
{
    let Some(top) = read_counts(alloc, words.top)? else {
        return Ok(None);
    };
    let Some(bottom) = read_counts(alloc, words.bottom)? else {
        return Ok(None);
    };
    let Some(picks) = read_picks(alloc, words.picks)? else {
        return Ok(None);
    };
    Ok(Some(Column {
        from: words.from,
        to: words.to,
        top,
        bottom,
        picks,
    }))
}

/// The line of the column of this number on its page.
#[tactic(auto, unfolding(crate::specs::PageLines::column_of))]
pub fn read_column(alloc: Global, number: u128, line: &[u8]) -> Result<Option<Column>, AllocError>
    ensures { IfOk result (λ column. column ≡ column_of number (words_of line.now)) }
{
    match column_words(number, line) {
        Some(words) => column_from(alloc, &words),
        None => Ok(None),
    }
}

// Badness, penalty and demerits, which end a line.
#[tactic(auto, unfolding(crate::specs::PageLines::demerits_at))]
fn read_demerits(words: &mut Words<'_>) -> Option<()>
    ensures { result ≡ demerits_at words.old }
{
    words.due(b"badness")?;
    words.whole()?;
    words.due(b"penalty")?;
    words.whole()?;
    words.due(b"demerits")?;
    words.whole()?;
    words.ended()
}

// The words of the goal and the total of a text column.
#[tactic(auto, unfolding(crate::specs::PageLines::set_words))]
fn set_words(line: &[u8]) -> Option<(&[u8], &[u8])>
    ensures { option_map (λ it. (it.0.now, it.1.now)) result ≡ words_of_set (words_of line.now) }
{
    let mut words = Words::of(line);
    words.due(b"set")?;
    words.due(b"goal")?;
    let goal = words.word()?;
    words.due(b"total")?;
    let total = words.word()?;
    read_demerits(&mut words)?;
    Some((goal, total))
}

/// Whether a line is that of a text column's numbers.
#[tactic(auto, unfolding(crate::specs::PageLines::set_of))]
pub fn is_set(alloc: Global, line: &[u8]) -> Result<bool, AllocError>
    ensures { IfOk result (λ r. r ≡ is_some (set_of (words_of line.now))) }
{
    let Some((goal, total)) = set_words(line) else {
        return Ok(false);
    };
    Ok(read_length(alloc, goal)?.is_some() && read_length(alloc, total)?.is_some())
}

// The number of a column without text.
#[tactic(auto, unfolding(crate::specs::PageLines::without_of))]
fn without(line: &[u8]) -> Option<()>
    ensures { result ≡ without_of (words_of line.now) }
{
    let mut words = Words::of(line);
    words.due(b"without")?;
    words.due(b"text")?;
    words.due(b"demerits")?;
    words.whole()?;
    words.ended()
}

/// Whether a line is that of a column without text.
pub fn is_without(line: &[u8]) -> bool
    ensures { result ≡ is_some (without_of (words_of line.now)) }
{
    without(line).is_some()
}
