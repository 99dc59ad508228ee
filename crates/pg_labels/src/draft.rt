//! What was read so far of an output text, and its next line.
ghost use Rattle.std.specs.Prelude.{◌≡◌, ◌++◌, ◌+◌, ◌<◌, ◌≤◌, ◌^◌, [], true, false, OnOk, IfSome, length, decimal};
ghost use Rattle.std.specs.Str.{bytes_eq};
ghost use Rattle.std.specs.Option.{is_some};
ghost use Rattle.pg_words.specs.Written.{line as a_line};
ghost use Rattle.pg_labels.specs.Drafts.{Tried, started, pages_of, column_number as number_of_column, has_all_labels as all_labels, said, none_line as after_none, head_line as after_head, page_line as after_page, column_line as after_column, numbers_line as after_numbers, labels_line as after_count, area_number as number_of_area, area_line as after_area, point_line as after_point, wide_line as after_wide, label_line as after_label, first_line as after_first, page_or_labels as after_page_or_labels, column_or_later as after_column_or_later, begun_line as after_begun, further_line as after_further, step as after_step, is_whole as whole};
ghost use Rattle.pg_scan.specs.Lines.{has_point as begins_with_point};

use crate::label_lines::{read_count, read_label};
use crate::page_lines::{is_set, is_without, read_column, read_head, read_page};
use itoa::Buffer;
use pg_list::Bytes;
use pg_plan::{LabelList, Page, Pages};
use std::alloc::{AllocError, Global};
use std::marker::Model;

/// What may stand next.
#[derive(Clone, Copy, PartialEq, Eq)]
pub enum Stands {
    /// The first line: a head, or that no pagination is legal.
    Start,
    /// That no pagination is legal was said: the count of labels.
    NoneLegal,
    /// The head was read: a page, or the count of labels.
    Head,
    /// A page was begun, with its wide area or without it: bodies of that area, the area itself, or what may follow.
    Begun { has_wide: bool },
    /// The line of a column was read: its numbers.
    ColumnBegun,
    /// A column goes on: bodies of the area before `next`, an area from number `next` on, or what may follow.
    GoesOn { next: u8 },
    /// The count was read: labels, with their fitness or without it.
    Labels { fitness: bool },
}

/// The text of the pages so far, with the line feeds.
#[derive(Drop)]
pub struct PageText {
    bytes: Vec<u8>,
}

impl Model for PageText {
    ghost use Rattle.std.specs.Prelude.{List, ℕ};

    ghost Value = { List ℕ };

    ghost view = { λ a. a.bytes.items };
}

impl PageText {
    fn new(alloc: Global) -> PageText
        ensures { result ≡ [] }
    {
        PageText {
            bytes: Vec::new(alloc),
        }
    }

    // Adds a line.
    fn push_line(&mut self, line: &[u8]) -> Result<(), AllocError>
        ensures { OnOk result (self.new ≡ self.old ++ a_line line.now) }
    {
        self.bytes.extend_from_slice(line)?;
        self.bytes.push(b'\n')?;
        Ok(())
    }

    /// The text.
    pub fn into_bytes(self) -> Bytes
        ensures { result ≡ self }
    {
        Bytes::new(self.bytes)
    }
}

/// What was read so far: the cost, if there is a head; the pages, of which the last may get more columns; the text of
/// the pages; the count of labels as it is spelled; and the labels.
#[derive(Drop)]
pub struct Draft {
    pub stands: Stands,
    pub cost: Option<i128>,
    pub done: Pages,
    pub last: Option<Page>,
    pub page_text: PageText,
    pub count: Bytes,
    pub labels: LabelList,
}

// Whether a line begins with a point.
fn has_point(line: &[u8]) -> bool
    ensures { result ≡ begins_with_point line.now }
{
    match line {
        [b'.', ..] => true,
        _ => false,
    }
}

// The number of an area of a column, in their order.
#[tactic(auto, unfolding(crate::specs::Drafts::area_number))]
fn area_number(line: &[u8]) -> Option<u8>
    ensures number { result ≡ number_of_area line.now }
    ensures bound { IfSome result (λ number. number < 4) }
{
    if line == b"area top".as_slice() {
        Some(0)
    } else if line == b"area text".as_slice() {
        Some(1)
    } else if line == b"area bottom".as_slice() {
        Some(2)
    } else if line == b"area notes".as_slice() {
        Some(3)
    } else {
        None
    }
}

impl Draft {
    /// Nothing was read.
    pub fn new(alloc: Global) -> Draft
        ensures { result ≡ started }
    {
        Draft {
            stands: Stands::Start,
            cost: None,
            done: Pages::new(alloc),
            last: None,
            page_text: PageText::new(alloc),
            count: Bytes::new(Vec::new(alloc)),
            labels: LabelList::new(alloc),
        }
    }

    // How many pages there are.
    fn page_count(&self) -> u128
        ensures count { result ≡ length (pages_of self.now) }
        ensures bound { result ≤ 2 ^ 64 }
    {
        let done = self.done.as_slice().len() as u128;
        match self.last {
            Some(_) => done + 1,
            None => done,
        }
    }

    // The number of the last page's next column.
    fn column_number(&self) -> u128
        ensures { result ≡ number_of_column self.now.last }
    {
        match &self.last {
            Some(page) => page.columns.as_slice().len() as u128 + 1,
            None => 1,
        }
    }

    // A line of the page text was read.
    fn keep(&mut self, line: &[u8], stands: Stands) -> Result<(), AllocError>
        ensures { OnOk result (self.new ≡ said self.old line.now stands) }
    {
        self.page_text.push_line(line)?;
        self.stands = stands;
        Ok(())
    }

    #[tactic(auto, unfolding(crate::specs::Drafts::none_line))]
    fn none_line(&mut self, line: &[u8]) -> Result<bool, AllocError>
        ensures { Tried result (after_none self.old line.now) self.old self.new }
    {
        if line != b"no legal pagination".as_slice() {
            return Ok(false);
        }
        self.keep(line, Stands::NoneLegal)?;
        Ok(true)
    }

    #[tactic(auto, unfolding(crate::specs::Drafts::head_line))]
    fn head_line(&mut self, alloc: Global, line: &[u8]) -> Result<bool, AllocError>
        ensures { Tried result (after_head self.old line.now) self.old self.new }
    {
        let Some(cost) = read_head(alloc, line)? else {
            return Ok(false);
        };
        self.keep(line, Stands::Head)?;
        self.cost = Some(cost);
        Ok(true)
    }

    /// The last page joins the others.
    pub fn end_page(&mut self) -> Result<(), AllocError>
        ensures { OnOk result (self.new ≡ record self.old { done = pages_of self.old; last = None }) }
    {
        match self.last.take() {
            Some(page) => self.done.push(page),
            None => Ok(()),
        }
    }

    #[tactic(auto, unfolding(crate::specs::Drafts::page_line))]
    fn page_line(&mut self, alloc: Global, line: &[u8]) -> Result<bool, AllocError>
        ensures { Tried result (after_page self.old line.now) self.old self.new }
    {
        let Some(page) = read_page(alloc, self.page_count() + 1, line)? else {
            return Ok(false);
        };
        self.end_page()?;
        self.last = Some(page);
        self.keep(line, Stands::Begun { has_wide: false })?;
        Ok(true)
    }

    #[tactic(auto, unfolding(crate::specs::Drafts::column_line))]
    fn column_line(&mut self, alloc: Global, line: &[u8]) -> Result<bool, AllocError>
        ensures { Tried result (after_column self.old line.now) self.old self.new }
    {
        let Some(column) = read_column(alloc, self.column_number(), line)? else {
            return Ok(false);
        };
        if let Some(page) = &mut self.last {
            page.columns.push(column)?;
        }
        self.keep(line, Stands::ColumnBegun)?;
        Ok(true)
    }

    #[tactic(auto, unfolding(crate::specs::Drafts::numbers_line))]
    fn numbers_line(&mut self, alloc: Global, line: &[u8]) -> Result<bool, AllocError>
        ensures { Tried result (after_numbers self.old line.now) self.old self.new }
    {
        if !is_set(alloc, line)? && !is_without(line) {
            return Ok(false);
        }
        self.keep(line, Stands::GoesOn { next: 0 })?;
        Ok(true)
    }

    #[tactic(auto, unfolding(crate::specs::Drafts::labels_line))]
    fn labels_line(&mut self, alloc: Global, line: &[u8]) -> Result<bool, AllocError>
        ensures { Tried result (after_count self.old line.now) self.old self.new }
    {
        let Some((fitness, count)) = read_count(line) else {
            return Ok(false);
        };
        self.count = Bytes::from_slice(alloc, count)?;
        self.stands = Stands::Labels { fitness };
        Ok(true)
    }

    #[tactic(auto, unfolding(crate::specs::Drafts::area_line))]
    fn area_line(&mut self, next: u8, line: &[u8]) -> Result<bool, AllocError>
        ensures { Tried result (after_area self.old next line.now) self.old self.new }
    {
        let Some(number) = area_number(line) else {
            return Ok(false);
        };
        if number < next {
            return Ok(false);
        }
        self.keep(line, Stands::GoesOn { next: number + 1 })?;
        Ok(true)
    }

    fn point_line(&mut self, in_area: bool, line: &[u8]) -> Result<bool, AllocError>
        ensures { Tried result (after_point in_area self.old line.now) self.old self.new }
    {
        if !(in_area && has_point(line)) {
            return Ok(false);
        }
        self.keep(line, self.stands)?;
        Ok(true)
    }

    #[tactic(auto, unfolding(crate::specs::Drafts::wide_line))]
    fn wide_line(&mut self, has_wide: bool, line: &[u8]) -> Result<bool, AllocError>
        ensures { Tried result (after_wide has_wide self.old line.now) self.old self.new }
    {
        if has_wide || line != b"area wide".as_slice() {
            return Ok(false);
        }
        self.keep(line, Stands::Begun { has_wide: true })?;
        Ok(true)
    }

    // Whether there are as many labels as were said.
    fn has_all_labels(&self) -> bool
        ensures { result ≡ all_labels self.now }
    {
        let mut buffer = Buffer::new();
        buffer
            .format(self.labels.as_slice().len() as u128)
            .as_bytes()
            == self.count.as_slice()
    }

    #[tactic(auto, unfolding(crate::specs::Drafts::label_line))]
    fn label_line(&mut self, alloc: Global, fitness: bool, line: &[u8]) -> Result<bool, AllocError>
        ensures { Tried result (after_label fitness self.old line.now) self.old self.new }
    {
        if self.has_all_labels() {
            return Ok(false);
        }
        let number = self.labels.as_slice().len() as u128 + 1;
        let Some(label) = read_label(alloc, fitness, number, line)? else {
            return Ok(false);
        };
        self.labels.push(label)?;
        Ok(true)
    }

    fn first_line(&mut self, alloc: Global, line: &[u8]) -> Result<bool, AllocError>
        ensures { Tried result (after_first self.old line.now) self.old self.new }
    {
        if self.none_line(line)? {
            return Ok(true);
        }
        self.head_line(alloc, line)
    }

    fn page_or_labels(&mut self, alloc: Global, line: &[u8]) -> Result<bool, AllocError>
        ensures { Tried result (after_page_or_labels self.old line.now) self.old self.new }
    {
        if self.page_line(alloc, line)? {
            return Ok(true);
        }
        self.labels_line(alloc, line)
    }

    fn column_or_later(&mut self, alloc: Global, line: &[u8]) -> Result<bool, AllocError>
        ensures { Tried result (after_column_or_later self.old line.now) self.old self.new }
    {
        if self.column_line(alloc, line)? {
            return Ok(true);
        }
        self.page_or_labels(alloc, line)
    }

    fn begun_line(&mut self, alloc: Global, has_wide: bool, line: &[u8]) -> Result<bool, AllocError>
        ensures { Tried result (after_begun has_wide self.old line.now) self.old self.new }
    {
        if self.point_line(has_wide, line)? || self.wide_line(has_wide, line)? {
            return Ok(true);
        }
        self.column_or_later(alloc, line)
    }

    fn further_line(&mut self, alloc: Global, next: u8, line: &[u8]) -> Result<bool, AllocError>
        ensures { Tried result (after_further next self.old line.now) self.old self.new }
    {
        if self.point_line(next > 0, line)? || self.area_line(next, line)? {
            return Ok(true);
        }
        self.column_or_later(alloc, line)
    }

    /// Takes the next line; false where it may not stand there, and nothing has changed then.
    #[tactic(auto, unfolding(crate::specs::Drafts::step))]
    pub fn step(&mut self, alloc: Global, line: &[u8]) -> Result<bool, AllocError>
        ensures { Tried result (after_step self.old line.now) self.old self.new }
    {
        match self.stands {
            Stands::Start => self.first_line(alloc, line),
            Stands::NoneLegal => self.labels_line(alloc, line),
            Stands::Head => self.page_or_labels(alloc, line),
            Stands::Begun { has_wide } => self.begun_line(alloc, has_wide, line),
            Stands::ColumnBegun => self.numbers_line(alloc, line),
            Stands::GoesOn { next } => self.further_line(alloc, next, line),
            Stands::Labels { fitness } => self.label_line(alloc, fitness, line),
        }
    }

    /// Whether all labels stand.
    pub fn is_whole(&self) -> bool
        ensures { result ≡ whole self.now }
    {
        match self.stands {
            Stands::Labels { .. } => self.has_all_labels(),
            _ => false,
        }
    }
}
