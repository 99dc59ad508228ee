//! Files of paginations.
use crate::lines::{column_of, page_of};
use crate::words::Wrong;
use pg_plan::{Column, Page, Pages, Pagination};
use std::alloc::{AllocError, Global};

/// A pagination with its name.
#[derive(Drop)]
pub struct Named<'a> {
    pub name: &'a str,
    pub plan: Pagination,
}

/// Why a text tells no paginations.
#[derive(Clone, Copy, Drop)]
pub enum PlansFault {
    /// The line of this number is none of a pagination.
    Line(u32),
    /// Memory ran out.
    Memory,
}

// A pagination whose lines are being read: its pages, and the page to which columns are added.
#[derive(Drop)]
struct Begun<'a> {
    name: &'a str,
    pages: Pages,
    page: Option<Page>,
}

impl<'a> Begun<'a> {
    fn of(alloc: Global, name: &'a str) -> Begun<'a> {
        Begun {
            name,
            pages: Pages::new(alloc),
            page: None,
        }
    }

    // The page that was begun joins the others.
    fn end_page(&mut self) -> Result<(), AllocError> {
        match self.page.take() {
            Some(page) => self.pages.push(page),
            None => Ok(()),
        }
    }

    fn begin_page(&mut self, page: Page) -> Result<(), AllocError> {
        self.end_page()?;
        self.page = Some(page);
        Ok(())
    }

    fn add_column(&mut self, column: Column) -> Result<(), Wrong> {
        match &mut self.page {
            Some(page) => {
                page.columns.push(column)?;
                Ok(())
            }
            None => Err(Wrong::Words),
        }
    }

    fn ended(mut self) -> Result<Named<'a>, AllocError> {
        self.end_page()?;
        Ok(Named {
            name: self.name,
            plan: Pagination { pages: self.pages },
        })
    }
}

// What is read so far: paginations, and one of which more lines may come.
#[derive(Drop)]
struct Reading<'a> {
    plans: Vec<Named<'a>>,
    begun: Option<Begun<'a>>,
}

impl<'a> Reading<'a> {
    fn end_plan(&mut self) -> Result<(), AllocError> {
        match self.begun.take() {
            Some(begun) => {
                let plan = begun.ended()?;
                self.plans.push(plan)?;
                Ok(())
            }
            None => Ok(()),
        }
    }

    fn begin_plan(&mut self, alloc: Global, name: &'a str) -> Result<(), AllocError> {
        self.end_plan()?;
        self.begun = Some(Begun::of(alloc, name));
        Ok(())
    }

    fn add_page(&mut self, page: Page) -> Result<(), Wrong> {
        match &mut self.begun {
            Some(begun) => {
                begun.begin_page(page)?;
                Ok(())
            }
            None => Err(Wrong::Words),
        }
    }

    fn add_column(&mut self, column: Column) -> Result<(), Wrong> {
        match &mut self.begun {
            Some(begun) => begun.add_column(column),
            None => Err(Wrong::Words),
        }
    }

    fn take_line(&mut self, alloc: Global, line: &'a str) -> Result<(), Wrong> {
        if line.is_empty() || line.starts_with('#') {
            return Ok(());
        }
        match line.split_once(' ') {
            Some(("plan", name)) => {
                self.begin_plan(alloc, name)?;
                Ok(())
            }
            Some(("page", words)) => {
                let page = page_of(alloc, words)?;
                self.add_page(page)
            }
            Some(("column", words)) => {
                let column = column_of(alloc, words)?;
                self.add_column(column)
            }
            _ => Err(Wrong::Words),
        }
    }
}

/// The paginations of a text, in order.
pub fn read_plans<'a>(alloc: Global, text: &'a str) -> Result<Vec<Named<'a>>, PlansFault> {
    let mut reading = Reading {
        plans: Vec::new(alloc),
        begun: None,
    };
    let mut number = 0u32;
    for line in text.lines() {
        number = number.saturating_add(1);
        match reading.take_line(alloc, line) {
            Ok(()) => {}
            Err(Wrong::Words) => return Err(PlansFault::Line(number)),
            Err(Wrong::Memory) => return Err(PlansFault::Memory),
        }
    }
    match reading.end_plan() {
        Ok(()) => Ok(reading.plans),
        Err(_) => Err(PlansFault::Memory),
    }
}
