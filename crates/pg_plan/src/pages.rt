//! Paginations, pages, columns and moves.
ghost use Rattle.std.specs.Prelude.{◌≡◌, IfOk, ◌++◌, OnOk, OnErr, ◌∷◌, [], length};

use crate::counts::Counts;
use crate::picks::Picks;
use pg_list::Place;
use std::alloc::{AllocError, Global};
use std::marker::Model;

/// A column: where its text stands, how many floats, and which variants.
#[derive(Drop)]
pub struct Column {
    pub from: Place,
    pub to: Place,
    pub top: Counts,
    pub bottom: Counts,
    pub picks: Picks,
}

impl Column {
    pub fn copy(&self) -> Result<Column, AllocError>
        ensures { IfOk result (λ column. column ≡ self.now) }
    {
        Ok(Column {
            from: self.from,
            to: self.to,
            top: self.top.copy()?,
            bottom: self.bottom.copy()?,
            picks: self.picks.copy()?,
        })
    }
}

/// Columns in order.
#[derive(Drop)]
pub struct Columns {
    columns: Vec<Column>,
}

impl Model for Columns {
    ghost use Rattle.std.specs.Prelude.{List};
    ghost use Rattle.pg_plan.specs.declared.pages.Column.{Column};

    ghost Value = { List Column };

    ghost view = { λ a. a.columns.items };
}

impl Columns {
    /// No columns. No memory is taken.
    pub fn new(alloc: Global) -> Columns
        ensures { result ≡ [] }
    {
        Columns {
            columns: Vec::new(alloc),
        }
    }

    /// No columns, with room for so many. Errors: out of memory.
    pub fn with_room(alloc: Global, count: usize) -> Result<Columns, AllocError>
        ensures { IfOk result (λ columns. columns ≡ []) }
    {
        Ok(Columns {
            columns: Vec::with_capacity(alloc, count)?,
        })
    }

    /// Adds a column behind the others.
    pub fn push(&mut self, column: Column) -> Result<(), AllocError>
        ensures ok { OnOk result (self.new ≡ self.old ++ column ∷ []) }
        ensures err { OnErr result (self.new ≡ self.old) }
    {
        self.columns.push(column)?;
        Ok(())
    }

    pub fn as_slice(&self) -> &[Column]
        ensures { result.now ≡ self.now }
    {
        self.columns.as_slice()
    }

    pub fn copy(&self) -> Result<Columns, AllocError>
        ensures { IfOk result (λ columns. columns ≡ self.now) }
    {
        let mut columns = Vec::new(*self.columns.allocator());
        for column in &self.columns {
            columns.push(column.copy()?)?;
        }
        Ok(Columns { columns })
    }
}

/// A page: its run, its wide floats and its columns.
#[derive(Drop)]
pub struct Page {
    pub run: u8,
    pub wide: Counts,
    pub columns: Columns,
}

impl Page {
    pub fn copy(&self) -> Result<Page, AllocError>
        ensures { IfOk result (λ page. page ≡ self.now) }
    {
        Ok(Page {
            run: self.run,
            wide: self.wide.copy()?,
            columns: self.columns.copy()?,
        })
    }
}

/// Pages in order.
#[derive(Drop)]
pub struct Pages {
    pages: Vec<Page>,
}

impl Model for Pages {
    ghost use Rattle.std.specs.Prelude.{List};
    ghost use Rattle.pg_plan.specs.declared.pages.Page.{Page};

    ghost Value = { List Page };

    ghost view = { λ a. a.pages.items };
}

impl Pages {
    /// No pages. No memory is taken.
    pub fn new(alloc: Global) -> Pages
        ensures { result ≡ [] }
    {
        Pages {
            pages: Vec::new(alloc),
        }
    }

    /// Adds a page behind the others.
    pub fn push(&mut self, page: Page) -> Result<(), AllocError>
        ensures ok { OnOk result (self.new ≡ self.old ++ page ∷ []) }
        ensures err { OnErr result (self.new ≡ self.old) }
    {
        self.pages.push(page)?;
        Ok(())
    }

    pub fn as_slice(&self) -> &[Page]
        ensures { result.now ≡ self.now }
    {
        self.pages.as_slice()
    }

    pub fn copy(&self) -> Result<Pages, AllocError>
        ensures { IfOk result (λ pages. pages ≡ self.now) }
    {
        let mut pages = Vec::new(*self.pages.allocator());
        for page in &self.pages {
            pages.push(page.copy()?)?;
        }
        Ok(Pages { pages })
    }
}

/// A galley in pages.
#[derive(Drop)]
pub struct Pagination {
    pub pages: Pages,
}

impl Pagination {
    pub fn copy(&self) -> Result<Pagination, AllocError>
        ensures { IfOk result (λ plan. plan ≡ self.now) }
    {
        Ok(Pagination {
            pages: self.pages.copy()?,
        })
    }
}

/// A column as one step of a pagination: the column, its page's run, and its page's wide floats.
/// A page's second column has wide counts 0.
#[derive(Drop)]
pub struct PageMove {
    pub column: Column,
    pub run: u8,
    pub wide: Counts,
}

impl PageMove {
    pub fn copy(&self) -> Result<PageMove, AllocError>
        ensures { IfOk result (λ step. step ≡ self.now) }
    {
        Ok(PageMove {
            column: self.column.copy()?,
            run: self.run,
            wide: self.wide.copy()?,
        })
    }
}

/// The columns of a pagination as steps, in order.
#[derive(Drop)]
pub struct Moves {
    moves: Vec<PageMove>,
}

impl Model for Moves {
    ghost use Rattle.std.specs.Prelude.{List};
    ghost use Rattle.pg_plan.specs.declared.pages.PageMove.{PageMove};

    ghost Value = { List PageMove };

    ghost view = { λ a. a.moves.items };
}

impl Moves {
    /// No moves. No memory is taken.
    pub fn new(alloc: Global) -> Moves
        ensures { result ≡ [] }
    {
        Moves {
            moves: Vec::new(alloc),
        }
    }

    /// Adds a move behind the others.
    pub fn push(&mut self, step: PageMove) -> Result<(), AllocError>
        ensures ok { OnOk result (self.new ≡ self.old ++ step ∷ []) }
        ensures err { OnErr result (self.new ≡ self.old) }
    {
        self.moves.push(step)?;
        Ok(())
    }

    pub fn as_slice(&self) -> &[PageMove]
        ensures { result.now ≡ self.now }
    {
        self.moves.as_slice()
    }

    pub fn copy(&self) -> Result<Moves, AllocError>
        ensures { IfOk result (λ moves. moves ≡ self.now) }
    {
        let mut moves = Vec::new(*self.moves.allocator());
        for step in &self.moves {
            moves.push(step.copy()?)?;
        }
        Ok(Moves { moves })
    }
}
