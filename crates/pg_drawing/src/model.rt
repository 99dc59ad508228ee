//! What a drawing holds.
use crate::series::Series;
use pg_list::{Bytes, Order, Place};
use pg_plan::Side;

/// What the first line of an item says, in scaled points. Glue has its own width and the one that is set.
#[derive(Clone, Copy)]
pub enum Shape {
    Box {
        height: i32,
        depth: i32,
        width: i32,
    },
    Rule {
        height: i32,
        depth: i32,
    },
    Glue {
        own: i64,
        stretch: i32,
        order: Order,
        shrink: i32,
        set: i128,
    },
    Kern {
        width: i32,
    },
    Penalty {
        value: i32,
    },
    Insert {
        class: u32,
        size: i32,
    },
    /// An item that takes no room, or a line that says no item.
    Other,
}

/// An item of an area: where it begins below the top of the area, its shape, and the letters that it shows, a line feed
/// between rows.
#[derive(Drop)]
pub struct Mark {
    pub top: i128,
    pub shape: Shape,
    pub words: Bytes,
}

/// The areas of a page.
#[derive(Clone, Copy)]
pub enum AreaName {
    Wide,
    Top,
    Text,
    Bottom,
    Notes,
    Other,
}

/// An area: its marks, and how high they are together.
#[derive(Drop)]
pub struct DrawnArea {
    pub name: AreaName,
    pub marks: Series<Mark>,
    pub height: i128,
}

/// The numbers of a column.
#[derive(Clone, Copy)]
pub enum Numbers {
    /// Of one with text.
    Set {
        goal: i64,
        total: i64,
        badness: i128,
        penalty: i128,
        demerits: i128,
    },
    /// Of one without.
    Without {
        demerits: i128,
    },
}

/// Where a column begins and ends.
#[derive(Clone, Copy)]
pub struct Ends {
    pub from: Place,
    pub to: Place,
}

/// A column: its places, its numbers and its areas.
#[derive(Drop)]
pub struct DrawnColumn {
    pub ends: Option<Ends>,
    pub numbers: Option<Numbers>,
    pub areas: Series<DrawnArea>,
}

/// The side and the run of a page.
#[derive(Clone, Copy)]
pub struct PageHead {
    pub side: Side,
    pub run: u8,
}

/// A page: what its line says, the areas in front of its first column, and its columns.
#[derive(Drop)]
pub struct DrawnPage {
    pub head: Option<PageHead>,
    pub wide: Series<DrawnArea>,
    pub columns: Series<DrawnColumn>,
}

/// What all pages cost, and how wide the galley is.
#[derive(Clone, Copy)]
pub struct Head {
    pub cost: i128,
    pub width: i64,
}

/// A page text as it is drawn. It has no head where no pagination is legal.
#[derive(Drop)]
pub struct Drawing {
    pub head: Option<Head>,
    pub pages: Series<DrawnPage>,
}
