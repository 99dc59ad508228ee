//! Columns in few bytes.
ghost use Rattle.std.specs.Prelude.{◌≡◌, [], IfOk, IfSome};
ghost use Rattle.std.specs.Cmp.Lexicographic.{slice_cmp};
ghost use Rattle.pg_plan.specs.Order.{column_cmp, counts_cmp};
ghost use Rattle.pg_small.specs.Columns.{floats_cmp, move_kept, picks_seen};
ghost use Rattle.pg_small.specs.Parts.{column_of};

use crate::layouts::{FewLayout, SmallLayout};
use crate::lists::{counts_from, first_bytes, first_counts};
use crate::picks::{PickView, compare_picks, few_picks, picks_from};
use pg_list::Place;
use pg_plan::{Column, PageMove, compare_places};
use std::alloc::{AllocError, Global};
use std::cmp::Ordering;
use std::marker::Model;

// The layout, and the first `count` of `picks`.
#[derive(Drop)]
pub(crate) enum Kept {
    Few {
        count: u8,
        layout: FewLayout,
        picks: [u8; 18],
        from: Place,
        to: Place,
    },
    Many(Box<PageMove>),
}

/// A column as one step of a pagination, in 64 bytes. One whose layout does not fit in few bytes, or that has more
/// than 18 picks or a pick above 255, stands on the heap.
#[derive(Drop)]
pub struct SmallMove {
    kept: Kept,
}

impl Model for SmallMove {
    ghost use Rattle.pg_plan.specs.declared.pages.PageMove.{PageMove};
    ghost use Rattle.pg_small.specs.Columns.{move_kept};

    ghost Value = { PageMove };

    ghost view = { λ a. move_kept a.kept };
}

// The column of a layout in few bytes, if it fits.
fn few_move(layout: &SmallLayout, from: Place, to: Place, picks: &[u32]) -> Option<Kept>
    ensures { IfSome result (λ it. move_kept it ≡ column_of layout.now from to picks.now) }
{
    let layout = layout.few()?;
    let (count, picks) = few_picks(picks)?;
    Some(Kept::Few {
        count,
        layout: *layout,
        picks,
        from,
        to,
    })
}

#[cold]
#[inline(never)]
fn many_move(
    alloc: Global,
    layout: &SmallLayout,
    from: Place,
    to: Place,
    picks: &[u32],
) -> Result<Kept, AllocError>
    ensures { IfOk result (λ it. move_kept it ≡ column_of layout.now from to picks.now) }
{
    let column = Column {
        from,
        to,
        top: counts_from(alloc, layout.top())?,
        bottom: counts_from(alloc, layout.bottom())?,
        picks: picks_from(alloc, picks)?,
    };
    let step = PageMove {
        column,
        run: layout.run(),
        wide: counts_from(alloc, layout.wide())?,
    };
    Ok(Kept::Many(Box::new(alloc, step)?))
}

// The column of a layout by these picks.
#[inline(never)]
fn picked_move(
    alloc: Global,
    layout: &SmallLayout,
    from: Place,
    to: Place,
    picks: &[u32],
) -> Result<SmallMove, AllocError>
    ensures { IfOk result (λ it. it ≡ column_of layout.now from to picks.now) }
{
    match few_move(layout, from, to, picks) {
        Some(kept) => Ok(SmallMove { kept }),
        None => Ok(SmallMove {
            kept: many_move(alloc, layout, from, to, picks)?,
        }),
    }
}

// The column of a layout without picks.
#[inline(never)]
fn plain_move(
    alloc: Global,
    layout: &SmallLayout,
    from: Place,
    to: Place,
) -> Result<SmallMove, AllocError>
    ensures { IfOk result (λ it. it ≡ column_of layout.now from to []) }
{
    match layout.few() {
        Some(few) => Ok(SmallMove {
            kept: Kept::Few {
                count: 0,
                layout: *few,
                picks: [0; 18],
                from,
                to,
            },
        }),
        None => picked_move(alloc, layout, from, to, &[]),
    }
}

fn compare_counts(a: &[u16], b: &[u16]) -> Ordering
    ensures { result ≡ counts_cmp a.now b.now }
{
    a.cmp(b)
}

impl SmallMove {
    /// The column of a layout between two places, by these picks, in few bytes. It fails where memory runs out. Most have no
    /// picks, so that no list of them is handed on.
    #[inline(always)]
    pub fn of(
        alloc: Global,
        layout: &SmallLayout,
        from: Place,
        to: Place,
        picks: &[u32],
    ) -> Result<SmallMove, AllocError>
        ensures { IfOk result (λ it. it ≡ column_of layout.now from to picks.now) }
    {
        if picks.is_empty() {
            plain_move(alloc, layout, from, to)
        } else {
            picked_move(alloc, layout, from, to, picks)
        }
    }

    /// The column that this stands for. It fails where memory runs out.
    pub fn to_move(&self, alloc: Global) -> Result<PageMove, AllocError>
        ensures { IfOk result (λ it. it ≡ self.now) }
    {
        Ok(PageMove {
            column: Column {
                from: self.from(),
                to: self.to(),
                top: counts_from(alloc, self.top())?,
                bottom: counts_from(alloc, self.bottom())?,
                picks: self.picks().to_picks(alloc)?,
            },
            run: self.run(),
            wide: counts_from(alloc, self.wide())?,
        })
    }

    /// Where the column begins.
    pub fn from(&self) -> Place
        ensures { result ≡ self.now.column.from }
    {
        match &self.kept {
            Kept::Few { from, .. } => *from,
            Kept::Many(step) => step.column.from,
        }
    }

    /// Where the column ends.
    pub fn to(&self) -> Place
        ensures { result ≡ self.now.column.to }
    {
        match &self.kept {
            Kept::Few { to, .. } => *to,
            Kept::Many(step) => step.column.to,
        }
    }

    /// The run of the column's page.
    pub fn run(&self) -> u8
        ensures { result ≡ self.now.run }
    {
        match &self.kept {
            Kept::Few { layout, .. } => layout.run,
            Kept::Many(step) => step.run,
        }
    }

    // How many floats of each class stand above the text.
    fn top(&self) -> &[u16]
        ensures { result.now ≡ self.now.column.top }
    {
        match &self.kept {
            Kept::Few { layout, .. } => first_counts(&layout.top, layout.classes),
            Kept::Many(step) => step.column.top.as_slice(),
        }
    }

    // How many floats of each class stand below the text.
    fn bottom(&self) -> &[u16]
        ensures { result.now ≡ self.now.column.bottom }
    {
        match &self.kept {
            Kept::Few { layout, .. } => first_counts(&layout.bottom, layout.classes),
            Kept::Many(step) => step.column.bottom.as_slice(),
        }
    }

    // How many wide floats of each class the page has.
    fn wide(&self) -> &[u16]
        ensures { result.now ≡ self.now.wide }
    {
        match &self.kept {
            Kept::Few { layout, .. } => first_counts(&layout.wide, layout.classes),
            Kept::Many(step) => step.wide.as_slice(),
        }
    }

    fn picks(&self) -> PickView<'_>
        ensures { picks_seen result ≡ self.now.column.picks }
    {
        match &self.kept {
            Kept::Few { count, picks, .. } => PickView::Bytes(first_bytes(picks, *count)),
            Kept::Many(step) => PickView::Words(step.column.picks.as_slice()),
        }
    }

    // The order by run, counts and picks alone.
    fn compare_floats(&self, other: &SmallMove) -> Ordering
        ensures { result ≡ floats_cmp self.now other.now }
    {
        let run = self.run().cmp(&other.run());
        if run.is_ne() {
            return run;
        }
        let wide = compare_counts(self.wide(), other.wide());
        if wide.is_ne() {
            return wide;
        }
        let bottom = compare_counts(self.bottom(), other.bottom());
        if bottom.is_ne() {
            return bottom;
        }
        let top = compare_counts(self.top(), other.top());
        if top.is_ne() {
            return top;
        }
        compare_picks(&self.picks(), &other.picks())
    }

    /// The order among columns: by `to`, `from`, run, wide counts, bottom counts, top counts and picks, these from the
    /// last. No memory is taken.
    pub fn compare(&self, other: &SmallMove) -> Ordering
        ensures { result ≡ column_cmp self.now other.now }
    {
        let to = compare_places(&self.to(), &other.to());
        if to.is_ne() {
            return to;
        }
        let from = compare_places(&self.from(), &other.from());
        if from.is_ne() {
            return from;
        }
        self.compare_floats(other)
    }
}
