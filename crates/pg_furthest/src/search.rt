//! A galley under a style with the labels of all its pages.
ghost use Rattle.std.specs.Prelude.{◌≡◌, ◌<◌, ◌+◌, IfOk, OnOk, length};
ghost use Rattle.pg_alone.specs.Alone.{FindsAlone};
ghost use Rattle.pg_alone.specs.Notes.{high_note as high_note_of};
ghost use Rattle.pg_floats.specs.AreFloats.{AreFloats};
ghost use Rattle.pg_hops.specs.Index.{AreHops};
ghost use Rattle.pg_rules.specs.Legal.{document};
ghost use Rattle.pg_rules.specs.Ranges.{AreInRange};
ghost use Rattle.law_space.specs.PageSpace.{page_meaning};
ghost use Rattle.pg_table.specs.Label.{IsTable};
ghost use Rattle.pg_furthest.specs.Furthest.{Begins, StandsFurthest};
ghost use Rattle.pg_furthest.specs.Pages.{TellsBestPages};
ghost use Rattle.pg_furthest.specs.Searches.{MakesSearch};

use crate::best::{BestPages, pages_in};
use crate::telling::{beginning_in, furthest_in};
use pg_alone::{Alone, HighNote, first_alone, high_note};
use pg_floats::{FloatFault, FloatList};
use pg_hops::BreakIndex;
use pg_list::Galley;
use pg_plan::{PageKey, Pagination};
use pg_small::{SmallMove, SmallState};
use pg_space::{Indexed, refill_pages};
use pg_style::Style;
use pg_table::{Entry, Steps, Table};
use std::alloc::{AllocError, Global};
use std::marker::Model;
use std::sync::ledger::Ledger;

/// A galley under a style, with the labels of all its pages.
#[derive(Drop)]
pub struct Search {
    galley: Galley,
    style: Style,
    floats: FloatList,
    table: Table<SmallState, SmallMove, PageKey>,
    alloc: Global,
}

impl Model for Search {
    ghost use Rattle.pg_furthest.specs.Searches.{IsSearch, SearchValue};

    ghost Value = { SearchValue };

    ghost view = { λ a. record { galley = a.galley; style = a.style; labels = a.table } };

    ghost invariant = { λ a. IsSearch a.galley a.style a.floats a.table };
}

/// What the types of a galley and of a style keep.
pub fn stay_in_range(galley: &Galley, style: &Style)
    ensures { AreInRange galley.now style.now }
{
    style.stays_in_range();
    let _ = galley.blocks().as_slice();
}

/// The labels of a galley's pages.
pub fn labels_of<L: Ledger>(
    alloc: Global,
    galley: &Galley,
    style: &Style,
    floats: &FloatList,
    steps: &mut Steps<L>,
) -> Result<Table<SmallState, SmallMove, PageKey>, AllocError>
    requires range { AreInRange galley.now style.now }
    requires floats { AreFloats galley.now.blocks style.now floats.now }
    ensures { IfOk result (IsTable (page_meaning (document galley.now style.now))) }
{
    let index = BreakIndex::of(alloc, galley, style);
    let mut table = Table::new(alloc);
    let pages = Indexed {
        galley,
        style,
        floats,
        index: &index,
    };
    refill_pages(alloc, &pages, &mut table, 0, steps)?;
    Ok(table)
}

impl Search {
    /// The search of a galley under a style.
    ///
    /// `Class` comes exactly where the style lacks the class of an insert, and names the first such in galley order;
    /// else `Limit` comes where there are more than 2^12 floats. `Memory` may come in place of it and of success. On a
    /// refusal galley and style are dropped.
    pub fn new<L: Ledger>(
        alloc: Global,
        galley: Galley,
        style: Style,
        steps: &mut Steps<L>,
    ) -> Result<Search, FloatFault>
        ensures { MakesSearch result galley style }
    {
        stay_in_range(&galley, &style);
        let floats = FloatList::of(alloc, &galley, &style)?;
        match labels_of(alloc, &galley, &style, &floats, steps) {
            Ok(table) => Ok(Search {
                galley,
                style,
                floats,
                table,
                alloc,
            }),
            Err(_) => Err(FloatFault::Memory),
        }
    }

    /// The galley. No memory is taken.
    pub fn galley(&self) -> &Galley
        ensures { result.now ≡ self.now.galley }
    {
        &self.galley
    }

    /// The style. No memory is taken.
    pub fn style(&self) -> &Style
        ensures { result.now ≡ self.now.style }
    {
        &self.style
    }

    /// The labels of all pages. No memory is taken.
    pub fn labels(&self) -> &[Entry<SmallState, SmallMove>]
        ensures { result.now ≡ self.now.labels }
    {
        self.table.labels()
    }

    /// The best pagination with its cost and what each of its columns adds to it, or nothing where none is legal.
    pub fn pages(&self) -> Result<Option<BestPages>, AllocError>
        ensures { IfOk result (TellsBestPages self.now.galley self.now.style) }
    {
        pages_in(
            self.alloc,
            &self.galley,
            &self.style,
            &self.floats,
            &self.table,
        )
    }

    /// The first float that no column can hold, if there is one: then nothing is legal while it stands there. No memory is
    /// taken.
    pub fn alone(&self) -> Option<Alone>
        ensures { FindsAlone self.now.galley self.now.style result }
    {
        first_alone(&self.galley, &self.style, &self.floats)
    }

    /// The first note that is above the limit of its class, if there is one: then nothing is legal while it stands there.
    /// No memory is taken.
    pub fn high_note(&self) -> Option<HighNote>
        ensures { result ≡ high_note_of self.now.galley self.now.style }
    {
        high_note(&self.galley, &self.style)
    }

    /// The label that stands furthest: a beginning ends at its place, and none behind it. No memory is taken.
    pub fn furthest(&self) -> usize
        ensures within { result < length self.now.labels }
        ensures furthest { StandsFurthest self.now.galley self.now.style self.now.labels result }
    {
        furthest_in(&self.galley, &self.style, self.table.labels())
    }

    /// A beginning that leaves the state of a label, at its cost.
    pub fn beginning(&self, label: usize) -> Result<Pagination, AllocError>
        requires { label < length self.now.labels }
        ensures { IfOk result (Begins self.now.galley self.now.style self.now.labels label) }
    {
        beginning_in(
            self.alloc,
            &self.galley,
            &self.style,
            &self.floats,
            self.table.labels(),
            label,
        )
    }
}
