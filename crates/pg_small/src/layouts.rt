//! Layouts in few bytes.
ghost use Rattle.std.specs.Prelude.{◌≡◌, IfOk, IfSome};
ghost use Rattle.pg_small.specs.Layouts.{few_layout as few_layout_of, layout_kept};
ghost use Rattle.pg_small.specs.Parts.{with_run};

use crate::lists::{counts_from, few_counts, first_counts};
use pg_layouts::Layout;
use std::alloc::{AllocError, Global};
use std::marker::Model;

/// A run, and the first `classes` of `top`, `bottom` and `wide`.
#[derive(Clone, Copy)]
pub(crate) struct FewLayout {
    pub(crate) run: u8,
    pub(crate) classes: u8,
    pub(crate) top: [u16; 3],
    pub(crate) bottom: [u16; 3],
    pub(crate) wide: [u16; 3],
}

#[derive(Drop)]
pub(crate) enum KeptLayout {
    Few(FewLayout),
    Many(Box<Layout>),
}

/// A layout in few bytes, of which the columns up to one end after another are made. One whose three lists of counts are not
/// of one length, or that has more than three counts, stands on the heap.
#[derive(Drop)]
pub struct SmallLayout {
    kept: KeptLayout,
}

impl Model for SmallLayout {
    ghost use Rattle.pg_layouts.specs.declared.layout.Layout.{Layout};
    ghost use Rattle.pg_small.specs.Layouts.{layout_kept};

    ghost Value = { Layout };

    ghost view = { λ a. layout_kept a.kept };
}

// This layout in few bytes, if it fits.
fn few_layout(layout: &Layout) -> Option<KeptLayout>
    ensures { IfSome result (λ it. layout_kept it ≡ layout.now) }
{
    let (classes, top) = few_counts(layout.top.as_slice())?;
    let (bottoms, bottom) = few_counts(layout.bottom.as_slice())?;
    let (wides, wide) = few_counts(layout.wide.as_slice())?;
    if bottoms != classes || wides != classes {
        return None;
    }
    Some(KeptLayout::Few(FewLayout {
        run: layout.run,
        classes,
        top,
        bottom,
        wide,
    }))
}

impl SmallLayout {
    /// The layout in few bytes. It fails where memory runs out.
    pub fn of(alloc: Global, layout: Layout) -> Result<SmallLayout, AllocError>
        ensures { IfOk result (λ it. it ≡ layout) }
    {
        match few_layout(&layout) {
            Some(kept) => Ok(SmallLayout { kept }),
            None => Ok(SmallLayout {
                kept: KeptLayout::Many(Box::new(alloc, layout)?),
            }),
        }
    }

    /// The same layout on a page of another run. It fails where memory runs out.
    pub fn in_run(&self, alloc: Global, run: u8) -> Result<SmallLayout, AllocError>
        ensures { IfOk result (λ it. it ≡ with_run run self.now) }
    {
        let layout = Layout {
            run,
            wide: counts_from(alloc, self.wide())?,
            top: counts_from(alloc, self.top())?,
            bottom: counts_from(alloc, self.bottom())?,
        };
        SmallLayout::of(alloc, layout)
    }

    pub(crate) fn few(&self) -> Option<&FewLayout>
        ensures { IfSome result (λ few. few_layout_of few.now ≡ self.now) }
    {
        match &self.kept {
            KeptLayout::Few(few) => Some(few),
            KeptLayout::Many(_) => None,
        }
    }

    /// The run of the column's page.
    pub fn run(&self) -> u8
        ensures { result ≡ self.now.run }
    {
        match &self.kept {
            KeptLayout::Few(few) => few.run,
            KeptLayout::Many(layout) => layout.run,
        }
    }

    /// How many floats of each class stand above the text. No memory is taken.
    pub fn top(&self) -> &[u16]
        ensures { result.now ≡ self.now.top }
    {
        match &self.kept {
            KeptLayout::Few(few) => first_counts(&few.top, few.classes),
            KeptLayout::Many(layout) => layout.top.as_slice(),
        }
    }

    /// How many floats of each class stand below the text. No memory is taken.
    pub fn bottom(&self) -> &[u16]
        ensures { result.now ≡ self.now.bottom }
    {
        match &self.kept {
            KeptLayout::Few(few) => first_counts(&few.bottom, few.classes),
            KeptLayout::Many(layout) => layout.bottom.as_slice(),
        }
    }

    /// How many wide floats of each class the page has. No memory is taken.
    pub fn wide(&self) -> &[u16]
        ensures { result.now ≡ self.now.wide }
    {
        match &self.kept {
            KeptLayout::Few(few) => first_counts(&few.wide, few.classes),
            KeptLayout::Many(layout) => layout.wide.as_slice(),
        }
    }
}
