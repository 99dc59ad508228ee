//! The lines of a paragraph, listed once.
ghost use Rattle.std.specs.Prelude.{◌≡◌, ◌≤◌, ◌+◌, length, IfOk};
ghost use Rattle.pg_hlist.specs.Items.{IsPara};
ghost use Rattle.pg_lines.specs.Ends.{all_ends};
ghost use Rattle.pg_lines.specs.Moves.{ends_at};

use crate::ahead::falls;
use crate::ends::{LineEnd, LineEnds, ends_from};
use crate::near::box_end;
use law_lines::LineRule;
use pg_hlist::HItem;
use std::alloc::{AllocError, Global};
use std::marker::Model;

/// For each place of a paragraph the lines from there that may stand.
#[derive(Drop)]
pub struct LineLists {
    lists: Vec<LineEnds>,
}

impl Model for LineLists {
    ghost use Rattle.std.specs.Prelude.{List};
    ghost use Rattle.pg_lines.specs.declared.ends.LineEnd.{LineEnd};

    ghost Value = { List (List LineEnd) };

    ghost view = { λ a. a.lists.items };
}

impl LineLists {
    /// The lines of a paragraph. The one refusal is want of memory.
    pub fn of(alloc: Global, rule: &LineRule, items: &[HItem]) -> Result<LineLists, AllocError>
        requires { IsPara items.now }
        ensures { IfOk result (λ lists. lists ≡ all_ends rule.now items.now) }
    {
        let box_end = box_end(items);
        let falls = falls(alloc, items)?;
        let mut lists = Vec::new(alloc);
        let mut start = 0usize;
        'places: while start <= items.len() {
            let ends = ends_from(alloc, rule, items, box_end, falls.as_slice(), start)?;
            lists.push(ends)?;
            start += 1;
        }
        Ok(LineLists { lists })
    }

    /// The lines from a place.
    pub fn ends_at(&self, place: usize) -> &[LineEnd]
        ensures { result.now ≡ ends_at self.now place }
    {
        match self.lists.get(place) {
            Some(ends) => ends.as_slice(),
            None => &[],
        }
    }
}
