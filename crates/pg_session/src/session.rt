//! A galley under a style that is edited and solved.
ghost use Rattle.std.specs.Prelude.{◌≡◌, true, IfOk, OnOk, OnErr};
ghost use Rattle.pg_floats.specs.AreFloats.{AreFloats};
ghost use Rattle.pg_rules.specs.Frontier.{Frontier};
ghost use Rattle.pg_session.specs.Edits.{Refuses, edit_fault};
ghost use Rattle.pg_session.specs.Sessions.{Forgets, IsEdited, IsPaginated, IsSolved, MakesSession};

use crate::asked::ask;
use crate::kept::Kept;
use crate::parts::{edits_leave_right, splice_in, stay_in_range, touched_block};
use crate::solving::{paginate_kept, solve_kept};
use crate::told::Told;
use pg_edits::EditFault;
use pg_floats::{FloatFault, FloatList};
use pg_hops::BreakIndex;
use pg_list::{Edit, Galley};
use pg_plan::LabelList;
use pg_space::{Indexed, Outcome};
use pg_style::Style;
use pg_table::Steps;
use std::alloc::{AllocError, Global};
use std::marker::Model;
use std::sync::ledger::Ledger;

/// A galley under a style, with the hops of its breaks, and the labels that its edits leave right.
#[derive(Drop)]
pub struct Session {
    galley: Galley,
    style: Style,
    floats: FloatList,
    index: BreakIndex,
    kept: Kept,
    alloc: Global,
}

impl Model for Session {
    ghost use Rattle.pg_session.specs.Kept.{IsSession};
    ghost use Rattle.pg_session.specs.SessionValue.{SessionValue};

    ghost Value = { SessionValue };

    ghost view = { λ a. record {
      galley = a.galley;
      style = a.style;
      floats = a.floats;
      is_solved = a.kept.solved;
      labels = a.kept.labels;
      touched = a.kept.touched;
    } };

    ghost invariant = { λ a. IsSession a.galley a.style a.floats a.index a.kept };
}

impl Session {
    /// A session on a galley under a style, not solved yet.
    ///
    /// `Class` comes exactly where the style lacks the class of an insert, and names the first such in galley order;
    /// else `Limit` comes where there are more than 2^12 floats. `Memory` may come in place of it and of success. On a
    /// refusal galley and style are dropped.
    pub fn new(alloc: Global, galley: Galley, style: Style) -> Result<Session, FloatFault>
        ensures { MakesSession result galley style }
    {
        stay_in_range(&galley, &style);
        let floats = FloatList::of(alloc, &galley, &style)?;
        let index = BreakIndex::of(alloc, &galley, &style);
        Ok(Session {
            galley,
            style,
            floats,
            index,
            kept: Kept::new(alloc),
            alloc,
        })
    }

    /// The galley as it stands. No memory is taken.
    pub fn galley(&self) -> &Galley
        ensures { result.now ≡ self.now.galley }
    {
        &self.galley
    }

    /// The style that the session was made with. No memory is taken.
    pub fn style(&self) -> &Style
        ensures { result.now ≡ self.now.style }
    {
        &self.style
    }

    /// The floats of the galley as it stands. No memory is taken.
    pub fn floats(&self) -> &FloatList
        ensures floats { result.now ≡ self.now.floats }
        ensures are { AreFloats self.now.galley.blocks self.now.style result.now }
    {
        &self.floats
    }

    /// Whether the last solution was not refused, and since then no edit was accepted and no pagination refused. No
    /// memory is taken.
    pub fn is_solved(&self) -> bool
        ensures { result ≡ self.now.is_solved }
    {
        self.kept.solved
    }

    /// The frontier of the galley as it stands: the states that stay in the race, each with its cost, in the order of
    /// states. The session has to be solved. No memory is taken.
    pub fn labels(&self) -> &LabelList
        requires { self.now.is_solved ≡ true }
        ensures labels { result.now ≡ self.now.labels }
        ensures frontier { Frontier self.now.galley self.now.style result.now }
    {
        &self.kept.labels
    }

    /// Makes an edit of the galley.
    ///
    /// The refusals are, in this order: `Range` exactly where there are no such blocks; `Limit` exactly where there
    /// would be more than 2^20 items, with their number, or 2^32 - 1 where that is greater; `Class` exactly where the
    /// style lacks the class of an insert, with the first such; `Floats` exactly where there would be more than 2^12
    /// floats, with their number. `Memory` may come in place of any answer. After a refusal the session is as before.
    pub fn edit(&mut self, edit: &Edit) -> Result<(), EditFault>
        ensures cause { Refuses result (edit_fault self.old.galley self.old.style edit.now) }
        ensures ok { OnOk result (IsEdited self.old edit.now self.new) }
        ensures err { OnErr result (self.new ≡ self.old) }
    {
        let floats = ask(self.alloc, &self.galley, edit, &self.style)?;
        let before = self.galley.tail();
        splice_in(&mut self.galley, edit)?;
        stay_in_range(&self.galley, &self.style);
        edits_leave_right(&self.galley, &self.style);
        let block = touched_block(edit, before, &self.galley);
        self.kept.touch(self.alloc, block);
        self.index.mend(&self.galley, &self.style, block);
        self.floats = floats;
        Ok(())
    }

    /// The best pagination of the galley as it stands with its cost, or `NoLegal` where none is legal.
    ///
    /// It takes at most one step for each label of the frontier whose reach is at least the touched block, and none
    /// where the session is solved. The only refusal is want of memory; after it the session is as if never solved.
    pub fn solve<L: Ledger>(&mut self, steps: &mut Steps<L>) -> Result<Outcome, AllocError>
        ensures ok { IfOk result (λ outcome. IsSolved self.old outcome self.new steps.old steps.new) }
        ensures err { OnErr result (Forgets self.old self.new) }
    {
        let pages = Indexed {
            galley: &self.galley,
            style: &self.style,
            floats: &self.floats,
            index: &self.index,
        };
        match solve_kept(self.alloc, &pages, &mut self.kept, steps) {
            Ok(outcome) => Ok(outcome),
            Err(fault) => {
                self.kept = Kept::new(self.alloc);
                Err(fault)
            }
        }
    }

    /// The best pagination of the galley as it stands with its cost, or `NoLegal` where none is legal, as `solve` tells
    /// it, and how many labels the frontier has.
    ///
    /// The list of labels is not made: this takes less memory and time where nobody asks for it. What was touched is
    /// then known, so that a later call takes no step for it; whether the session is solved, and its labels, stay as
    /// they were. It takes at most as many steps as `solve` would. The only refusal is want of memory; after it the
    /// session is as if never solved.
    pub fn paginate<L: Ledger>(&mut self, steps: &mut Steps<L>) -> Result<Told, AllocError>
        ensures ok { IfOk result (λ told. IsPaginated self.old told self.new steps.old steps.new) }
        ensures err { OnErr result (Forgets self.old self.new) }
    {
        let pages = Indexed {
            galley: &self.galley,
            style: &self.style,
            floats: &self.floats,
            index: &self.index,
        };
        let Ok(told) = paginate_kept(self.alloc, &pages, &mut self.kept, steps) else {
            self.kept = Kept::new(self.alloc);
            return Err(AllocError);
        };
        Ok(told)
    }
}
