//! Sessions.
ghost use Rattle.std.specs.Prelude.{◌≡◌, IfOk, OnErr, OnOk};
ghost use Rattle.pg_session.specs.Edits.{Refuses, edit_fault};
ghost use Rattle.pg_session.specs.Sessions.{Forgets, IsEdited, IsPaginated, IsSolved};

use pg_edits::EditFault;
use pg_list::Edit;
use pg_session::{Session, Told};
use pg_space::Outcome;
use pg_table::Steps;
use std::alloc::{AllocError, Global};
use std::sync::ledger::Ledger;

/// An edit of the galley.
pub fn edit(session: &mut Session, edit: &Edit) -> Result<(), EditFault>
    ensures cause { Refuses result (edit_fault session.old.galley session.old.style edit.now) }
    ensures ok { OnOk result (IsEdited session.old edit.now session.new) }
    ensures err { OnErr result (session.new ≡ session.old) }
{
    session.edit(edit)
}

/// The best pages of the galley as it stands. A wrong body may want memory of its own.
pub fn solve<L: Ledger>(
    alloc: Global,
    session: &mut Session,
    steps: &mut Steps<L>,
) -> Result<Outcome, AllocError>
    ensures ok { IfOk result (λ outcome. IsSolved session.old outcome session.new steps.old steps.new) }
    ensures err { OnErr result (Forgets session.old session.new) }
{
    let _ = alloc;
    session.solve(steps)
}

/// The same without a list of labels.
pub fn paginate<L: Ledger>(session: &mut Session, steps: &mut Steps<L>) -> Result<Told, AllocError>
    ensures ok { IfOk result (λ told. IsPaginated session.old told session.new steps.old steps.new) }
    ensures err { OnErr result (Forgets session.old session.new) }
{
    session.paginate(steps)
}
