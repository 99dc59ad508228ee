//! The steps of an edit: the splice, the block that it touches, and what stays right.
ghost use Rattle.std.specs.Prelude.{◌≡◌, List, take, OnErr, OnOk};
ghost use Rattle.pg_list.specs.GalleyValue.{GalleyValue};
ghost use Rattle.pg_list.specs.Places.{tail};
ghost use Rattle.pg_list.specs.declared.galley.Edit.{Edit as AnEdit};
ghost use Rattle.pg_rules.specs.Ranges.{AreInRange};
ghost use Rattle.pg_rules.specs.Reach.{touched};
ghost use Rattle.pg_session.specs.Edits.{Refuses, edited, splice_fault};
ghost use Rattle.pg_session.specs.Kept.{StaysRight};

use law_edits::{edits_agree, pages_agree};
use pg_edits::EditFault;
use pg_list::{Edit, Galley, SpliceFault};
use pg_style::Style;

/// Makes an edit in place, or says why not. After a refusal the galley is as before.
pub fn splice_in(galley: &mut Galley, edit: &Edit) -> Result<(), EditFault>
    ensures cause { Refuses result (splice_fault galley.old edit.now) }
    ensures ok { OnOk result (galley.new ≡ edited galley.old edit.now) }
    ensures err { OnErr result (galley.new ≡ galley.old) }
{
    match galley.splice(edit) {
        Ok(()) => Ok(()),
        Err(SpliceFault::Range { at, gone, len }) => Err(EditFault::Range { at, gone, len }),
        Err(SpliceFault::Limit { count }) => Err(EditFault::Limit { count }),
        Err(SpliceFault::Memory) => Err(EditFault::Memory),
    }
}

/// The block that an edit touches: the least of its own and the number of blocks up to the last box or rule, before and
/// after.
pub fn touched_block(edit: &Edit, before: u32, new: &Galley) -> u32
    ensures { (old : GalleyValue) → before ≡ tail old.blocks → new.now ≡ edited old edit.now →
        result ≡ touched old.blocks edit.now }
{
    edit.at.min(before.min(new.tail()))
}

/// What the types of a galley and of a style keep.
pub fn stay_in_range(galley: &Galley, style: &Style)
    ensures { AreInRange galley.now style.now }
{
    style.stays_in_range();
    let _ = galley.blocks().as_slice();
}

/// What was kept of a galley is right for the edited one below what the edit touches, and its blocks there are the same.
pub fn edits_leave_right(new: &Galley, style: &Style)
    ensures right { (old : GalleyValue) (edit : AnEdit) → AreInRange old style.now → new.now ≡ edited old edit →
        StaysRight old style.now edit }
    ensures front { (old : GalleyValue) (edit : AnEdit) → new.now ≡ edited old edit →
        take (touched old.blocks edit) old.blocks ≡ take (touched old.blocks edit) new.now.blocks }
{
    stay_in_range(new, style);
    edits_agree();
    pages_agree();
}
