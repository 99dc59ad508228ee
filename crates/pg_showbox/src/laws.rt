//! That what is printed reads back.
ghost use Rattle.std.specs.Prelude.{◌≡◌, Ok, None};
ghost use Rattle.std.specs.List.{AllByRecursion};
ghost use Rattle.pg_list.specs.Places.{spliced};
ghost use Rattle.pg_showbox.specs.Shown.{IsShownBlock};
ghost use Rattle.pg_showbox.specs.Reading.{galley_of};
ghost use Rattle.pg_showbox.specs.Text.{galley_text};

use pg_list::{Blocks, Edit, Galley};

/// The text of a galley that shows its items reads back to that galley. A galley that was read shows
/// them, as the contracts of the readers say.
pub fn printed_reads_back(galley: &Galley)
    requires { AllByRecursion IsShownBlock galley.now.blocks }
    ensures { galley_of (galley_text galley.now) None ≡ Ok galley.now }
{
    galley.width();
    galley.blocks().as_slice();
}

/// Blocks that show their items still do after an edit that brings such blocks.
pub fn edited_stays_shown(blocks: &Blocks, edit: &Edit)
    requires blocks { AllByRecursion IsShownBlock blocks.now }
    requires fresh { AllByRecursion IsShownBlock edit.now.fresh }
    ensures { AllByRecursion IsShownBlock (spliced blocks.now edit.now) }
{}
