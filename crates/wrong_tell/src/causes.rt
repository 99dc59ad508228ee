//! What forbids pages.
ghost use Rattle.std.specs.Prelude.{◌≡◌};
ghost use Rattle.pg_alone.specs.Alone.{FindsAlone};
ghost use Rattle.pg_alone.specs.Notes.{high_note as high_note_of};
ghost use Rattle.pg_column.specs.Numbers.{IsRoom};
ghost use Rattle.pg_floats.specs.AreFloats.{AreFloats};
ghost use Rattle.pg_reasons.specs.Reasons.{TellsFault};

use pg_alone::{Alone, HighNote};
use pg_column::TextRoom;
use pg_floats::FloatList;
use pg_list::{Galley, Place};
use pg_style::Style;

/// The first float that no column can hold.
pub fn first_alone(galley: &Galley, style: &Style, list: &FloatList) -> Option<Alone>
    requires { AreFloats galley.now.blocks style.now list.now }
    ensures { FindsAlone galley.now style.now result }
{
    pg_alone::first_alone(galley, style, list)
}

/// The first note that is above the limit of its class.
pub fn high_note(galley: &Galley, style: &Style) -> Option<HighNote>
    ensures { result ≡ high_note_of galley.now style.now }
{
    pg_alone::high_note(galley, style)
}

/// The least rule on its text that a column breaks.
pub fn rule_at(
    galley: &Galley,
    style: &Style,
    from: Place,
    picks: &[u32],
    to: Place,
    room: &TextRoom,
) -> Option<u8>
    requires { IsRoom room.now }
    ensures { TellsFault galley.now style.now from picks.now to room.now result }
{
    pg_reasons::rule_at(galley, style, from, picks, to, room)
}
