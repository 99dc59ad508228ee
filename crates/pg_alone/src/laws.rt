//! Each law is the contract of a function that does nothing. Its premise is what the types of a galley and of a style
//! keep.
ghost use Rattle.pg_alone.specs.Alone.{AloneForbids, HighFloatsForbid, PlacelessForbid};
ghost use Rattle.pg_alone.specs.Notes.{HighNoteForbids, HighNotesForbid};
ghost use Rattle.pg_rules.specs.Ranges.{AreInRange};

use pg_list::Galley;
use pg_style::Style;

/// Where a float is higher than the columns of every run, or where no area may have floats of its class, nothing is
/// legal.
pub fn alone_forbids(galley: &Galley, style: &Style)
    requires { AreInRange galley.now style.now }
    ensures high { HighFloatsForbid galley.now style.now }
    ensures placeless { PlacelessForbid galley.now style.now }
    ensures found { AloneForbids galley.now style.now }
{}

/// Where a note is above the limit of its class, nothing is legal.
pub fn high_notes_forbid(galley: &Galley, style: &Style)
    requires { AreInRange galley.now style.now }
    ensures notes { HighNotesForbid galley.now style.now }
    ensures found { HighNoteForbids galley.now style.now }
{}
