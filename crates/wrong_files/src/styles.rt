//! Styles: their files, and their tables of distances.
ghost use Rattle.pg_style.specs.Ranges.{MakesDistance};
ghost use Rattle.pg_stylefile.specs.Faults.{Gives};
ghost use Rattle.pg_stylefile.specs.Style.{style_of_text};

use pg_style::{Distance, DistanceFault, Style};
use pg_stylefile::StyleFault;
use std::alloc::Global;

/// The style of a file.
pub fn read_style(alloc: Global, text: &[u8]) -> Result<Style, StyleFault>
    ensures { Gives (λ style. style) result (style_of_text text.now) }
{
    pg_stylefile::read_style(alloc, text)
}

/// The demerits of a float by its distance.
pub fn make_distance(alloc: Global, entries: &[u32]) -> Result<Distance, DistanceFault>
    ensures { MakesDistance result entries.now }
{
    Distance::new(alloc, entries)
}
