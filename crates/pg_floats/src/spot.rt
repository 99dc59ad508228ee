//! The areas of a page, and what the style's float classes say by slot.
ghost use Rattle.std.specs.Prelude.{◌≡◌, ◌≤◌, length};
ghost use Rattle.pg_style.specs.Ranges.{AreClasses, IsStyle};
ghost use Rattle.pg_rules.specs.Floats.{distance_table, float_numbers};
ghost use Rattle.pg_floats.specs.QueueValue.{table_in};
ghost use Rattle.pg_floats.specs.Spots.{slots_in, takes_in, takes_of, takes_slot};

use pg_style::{Area, Class, Kind, Style};

/// Where floats stand: at the top or bottom of a text, across a page, or in a column without text.
#[derive(Clone, Copy, PartialEq, Eq)]
pub enum Spot {
    Top,
    Bottom,
    Across,
    Column,
}

impl Spot {
    // Whether floats of a class with this area may stand there.
    fn takes(self, area: Area) -> bool
        ensures { result ≡ takes_of self area }
    {
        match self {
            Spot::Top => matches!(area, Area::Top | Area::Both),
            Spot::Bottom => matches!(area, Area::Bottom | Area::Both),
            Spot::Across => matches!(area, Area::Wide),
            Spot::Column => !matches!(area, Area::Wide),
        }
    }

    // Whether floats of the slot-th float class may stand there.
    fn takes_at(self, classes: &[Class], slot: usize) -> bool
        ensures { result ≡ takes_in (takes_of self) classes.now slot }
    {
        let mut rest = classes;
        let mut left = slot;
        'each: while let [class, after @ ..] = rest {
            if let Kind::Float { area, .. } = &class.kind {
                if left == 0 {
                    return self.takes(*area);
                }
                left -= 1;
            }
            rest = after;
        }
        true
    }

    /// Whether floats of a slot may stand there; of a slot that the style has not, yes.
    pub fn takes_slot(self, style: &Style, slot: usize) -> bool
        ensures { result ≡ takes_slot style.now (takes_of self) slot }
    {
        self.takes_at(classes_of(style), slot)
    }
}

// The classes of a style, which stand in increasing number.
fn classes_of(style: &Style) -> &[Class]
    ensures classes { result.now ≡ style.now.classes }
    ensures range { AreClasses style.now.classes }
{
    style.classes.as_slice()
}

fn slots_among(classes: &[Class]) -> usize
    ensures value { result ≡ slots_in classes.now }
    ensures few { result ≤ length classes.now }
{
    let mut slots = 0;
    let mut rest = classes;
    'each: while let [class, after @ ..] = rest {
        if let Kind::Float { .. } = &class.kind {
            slots += 1;
        }
        rest = after;
    }
    slots
}

/// How many float classes a style has.
pub fn slots_of(style: &Style) -> usize
    ensures value { result ≡ length (float_numbers style.now) }
    ensures few { result ≤ 8 }
{
    slots_among(classes_of(style))
}

fn table_in_slot(classes: &[Class], slot: usize) -> &[u32]
    ensures table { result.now ≡ table_in classes.now slot }
{
    let mut rest = classes;
    let mut left = slot;
    'each: while let [class, after @ ..] = rest {
        if let Kind::Float { distance, .. } = &class.kind {
            if left == 0 {
                return distance.as_slice();
            }
            left -= 1;
        }
        rest = after;
    }
    &[]
}

/// The demerits of the floats of a slot by the pages that they wait.
pub fn table_of(style: &Style, slot: usize) -> &[u32]
    ensures { result.now ≡ distance_table style.now slot }
{
    table_in_slot(classes_of(style), slot)
}
