//! The rules on the text of one column.
ghost use Rattle.std.specs.Prelude.{◌≡◌, Result};
ghost use Rattle.pg_column.specs.Judged.{decided, first_broken as first_broken_of};
ghost use Rattle.pg_column.specs.Rules.{rule_number};

use crate::cost::TextCost;

/// A rule of a legal pagination that speaks of the text of one column.
#[derive(Clone, Copy, PartialEq, Eq)]
pub enum TextRule {
    /// Rule 3: the text has a box or rule, and ends at a break.
    Shape,
    /// Rule 4: it is not over, and no worse than the tolerance unless its end is forced.
    Tolerance,
    /// Rule 5: no break inside is forced or over.
    BreakInside,
    /// Rule 6: the room is at least the style's least.
    LeastText,
    /// Rule 11: the notes of each class are within its limit.
    NoteLimit,
    /// Rule 13: each picked variant is within the greatest looseness.
    Looseness,
}

impl TextRule {
    /// The number of the rule among those of a legal pagination.
    pub fn number(self) -> u8
        ensures { result ≡ rule_number self }
    {
        match self {
            TextRule::Shape => 3,
            TextRule::Tolerance => 4,
            TextRule::BreakInside => 5,
            TextRule::LeastText => 6,
            TextRule::NoteLimit => 11,
            TextRule::Looseness => 13,
        }
    }
}

/// Which of the rules behind the third a text that is not over keeps.
#[derive(Clone, Copy)]
pub struct KeptRules {
    pub tolerance: bool,
    pub breaks: bool,
    pub room: bool,
    pub notes: bool,
    pub looseness: bool,
}

impl KeptRules {
    // The least of these rules that is not kept.
    fn first_broken(self) -> Option<TextRule>
        ensures { result ≡ first_broken_of self }
    {
        if !self.tolerance {
            Some(TextRule::Tolerance)
        } else if !self.breaks {
            Some(TextRule::BreakInside)
        } else if !self.room {
            Some(TextRule::LeastText)
        } else if !self.notes {
            Some(TextRule::NoteLimit)
        } else if !self.looseness {
            Some(TextRule::Looseness)
        } else {
            None
        }
    }

    /// The number of the least of these rules that is not kept, or else the numbers of the column.
    pub fn decide(self, cost: TextCost) -> Result<TextCost, u8>
        ensures { result ≡ decided self cost }
    {
        match self.first_broken() {
            Some(rule) => Err(rule.number()),
            None => Ok(cost),
        }
    }
}
