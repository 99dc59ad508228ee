//! Each law is the contract of a function that does nothing. The paragraph is given by its items as a ghost, since
//! there is no type of paragraphs here; a paragraph of at most 2^11 items is asked.
ghost use Rattle.std.specs.Prelude.{List, ℕ};
ghost use Rattle.law_lines.specs.BestSpace.{best_meaning, is_same_break, TellsBestCount};
ghost use Rattle.pg_table.specs.Label.{IsTable};
ghost use Rattle.pg_table.specs.Space.{Lawful};
ghost use Rattle.pg_table.specs.declared.table.Entry.{Entry};
ghost use Rattle.pg_hlist.specs.declared.item.HItem.{HItem as AnItem};
ghost use Rattle.pg_hlist.specs.Items.{IsPara};
ghost use Rattle.law_lines.specs.LineSpace.{IsLow, is_same_state, line_meaning};
ghost use Rattle.law_lines.specs.LineSpaceLaws.{RunsAreLines, TellsWays};
ghost use Rattle.law_lines.specs.declared.state.LineState.{LineState as AState};

use crate::LineRule;

/// The lines of a paragraph are a space that keeps all laws of a space.
pub fn lines_are_a_space(rule: &LineRule)
    ensures { (para : List AnItem) (low : ℕ → ℕ) (most : ℕ) → IsPara para → Lawful is_same_state (line_meaning rule.now para low most) }
{}

/// The runs of that space are the ways whose lines may stand, at their demerits.
pub fn runs_are_lines(rule: &LineRule)
    ensures { (para : List AnItem) (low : ℕ → ℕ) (most : ℕ) → IsLow rule.now para low → RunsAreLines rule.now para low most }
{}

/// A filled table tells for each number of lines the least way, the first among equals, or that there is none.
pub fn filled_table_tells_ways(rule: &LineRule)
    ensures { (para : List AnItem) (low : ℕ → ℕ) (most : ℕ) → IsPara para → IsLow rule.now para low → (es : List (Entry AState ℕ)) → IsTable (line_meaning rule.now para low most) es → TellsWays rule.now para low most es }
{}

/// The places of breaks alone are a space that keeps all laws of a space.
pub fn breaks_are_a_space(rule: &LineRule)
    ensures { (para : List AnItem) → IsPara para → Lawful is_same_break (best_meaning rule.now para) }
{}

/// The run of its best label has the best number of lines; where none is done the paragraph cannot be broken.
pub fn best_label_tells_best_count(rule: &LineRule)
    ensures { (para : List AnItem) → IsPara para → (es : List (Entry ℕ ℕ)) → IsTable (best_meaning rule.now para) es → TellsBestCount rule.now para es }
{}
