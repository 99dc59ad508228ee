//! Laws of the definitions, each the contract of a function that does nothing.
ghost use Rattle.std.specs.Prelude.{◌≡◌, List, Result};
ghost use Rattle.pg_list.specs.GalleyValue.{GalleyValue};
ghost use Rattle.pg_hlist.specs.declared.item.HItem.{HItem as AnItem};
ghost use Rattle.law_lines.specs.declared.rule.LineFault.{LineFault as AFault};
ghost use Rattle.law_lines.specs.Galleys.{Broken};
ghost use Rattle.pg_hlist.specs.Items.{IsPara};
ghost use Rattle.std.specs.List.{AllByRecursion};
ghost use Rattle.law_lines.specs.ParagraphsLaws.{MakesBlocks};
ghost use Rattle.law_lines.specs.Listing.{broken};

use crate::rule::LineRule;

/// Of the galleys and faults that paragraphs may make there is but one.
pub fn one_is_broken(rule: &LineRule)
    ensures { (paras : List (List AnItem)) (r s : Result GalleyValue AFault) → Broken rule.now paras r → Broken rule.now paras s → r ≡ s }
{}

/// It is the one that the listing of all ways gives; so what is computed of the listing holds of every answer.
pub fn listing_is_broken(rule: &LineRule)
    ensures { (paras : List (List AnItem)) → Broken rule.now paras (broken rule.now paras) }
{}

/// Each block of the galley that paragraphs make is an item in range or a choice, with all that a choice keeps.
pub fn paragraphs_make_blocks(rule: &LineRule)
    ensures { (paras : List (List AnItem)) → AllByRecursion IsPara paras → MakesBlocks rule.now paras }
{}
