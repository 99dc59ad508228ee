//! Each law is the contract of a function that does nothing. Its premises are what the types of a
//! galley and of a style keep.
ghost use Rattle.std.specs.Prelude.{List};
ghost use Rattle.pg_list.specs.GalleyValue.{GalleyValue};
ghost use Rattle.pg_list.specs.declared.blocks.Block.{Block};
ghost use Rattle.pg_style.specs.Values.{StyleValue};
ghost use Rattle.pg_rules.specs.Ranges.{AreInRange};
ghost use Rattle.law_edits.specs.Agreeing.{AgreeBack, AgreeLess, AgreeOn, BeginningsAgree, EditsAgree, PagesAgree};

use pg_list::Galley;
use pg_style::Style;

/// Where two galleys agree below a block t, a beginning of the one that ends in a block b with b + 1
/// below t is one of the other, with the same state and cost; and from its end columns reach as far
/// in both, or to t at least.
pub fn beginnings_agree(galley: &Galley, other: &Galley, style: &Style)
    requires galley { AreInRange galley.now style.now }
    requires other { AreInRange other.now style.now }
    ensures { BeginningsAgree galley.now other.now style.now }
{}

/// Where two galleys agree below a block, so do the spaces of their pages, with the reaches of their
/// places. The galleys are values: one of them may be no more.
pub fn pages_agree()
    ensures { (galley other : GalleyValue) (style : StyleValue) → AreInRange galley style →
        AreInRange other style → PagesAgree galley other style }
{}

/// An edit changes nothing below the block that it touches. What agrees below a block agrees below
/// each smaller one, both ways, and on to what agrees with the other.
pub fn edits_agree()
    ensures edits { (blocks : List Block) → EditsAgree blocks }
    ensures less { (blocks others : List Block) → AgreeLess blocks others }
    ensures back { (blocks others : List Block) → AgreeBack blocks others }
    ensures on { (blocks others thirds : List Block) → AgreeOn blocks others thirds }
{}
