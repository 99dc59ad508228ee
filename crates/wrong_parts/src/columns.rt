//! The sums of a column, and what is judged of its text.
ghost use Rattle.std.specs.Prelude.{◌≡◌, ◌++◌, ◌∷◌, [], ◌+◌, ◌<◌, ◌≤◌, ◌^◌, ℤ, List, nat_abs, true, false};
ghost use Rattle.pg_list.specs.Ranges.{IsItemInRange};
ghost use Rattle.pg_list.specs.declared.item.Item.{Item as AnItem};
ghost use Rattle.pg_list.specs.Flat.{is_same_place as is_same_place_of};
ghost use Rattle.pg_rules.specs.Floats.{area_give as area_give_of, gap_stretch, gap_shrink};
ghost use Rattle.pg_rules.specs.Legal.{document};
ghost use Rattle.pg_rules.specs.Room.{ColumnContext};
ghost use Rattle.pg_sums.specs.AreSums.{AreSums};
ghost use Rattle.pg_sums.specs.Step.{counted};
ghost use Rattle.pg_column.specs.Fits.{HasSpan, does_span_fit};
ghost use Rattle.pg_column.specs.Judged.{Judges};
ghost use Rattle.pg_column.specs.Numbers.{IsRoom, cost_for as cost_for_goal, give_by, goal_by, text_room};

use pg_column::{Span, TextCost, TextRoom};
use pg_list::{Galley, Item};
use pg_notes::NoteSums;
use pg_style::{AreaRule, Give, Style};
use pg_sums::Sums;

/// Adds the next item to the sums of a column.
pub fn add_item(sums: &mut Sums, item: &Item)
    requires few { sums.old.count < 2 ^ 20 }
    requires in_range { IsItemInRange item.now }
    ensures sums { (topskip maxdepth : ℤ) (items : List AnItem) → AreSums topskip maxdepth items sums.old →
        AreSums topskip maxdepth (items ++ item.now ∷ []) sums.new }
    ensures count { sums.new.count ≡ sums.old.count + 1 }
    ensures value { sums.new.totals ≡ counted sums.old.topskip sums.old.maxdepth sums.old.totals item.now }
    ensures kept { (sums.new.topskip ≡ sums.old.topskip) × (sums.new.maxdepth ≡ sums.old.maxdepth) }
{
    sums.add(item)
}

/// What the notes leave of a room.
pub fn goal_in(style: &Style, room: &TextRoom, notes: &NoteSums) -> i64
    requires { IsRoom room.now }
    ensures value { result ≡ goal_by style.now room.now notes.now.sums }
    ensures size { nat_abs result < 2 ^ 52 }
{
    pg_column::goal_in(style, room, notes)
}

/// What the gaps of an area with so many floats give to the text beside it.
pub fn area_give(rule: &AreaRule, floats: u32) -> Give
    requires { floats ≤ 2 ^ 12 }
    ensures stretch { result.stretch ≡ area_give_of gap_stretch rule.now floats }
    ensures shrink { result.shrink ≡ area_give_of gap_shrink rule.now floats }
    ensures size { (nat_abs result.stretch < 2 ^ 43) × (nat_abs result.shrink < 2 ^ 43) }
{
    pg_column::area_give(rule, floats)
}

/// By how much the gaps around a text may be stretched and shrunk.
pub fn give_in(style: &Style, room: &TextRoom, notes: &NoteSums) -> Give
    requires { IsRoom room.now }
    ensures value { result ≡ give_by style.now room.now notes.now.sums }
    ensures size { (nat_abs result.stretch < 2 ^ 41) × (nat_abs result.shrink < 2 ^ 41) }
{
    pg_column::give_in(style, room, notes)
}

/// The numbers of a column of text from its sums, its goal, and what the gaps around it give.
pub fn cost_for(
    style: &Style,
    goal: i64,
    give: &Give,
    sums: &Sums,
    is_spent: bool,
    penalty: i32,
) -> TextCost
    requires size { nat_abs goal < 2 ^ 52 }
    requires give { (nat_abs give.now.stretch < 2 ^ 62) × (nat_abs give.now.shrink < 2 ^ 62) }
    ensures { result ≡ cost_for_goal style.now goal give.now sums.now.totals is_spent penalty }
{
    pg_column::cost_for(style, goal, give, sums, is_spent, penalty)
}

/// The numbers of a column of text, or the least rule on its text that it breaks.
pub fn judge_text(
    galley: &Galley,
    style: &Style,
    span: &Span,
    room: &TextRoom,
) -> Result<TextCost, u8>
    requires size { IsRoom room.now }
    requires fits { does_span_fit galley.now.blocks span.now ≡ true }
    requires text { is_same_place_of span.now.from span.now.to ≡ false }
    ensures { (it : ColumnContext) → it.document ≡ document galley.now style.now → HasSpan it span.now →
        text_room it ≡ room.now → Judges it result }
{
    pg_column::judge_text(galley, style, span, room)
}
