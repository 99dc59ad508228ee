//! The numbers of a column of text, from its sums and its notes.
ghost use Rattle.std.specs.Prelude.{◌≡◌, ◌<◌, ◌≤◌, ◌+◌, ◌^◌, ◌==◌, if◌then◌else◌, Some, take, ℕ, ℤ, pos, true, nat_abs, unwrap_or, ◌+ℤ◌};
ghost use Rattle.std.specs.Int.{int_max};
ghost use Rattle.pg_list.specs.Break.{break_penalty, is_spent as is_spent_of};
ghost use Rattle.pg_list.specs.Whole.{square as square_of};
ghost use Rattle.pg_notes.specs.AreNotes.{AreNotes};
ghost use Rattle.pg_style.specs.Ranges.{IsStyle};
ghost use Rattle.pg_sums.specs.AreSums.{AreSums};
ghost use Rattle.pg_rules.specs.ColumnRules.{fitness_by};
ghost use Rattle.pg_rules.specs.Cost.{break_demerits, is_bonus as is_bonus_of, penalty_demerits as demerits_of_penalty};
ghost use Rattle.pg_rules.specs.Room.{ColumnContext, items_of};
ghost use Rattle.pg_column.specs.Numbers.{AreNumbers, IsRoom, badness_for, cost_by, cost_for as cost_for_goal, give_by, goal_by, is_over_by, text_room};

use pg_notes::NoteSums;
use pg_scaled::{minus, plus, square, wide};
use pg_style::{Give, Style};
use pg_sums::Sums;

/// The room of a text: what the areas leave of its column in scaled points, 65536 to the point, and by how much their
/// gaps may be stretched and shrunk.
#[derive(Clone, Copy, PartialEq, Eq)]
pub struct TextRoom {
    pub size: i64,
    pub give: Give,
}

/// The numbers of a column of text. Lengths are in scaled points, 65536 to the point.
#[derive(Clone, Copy, PartialEq, Eq)]
pub struct TextCost {
    /// What the notes leave of the column's room.
    pub goal: i64,
    /// The natural height of the text, as TeX adds it up for a page (The TeXbook, chapter 15; TeX: The Program, §1000
    /// to §1004).
    pub total: i64,
    /// How badly the text fills its goal, from 0 to 10000 (TeX: The Program, §108 and §1007); 0 where only discardable
    /// items are left behind it and it is not too high.
    pub badness: u16,
    /// From 0 (very loose) to 3 (tight); 2 (decent) for every column of a style of version 1.
    pub fitness: u8,
    /// The penalty of the break at its end.
    pub penalty: i32,
    /// The square of the badness and the style's `line`, and the square of the penalty with its sign; a penalty of
    /// -10000 or less adds nothing. In a style of version 3 a penalty below 0 is taken off badness instead, as far as
    /// that goes. The form is that of TeX: The Program, §859.
    pub demerits: i64,
}

// How well a column fills its goal: very loose 0, loose 1, decent 2, tight 3.
fn fitness_of(total: i64, goal: i64, badness: u16) -> u8
    ensures { result ≡ fitness_by total goal badness }
{
    if total < goal {
        if badness > 99 {
            0
        } else if badness > 12 {
            1
        } else {
            2
        }
    } else if total > goal && badness > 12 {
        3
    } else {
        2
    }
}

// In version 1 every column is decent.
fn fitness(style: &Style, total: i64, goal: i64, badness: u16) -> u8
    ensures { result ≡ (if style.now.version == 1 then 2 else fitness_by total goal badness) }
{
    if style.version == 1 {
        2
    } else {
        fitness_of(total, goal, badness)
    }
}

// What a penalty adds to the demerits: its square, with its sign; nothing where it forces.
fn penalty_demerits(penalty: i32) -> i64
    ensures value { result ≡ demerits_of_penalty penalty }
    ensures size { nat_abs result < 2 ^ 62 }
{
    if penalty >= 0 {
        square(wide(penalty))
    } else if penalty > -10000 {
        minus(0, square(wide(penalty)))
    } else {
        0
    }
}

// The square of the badness and the style's demerits of a line.
fn line_demerits(line: u16, badness: u16) -> i64
    ensures value { result ≡ square_of (pos (line + badness)) }
    ensures size { nat_abs result < 2 ^ 62 }
{
    square(plus(i64::from(line), i64::from(badness)))
}

// Whether a penalty is a bonus: below 0, and none that forces.
fn is_bonus(penalty: i32) -> bool
    ensures { result ≡ is_bonus_of penalty }
{
    -10000 < penalty && penalty < 0
}

// The badness less a bonus, as far as that goes.
fn forgiven(badness: u16, penalty: i32) -> i64
    ensures value { result ≡ int_max (pos 0) (pos badness +ℤ penalty) }
    ensures size { nat_abs result ≤ badness + nat_abs penalty }
{
    let left = plus(i64::from(badness), wide(penalty));
    if left > 0 { left } else { 0 }
}

// The square of a line's demerits and of what a bonus leaves of the badness.
fn bonus_demerits(line: u16, badness: u16, penalty: i32) -> i64
    requires { is_bonus_of penalty ≡ true }
    ensures { result ≡ square_of (pos line +ℤ int_max (pos 0) (pos badness +ℤ penalty)) }
{
    square(plus(i64::from(line), forgiven(badness, penalty)))
}

// The demerits of a column.
fn demerits(style: &Style, badness: u16, penalty: i32) -> i64
    ensures { result ≡ break_demerits style.now badness penalty }
{
    if style.version == 3 && is_bonus(penalty) {
        bonus_demerits(style.line, badness, penalty)
    } else {
        plus(
            line_demerits(style.line, badness),
            penalty_demerits(penalty),
        )
    }
}

/// What the notes leave of a room.
///
/// Condition: the numbers of the room are below 2^40 in size. Takes no memory.
pub fn goal_in(style: &Style, room: &TextRoom, notes: &NoteSums) -> i64
    requires { IsRoom room.now }
    ensures value { result ≡ goal_by style.now room.now notes.now.sums }
    ensures size { nat_abs result < 2 ^ 52 }
{
    minus(room.size, notes.height(style))
}

/// By how much the gaps around a text may be stretched and shrunk: those of its areas, and the skips of its notes.
///
/// Condition: the numbers of the room are below 2^40 in size. Takes no memory.
pub fn give_in(style: &Style, room: &TextRoom, notes: &NoteSums) -> Give
    requires { IsRoom room.now }
    ensures value { result ≡ give_by style.now room.now notes.now.sums }
    ensures size { (nat_abs result.stretch < 2 ^ 41) × (nat_abs result.shrink < 2 ^ 41) }
{
    room.give.plus(notes.give(style))
}

/// Whether a text is longer than what the notes leave of its room, all gaps shrunk, by more than it can shrink.
///
/// Condition: the numbers of the room are below 2^40 in size. Takes no memory.
pub fn is_over(style: &Style, room: &TextRoom, sums: &Sums, notes: &NoteSums) -> bool
    requires { IsRoom room.now }
    ensures { result ≡ is_over_by style.now room.now sums.now.totals notes.now.sums }
{
    let tallest = plus(room.size, room.give.shrink);
    sums.over(minus(tallest, notes.smallest(style)))
}

// What fills the goal of a short text: the foot of a ragged style, else what is finite.
fn stretch_of(style: &Style, give: &Give, sums: &Sums) -> i64
    requires { nat_abs give.now.stretch < 2 ^ 62 }
    ensures { result ≡ unwrap_or style.now.ragged (sums.now.totals.finite +ℤ give.now.stretch) }
{
    match style.ragged {
        Some(foot) => wide(foot),
        None => plus(sums.stretch(), give.stretch),
    }
}

// How badly a text fills its goal, beside what the gaps give.
fn badness_in(style: &Style, goal: i64, give: &Give, sums: &Sums, is_spent: bool) -> u16
    requires size { nat_abs goal < 2 ^ 52 }
    requires give { (nat_abs give.now.stretch < 2 ^ 62) × (nat_abs give.now.shrink < 2 ^ 62) }
    ensures { result ≡ badness_for style.now goal give.now sums.now.totals is_spent }
{
    let stretch = stretch_of(style, give, sums);
    let shrink = plus(sums.shrink(), give.shrink);
    sums.page_badness(goal, is_spent, stretch, shrink)
}

/// The numbers of a column of text from the sums of its items, its goal, which is what its notes leave of its room, and
/// what the gaps around it give. `is_spent` and `penalty` are as for `text_cost`. Takes no memory.
pub fn cost_for(
    style: &Style,
    goal: i64,
    give: &Give,
    sums: &Sums,
    is_spent: bool,
    penalty: i32,
) -> TextCost
    requires size { nat_abs goal < 2 ^ 52 }
    requires give { (nat_abs give.now.stretch < 2 ^ 62) × (nat_abs give.now.shrink < 2 ^ 62) }
    ensures { result ≡ cost_for_goal style.now goal give.now sums.now.totals is_spent penalty }
{
    let total = sums.total();
    let badness = badness_in(style, goal, give, sums, is_spent);
    TextCost {
        goal,
        total,
        badness,
        fitness: fitness(style, total, goal, badness),
        penalty,
        demerits: demerits(style, badness, penalty),
    }
}

// The version of a style; a style is within its ranges.
pub fn version_of(style: &Style) -> u8
    ensures version { result ≡ style.now.version }
    ensures ranges { IsStyle style.now }
{
    style.version
}

/// The numbers of a column of text in a room, from the sums of its items and of its notes. `is_spent` says that only
/// discardable items stand from its end on, and `penalty` is that of the break there.
///
/// Condition: the numbers of the room are below 2^40 in size. Takes no memory.
pub fn text_cost(
    style: &Style,
    room: &TextRoom,
    sums: &Sums,
    notes: &NoteSums,
    is_spent: bool,
    penalty: i32,
) -> TextCost
    requires { IsRoom room.now }
    ensures value { result ≡ cost_by style.now room.now sums.now.totals notes.now.sums is_spent penalty }
    ensures column { (it : ColumnContext) (n : ℕ) → it.document.style ≡ style.now → text_room it ≡ room.now →
        AreSums style.now.topskip style.now.maxdepth (take n (items_of it)) sums.now →
        AreNotes style.now (take n (items_of it)) notes.now → is_spent ≡ is_spent_of (items_of it) n →
        break_penalty (items_of it) n ≡ Some penalty → AreNumbers it n result }
{
    let _ranges = version_of(style);
    let goal = goal_in(style, room, notes);
    let give = give_in(style, room, notes);
    cost_for(style, goal, &give, sums, is_spent, penalty)
}
