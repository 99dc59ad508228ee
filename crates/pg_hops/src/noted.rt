//! What is known of the notes passed.
ghost use Rattle.std.specs.Prelude.{◌<◌, ◌≤◌, ◌^◌, nat_abs};

use pg_style::Give;

/// What the notes passed take, in scaled points, what their skips give, and whether no class of them is above its limit.
#[derive(Clone, Copy)]
pub struct Noted {
    pub height: i64,
    pub give: Give,
    pub is_within: bool,
    ghost small: { nat_abs height < 2 ^ 51 },
    ghost stretch: { nat_abs give.stretch ≤ 2 ^ 34 },
    ghost shrink: { nat_abs give.shrink ≤ 2 ^ 34 },
}
