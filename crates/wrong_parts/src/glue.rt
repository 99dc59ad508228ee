//! Badness, and the setting of glue.
ghost use Rattle.std.specs.Prelude.{◌≡◌, ◌++◌, ◌<◌, ◌≤◌, ◌^◌, ℕ, pos, ◌≤ℤ◌, length, nat_abs, OnOk, OnErr};
ghost use Rattle.pg_list.specs.Counts.{item_limit};
ghost use Rattle.pg_list.specs.Badness.{badness};
ghost use Rattle.pg_list.specs.Whole.{whole_sum};
ghost use Rattle.pg_glue.specs.Widths.{amounts as amounts_of, chosen as chosen_of, set_widths as set_widths_of, changes};

use pg_glue::{Elastic, Sense};
use std::alloc::AllocError;

/// How badly an amount of glue serves to fill an excess.
pub fn badness(t: i64, s: i64) -> u16
    requires { pos 0 ≤ℤ t }
    ensures { result ≡ badness t s }
{
    pg_badness::badness(t, s)
}

/// The widths of glue that is set.
pub fn set_widths(
    list: &[Elastic],
    excess: i64,
    sense: Sense,
    out: &mut Vec<i128>,
) -> Result<(), AllocError>
    requires few { length list.now ≤ item_limit }
    requires excess { nat_abs excess < 2 ^ 52 }
    ensures ok { OnOk result (out.new.items ≡ out.old.items ++ set_widths_of list.now excess sense) }
    ensures err { OnErr result (out.new.items ≡ out.old.items) }
    ensures law { (e s : ℕ) → excess ≡ pos e → amounts_of (chosen_of list.now) list.now ≡ pos s → 0 < s →
        whole_sum (changes list.now excess) ≡ excess }
{
    pg_glue::set_widths(list, excess, sense, out)
}
