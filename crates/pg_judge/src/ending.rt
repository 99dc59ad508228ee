//! The rules on what stands behind the last column.
ghost use Rattle.std.specs.Prelude.{◌≡◌};
ghost use Rattle.pg_judge.specs.Settled.{end_fault};

/// The rule that is broken behind the last column: 2 chain of columns, 8 every float once.
pub fn end_rule(is_spent: bool, has_dealt: bool) -> Option<u8>
    ensures { result ≡ end_fault is_spent has_dealt }
{
    if !is_spent {
        Some(2)
    } else if !has_dealt {
        Some(8)
    } else {
        None
    }
}
