//! The notes of a segment are those of all its items.
ghost use Rattle.std.specs.Prelude.{◌≡◌, ℕ, ℤ, List};
ghost use Rattle.pg_list.specs.declared.item.Item.{Item};
ghost use Rattle.pg_list.specs.Totals.{trimmed};
ghost use Rattle.pg_style.specs.Values.{StyleValue};
ghost use Rattle.pg_style.specs.declared.style.Gap.{Gap};
ghost use Rattle.pg_rules.specs.Floats.{sizes_of};
ghost use Rattle.pg_rules.specs.Room.{notes, skips_give, are_notes_within_limits};
ghost use Rattle.pg_notes.specs.AreNotes.{first_over};

/// The discardable items before the first box or rule of a segment, which are left out of it, have no notes.
pub fn front_has_no_notes()
    ensures sizes { (number : ℕ) (items : List Item) → sizes_of number (trimmed items) ≡ sizes_of number items }
    ensures notes { (style : StyleValue) (items : List Item) → notes style (trimmed items) ≡ notes style items }
    ensures skips { (part : Gap → ℤ) (style : StyleValue) (items : List Item) →
        skips_give part style (trimmed items) ≡ skips_give part style items }
    ensures limits { (style : StyleValue) (items : List Item) →
        are_notes_within_limits style (trimmed items) ≡ are_notes_within_limits style items }
    ensures first { (style : StyleValue) (items : List Item) →
        first_over style (trimmed items) ≡ first_over style items }
{}
