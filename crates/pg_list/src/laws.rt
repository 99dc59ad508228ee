//! What one more item makes of the sums of a segment.
ghost use Rattle.std.specs.Prelude.{◌≡◌, ◌++◌, ◌∷◌, [], ℤ, List, true, false, pos, ◌+ℤ◌, ◌-ℤ◌, if◌then◌else◌};
ghost use Rattle.std.specs.List.{list_any};
ghost use Rattle.std.specs.Int.{int_max, int_min};
ghost use Rattle.pg_list.specs.declared.item.Item.{Item};
ghost use Rattle.pg_list.specs.Shapes.{is_box};
ghost use Rattle.pg_list.specs.Totals.{depth, depth_of, full_size, has_size, height_of, total};
ghost use Rattle.pg_list.specs.Whole.{whole_sum_by};

/// A sum grows by each further item.
pub fn sums_grow()
    ensures { (f : Item → ℤ) (xs : List Item) (x : Item) → whole_sum_by f (xs ++ x ∷ []) ≡ whole_sum_by f xs +ℤ f x }
{}

/// The depth that hangs below is that of the last item with a size, up to the limit.
pub fn depth_is_of_last()
    ensures { (maxdepth : ℤ) (xs : List Item) (x : Item) →
        depth maxdepth (xs ++ x ∷ []) ≡ (if has_size x then int_min maxdepth (depth_of x) else depth maxdepth xs) }
{}

/// Behind a box or rule the size has grown by the glue above the first one, the depth that hung, the height, and
/// what passes the limit of the depth (TeX: The Program, §1001 to §1003).
pub fn total_grows_by_box()
    ensures { (topskip maxdepth : ℤ) (xs : List Item) (x : Item) → is_box x ≡ true →
        total topskip maxdepth (xs ++ x ∷ []) ≡
        ((((total topskip maxdepth xs +ℤ (if list_any is_box xs then pos 0 else int_max (pos 0) (topskip -ℤ height_of x)))
        +ℤ depth maxdepth xs) +ℤ height_of x) +ℤ depth_of x) -ℤ depth maxdepth (xs ++ x ∷ []) }
{}

/// Behind any other item the size has grown by the depth that hung and the item's width, less what hangs then
/// (TeX: The Program, §1004).
pub fn total_grows_by_width()
    ensures { (topskip maxdepth : ℤ) (xs : List Item) (x : Item) → is_box x ≡ false →
        total topskip maxdepth (xs ++ x ∷ []) ≡
        ((total topskip maxdepth xs +ℤ depth maxdepth xs) +ℤ full_size x) -ℤ depth maxdepth (xs ++ x ∷ []) }
{}

/// An item without a size, as a penalty or an insert, changes neither the size nor the depth.
pub fn total_stays()
    ensures total { (topskip maxdepth : ℤ) (xs : List Item) (x : Item) → has_size x ≡ false →
        total topskip maxdepth (xs ++ x ∷ []) ≡ total topskip maxdepth xs }
    ensures depth { (maxdepth : ℤ) (xs : List Item) (x : Item) → has_size x ≡ false →
        depth maxdepth (xs ++ x ∷ []) ≡ depth maxdepth xs }
{}
