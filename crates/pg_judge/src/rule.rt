//! Why a pagination is refused.

/// Why a pagination has no cost: the least rule that it breaks with the first column at which it does, or memory ran out.
///
/// The rules are numbered as in pg_rules (`specs/Legal`): 1 full pages, 2 chain of columns, 3 shape of a column,
/// 4 tolerance, 5 break inside, 6 least text, 7 counts of areas, 8 every float once, 9 callout before float, 10 distance
/// of a float, 11 limit of notes, 12 runs and spreads, 13 looseness, 14 barriers. Columns are counted from 1.
#[derive(Clone, Copy, PartialEq, Eq)]
pub enum JudgeFault {
    Broken { rule: u8, column: u32 },
    Memory,
}
