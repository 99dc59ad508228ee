//! What a check answers.
use pg_list::Place;

/// A yes: the cost in demerits that no legal pagination undercuts, or None where none is legal, and by how many labels
/// this is shown.
#[derive(Clone, Copy, Drop, PartialEq, Eq)]
pub struct Proved {
    pub cost: Option<i128>,
    pub labels: u32,
}

/// A no: the first test that fails, in the order of the tests, with what it names; or memory ran out. Rules, columns,
/// lines and labels are counted from 1, costs are in demerits.
#[derive(Clone, Copy, Drop, PartialEq, Eq)]
pub enum No {
    /// 1: the pagination breaks this rule, first at this column, or at none, which is 0.
    Broken { rule: u8, column: u32 },
    /// 2: the printed cost is not the judged one.
    CostDiffers { printed: i128, judged: i128 },
    /// 3: the page text is not that of the pagination; this line is the first that differs.
    PagesDiffer { line: u64 },
    /// 4: this label is the first that is no state.
    BadLabel { label: u32 },
    /// 5: no label covers the start at the cost 0.
    NoStart,
    /// 6: this label is the first behind which stands a column that leads to what no label covers, and this is the
    /// least place where such a column ends.
    NotClosed { label: u32, to: Place },
    /// 7: this label is the first that is finished at less than the printed cost.
    Undercut { label: u32, cost: i128 },
    /// 8: this label is the first that is finished, where none is said to be legal.
    FinalInNone { label: u32 },
    /// Memory ran out.
    Memory,
}
