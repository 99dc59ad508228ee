//! Faults of first fit.

/// Why a galley has no first fit.
#[derive(Drop)]
pub enum GreedyFault {
    /// The style has two columns.
    Columns,
    /// The block is a choice.
    Choice { block: u32 },
    /// The block is an insert of a float class.
    Float { block: u32 },
    /// There was no memory.
    Memory,
}
