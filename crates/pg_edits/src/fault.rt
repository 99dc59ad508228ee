//! Why an edit is refused.
ghost use Rattle.std.specs.Prelude.{◌≡◌};
ghost use Rattle.pg_edits.specs.Kinds.{edit_number};

use thiserror::Error;

/// The edit's blocks are not all there, the galley would have too many items, an insert's class is not in the style,
/// there would be too many floats, or memory ran out. The numbers of the faults are 1 to 5 in this order.
#[derive(Clone, Copy, Debug, PartialEq, Eq, Error)]
pub enum EditFault {
    #[error("{gone} blocks from {at} are not among {len}")]
    Range { at: u32, gone: u32, len: u32 },
    #[error("{count} items, of which there may be 1048576")]
    Limit { count: u32 },
    #[error("class {number} is not in the style")]
    Class { number: u8 },
    #[error("{count} floats, of which there may be 4096")]
    Floats { count: u32 },
    #[error("out of memory")]
    Memory,
}

impl EditFault {
    /// The number that the program prints for the fault.
    pub fn number(self) -> u8
        ensures { result ≡ edit_number self }
    {
        match self {
            EditFault::Range { .. } => 1,
            EditFault::Limit { .. } => 2,
            EditFault::Class { .. } => 3,
            EditFault::Floats { .. } => 4,
            EditFault::Memory => 5,
        }
    }
}
