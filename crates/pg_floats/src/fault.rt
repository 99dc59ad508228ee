//! Why a galley has no list of floats.
use thiserror::Error;

/// An insert's class is not in the style, there are more than 2^12 floats, or memory ran out.
#[derive(Clone, Copy, Debug, PartialEq, Eq, Error)]
pub enum FloatFault {
    #[error("class {number} is not in the style")]
    Class { number: u8 },
    #[error("{count} floats, of which there may be 4096")]
    Limit { count: u32 },
    #[error("out of memory")]
    Memory,
}
