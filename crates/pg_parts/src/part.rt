//! The parts of the cost.

/// A part of the cost of a pagination: `line` squared for each text; what its badness adds to that; what the
/// penalties at the ends of columns add, or take off; columns without text; the variants that are picked; the runs of pages; the floats,
/// by how long they waited; and texts that differ in fitness.
#[derive(Clone, Copy)]
pub enum Part {
    Line,
    Badness,
    Penalties,
    Empty,
    Picks,
    Runs,
    Floats,
    Fitness,
}
