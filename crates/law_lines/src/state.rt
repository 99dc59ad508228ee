/// Where the next line starts, and how many lines stand before it.
#[derive(Clone, Copy, PartialEq, Eq, Hash)]
pub struct LineState {
    pub index: u32,
    pub lines: u32,
}
