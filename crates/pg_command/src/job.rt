//! What the words of a command ask for.

/// Which style a run takes.
#[derive(Clone, Copy)]
pub enum StyleWord<'a> {
    /// The style of the file of this name.
    Named(&'a str),
    /// The plain style of this page height in scaled points, above 0 and below 2^30.
    Plain(i32),
}

/// To paginate a galley, and where `labels` is true to write the labels of the search behind its pages.
#[derive(Clone, Copy)]
pub struct RunJob<'a> {
    pub style: StyleWord<'a>,
    pub galley: &'a str,
    pub labels: bool,
    pub wrap: Option<u32>,
}

/// To edit a galley by a script, and to paginate it at each show of it, where `labels` is true with the labels of the
/// search.
#[derive(Clone, Copy)]
pub struct EditJob<'a> {
    pub style: &'a str,
    pub galley: &'a str,
    pub script: &'a str,
    pub labels: bool,
    pub wrap: Option<u32>,
}

/// To check an output text against a style and a galley.
#[derive(Clone, Copy)]
pub struct CheckJob<'a> {
    pub style: &'a str,
    pub galley: &'a str,
    pub output: &'a str,
    pub wrap: Option<u32>,
}

/// To break the paragraphs of a file into lines of this width, none worse than this tolerance, in so many lines as are
/// best and up to `around` lines more or less.
#[derive(Clone, Copy)]
pub struct LinesJob<'a> {
    pub width: i32,
    pub tolerance: u16,
    pub around: u8,
    pub file: &'a str,
}

/// To tell something of the best pages of a galley.
#[derive(Clone, Copy)]
pub struct PagesJob<'a> {
    pub style: &'a str,
    pub galley: &'a str,
    pub wrap: Option<u32>,
}

/// To lay the best pages on sheets that are folded `folds` times, 1 to 4, and put into each other, `nest` at a time, 1
/// to 16.
#[derive(Clone, Copy)]
pub struct FoldJob<'a> {
    pub style: &'a str,
    pub galley: &'a str,
    pub folds: u8,
    pub nest: u8,
    pub wrap: Option<u32>,
}

/// What the words ask for, with the names as they stand in the words, and the width at which lines of a galley that is
/// read are joined.
#[derive(Clone, Copy)]
pub enum Job<'a> {
    Run(RunJob<'a>),
    Edit(EditJob<'a>),
    /// To print a galley.
    Show { galley: &'a str, wrap: Option<u32> },
    /// To make a galley of so many paragraphs, at most 2000, and to tell of its pages.
    Make { count: u32 },
    Check(CheckJob<'a>),
    Lines(LinesJob<'a>),
    /// To tell the running heads of the best pages, and the references to pages.
    Heads(PagesJob<'a>),
    /// To tell what the best pages save over first fit.
    Compare(PagesJob<'a>),
    Fold(FoldJob<'a>),
}
