//! The course of each command: what is read, what is written, and how it ends.
//!
//! Proved: each command does what its course says (`Goes` in `specs/Calls`, over `specs/Course`). A text that `run`
//! writes is that of the best pagination, or the line for none where none is legal, and where it is asked for labels
//! behind it that of the frontier's labels (`specs/Out`); `edit` writes for each show of a script what `run` would write
//! for the galley as it stands, and takes at most one step for each label that the edits since the show before can reach
//! (`specs/Counted`); `make` tells of the galley that it makes how many pages and
//! labels it has and what they cost (`specs/Made`); `lines` writes the galley of the variants of a file's paragraphs, and
//! what it writes reads back to that galley; a yes of `check` shows that what the output text tells is true, and
//! a no names the first test that fails (`specs/Verdict`); a check opens each label of its output text at most once
//! (`specs/Counted`), and a check of what `run --labels` writes ends with a yes (`specs/Complete`).
//!
//! The courses are one (`specs/OneCourse`): for the same words and the same bytes of the files the texts, the ending and the
//! line are the same; and at each show of an edit the text is that of a run for the galley as it stands, labels too.
#![tactic(auto)]

mod check;
mod compare;
mod edit;
mod fold;
mod heads;
mod line;
mod lines;
mod make;
mod one;
mod open;
mod paginate;
mod product;
mod run;
mod show;
mod write;

pub use check::check_course;
pub use compare::compare_course;
pub use edit::edit_course;
pub use fold::fold_course;
pub use heads::heads_course;
pub use lines::lines_course;
pub use make::make_course;
pub use one::{courses_are_one, shows_are_runs};
pub use run::run_course;
pub use show::show_course;
