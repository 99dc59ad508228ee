//! What a command does is one. Each law is the contract of a function that does nothing.
ghost use Rattle.pg_course.specs.OneCourse.{CoursesAreOne, ShowsAreRuns};

/// A command has one course: what is written, how it ends and what is said are determined by the words and by the bytes
/// of the files.
pub fn courses_are_one()
    ensures { CoursesAreOne }
{}

/// At each show of an edit the text is that of a run for the galley as it stands.
pub fn shows_are_runs()
    ensures { ShowsAreRuns }
{}
