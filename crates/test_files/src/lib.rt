//! What the programs of tests and measures share: the words of a call, files, short texts, paginations in files, and
//! how a run ends.
//!
//! Proved: a galley or a style that is answered is that of the bytes of its file, where the shelf tells them
//! (`specs/Opened`), and the exit code is that of what ended the run. Where a file is refused, what ends a run of `pg`
//! is answered. `judged` answers what the rules say of a pagination (`JudgesPlan` of pg_judge); how a file of
//! paginations is written is told in bench/README.md.
#![tactic(auto)]

mod changes;
mod judging;
mod lines;
mod open;
mod plans;
mod short;
mod stop;
mod system;
mod words;

pub use changes::changed_by;
pub use judging::{floats_of, judged};
pub use open::{fetch_file, open_galley, open_style};
pub use plans::{Named, PlansFault, read_plans};
pub use short::lines_of;
pub use stop::{Stop, plans_of, stopped};
pub use system::{ended, exit_code, words_of};
