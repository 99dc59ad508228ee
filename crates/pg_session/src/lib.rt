//! A galley under a style that is edited and solved again, with the labels that an edit leaves right.
//!
//! Proved: after any edits and refused calls `solve` gives the best pagination of the galley as it stands, or says that
//! none is legal, and the labels of its frontier, as a new session would; it takes at most one step for each of these
//! labels that reaches what was touched since the last solution, and none where nothing was. `paginate` gives the same
//! pagination and the number of these labels, with no list of them, in as many steps at most. An edit is refused
//! exactly for its first fault, and then changes nothing. Edits are defined in `specs/Edits`, the calls in
//! `specs/Sessions`, the shows of a script with the steps that they may take in `specs/Shows`.
#![tactic(auto)]

mod asked;
mod kept;
mod parts;
mod session;
mod solving;
mod told;

pub use pg_edits::EditFault;
pub use session::Session;
pub use told::Told;
